ghost use Rattle.std.specs.Prelude.{◌≡◌, ◌≢◌, ◌*◌, ◌%◌, ◌^◌, ◌<◌, ◌↔◌, ℕ, [], length, replicate};
ghost use Rattle.std.specs.Prelude.{slice_index, Some, IfOk, IfErr, OnErr, IsErr, IsTrue, is_ok};
ghost use Rattle.std.specs.Prelude.{is_err};
ghost use Rattle.base_terms.specs.Blocks.{blocks_of, joined, lengths, pasted};
ghost use Rattle.memory_disks.specs.Calls.{table, changed_by};
ghost use Rattle.sector_disk.specs.Cells.{content, currents, sure, sures, IsImage};
ghost use Rattle.sector_disk.specs.Devices.{ReadCall, WriteCall, SyncCall, marked};
ghost use Rattle.memory_disks.specs.Faults.{Fails, IsFull, IsStopped, fresh_limits, is_free};
ghost use Rattle.memory_disks.specs.Faults.{next_limits, recorded};
ghost use Rattle.sector_disk.specs.Geometry.{is_atom, IsDisk, IsInDisk};
ghost use Rattle.memory_disks.specs.Images.{IsChoice, image_of};
ghost use Rattle.sector_disk.specs.Steps.{fresh, then_table, then_tried, then_written};

use crate::Choice;
use crate::call_record::{CallRecord, Kind};
use crate::replay::{atoms_of_content, image_bytes};
use base_terms::{Failed, bytes_are_below_256, paste, zeros};
use io_edge::FaultPlan;
use sector_disk::Disk;
use std::alloc::{AllocError, AllocFailed, Global};

/// A disk in memory that tells its tables. It fails as it was told to: at the calls of certain
/// numbers, after a stop, and where the record of its calls is full.
pub struct MemDisk {
    atom: u32,
    atoms: u64,
    tail: u64,
    start: Vec<u8>,
    bytes: Vec<u8>,
    calls: CallRecord,
    mark: u64,
    stop: Option<u64>,
    plan: FaultPlan,
    ghost known: { IsTrue (is_atom atom) },
    ghost fits: { atoms * atom < 2 ^ 63 },
    ghost began: { length start.items ≡ atoms * atom },
    ghost whole: { length bytes.items ≡ atoms * atom },
    ghost are_bytes: { (k : ℕ) → slice_index bytes.items k < 256 },
    ghost same_atom: { calls.atom ≡ atom },
    ghost even: { lengths (currents (table atom atoms start.items calls.calls))
        ≡ replicate atoms atom },
    ghost agrees: { content (table atom atoms start.items calls.calls) ≡ bytes.items },
}

// By hand, so that a disk that is dropped in place is one call to the prover.
impl Drop for MemDisk {
    fn drop(self) {
        let MemDisk {
            atom: _,
            atoms: _,
            tail: _,
            start,
            bytes,
            calls,
            mark: _,
            stop: _,
            plan,
        } = self;
        drop((start, bytes, calls, plan));
    }
}

impl MemDisk {
    ghost use Rattle.memory_disks.specs.Mem.{atom_of, atoms_of, atoms_in, bytes_of, told_of};
    ghost use Rattle.memory_disks.specs.Mem.{limits_of, tail_of, device_of};

    /// A disk of so many atoms of so many bytes, all zero. Its record has room for so many device
    /// calls and written atoms, whose memory it takes now. The calls of the numbers in `fails`,
    /// counted from 0, fail.
    pub fn new(
        alloc: Global,
        atom: u32,
        atoms: u64,
        room: u64,
        fails: &[u64],
    ) -> Result<MemDisk, AllocError>
        requires { IsDisk atom atoms }
        ensures atom { IfOk result (λ disk. atom_of disk ≡ atom) }
        ensures atoms { IfOk result (λ disk. atoms_of disk ≡ atoms) }
        ensures tail { IfOk result (λ disk. tail_of disk ≡ 0) }
        ensures zeros { IfOk result (λ disk. bytes_of disk ≡ replicate (atoms * atom) 0) }
        ensures told { IfOk result (λ disk. told_of disk
            ≡ fresh (replicate atoms (sure (replicate atom 0)))) }
        ensures limits { IfOk result (λ disk. limits_of disk ≡ fresh_limits room fails.now) }
    {
        let len = atoms as usize * atom as usize;
        let start = zeros(alloc, len)?;
        let bytes = zeros(alloc, len)?;
        bytes_are_below_256(&bytes);
        Ok(MemDisk {
            atom,
            atoms,
            tail: 0,
            start,
            bytes,
            calls: CallRecord::new(alloc, atom, room)?,
            mark: 0,
            stop: None,
            plan: FaultPlan::new(Vec::from_slice(alloc, fails)?),
        })
    }

    /// Stops the disk after `k` device calls since it was made: each later one fails.
    pub fn stop_after(&mut self, k: u64)
        ensures atom { atom_of self.new ≡ atom_of self.old }
        ensures atoms { atoms_of self.new ≡ atoms_of self.old }
        ensures tail { tail_of self.new ≡ tail_of self.old }
        ensures bytes { bytes_of self.new ≡ bytes_of self.old }
        ensures told { told_of self.new ≡ told_of self.old }
        ensures limits { limits_of self.new ≡ record (limits_of self.old) { stop = Some k } }
    {
        self.stop = Some(k);
    }

    /// Gives the disk so many bytes behind its last whole atom. No call reaches them, and nothing
    /// else of it changes.
    pub fn set_tail(&mut self, tail: u64)
        ensures tail { device_of self.new ≡ record (device_of self.old) { tail = tail } }
        ensures limits { limits_of self.new ≡ limits_of self.old }
    {
        self.tail = tail;
    }

    /// How many device calls there were since the disk was made, those that failed among them.
    pub fn calls(&self) -> u64
        ensures { result ≡ (limits_of self.now).plan.calls }
    {
        self.plan.calls()
    }

    /// The disk of one image, as it may be found after a stop: each atom holds the candidate that
    /// the choice takes, and that one alone. The room of its record is the same, unused; no call is
    /// to fail, and nothing is marked. Where there is no memory the disk is handed back.
    pub fn restart(self, alloc: Global, choice: Choice) -> Result<MemDisk, AllocFailed<MemDisk>>
        requires { IsChoice choice }
        ensures atom { IfOk result (λ disk. atom_of disk ≡ atom_of self) }
        ensures atoms { IfOk result (λ disk. atoms_of disk ≡ atoms_of self) }
        ensures tail { IfOk result (λ disk. tail_of disk ≡ tail_of self) }
        ensures told { IfOk result (λ disk. told_of disk
            ≡ fresh (sures (image_of choice (told_of self).now))) }
        ensures image { IfOk result (λ disk.
            IsImage (told_of self).now (currents (told_of disk).now)) }
        ensures limits { IfOk result (λ disk. limits_of disk
            ≡ fresh_limits (limits_of self).room []) }
        ensures refused { IfErr result (λ refused. refused.value ≡ self) }
    {
        match self.image(alloc, &choice) {
            Ok(image) => Ok(self.begun_with(alloc, image)),
            Err(_) => Err(AllocFailed { value: self }),
        }
    }

    /// The bytes of the image that a choice takes.
    fn image(&self, alloc: Global, choice: &Choice) -> Result<Vec<u8>, AllocError>
        requires { IsChoice choice.now }
        ensures { IfOk result (λ bytes. bytes.items
            ≡ joined (image_of choice.now (told_of self.now).now)) }
    {
        let mut cells = atoms_of_content(
            alloc,
            self.atom as usize,
            self.atoms as usize,
            self.start.as_slice(),
        )?;
        self.calls.replay(alloc, &mut cells)?;
        image_bytes(alloc, choice, &cells)
    }

    /// The disk as it is with this content and no call made.
    fn begun_with(self, alloc: Global, content: Vec<u8>) -> MemDisk
        requires { length content.items ≡ atoms_of self * atom_of self }
        ensures atom { atom_of result ≡ atom_of self }
        ensures atoms { atoms_of result ≡ atoms_of self }
        ensures tail { tail_of result ≡ tail_of self }
        ensures told { told_of result
            ≡ fresh (sures (blocks_of (atom_of self) (atoms_of self) content.items)) }
        ensures limits { limits_of result ≡ fresh_limits (limits_of self).room [] }
    {
        bytes_are_below_256(&content);
        let mut disk = self;
        paste(&mut disk.start, 0, content.as_slice());
        disk.bytes = content;
        disk.calls.clear();
        disk.mark = 0;
        disk.stop = None;
        disk.plan = FaultPlan::new(Vec::new(alloc));
        disk
    }

    /// Whether the next call comes after the stop.
    fn is_stopped(&self) -> bool
        ensures { IsTrue result ↔ IsStopped (limits_of self.now) }
    {
        match self.stop {
            Some(k) => k <= self.plan.calls(),
            None => false,
        }
    }

    /// Adds a call other than a write to the record, which has room for it.
    fn keep(&mut self, kind: Kind, at: u64, body: &[u8])
        requires other { kind ≢ Kind.Write }
        requires whole { length body.now % atom_of self.old ≡ 0 }
        requires room { ¬ IsFull (limits_of self.old) (atoms_in self.old body.now) }
        ensures atom { atom_of self.new ≡ atom_of self.old }
        ensures atoms { atoms_of self.new ≡ atoms_of self.old }
        ensures tail { tail_of self.new ≡ tail_of self.old }
        ensures bytes { bytes_of self.new ≡ bytes_of self.old }
        ensures told { told_of self.new ≡ then_table (told_of self.old)
            (changed_by kind (told_of self.old).now at
            (blocks_of (atom_of self.old) (atoms_in self.old body.now) body.now)) }
        ensures limits { limits_of self.new
            ≡ recorded (limits_of self.old) (atoms_in self.old body.now) }
    {
        self.calls.note(kind, at, body, self.mark);
    }

    /// Writes, and adds the write to the record, which has room for it.
    fn keep_write(&mut self, at: u64, body: &[u8])
        requires place { IsInDisk (atom_of self.old) (atoms_of self.old) at (length body.now) }
        requires room { ¬ IsFull (limits_of self.old) (atoms_in self.old body.now) }
        ensures atom { atom_of self.new ≡ atom_of self.old }
        ensures atoms { atoms_of self.new ≡ atoms_of self.old }
        ensures tail { tail_of self.new ≡ tail_of self.old }
        ensures bytes { bytes_of self.new
            ≡ pasted (bytes_of self.old) (at * atom_of self.old) body.now }
        ensures told { told_of self.new
            ≡ then_written (atom_of self.old) (told_of self.old) at body.now }
        ensures limits { limits_of self.new
            ≡ recorded (limits_of self.old) (atoms_in self.old body.now) }
    {
        let from = at as usize * self.atom as usize;
        self.calls.note(Kind::Write, at, body, self.mark);
        paste(&mut self.bytes, from, body);
    }
}

impl Disk for MemDisk {
    ghost use Rattle.std.specs.Prelude.{Some};
    ghost use Rattle.memory_disks.specs.Mem.{atom_of, atoms_of, atoms_in, bytes_of, told_of};
    ghost use Rattle.memory_disks.specs.Mem.{limits_of, device_of};
    ghost use Rattle.memory_disks.specs.MemLaws.{mem_geometry, mem_whole, mem_bytes, mem_agrees};
    ghost use Rattle.memory_disks.specs.MemLaws.{mem_even, mem_held, mem_sized};

    ghost device = { device_of };

    ghost geometry = { mem_geometry };

    ghost whole = { mem_whole };

    ghost bytes = { mem_bytes };

    ghost agrees = { mem_agrees };

    ghost even = { mem_even };

    ghost held = { mem_held };

    ghost sized = { mem_sized };

    fn atom(&self) -> u32 {
        self.atom
    }

    fn atoms(&self) -> u64 {
        self.atoms
    }

    fn tail(&self) -> u64 {
        self.tail
    }

    /// Fails exactly where the call's number is one of those that are to fail, where it comes after
    /// the stop, and where the record is full; then nothing changes but the counts.
    fn read(&mut self, at: u64, buf: &mut [u8]) -> Result<(), Failed>
        requires { IsInDisk (atom_of self.old) (atoms_of self.old) at (length buf.old) }
        ensures call { ReadCall (atom_of self.old) at buf.new
            (device_of self.old) (device_of self.new) result }
        ensures exact { IsErr result ↔ Fails (limits_of self.old) 0 }
        ensures limits { limits_of self.new
            ≡ next_limits (limits_of self.old) (is_err result) (is_ok result) 0 }
        ensures untold { OnErr result (told_of self.new ≡ told_of self.old) }
        ensures unread { OnErr result (buf.new ≡ buf.old) }
    {
        let other = self.calls.is_full(0) || self.is_stopped();
        if self.plan.is_failing(other) {
            return Err(Failed);
        }
        self.keep(Kind::Read, at, &[]);
        let from = at as usize * self.atom as usize;
        buf.copy_from_slice(&self.bytes[from..from + buf.len()]);
        Ok(())
    }

    /// Fails exactly where the call's number is one of those that are to fail, where it comes after
    /// the stop, and where the record is full. Where it is full nothing changes but the counts;
    /// else a write that fails makes each new value a candidate, and the old one stays current.
    fn write(&mut self, at: u64, bytes: &[u8]) -> Result<(), Failed>
        requires { IsInDisk (atom_of self.old) (atoms_of self.old) at (length bytes.now) }
        ensures call { WriteCall (atom_of self.old) at bytes.now
            (device_of self.old) (device_of self.new) result }
        ensures exact { IsErr result ↔ Fails (limits_of self.old) (atoms_in self.old bytes.now) }
        ensures limits { limits_of self.new ≡ next_limits (limits_of self.old) (is_err result)
            (is_free (limits_of self.old) (atoms_in self.old bytes.now))
            (atoms_in self.old bytes.now) }
        ensures unwritten { OnErr result (bytes_of self.new ≡ bytes_of self.old) }
        ensures tried { OnErr result (¬ IsFull (limits_of self.old) (atoms_in self.old bytes.now)
            → told_of self.new ≡ then_tried (atom_of self.old) (told_of self.old) at bytes.now) }
        ensures untold { OnErr result (IsFull (limits_of self.old) (atoms_in self.old bytes.now)
            → told_of self.new ≡ told_of self.old) }
    {
        let atoms = bytes.len() as u64 / self.atom as u64;
        let full = self.calls.is_full(atoms);
        let other = full || self.is_stopped();
        if self.plan.is_failing(other) {
            if full {
                return Err(Failed);
            }
            self.keep(Kind::FailedWrite, at, bytes);
            return Err(Failed);
        }
        self.keep_write(at, bytes);
        Ok(())
    }

    /// Fails exactly where the call's number is one of those that are to fail, where it comes after
    /// the stop, and where the record is full; then nothing changes but the counts.
    fn sync(&mut self) -> Result<(), Failed>
        ensures call { SyncCall (device_of self.old) (device_of self.new) result }
        ensures exact { IsErr result ↔ Fails (limits_of self.old) 0 }
        ensures limits { limits_of self.new
            ≡ next_limits (limits_of self.old) (is_err result) (is_ok result) 0 }
        ensures untold { OnErr result (told_of self.new ≡ told_of self.old) }
    {
        let other = self.calls.is_full(0) || self.is_stopped();
        if self.plan.is_failing(other) {
            return Err(Failed);
        }
        self.keep(Kind::Sync, 0, &[]);
        Ok(())
    }

    fn mark(&mut self, number: u64)
        ensures marked { device_of self.new ≡ marked (device_of self.old) number }
        ensures limits { limits_of self.new ≡ limits_of self.old }
    {
        self.mark = number;
    }

    fn faults(&self) -> u64 {
        self.plan.faults()
    }
}
