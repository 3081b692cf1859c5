// Two disks as one.

ghost use Rattle.std.specs.Prelude.{◌≡◌, ℕ, ◌+◌, ◌*◌, ◌^◌, ◌<◌, ◌≤◌, List, ◌++◌, [], length, take};
ghost use Rattle.std.specs.Prelude.{None, Some, false, true, is_some, option_map, if◌then◌else◌};
ghost use Rattle.std.specs.Coded.{→_prop};
ghost use Rattle.sector_disk.specs.JoinedDisks.Joined.{Follows, nothing, in_front, joint_of, joined_disk};
ghost use Rattle.sector_disk.specs.JoinedDisks.Joined.{begun_joint, marked_joint, shown_told};
ghost use Rattle.sector_disk.specs.JoinedDisks.Joined.{told_by_main, told_of_used, used_atoms, with_marks};
ghost use Rattle.sector_disk.specs.JoinedDisks.JoinedLaws.{Follows-prop};
ghost use Rattle.sector_disk.specs.Devices.{ReadCall, WriteCall, SyncCall, marked};
ghost use Rattle.sector_disk.specs.Geometry.{IsAtom, IsInDisk};
ghost use Rattle.sector_disk.specs.Steps.{Told};

use crate::Disk;
use crate::joined::calls::{bytes_in_front, read_both, sync_both, write_both};
use base_terms::{Failed, Sizes};
use std::snapshot::Snapshot;

/// Two disks as one: the atoms of a head, where there is one, and behind them those of a main disk.
/// Wherever a header is read, it is read from such a disk: it lies on the main disk, or on a disk
/// of its own. The disks have atoms of one size. Of the main disk what would not lie below `2^63`
/// bytes is left unused.
///
/// It counts its calls. Behind a head that has atoms it marks a disk with the call's number, counted
/// from 0, before it calls it; a call on both disks marks both alike, and the head is called first.
/// So the tables of both disks stand in one order, also once they are apart again. It keeps no marks
/// of its own then, and once its count stands at `2^64 - 1` it tells its tables no more. After a call
/// on the head that failed the main disk isn't called. Its faults are those of both, whose count
/// stands still at `2^64 - 1`.
///
/// Where there is no head, or one without atoms, each call and each mark is the main disk's own: it
/// tells the main disk's tables and marks, of the atoms that are used.
pub struct JoinedDisk<D: Disk> {
    head: Option<D>,
    main: D,
    head_was: Snapshot<Option<D>>,
    main_was: Snapshot<D>,
    atom: u32,
    base: u64,
    used: u64,
    calls: u64,
    ghost size: { (D.device main).size ≡ atom },
    ghost same_size: { (in_front D.device atom head).size ≡ atom },
    ghost front: { (in_front D.device atom head).atoms ≡ base },
    ghost within: { used ≤ (D.device main).atoms },
    ghost fits: { (base + used) * atom < 2 ^ 63 },
    ghost head_follows: { 0 < base → Follows calls (in_front D.device atom head_was.value).told
        (in_front D.device atom head).told } by { →_prop (Follows-prop calls
            (in_front D.device atom head_was.value).told
            (in_front D.device atom head).told) },
    ghost main_follows: { 0 < base → Follows calls (D.device main_was.value).told
        (D.device main).told } by { →_prop (Follows-prop calls (D.device main_was.value).told
            (D.device main).told) },
}

// By hand, so that a value that is dropped in place is one call to the prover.
impl<D: Disk + Drop> Drop for JoinedDisk<D> {
    fn drop(self) {
        let JoinedDisk {
            head,
            main,
            head_was,
            main_was,
            atom: _,
            base: _,
            used: _,
            calls: _,
        } = self;
        drop(head);
        drop(main);
        drop(head_was);
        drop(main_was);
    }
}

impl<D: Disk> JoinedDisk<D> {
    ghost use Rattle.sector_disk.specs.JoinedDisks.Counts.{has_head, joint_in, sizes_of};

    /// A main disk alone, with no head.
    pub fn alone(main: D) -> JoinedDisk<D>
        ensures joint { joint_in result
            ≡ begun_joint (nothing (D.device main).size) (D.device main) }
        ensures head { has_head result ≡ false }
        ensures tells { (⟦<JoinedDisk<D> as Disk>⟧.device result).told ≡ option_map
            (told_of_used (used_atoms (D.device main).size 0 (D.device main).atoms))
            (D.device main).told }
    {
        JoinedDisk::of(None, main, 0)
    }

    /// A main disk behind a head.
    pub fn with(head: D, main: D) -> JoinedDisk<D>
        requires { (D.device head).size ≡ (D.device main).size }
        ensures joint { joint_in result ≡ begun_joint (D.device head) (D.device main) }
        ensures head { has_head result ≡ true }
        ensures tells { (front told : Told) → 0 < (D.device head).atoms →
            with_marks (D.device head).told ≡ Some front →
            with_marks (D.device main).told ≡ Some told →
            (⟦<JoinedDisk<D> as Disk>⟧.device result).told ≡ Some (record {
              now = front.now ++ take (used_atoms (D.device main).size (D.device head).atoms
                  (D.device main).atoms) told.now;
              past = [];
              mark = None;
            }) }
        ensures empty { (D.device head).atoms ≡ 0 →
            (⟦<JoinedDisk<D> as Disk>⟧.device result).told ≡ told_by_main
            (used_atoms (D.device main).size (D.device head).atoms (D.device main).atoms)
            (D.device head).values (D.device main).told }
    {
        let base = head.atoms();
        JoinedDisk::of(Some(head), main, base)
    }

    /// A main disk behind a head of so many atoms, where there is one.
    fn of(head: Option<D>, main: D, base: u64) -> JoinedDisk<D>
        requires size { (in_front D.device (D.device main).size head).size ≡ (D.device main).size }
        requires base { (in_front D.device (D.device main).size head).atoms ≡ base }
        requires fits { base * (D.device main).size < 2 ^ 63 }
        ensures joint { joint_in result ≡ begun_joint
            (in_front D.device (D.device main).size head) (D.device main) }
        ensures head { has_head result ≡ is_some head }
    {
        let atom = main.atom();
        let most = (i64::MAX as u64) / atom as u64;
        let atoms = main.atoms();
        let rest = most - base;
        let used = if atoms < rest { atoms } else { rest };
        let head_was = Snapshot::of(&head);
        let main_was = Snapshot::of(&main);
        JoinedDisk {
            head,
            main,
            head_was,
            main_was,
            atom,
            base,
            used,
            calls: 0,
        }
    }

    /// The atom at which the main disk starts.
    pub fn base(&self) -> u64
        ensures { result ≡ (joint_in self.now).head.atoms }
    {
        self.base
    }

    /// Whether it was made with a head.
    pub fn detached(&self) -> bool
        ensures { result ≡ has_head self.now }
    {
        self.head.is_some()
    }

    /// The sizes that a header on it is judged by. The atoms of the main disk, and before them
    /// those of a header's disk that is one of its own, are all that there are.
    pub fn sizes(&self) -> Sizes
        ensures is { result ≡ sizes_of self.now }
        ensures atom { result.atom ≡ (joined_disk (joint_in self.now)).size }
        ensures known { IsAtom result.atom }
        ensures header { result.header_atoms ≤ (joined_disk (joint_in self.now)).atoms }
        ensures main { result.main_atoms ≤ (joined_disk (joint_in self.now)).atoms }
        ensures all { (if result.detached then result.header_atoms else 0) + result.main_atoms
            ≡ (joined_disk (joint_in self.now)).atoms }
        ensures alone { result.detached ≡ false → result.header_atoms ≡ result.main_atoms }
        ensures fits { (joined_disk (joint_in self.now)).atoms * result.atom < 2 ^ 63 }
        ensures whole { (all : List ℕ) → (joined_disk (joint_in self.now)).values ≡ Some all →
            length all ≡ (joined_disk (joint_in self.now)).atoms * result.atom }
    {
        Sizes {
            atom: self.atom,
            header_atoms: if self.head.is_some() {
                self.base
            } else {
                self.used
            },
            main_atoms: self.used,
            detached: self.head.is_some(),
        }
    }

    /// The head, where there is one, and the main disk. The tables that were told are those of both
    /// in the order of the calls' numbers, with which both are marked; without a head, those of the
    /// main disk.
    pub fn parts(self) -> (Option<D>, D)
        ensures head { result.0 ≡ self.head }
        ensures main { result.1 ≡ self.main }
        ensures has_head { is_some result.0 ≡ has_head self }
        ensures order { (⟦<JoinedDisk<D> as Disk>⟧.device self).told
            ≡ shown_told (record (joint_in self) {
              head = in_front D.device (D.device result.1).size result.0;
              main = D.device result.1;
            }) }
        ensures alone { result.0 ≡ None → (⟦<JoinedDisk<D> as Disk>⟧.device self).told ≡ option_map
            (told_of_used (⟦<JoinedDisk<D> as Disk>⟧.device self).atoms) (D.device result.1).told }
    {
        let JoinedDisk {
            head,
            main,
            head_was: _,
            main_was: _,
            atom: _,
            base: _,
            used: _,
            calls: _,
        } = self;
        (head, main)
    }
}

impl<D: Disk> Disk for JoinedDisk<D> {
    ghost use Rattle.sector_disk.specs.JoinedDisks.Counts.{Counts, joint_in, sizes_of};
    ghost use Rattle.sector_disk.specs.JoinedDisks.Joined.{joint_of, joined_disk};
    ghost use Rattle.sector_disk.specs.JoinedDisks.JoinedCalls.{JointRead, JointWritten, JointSynced};
    ghost use Rattle.sector_disk.specs.JoinedDisks.JoinedLaws.{shows, shows_front, shows_joint, joint_geometry};
    ghost use Rattle.std.proofs.Common.{sym, ◌∙◌};

    ghost device = { λ d. joined_disk (joint_of D.device d.atom d.head_was.value d.main_was.value
        d.head d.main d.used d.calls) };

    ghost geometry = { λ d. joint_geometry
        (joint_of D.device d.atom d.head_was.value d.main_was.value
        d.head d.main d.used d.calls) d.atom d.base (D.geometry d.main) d.size d.front d.fits };

    ghost whole = { λ d. (shows_joint (joint_of D.device d.atom d.head_was.value d.main_was.value
        d.head d.main d.used d.calls) (shows_front D.device
        (shows D.device D.whole D.bytes D.agrees D.even D.held D.sized) d.atom d.head)
        (shows D.device D.whole D.bytes D.agrees D.even D.held D.sized
        d.main) (d.same_size ∙ sym d.size) d.within).whole };

    ghost bytes = { λ d. (shows_joint (joint_of D.device d.atom d.head_was.value d.main_was.value
        d.head d.main d.used d.calls) (shows_front D.device
        (shows D.device D.whole D.bytes D.agrees D.even D.held D.sized) d.atom d.head)
        (shows D.device D.whole D.bytes D.agrees D.even D.held D.sized
        d.main) (d.same_size ∙ sym d.size) d.within).bytes };

    ghost agrees = { λ d. (shows_joint (joint_of D.device d.atom d.head_was.value d.main_was.value
        d.head d.main d.used d.calls) (shows_front D.device
        (shows D.device D.whole D.bytes D.agrees D.even D.held D.sized) d.atom d.head)
        (shows D.device D.whole D.bytes D.agrees D.even D.held D.sized
        d.main) (d.same_size ∙ sym d.size) d.within).agrees };

    ghost even = { λ d. (shows_joint (joint_of D.device d.atom d.head_was.value d.main_was.value
        d.head d.main d.used d.calls) (shows_front D.device
        (shows D.device D.whole D.bytes D.agrees D.even D.held D.sized) d.atom d.head)
        (shows D.device D.whole D.bytes D.agrees D.even D.held D.sized
        d.main) (d.same_size ∙ sym d.size) d.within).even };

    ghost held = { λ d. (shows_joint (joint_of D.device d.atom d.head_was.value d.main_was.value
        d.head d.main d.used d.calls) (shows_front D.device
        (shows D.device D.whole D.bytes D.agrees D.even D.held D.sized) d.atom d.head)
        (shows D.device D.whole D.bytes D.agrees D.even D.held D.sized
        d.main) (d.same_size ∙ sym d.size) d.within).held };

    ghost sized = { λ d. (shows_joint (joint_of D.device d.atom d.head_was.value d.main_was.value
        d.head d.main d.used d.calls) (shows_front D.device
        (shows D.device D.whole D.bytes D.agrees D.even D.held D.sized) d.atom d.head)
        (shows D.device D.whole D.bytes D.agrees D.even D.held D.sized
        d.main) (d.same_size ∙ sym d.size) d.within).sized };

    fn atom(&self) -> u32 {
        self.atom
    }

    fn atoms(&self) -> u64 {
        self.base + self.used
    }

    fn tail(&self) -> u64 {
        self.main.tail()
    }

    fn read(&mut self, at: u64, buf: &mut [u8]) -> Result<(), Failed>
        requires { IsInDisk (joined_disk (joint_in self.old)).size
            (joined_disk (joint_in self.old)).atoms at (length buf.old) }
        ensures call { ReadCall (joint_in self.old).main.size at buf.new
            (joined_disk (joint_in self.old)) (joined_disk (joint_in self.new)) result }
        ensures each { JointRead at buf.new (joint_in self.old) (joint_in self.new) result }
        ensures counts { Counts (joint_in self.old) (joint_in self.new) }
        ensures sizes { sizes_of self.new ≡ sizes_of self.old }
    {
        let number = self.calls;
        self.calls = number.saturating_add(1);
        if self.base == 0 {
            return self.main.read(at, buf);
        }
        let cut = bytes_in_front(self.base, self.atom, at, buf.len());
        let (front, back) = buf.split_at_mut(cut);
        read_both(
            &mut self.head,
            &mut self.main,
            number,
            at,
            front,
            at.saturating_sub(self.base),
            back,
        )
    }

    fn write(&mut self, at: u64, bytes: &[u8]) -> Result<(), Failed>
        requires { IsInDisk (joined_disk (joint_in self.old)).size
            (joined_disk (joint_in self.old)).atoms at (length bytes.now) }
        ensures call { WriteCall (joint_in self.old).main.size at bytes.now
            (joined_disk (joint_in self.old)) (joined_disk (joint_in self.new)) result }
        ensures each { JointWritten at bytes.now (joint_in self.old) (joint_in self.new) result }
        ensures counts { Counts (joint_in self.old) (joint_in self.new) }
        ensures sizes { sizes_of self.new ≡ sizes_of self.old }
    {
        let number = self.calls;
        self.calls = number.saturating_add(1);
        if self.base == 0 {
            return self.main.write(at, bytes);
        }
        let cut = bytes_in_front(self.base, self.atom, at, bytes.len());
        let (front, back) = bytes.split_at(cut);
        write_both(
            &mut self.head,
            &mut self.main,
            number,
            at,
            front,
            at.saturating_sub(self.base),
            back,
        )
    }

    fn sync(&mut self) -> Result<(), Failed>
        ensures call { SyncCall (joined_disk (joint_in self.old))
            (joined_disk (joint_in self.new)) result }
        ensures each { JointSynced (joint_in self.old) (joint_in self.new) result }
        ensures counts { Counts (joint_in self.old) (joint_in self.new) }
        ensures sizes { sizes_of self.new ≡ sizes_of self.old }
    {
        let number = self.calls;
        self.calls = number.saturating_add(1);
        if self.base == 0 {
            return self.main.sync();
        }
        sync_both(&mut self.head, &mut self.main, number)
    }

    fn mark(&mut self, number: u64)
        ensures marked { joined_disk (joint_in self.new)
            ≡ marked (joined_disk (joint_in self.old)) number }
        ensures joint { joint_in self.new ≡ marked_joint (joint_in self.old) number }
        ensures sizes { sizes_of self.new ≡ sizes_of self.old }
    {
        if self.base == 0 {
            self.main.mark(number);
        }
    }

    fn faults(&self) -> u64 {
        let of_head = match &self.head {
            Some(head) => head.faults(),
            None => 0,
        };
        of_head.saturating_add(self.main.faults())
    }
}
