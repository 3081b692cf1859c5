ghost use Rattle.std.specs.Prelude.{◌≡◌, ◌*◌, ◌^◌, ◌<◌, ◌≤◌, ℕ, length, Ok, Err, MatchResult};
ghost use Rattle.std.specs.Prelude.{is_ok, IsTrue};
ghost use Rattle.file_disk.specs.Opening.{OpensLocked};
ghost use Rattle.file_disk.specs.Sizes.{tail_behind, untold_disk, whole_atoms};
ghost use Rattle.io_edge.specs.Faults.{Counts};
ghost use Rattle.sector_disk.specs.Devices.{ReadCall, WriteCall, SyncCall};
ghost use Rattle.sector_disk.specs.Geometry.{is_atom, IsAtom, IsInDisk};

use crate::{FileSystem, LockableFile, PositionedFile, open_locked};
use base_terms::Failed;
use io_edge::answered;
use sector_disk::Disk;
use std::fs::File;
use std::io;

/// A disk on one file or block device, by positioned reads and writes. It tells nothing of content,
/// and takes no memory after it was opened. Bytes behind its last whole atom are never touched.
///
/// A read is a failure where the file, which somebody cut short, ends before its last byte. After a
/// sync that failed the system may have dropped what it could not write, and the next sync may
/// succeed all the same: only a sync with no failure since the writes makes them certain.
#[derive(Drop)]
pub struct FileDisk<F: PositionedFile = File> {
    file: F,
    atom: u32,
    atoms: u64,
    tail: u64,
    faults: u64,
    ghost known: { IsTrue (is_atom atom) },
    ghost fits: { atoms * atom < 2 ^ 63 },
}

impl<F: LockableFile> FileDisk<F> {
    /// A disk on the file of that name, in atoms of 512 or 4096 bytes, as many as are whole in it
    /// and lie below `2^63` bytes. The file is opened as by [`open_locked`], and locked until the
    /// disk is dropped.
    ///
    /// # Errors
    ///
    /// Those of [`open_locked`].
    pub fn open<S: FileSystem<Opened = F>>(
        system: &S,
        path: &str,
        atom: u32,
    ) -> io::Result<FileDisk<F>>
        requires { IsAtom atom }
        ensures { MatchResult result
            (λ disk. (len : ℕ)
            × OpensLocked (S.opens system.now path.now) F.locks (S.checks system.now)
            F.measures (Ok (disk.file, len))
            × (⟦<FileDisk<F> as Disk>⟧.device disk
            ≡ untold_disk atom (whole_atoms atom len) (tail_behind atom len) 0))
            (λ error. OpensLocked (S.opens system.now path.now) F.locks (S.checks system.now)
            F.measures (Err error)) }
    {
        match open_locked(system, path) {
            Ok((file, len)) => Ok(FileDisk::new(file, len, atom)),
            Err(error) => Err(error),
        }
    }
}

impl<F: PositionedFile> FileDisk<F> {
    /// A disk on an open file of `len` bytes, as [`FileDisk::open`] makes it once it has the file:
    /// its whole atoms that lie below `2^63` bytes. The bytes behind them are its tail.
    /// Nobody else is to write there while it lives.
    pub fn new(file: F, len: u64, atom: u32) -> FileDisk<F>
        requires { IsAtom atom }
        ensures device { ⟦<FileDisk<F> as Disk>⟧.device result
            ≡ untold_disk atom (whole_atoms atom len) (tail_behind atom len) 0 }
        ensures file { result.file ≡ file }
    {
        let used = len.min(i64::MAX as u64);
        let atoms = used / u64::from(atom);
        FileDisk {
            file,
            atom,
            atoms,
            tail: len - atoms * u64::from(atom),
            faults: 0,
        }
    }

    /// The byte at which an atom begins.
    fn start_of(&self, at: u64) -> u64
        requires { at * self.now.atom ≤ self.now.atoms * self.now.atom }
        ensures { result ≡ at * self.now.atom }
    {
        at * u64::from(self.atom)
    }
}

impl<F: PositionedFile> Disk for FileDisk<F> {
    ghost use Rattle.file_disk.specs.Sizes.{tested_disk};

    ghost device = { λ d. untold_disk d.atom d.atoms d.tail d.faults };

    ghost geometry = { λ d. tested_disk d.atom d.atoms d.known d.fits };

    ghost whole = { λ d bytes is. Prim.cc };

    ghost bytes = { λ d bytes is. Prim.cc };

    ghost agrees = { λ d t is. Prim.cc };

    ghost even = { λ d t is. Prim.cc };

    ghost held = { λ d t is. Prim.cc };

    ghost sized = { λ d t is. Prim.cc };

    fn atom(&self) -> u32 {
        self.atom
    }

    fn atoms(&self) -> u64 {
        self.atoms
    }

    fn tail(&self) -> u64 {
        self.tail
    }

    fn read(&mut self, at: u64, buf: &mut [u8]) -> Result<(), Failed>
        requires { IsInDisk self.old.atom self.old.atoms at (length buf.old) }
        ensures call { ReadCall self.old.atom at buf.new
            (untold_disk self.old.atom self.old.atoms self.old.tail self.old.faults)
            (untold_disk self.new.atom self.new.atoms self.new.tail self.new.faults) result }
        ensures counts { Counts self.old.faults self.new.faults result }
        ensures reads { F.reads self.old.file (at * self.old.atom) buf.new
            (is_ok result) self.new.file }
    {
        let from = self.start_of(at);
        answered(self.file.read_exact_at(buf, from), &mut self.faults)
    }

    fn write(&mut self, at: u64, bytes: &[u8]) -> Result<(), Failed>
        requires { IsInDisk self.old.atom self.old.atoms at (length bytes.now) }
        ensures call { WriteCall self.old.atom at bytes.now
            (untold_disk self.old.atom self.old.atoms self.old.tail self.old.faults)
            (untold_disk self.new.atom self.new.atoms self.new.tail self.new.faults) result }
        ensures counts { Counts self.old.faults self.new.faults result }
        ensures writes { F.writes self.old.file (at * self.old.atom) bytes.now
            (is_ok result) self.new.file }
    {
        let from = self.start_of(at);
        answered(self.file.write_all_at(bytes, from), &mut self.faults)
    }

    fn sync(&mut self) -> Result<(), Failed>
        ensures call { SyncCall (untold_disk self.old.atom self.old.atoms self.old.tail self.old.faults)
            (untold_disk self.new.atom self.new.atoms self.new.tail self.new.faults) result }
        ensures counts { Counts self.old.faults self.new.faults result }
        ensures syncs { F.syncs self.old.file (is_ok result) self.new.file }
    {
        answered(self.file.sync_data(), &mut self.faults)
    }

    fn mark(&mut self, _number: u64)
        ensures nothing { self.new ≡ self.old }
    {}

    fn faults(&self) -> u64 {
        self.faults
    }
}
