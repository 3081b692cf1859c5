ghost use Rattle.std.specs.Prelude.{ℕ, List, Result, IfOk, length, ◌≤◌};
ghost use Rattle.std.specs.declared.io.Error.{Error};
ghost use Rattle.file_disk.specs.Opening.{OpensLocked, OpensToRead};

use crate::PositionedFile;
use crate::claims::{check_claims, check_kind};
use base_terms::Bytes;
use std::alloc::Global;
use std::fs::{self, File, TryLockError};
use std::io::{self, ErrorKind, Read, Seek, SeekFrom};

/// A file that can be locked and measured. What its calls do is a matter of the file.
pub trait LockableFile: PositionedFile {
    /// What taking the lock does: from the file before it, by what the system said, to the file
    /// after it.
    ghost locks: { Self → Result (Unit {0}) Error → Self → Type 0 };

    /// What measuring does.
    ghost measures: { Self → Result ℕ Error → Self → Type 0 };

    /// Takes the exclusive advisory lock, which the open file keeps. An error of the kind
    /// `WouldBlock` where another open of the file holds a lock.
    fn lock(&mut self) -> io::Result<()>
        ensures { locks self.old result self.new };

    /// How many bytes the file or block device has.
    fn measure(&mut self) -> io::Result<u64>
        ensures { measures self.old result self.new };
}

/// Where files are opened by their names. What opening does is a matter of the system.
pub trait FileSystem {
    type Opened: LockableFile;

    /// What opening the file of a name gives.
    ghost opens: { Self → List ℕ → Result Self.Opened Error → Type 0 };

    /// Opens the file or block device of that name for reading and writing.
    fn open_file(&self, path: &str) -> io::Result<Self::Opened>
        ensures { opens self.now path.now result };

    /// What opening the file of a name for reading alone gives.
    ghost opens_to_read: { Self → List ℕ → Result Self.Opened Error → Type 0 };

    /// Opens the file or block device of that name for reading alone: the system refuses each
    /// write.
    fn open_to_read(&self, path: &str) -> io::Result<Self::Opened>
        ensures { opens_to_read self.now path.now result };

    /// What looking whether a file is in use gives.
    ghost checks: { Self → Self.Opened → Result (Unit {0}) Error → Type 0 };

    /// Refuses an open file that no disk is made of, or that is in use: neither a regular file nor a
    /// block device, or a block device that is mounted or held otherwise. An error of the kind
    /// `ResourceBusy` where it is in use.
    fn check_unused(&self, file: &Self::Opened) -> io::Result<()>
        ensures { checks self.now file.now result };

    /// How many bytes the file of that name has, 0 where that isn't told, as of a pipe.
    fn length(&self, path: &str) -> io::Result<u64>;

    /// What reading the front of the file of a name gives, of at most so many bytes.
    ghost reads_front: { Self → List ℕ → ℕ → Result (List ℕ) Error → Type 0 };

    /// The first bytes of the file of that name: all, or so many where there are more. An error of
    /// the kind `OutOfMemory` where memory is wanted.
    fn read_front(&self, alloc: Global, path: &str, most: u32) -> io::Result<Bytes>
        ensures within { IfOk result (λ bytes. length bytes ≤ most) }
        ensures reads { reads_front self.now path.now most result };
}

impl LockableFile for File {
    ghost locks = { λ _ _ _. Unit {0} };

    ghost measures = { λ _ _ _. Unit {0} };

    fn lock(&mut self) -> io::Result<()> {
        match self.try_lock() {
            Ok(()) => Ok(()),
            Err(TryLockError::Error(error)) => Err(error),
            Err(TryLockError::WouldBlock) => {
                let message = "locked by another process";
                Err(io::Error::new(ErrorKind::WouldBlock, message))
            }
        }
    }

    fn measure(&mut self) -> io::Result<u64> {
        self.seek(SeekFrom::End(0))
    }
}

/// The files of the machine.
impl FileSystem for HostRuntime {
    type Opened = File;

    ghost opens = { λ _ _ _. Unit {0} };

    fn open_file(&self, path: &str) -> io::Result<File> {
        check_kind(self, path)?;
        File::options().read(true).write(true).open(self, path)
    }

    ghost opens_to_read = { λ _ _ _. Unit {0} };

    fn open_to_read(&self, path: &str) -> io::Result<File> {
        check_kind(self, path)?;
        File::open(self, path)
    }

    ghost checks = { λ _ _ _. Unit {0} };

    fn check_unused(&self, file: &File) -> io::Result<()> {
        check_claims(self, file)
    }

    fn length(&self, path: &str) -> io::Result<u64> {
        Ok(fs::metadata(self, path)?.len())
    }

    ghost reads_front = { λ _ _ _ _. Unit {0} };

    fn read_front(&self, alloc: Global, path: &str, most: u32) -> io::Result<Bytes> {
        let file = File::open(self, path)?;
        let mut bytes = Vec::with_capacity(alloc, most as usize)?;
        file.take(u64::from(most)).read_to_end(&mut bytes)?;
        bytes.truncate(most as usize);
        Ok(Bytes::new(bytes))
    }
}

/// Opens the file or block device of that name for reading and writing, takes its exclusive
/// advisory lock, which the open file keeps, sees that it isn't in use, and measures it in bytes.
///
/// # Errors
///
/// What the system said where it doesn't open, lock or measure the file, as `NotFound`; of the kind
/// `WouldBlock` where another open of the file holds a lock, and `ResourceBusy` where it is in use.
/// Of the kind `OutOfMemory` where memory is wanted. Nothing stays open or locked.
pub fn open_locked<S: FileSystem>(system: &S, path: &str) -> io::Result<(S::Opened, u64)>
    ensures { OpensLocked (S.opens system.now path.now) S.Opened.locks (S.checks system.now)
        S.Opened.measures result }
{
    let mut file = match system.open_file(path) {
        Ok(file) => file,
        Err(error) => return Err(error),
    };
    match file.lock() {
        Ok(()) => {}
        Err(error) => return Err(error),
    }
    match system.check_unused(&file) {
        Ok(()) => {}
        Err(error) => return Err(error),
    }
    match file.measure() {
        Ok(len) => Ok((file, len)),
        Err(error) => Err(error),
    }
}

/// Opens the file or block device of that name for reading alone, and measures it in bytes. It asks
/// for no lock, so that it is had also while another program has it locked, or in use.
///
/// # Errors
///
/// What the system said where it doesn't open or measure the file, as `NotFound`; of the kind
/// `OutOfMemory` where the system wants memory; the call itself takes none. Nothing stays open.
pub fn open_for_reading<S: FileSystem>(system: &S, path: &str) -> io::Result<(S::Opened, u64)>
    ensures { OpensToRead (S.opens_to_read system.now path.now) S.Opened.measures result }
{
    let mut file = match system.open_to_read(path) {
        Ok(file) => file,
        Err(error) => return Err(error),
    };
    match file.measure() {
        Ok(bytes) => Ok((file, bytes)),
        Err(error) => Err(error),
    }
}
