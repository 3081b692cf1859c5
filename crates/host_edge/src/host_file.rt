ghost use Rattle.std.specs.Prelude.{◌≡◌};

use crate::notices::complain;
use file_disk::PositionedFile;
use std::alloc::Global;
use std::io::{self, Stderr};

/// An open file of the machine. What the system refuses of it is said on standard error, and, at the
/// first write or sync that it refuses, that all that follows is refused; its calls do what those of
/// the file do.
#[derive(Drop)]
pub struct HostFile<F: PositionedFile> {
    file: F,
    name: String,
    alloc: Global,
    errors: Stderr,
    is_broken: bool,
}

impl<F: PositionedFile> HostFile<F> {
    /// The file, which is told of by this name.
    pub fn new(alloc: Global, errors: Stderr, name: String, file: F) -> HostFile<F>
        ensures { result.file ≡ file }
    {
        HostFile {
            file,
            name,
            alloc,
            errors,
            is_broken: false,
        }
    }

    /// What the system answered, of which a failure is told.
    fn told(&self, done: io::Result<()>) -> io::Result<()>
        ensures same { result ≡ done }
    {
        if let Err(error) = &done {
            complain(self.alloc, self.errors, self.name.as_str(), error);
        }
        done
    }

    /// Likewise of a write or a sync. Whoever uses the disk gives it up behind the first failure.
    fn told_change(&mut self, done: io::Result<()>) -> io::Result<()>
        ensures file { self.new.file ≡ self.old.file }
        ensures same { result ≡ done }
    {
        let done = self.told(done);
        if done.is_err() && !self.is_broken {
            self.is_broken = true;
            let _ = eprintln!(self.errors;
                "reencd: {}: the disk is given up, and clients get errors: start again once that is mended",
                self.name.as_str()
            );
        }
        done
    }
}

impl<F: PositionedFile> PositionedFile for HostFile<F> {
    ghost reads = { λ old from bytes done new. F.reads old.file from bytes done new.file };

    ghost writes = { λ old from bytes done new. F.writes old.file from bytes done new.file };

    ghost syncs = { λ old done new. F.syncs old.file done new.file };

    fn read_exact_at(&mut self, buf: &mut [u8], from: u64) -> io::Result<()> {
        let done = self.file.read_exact_at(buf, from);
        self.told(done)
    }

    fn write_all_at(&mut self, bytes: &[u8], from: u64) -> io::Result<()> {
        let done = self.file.write_all_at(bytes, from);
        self.told_change(done)
    }

    fn sync_data(&mut self) -> io::Result<()> {
        let done = self.file.sync_data();
        self.told_change(done)
    }
}
