ghost use Rattle.std.specs.Prelude.{ℕ, List, Bool, is_ok};

use std::fs::File;
use std::io::{self, ErrorKind};
use std::os::unix::fs::FileExt;

/// A file that is read and written at places, counted in bytes from its start. What its calls do is
/// a matter of the file: a real one says nothing.
pub trait PositionedFile: Drop {
    /// What a read does: from the file before it, by the place, the buffer's bytes after it and
    /// whether it was done, to the file after it.
    ghost reads: { Self → ℕ → List ℕ → Bool → Self → Type 0 };

    /// What a write does, by the place, the bytes and whether it was done.
    ghost writes: { Self → ℕ → List ℕ → Bool → Self → Type 0 };

    /// What a sync does, by whether it was done.
    ghost syncs: { Self → Bool → Self → Type 0 };

    /// Fills the buffer with the bytes from `from` on. An end before the last of them is an error.
    fn read_exact_at(&mut self, buf: &mut [u8], from: u64) -> io::Result<()>
        ensures { reads self.old from buf.new (is_ok result) self.new };

    /// Writes all bytes, from `from` on.
    fn write_all_at(&mut self, bytes: &[u8], from: u64) -> io::Result<()>
        ensures { writes self.old from bytes.now (is_ok result) self.new };

    /// Waits until all that was written is kept.
    fn sync_data(&mut self) -> io::Result<()>
        ensures { syncs self.old (is_ok result) self.new };
}

impl PositionedFile for File {
    ghost reads = { λ _ _ _ _ _. Unit {0} };

    ghost writes = { λ _ _ _ _ _. Unit {0} };

    ghost syncs = { λ _ _ _. Unit {0} };

    fn read_exact_at(&mut self, buf: &mut [u8], from: u64) -> io::Result<()> {
        match FileExt::read_exact_at(self, buf, from) {
            Err(error) if error.kind() == ErrorKind::UnexpectedEof => {
                let message = "the file was cut short";
                Err(io::Error::new(ErrorKind::UnexpectedEof, message))
            }
            done => done,
        }
    }

    fn write_all_at(&mut self, bytes: &[u8], from: u64) -> io::Result<()> {
        FileExt::write_all_at(self, bytes, from)
    }

    fn sync_data(&mut self) -> io::Result<()> {
        File::sync_data(self)
    }
}
