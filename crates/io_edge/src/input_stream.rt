ghost use Rattle.std.specs.Prelude.{◌≡◌, ◌≤◌, ℕ, List, length, None, Result, IfOk, MatchResult};
ghost use Rattle.std.specs.Prelude.{Err};
ghost use Rattle.std.specs.Io.KnownBytes.{ReadConsumes};
ghost use Rattle.std.specs.declared.io.Error.{Error};
ghost use Rattle.base_terms.specs.Causes.{HasCause};
ghost use Rattle.io_edge.specs.Calls.{ReadsOn};
ghost use Rattle.io_edge.specs.Faults.{Counts};

use crate::{Counted, Source, answered};
use base_terms::Failed;
use std::io::{self, ErrorKind, Read};

/// A stream of the system that bytes are read from. What a read does is a matter of the stream.
pub trait InputStream: Drop {
    /// What a read does: from the stream before it, by the buffer after it and the answer, to the
    /// stream after it.
    ghost reads: { Self → List ℕ → Result ℕ Error → Self → Type 0 };

    /// Reads some bytes to the front of the buffer and says how many; 0 for a buffer that isn't
    /// empty only at the end of the input. It may be interrupted.
    fn read_some(&mut self, buf: &mut [u8]) -> io::Result<usize>
        ensures within { IfOk result (λ n. n ≤ length buf.new) }
        ensures reads { reads self.old buf.new result self.new };

    /// Hears that both sides have agreed on what follows.
    fn settle(&mut self) {}
}

/// One of std's readers, of which std says what a read does.
impl<R: Read + Drop> InputStream for R {
    ghost reads = { λ old buf answer new.
        ReadConsumes (R.remaining old) (R.remaining new) answer buf };

    fn read_some(&mut self, buf: &mut [u8]) -> io::Result<usize> {
        self.read(buf)
    }
}

/// A source over a stream of the system, as standard input or a socket. It tells nothing of
/// content. It reads again where a signal interrupts a read, and fails exactly where the last read
/// does.
pub type StdSource<R> = Counted<R>;

impl<R: InputStream> Source for Counted<R> {
    ghost intake = { λ s. record { given = None; left = None; faults = s.faults } };

    fn take(&mut self, buf: &mut [u8]) -> Result<usize, Failed>
        ensures within { IfOk result (λ n. n ≤ length buf.old) }
        ensures cause { HasCause self.old.faults self.new.faults result }
        ensures counts { Counts self.old.faults self.new.faults result }
        ensures reads { MatchResult result
            (λ n. ReadsOn R.reads self.old.inner buf.new (Ok n) self.new.inner)
            (λ _. (error : Error)
            × ReadsOn R.reads self.old.inner buf.new (Err error) self.new.inner) }
    {
        answered(read_uninterrupted(&mut self.inner, buf), &mut self.faults)
    }

    fn settle(&mut self)
        ensures { self.new.faults ≡ self.old.faults }
    {
        self.inner.settle();
    }

    fn faults(&self) -> u64 {
        self.faults
    }
}

/// One read, made again as long as a signal interrupts it. The error is let go where it comes, so
/// that no answer is moved.
fn read_uninterrupted<R: InputStream>(reader: &mut R, buf: &mut [u8]) -> Result<usize, Failed>
    ensures within { IfOk result (λ n. n ≤ length buf.new) }
    ensures reads { MatchResult result
        (λ n. ReadsOn R.reads reader.old buf.new (Ok n) reader.new)
        (λ _. (error : Error) × ReadsOn R.reads reader.old buf.new (Err error) reader.new) }
{
    for _ in 0..u64::MAX {
        match reader.read_some(buf) {
            Ok(n) => return Ok(n),
            Err(error) => {
                if error.kind() != ErrorKind::Interrupted {
                    return Err(Failed);
                }
            }
        }
    }
    match reader.read_some(buf) {
        Ok(n) => Ok(n),
        Err(_) => Err(Failed),
    }
}
