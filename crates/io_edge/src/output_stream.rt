ghost use Rattle.std.specs.Prelude.{◌≡◌, ℕ, List, [], Bool, None, is_ok, IsErr, OnOk};
ghost use Rattle.base_terms.specs.Causes.{HasCause};
ghost use Rattle.io_edge.specs.Faults.{Counts};
ghost use Rattle.io_edge.specs.Outlet.{HoldsBackRear, IsRear};

use crate::calls::kind_of;
use crate::{Counted, Sink, answered};
use base_terms::Failed;
use std::io::{ErrorKind, Stdout, Write};

/// A stream of the system that bytes are written to. What its calls do is a matter of the stream;
/// of an error they tell the kind, which is all that is asked of one, and is small.
pub trait OutputStream: Drop {
    /// What was written to it and has not gone out to the system.
    ghost held_back: { Self → List ℕ };

    /// What a write does: from the stream before it, by the bytes and whether it was done, to the
    /// stream after it.
    ghost writes: { Self → List ℕ → Bool → Self → Type 0 };

    /// What a flush does, by whether it was done.
    ghost flushes: { Self → Bool → Self → Type 0 };

    /// Writes all bytes, or fails; after a failure a front of them may have been written. The last
    /// of what was written may be held back until it is flushed.
    fn write_all(&mut self, bytes: &[u8]) -> Result<(), ErrorKind>
        ensures holds { HoldsBackRear (held_back self.old) (held_back self.new) bytes.now result }
        ensures writes { writes self.old bytes.now (is_ok result) self.new };

    /// Writes what is held back, and lets it go out.
    fn flush(&mut self) -> Result<(), ErrorKind>
        ensures out { OnOk result (held_back self.new ≡ []) }
        ensures holds { IsRear (held_back self.new) (held_back self.old) }
        ensures flushes { flushes self.old (is_ok result) self.new };
}

/// Standard output, whose writes go out at once.
impl OutputStream for Stdout {
    ghost held_back = { λ _. [] };

    ghost writes = { λ _ _ _ _. Unit {0} };

    ghost flushes = { λ _ _ _. Unit {0} };

    #[tactic(auto, using(crate::proofs::OutletLemmas::holds_nothing))]
    fn write_all(&mut self, bytes: &[u8]) -> Result<(), ErrorKind> {
        kind_of(Write::write_all(self, bytes))
    }

    fn flush(&mut self) -> Result<(), ErrorKind> {
        kind_of(Write::flush(self))
    }
}

/// A sink over a stream of the system, as standard output or a socket. It tells nothing of content,
/// but what the stream holds back. It fails exactly where the stream does.
pub type StdSink<W> = Counted<W>;

impl<W: OutputStream> Sink for Counted<W> {
    ghost outlet = { λ s.
        record { had = None; held_back = W.held_back s.inner; faults = s.faults } };

    fn put(&mut self, bytes: &[u8]) -> Result<(), Failed>
        ensures holds { HoldsBackRear (W.held_back self.old.inner) (W.held_back self.new.inner)
            bytes.now result }
        ensures cause { HasCause self.old.faults self.new.faults result }
        ensures counts { Counts self.old.faults self.new.faults result }
        ensures writes { W.writes self.old.inner bytes.now (is_ok result) self.new.inner }
    {
        answered(self.inner.write_all(bytes), &mut self.faults)
    }

    fn push_out(&mut self) -> Result<(), Failed>
        ensures out { OnOk result (W.held_back self.new.inner ≡ []) }
        ensures holds { IsRear (W.held_back self.new.inner) (W.held_back self.old.inner) }
        ensures cause { HasCause self.old.faults self.new.faults result }
        ensures counts { Counts self.old.faults self.new.faults result }
        ensures flushes { W.flushes self.old.inner (is_ok result) self.new.inner }
    {
        answered(self.inner.flush(), &mut self.faults)
    }

    fn faults(&self) -> u64 {
        self.faults
    }
}
