ghost use Rattle.std.specs.Prelude.{ℕ, List, Bool, None, is_ok};
ghost use Rattle.base_terms.specs.Causes.{HasCause};
ghost use Rattle.io_edge.specs.Faults.{Counts};

use crate::{Counted, Seeds, answered};
use base_terms::Failed;
use std::io;
use std::random::RandomSource;

/// A device of the system that random bytes are drawn from. What a call does is a matter of the
/// device.
pub trait EntropySource: Drop {
    /// What a draw does: from the device before it, by the buffer after it and whether it was done,
    /// to the device after it.
    ghost draws: { Self → List ℕ → Bool → Self → Type 0 };

    /// Fills the buffer with random bytes.
    fn draw(&mut self, buf: &mut [u8]) -> io::Result<()>
        ensures { draws self.old buf.new (is_ok result) self.new };
}

/// The system's own randomness, of which std says nothing.
impl<R: RandomSource + Drop> EntropySource for R {
    ghost draws = { λ _ _ _ _. Unit {0} };

    fn draw(&mut self, buf: &mut [u8]) -> io::Result<()> {
        self.fill_bytes(buf)
    }
}

/// Random bytes of the system, which nobody tells. A fill fails exactly where the system gives
/// none.
pub type OsSeeds<R> = Counted<R>;

impl<R: EntropySource> Seeds for Counted<R> {
    ghost supply = { λ s. record { ahead = λ _. None; faults = s.faults } };

    fn fill(&mut self, buf: &mut [u8]) -> Result<(), Failed>
        ensures cause { HasCause self.old.faults self.new.faults result }
        ensures counts { Counts self.old.faults self.new.faults result }
        ensures draws { R.draws self.old.inner buf.new (is_ok result) self.new.inner }
    {
        answered(self.inner.draw(buf), &mut self.faults)
    }

    fn faults(&self) -> u64 {
        self.faults
    }
}
