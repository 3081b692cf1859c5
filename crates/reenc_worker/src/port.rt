// Where a worker's steps are made.

ghost use Rattle.std.specs.Prelude.{◌≡◌, List, [], ◌∷◌, ◌++◌};
ghost use Rattle.gates.specs.declared.gate.Converted.{Converted};
ghost use Rattle.reenc_worker.specs.declared.ends.WorkAnswer.{WorkAnswer};

use crate::ends::WorkAnswer;
use gates::Converted;
use std::sync::Wait;
use std::thread::Threads;

/// A conversion whose steps a worker calls for, one after the other.
pub trait WorkerPort {
    /// What holds of it between two calls.
    ghost stands: { Self → Type 0 };

    /// From an old state to a new one the worker called for steps, and was answered so, and it did
    /// nothing else.
    ghost worked: { Self → Self → List WorkAnswer → Type 0 };

    /// How far the conversion is, as far as the worker knows.
    ghost tells: { Self → Converted };

    /// Makes the next step, unless clients have the blocks that it needs. It may wait for them.
    fn work<R: Threads + Wait + Sync>(&mut self, rt: &R) -> WorkAnswer
        requires stands { stands self.old }
        ensures stands { stands self.new }
        ensures worked { worked self.old self.new (result ∷ []) };

    /// How far the conversion is, as far as the worker knows.
    fn converted(&self) -> Converted
        ensures tells { result ≡ tells self.now };

    ghost worked_none: { (port : Self) → worked port port [] };

    ghost worked_more: { (first second third : Self) (xs ys : List WorkAnswer) →
        worked first second xs → worked second third ys → worked first third (xs ++ ys) };
}
