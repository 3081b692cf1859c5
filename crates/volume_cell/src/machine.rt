//! What a cell can hold.
ghost use Rattle.std.specs.Prelude.{◌≡◌, ℕ, List, [], ◌∷◌, ◌++◌};
ghost use Rattle.volume_cell.specs.Histories.{entry, calls_of};
ghost use Rattle.volume_cell.specs.declared.history.Entry.{Entry};
ghost use Rattle.volume_cell.specs.declared.history.Call.{Call};
ghost use denote.Param.Send.{IsSync};

use std::sync::Wait;
use std::thread::Threads;

/// A machine that acts on one event after another.
pub trait Machine {
    /// What can be asked of it.
    type Event;
    /// What it answers.
    type Outcome;
    /// What it keeps from its making on, whatever it acts on.
    type Start;

    // What this machine keeps.
    ghost start: { Self → Self.Start };

    // This machine stands for this history: it is what acting on these events in this order,
    // with these outcomes, leads to.
    ghost stands_for: { Self → List (Entry Self.Event Self.Outcome) → Type 0 };

    // From this start, a pass of this name that made these calls may ask for this event.
    ghost fits: { Self.Start → List ℕ → List (Call Self.Event Self.Outcome) → Self.Event → Type 0 };

    /// Whether acting on this event takes long. A thread that asked for that gives way to those that
    /// wait, before it asks again.
    fn is_long(event: &Self::Event) -> bool;

    /// Acts on an event. It may do so in many threads.
    fn act<R: Threads + Wait + Sync>(&mut self, rt: &R, event: Self::Event) -> Self::Outcome
        requires sync { IsSync R.row }
        requires stands { (history : List (Entry Self.Event Self.Outcome)) × (name : List ℕ)
            × stands_for self.old history
            × fits (start self.old) name (calls_of name history) event }
        ensures start { start self.new ≡ start self.old }
        ensures stands { (history : List (Entry Self.Event Self.Outcome)) (name : List ℕ)
            → stands_for self.old history → fits (start self.old) name (calls_of name history) event
            → stands_for self.new (history ++ entry name event result ∷ []) };
}
