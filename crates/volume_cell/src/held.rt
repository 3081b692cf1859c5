//! What lies in the cell: the machine, beside a note of the call that it has just acted on. The
//! note is for the proofs alone and has no bytes but the mark whether there is one.
ghost use Rattle.std.specs.Prelude.{◌≡◌, ℕ, List, [], ◌∷◌, ◌++◌, Some};

use crate::machine::Machine;
use std::snapshot::Snapshot;
use std::sync::Wait;
use std::thread::Threads;

/// A call, as clauses see it.
#[derive(Drop)]
pub struct Note<E, O> {
    event: Snapshot<E>,
    outcome: Snapshot<O>,
}

#[derive(Drop)]
pub struct Held<M, E, O> {
    pub(crate) machine: M,
    pub(crate) note: Option<Note<E, O>>,
}

impl<M: Machine> Held<M, M::Event, M::Outcome> {
    ghost use Rattle.volume_cell.specs.Histories.{entry, calls_of, IsNoted};
    ghost use Rattle.volume_cell.specs.declared.history.Entry.{Entry};
    ghost use Rattle.volume_cell.specs.declared.history.Call.{Call};

    /// Has the machine act on the event, and notes the call.
    pub(crate) fn act<R: Threads + Wait + Sync>(&mut self, rt: &R, event: M::Event) -> M::Outcome
        requires { (history : List (Entry M.Event M.Outcome)) × (name : List ℕ)
            × M.stands_for self.old.machine history
            × M.fits (M.start self.old.machine) name (calls_of name history) event }
        ensures start { M.start self.new.machine ≡ M.start self.old.machine }
        ensures noted { IsNoted event result self.new.note }
        ensures stands { (history : List (Entry M.Event M.Outcome)) (name : List ℕ)
            → M.stands_for self.old.machine history
            → M.fits (M.start self.old.machine) name (calls_of name history) event
            → M.stands_for self.new.machine (history ++ entry name event result ∷ []) }
    {
        let asked = Snapshot::of(&event);
        let outcome = self.machine.act(rt, event);
        self.note = Some(Note {
            event: asked,
            outcome: Snapshot::of(&outcome),
        });
        outcome
    }

    /// The machine, without the note.
    pub(crate) fn into_machine(self) -> M
        ensures { result ≡ self.machine }
    {
        let Held { machine, note } = self;
        drop(note);
        machine
    }
}
