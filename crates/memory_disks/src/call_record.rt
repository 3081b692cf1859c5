ghost use Rattle.std.specs.Prelude.{◌≡◌, ◌+◌, ◌/◌, ◌%◌, ◌<◌, ◌≤◌, ◌↔◌, [], ◌∷◌, ◌++◌, length, IfOk};
ghost use Rattle.std.specs.Prelude.{OnOk, IsTrue, vec_capacity};
ghost use Rattle.memory_disks.specs.Calls.{last_table};

use crate::atom_values::AtomValues;
use crate::replay::apply;
use std::alloc::{AllocError, Global};
use std::marker::Model;

/// What a device call did.
#[derive(Clone, Copy, PartialEq, Eq)]
pub(crate) enum Kind {
    Read,
    Write,
    FailedWrite,
    Sync,
}

/// A device call, but for its bytes.
#[derive(Clone, Copy)]
struct Note {
    kind: Kind,
    at: u64,
    len: usize,
    mark: u64,
}

/// The device calls of a disk in memory. The memory for all of them is taken when it is made.
#[derive(Drop)]
pub(crate) struct CallRecord {
    atom: u32,
    room: u64,
    used: u64,
    notes: Vec<Note>,
    log: Vec<u8>,
}

impl Model for CallRecord {
    ghost use Rattle.std.specs.Prelude.{vec_capacity};
    ghost use Rattle.memory_disks.specs.Calls.{Kept};

    ghost Value = { Kept };

    ghost use Rattle.memory_disks.specs.Notes.{calls_of, HasRoom};

    ghost view = { λ r. record {
      atom = r.atom;
      room = r.room;
      used = r.used;
      calls = calls_of r.notes.items r.log.items;
    } };

    ghost invariant = { λ r. HasRoom r.atom r.room r.used r.notes.items r.log.items
        (vec_capacity r.notes) (vec_capacity r.log) };
}

impl CallRecord {
    /// An empty record with room for so many calls and atoms of so many bytes.
    #[tactic(auto, unfolding(crate::specs::Notes::noted_bytes, crate::specs::Notes::calls_of))]
    pub(crate) fn new(alloc: Global, atom: u32, room: u64) -> Result<CallRecord, AllocError>
        ensures atom { IfOk result (λ r. r.atom ≡ atom) }
        ensures room { IfOk result (λ r. r.room ≡ room) }
        ensures used { IfOk result (λ r. r.used ≡ 0) }
        ensures calls { IfOk result (λ r. r.calls ≡ []) }
    {
        let Some(bytes) = (room as usize).checked_mul(atom as usize) else {
            return Err(AllocError);
        };
        Ok(CallRecord {
            atom,
            room,
            used: 0,
            notes: Vec::with_capacity(alloc, room as usize)?,
            log: Vec::with_capacity(alloc, bytes)?,
        })
    }

    /// Whether a call of so many written atoms would pass the room.
    pub(crate) fn is_full(&self, atoms: u64) -> bool
        ensures { IsTrue result ↔ (self.now.room < self.now.used + 1 + atoms) }
    {
        self.room - self.used <= atoms
    }

    /// Adds a call, for which there is room.
    pub(crate) fn note(&mut self, kind: Kind, at: u64, body: &[u8], mark: u64)
        requires some { 0 < self.old.atom }
        requires whole { length body.now % self.old.atom ≡ 0 }
        requires room { self.old.used + 1 + length body.now / self.old.atom ≤ self.old.room }
        ensures atom { self.new.atom ≡ self.old.atom }
        ensures room_same { self.new.room ≡ self.old.room }
        ensures used { self.new.used ≡ self.old.used + 1 + length body.now / self.old.atom }
        ensures calls { self.new.calls ≡ self.old.calls
            ++ record { kind = kind; at = at; body = body.now; mark = mark } ∷ [] }
    {
        let atoms = body.len() / self.atom as usize;
        let note = Note {
            kind,
            at,
            len: body.len(),
            mark,
        };
        let Ok(()) = self.notes.push(note) else {
            unreachable!()
        };
        let Ok(()) = self.log.extend_from_slice(body) else {
            unreachable!()
        };
        self.used += 1 + atoms as u64;
    }

    /// Makes the calls anew on atoms in memory.
    pub(crate) fn replay(&self, alloc: Global, cells: &mut [AtomValues]) -> Result<(), AllocError>
        requires { 0 < self.now.atom }
        ensures { OnOk result (cells.new ≡ last_table self.now.atom cells.old self.now.calls) }
    {
        let mut rest = self.log.as_slice();
        for note in &self.notes {
            let (body, behind) = rest.split_at(note.len);
            apply(
                alloc,
                cells,
                self.atom as usize,
                note.kind,
                note.at as usize,
                body,
            )?;
            rest = behind;
        }
        Ok(())
    }

    /// Forgets the calls.
    #[tactic(auto, unfolding(crate::specs::Notes::noted_bytes, crate::specs::Notes::calls_of))]
    pub(crate) fn clear(&mut self)
        ensures atom { self.new.atom ≡ self.old.atom }
        ensures room { self.new.room ≡ self.old.room }
        ensures used { self.new.used ≡ 0 }
        ensures calls { self.new.calls ≡ [] }
    {
        self.notes.clear();
        self.log.clear();
        self.used = 0;
    }
}
