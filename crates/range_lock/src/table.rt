// The table: its entries by first block, and what they stand for, those entries in the order in
// which they came.

ghost use Rattle.std.specs.Prelude.{◌≡◌, ◌<◌, ◌≤◌, ◌↔◌, ◌++◌, [], ◌∷◌, length, true, false, IsTrue};
ghost use Rattle.std.specs.Prelude.{IfOk};
ghost use Rattle.range_lock.specs.Locks.{IsStanding, IsStandingOf, has_entry, without};

use crate::ranked::{Ranked, close_gap, has_lane, place_for, place_of, standing_at};
use crate::{Entry, Kind, Standing};
use base_terms::BlockRange;
use std::alloc::{AllocError, Global};
use std::marker::Model;

/// A table of locks, with room for a number of entries.
#[derive(Drop)]
pub struct Table {
    room: usize,
    sorted: Vec<Ranked>,
}

impl Model for Table {
    ghost use Rattle.std.specs.Prelude.{◌≤◌, vec_capacity, vec_len};
    ghost use Rattle.range_lock.specs.Locks.{Locks};
    ghost use Rattle.range_lock.specs.Ranks.{by_rank, AreKept};

    ghost Value = { Locks };

    ghost view = { λ t. record { room = t.room; entries = by_rank t.sorted.items } };

    ghost invariant = { λ t. (vec_len t.sorted ≤ t.room) × (t.room ≤ vec_capacity t.sorted)
        × AreKept t.sorted.items };
}

impl Table {
    /// A table with no entry and room for `room` of them. Memory is taken here alone.
    pub fn with_room(alloc: Global, room: usize) -> Result<Table, AllocError>
        ensures { IfOk result (λ t. (t.room ≡ room) × (t.entries ≡ [])) }
    {
        Ok(Table {
            room,
            sorted: Vec::with_capacity(alloc, room)?,
        })
    }

    /// Whether there is no room for another entry.
    pub fn is_full(&self) -> bool
        ensures { IsTrue result ↔ (self.now.room ≤ length self.now.entries) }
    {
        self.sorted.len() >= self.room
    }

    /// Whether the lane has an entry.
    pub fn has_entry(&self, lane: u32) -> bool
        ensures { result ≡ has_entry lane self.now.entries }
    {
        has_lane(self.sorted.as_slice(), lane)
    }

    /// Adds an entry for a lane that has none, behind all others, and tells where it stands.
    pub fn enter(&mut self, lane: u32, range: BlockRange, kind: Kind) -> Standing
        requires room { length self.old.entries < self.old.room }
        requires new { has_entry lane self.old.entries ≡ false }
        ensures room { self.new.room ≡ self.old.room }
        ensures entered { self.new.entries
            ≡ self.old.entries ++ record { lane = lane; range = range; kind = kind } ∷ [] }
        ensures standing { IsStanding self.old.entries
            (record { lane = lane; range = range; kind = kind }) result }
    {
        let entry = Entry { lane, range, kind };
        let rank = self.sorted.len();
        let sorted = self.sorted.as_slice();
        let standing = standing_at(sorted, &entry, rank);
        let place = place_for(sorted, range.start);
        match self.sorted.insert(place, Ranked { entry, rank }) {
            Ok(()) => {}
            Err(_) => unreachable!(),
        }
        standing
    }

    /// Tells where the lane's entry stands now.
    pub fn ask(&self, lane: u32) -> Standing
        requires { has_entry lane self.now.entries ≡ true }
        ensures { IsStandingOf lane self.now.entries result }
    {
        let sorted = self.sorted.as_slice();
        let place = place_of(sorted, lane);
        let own = &sorted[place];
        standing_at(sorted, &own.entry, own.rank)
    }

    /// Takes the lane's entry out; the others keep their order.
    pub fn leave(&mut self, lane: u32)
        requires { has_entry lane self.old.entries ≡ true }
        ensures room { self.new.room ≡ self.old.room }
        ensures left { self.new.entries ≡ without lane self.old.entries }
    {
        let place = place_of(self.sorted.as_slice(), lane);
        let left = self.sorted.remove(place);
        close_gap(&mut self.sorted, left.rank);
    }
}
