// Entries as a table keeps them: by first block, each with its rank, the number of entries that
// came before it and are still there. What conflicts with an entry is looked for among those that
// begin before the end of its range, since all others lie behind it.

ghost use Rattle.std.specs.Prelude.{◌≡◌, ◌<◌, ◌≤◌, ◌↔◌, length, map, take, drop, true, IsTrue};
ghost use Rattle.std.specs.Prelude.{vec_capacity, vec_len};
ghost use Rattle.std.specs.List.{position, list_any, AllByRecursion, HoldsAt};
ghost use Rattle.range_lock.specs.Locks.{Conflicts};
ghost use Rattle.range_lock.specs.Ranks.{AreInOrder, is_for, Bars, IsStandingAmong, lowered};

use crate::{Entry, Kind, Standing};

/// An entry with its rank.
#[derive(Clone, Copy)]
pub(crate) struct Ranked {
    /// The entry.
    pub(crate) entry: Entry,
    /// How many of the other entries came before it.
    pub(crate) rank: usize,
}

// Whether two entries conflict.
fn conflicts(one: &Entry, other: &Entry) -> bool
    ensures { IsTrue result ↔ Conflicts one.now other.now }
{
    one.range.overlaps(other.range) && (one.kind == Kind::Alone || other.kind == Kind::Alone)
}

// Whether the other came before an entry of this rank and conflicts with it.
fn bars(other: &Ranked, entry: &Entry, rank: usize) -> bool
    ensures { IsTrue result ↔ Bars other.now entry.now rank }
{
    other.rank < rank && conflicts(&other.entry, entry)
}

// Where an entry of this rank stands beside these.
fn standing_among(near: &[Ranked], entry: &Entry, rank: usize) -> Standing
    ensures { IsStandingAmong near.now entry.now rank result }
{
    match near.iter().find(|other| bars(other, entry, rank)) {
        Some(other) => Standing::Waiting(other.entry.lane),
        None => Standing::Held,
    }
}

/// The place before which all entries begin below a block, and from which on none does.
pub(crate) fn place_for(sorted: &[Ranked], block: u64) -> usize
    requires { AreInOrder sorted.now }
    ensures within { result ≤ length sorted.now }
    ensures before { AllByRecursion (λ r. r.entry.range.start < block) (take result sorted.now) }
    ensures behind { AllByRecursion (λ r. block ≤ r.entry.range.start) (drop result sorted.now) }
{
    sorted.partition_point(|ranked| ranked.entry.range.start < block)
}

/// Where an entry of this rank stands beside all that are kept.
pub(crate) fn standing_at(sorted: &[Ranked], entry: &Entry, rank: usize) -> Standing
    requires { AreInOrder sorted.now }
    ensures { IsStandingAmong sorted.now entry.now rank result }
{
    let near = place_for(sorted, entry.range.end);
    standing_among(&sorted[..near], entry, rank)
}

/// Whether the lane has an entry.
pub(crate) fn has_lane(sorted: &[Ranked], lane: u32) -> bool
    ensures { result ≡ list_any (is_for lane) sorted.now }
{
    sorted.iter().any(|ranked| ranked.entry.lane == lane)
}

// The place of the lane's entry, if it has one.
fn find_place(sorted: &[Ranked], lane: u32) -> Option<usize>
    ensures { result ≡ position (is_for lane) sorted.now }
{
    sorted.iter().position(|ranked| ranked.entry.lane == lane)
}

/// The place of the lane's entry.
pub(crate) fn place_of(sorted: &[Ranked], lane: u32) -> usize
    requires { list_any (is_for lane) sorted.now ≡ true }
    ensures within { result < length sorted.now }
    ensures of_lane { HoldsAt (λ r. is_for lane r ≡ true) sorted.now result }
{
    match find_place(sorted, lane) {
        Some(place) => place,
        None => unreachable!(),
    }
}

// The entry of a rank has left: the rank of one that came after it falls by one.
fn lower(ranked: &mut Ranked, gone: usize)
    ensures { ranked.new ≡ lowered gone ranked.old }
{
    if gone < ranked.rank {
        ranked.rank -= 1;
    }
}

// So for all of them.
fn lower_all(sorted: &mut [Ranked], gone: usize)
    ensures { sorted.new ≡ map (lowered gone) sorted.old }
{
    for ranked in sorted.iter_mut() {
        lower(ranked, gone);
    }
}

/// The entry of a rank has left: the ranks of all that came after it fall by one.
pub(crate) fn close_gap(sorted: &mut Vec<Ranked>, gone: usize)
    ensures items { sorted.new.items ≡ map (lowered gone) sorted.old.items }
    ensures len { vec_len sorted.new ≡ vec_len sorted.old }
    ensures capacity { vec_capacity sorted.new ≡ vec_capacity sorted.old }
{
    lower_all(sorted.as_mut_slice(), gone);
}
