//! A table of locks on ranges of blocks. Each lane of work has at most one entry: a range, shared
//! with others or for itself alone. Entries stand in the order in which they came, and an entry is
//! held exactly where no earlier one conflicts, that is, where no earlier one has a block of its
//! range and one of the two is alone. So a later entry never overtakes an earlier one that waits.
//! The layer above may rely on this at every call; an entry that waits is told the lane of an
//! earlier one that it conflicts with, and asks again after that lane has left.
//!
//! The table is kept by first block, each entry with its rank in the order of entry. So what may
//! conflict with a range is found by a binary search for its end, and nothing behind it is read.
//!
//! Memory is taken when a table is made, and never after.
#![tactic(auto)]

use base_terms::BlockRange;

mod ranked;
mod table;

pub use table::Table;

/// How an entry has its range.
#[derive(Clone, Copy, PartialEq, Eq)]
pub enum Kind {
    /// With other shared entries, as a read.
    Shared,
    /// For itself, as a write.
    Alone,
}

/// A lane's lock.
#[derive(Clone, Copy, PartialEq, Eq)]
pub struct Entry {
    /// The lane, which has no other entry.
    pub lane: u32,
    /// The blocks.
    pub range: BlockRange,
    /// How the lane has them.
    pub kind: Kind,
}

/// Where an entry stands.
#[derive(Clone, Copy, Debug, PartialEq, Eq)]
pub enum Standing {
    /// No earlier entry conflicts with it.
    Held,
    /// The entry of this lane is earlier and conflicts with it.
    Waiting(u32),
}
