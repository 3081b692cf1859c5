//! What the holder of a pass knows of the cell. No value of these types is made: they are what
//! contracts see of a pass, which has no bytes.
use crate::history::{Call, Entry};
use std::collections::LinkedList;

/// Where a pass stands.
pub enum Stage {
    /// It can ask for a turn.
    Ready,
    /// It has the machine.
    InTurn,
    /// It was joined into another pass, or the cell is closed.
    Retired,
}

/// The calls that were made under one name.
pub struct Account<E, O> {
    /// The name.
    pub name: LinkedList<u32>,
    /// The calls, in order.
    pub calls: LinkedList<Call<E, O>>,
}

/// What the holder of a pass knows.
pub struct Knowledge<S, E, O> {
    /// Where the pass stands.
    pub stage: Stage,
    /// The start of the machine that the cell was made with. A pass that was joined into another
    /// has none.
    pub start: Option<S>,
    /// The first pass has the empty name, and the pass that was split off another as its `k`-th,
    /// from 0, has that one's name followed by `k`.
    pub name: LinkedList<u32>,
    /// The history as far as it is known.
    pub history: LinkedList<Entry<E, O>>,
    /// Where a pass was joined into this one, the shorter of the two histories that they knew. It
    /// serves `join` alone, and what a turn leaves here is open.
    pub met: LinkedList<Entry<E, O>>,
    /// The pass's own calls.
    pub calls: LinkedList<Call<E, O>>,
    /// The calls of the passes that were joined into it.
    pub joined: LinkedList<Account<E, O>>,
    /// How many passes were split off it.
    pub splits: u32,
    /// The names of the passes that were split off it and are not joined back yet.
    pub away: LinkedList<LinkedList<u32>>,
}
