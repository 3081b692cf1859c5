//! What was asked of a machine and what it answered. No value of these types is made: they are
//! what contracts see.
use std::collections::LinkedList;

/// One event that a machine acted on, and its outcome.
pub struct Call<E, O> {
    /// What was asked.
    pub event: E,
    /// What was answered.
    pub outcome: O,
}

/// A place of a history: who asked what, and what was answered.
pub struct Entry<E, O> {
    /// The name of the pass that asked.
    pub name: LinkedList<u32>,
    /// What was asked.
    pub event: E,
    /// What was answered.
    pub outcome: O,
}
