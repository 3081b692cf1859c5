//! The answer of a cell whose history is full.

/// The history has as many entries as the cell can take. The event comes back.
#[derive(Drop, PartialEq, Eq)]
pub struct Spent<E> {
    /// The event that was asked for.
    pub event: E,
}
