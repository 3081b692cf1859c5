//! One machine shared by threads, with one history that every caller knows.
//!
//! A machine acts on one event after another. A cell puts it under many threads: each thread has a
//! pass, and asks for a turn by it. A turn is one event of one history, that of the cell, whoever
//! asks, and a pass is seen as what its holder knows of that history. No value of this knowledge
//! is made: a pass has no bytes, a turn takes no memory, and events and outcomes are not stored.
//!
//! The layer above may rely on this.
//! - A turn answers the last entry of the history that the pass then knows. That history begins
//!   with what the pass knew, and under the pass's name it has the pass's own calls, each once and
//!   in order. So it has under the name of each pass that was joined into it that pass's calls.
//!   A machine with the pass's start stood for that history.
//! - A turn is refused exactly where the history has as many entries as the cell was made for. The
//!   event comes back.
//! - A pass that is split off another knows what that knows, has a name of its own, and has made
//!   no calls. Where it is joined back, the other knows the longer of the two histories, which
//!   begins with both, and keeps the calls of both.
//! - The machine that a closed cell gives back stands for the history that the first pass knows,
//!   and has the start of the machine that the cell was made with. Of each name, that history has
//!   just the calls that were made under it.
//!
//! What follows is read off the code and said by no clause. A turn that finds the machine at home
//! and nobody asleep makes five atomic steps and no call of the system: a look at the history, one
//! at the mark of those that sleep, a compare-and-exchange that takes the machine, an addition that
//! gives it back, and a look at the mark. A thread that does not get the machine looks again, at
//! most a hundred times and not while another sleeps, and then sleeps. Whoever gives the machine
//! back wakes one thread, and the next is woken once that one has had the machine or one more went
//! to sleep. A thread that was woken twice in vain asks that the machine be left to those that
//! slept; and whoever gives it back behind an event that takes long (`Machine::is_long`), and woke
//! one, gives way to that for a moment, and goes on so while others may sleep, five moments at most.
//! That a turn comes, in which order and when is not promised.
//!
//! The rule of the cell has two parts, each a module of `specs/`: `Exclusion` says that one pass at
//! a time has the machine and that no two passes share a name, `History` that there is one history
//! of which each pass knows a beginning.
#![tactic(auto)]

mod cell;
mod held;
mod history;
mod knowledge;
mod machine;
mod rule;
mod shared;
mod spent;

pub use cell::{Cell, Pass};
pub use history::{Call, Entry};
pub use knowledge::{Account, Knowledge, Stage};
pub use machine::Machine;
pub use shared::Shared;
pub use spent::Spent;
