//! Where a command gets its disks, keys and clients from. A bay gives disks and key files by name,
//! and links by an address; a link gives connections, each a source and a sink, and takes them
//! back when their sessions have ended. Each counts its faults and says how many there were, and
//! answers `Failed` only where that count rose; a call of a bay leaves all that it didn't give. A
//! bay and its links in memory tell what they hold: the disks and key files by name, the inputs to
//! come by address, and of each connection that was handed back the bytes that were taken and put,
//! and those that never went out.
#![tactic(auto)]

mod bay;
mod link;
mod mem_bay;
mod mem_link;
mod names;

pub use bay::{Bay, BayFault, Manner};
pub use link::Link;
pub use mem_bay::MemBay;
pub use mem_link::MemLink;
