//! Disks in memory. A [`MemDisk`] tells after each of its calls what a stop there may leave of each
//! atom, fails at the calls that its plan names, and is started again with any image of such a
//! stop: on it the promises on crashes are shown. A [`RamDisk`] holds its bytes and tells them.
#![tactic(auto)]

mod atom_values;
mod call_record;
mod images;
mod mem_disk;
mod ram_disk;
mod replay;

pub use images::Choice;
pub use mem_disk::MemDisk;
pub use ram_disk::RamDisk;
