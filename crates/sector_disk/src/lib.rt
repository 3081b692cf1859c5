//! A disk as its device shows it: sectors, here called atoms, of 512 or 4096 bytes, which are read
//! and written whole, and a sync. For each atom a disk has a current value, which a read gives, and
//! candidates, the values that a stop may leave there. A write makes its values current and
//! candidates, a sync leaves the current values as the only candidates, and calls that fail leave
//! what a real device may leave. A disk in memory tells these tables after each of its calls, so
//! that the layers above can promise what stands after a stop at any moment; a disk of a real file
//! tells nothing.
//!
//! `joined` makes one disk of a header's own disk and the main one. `views` says of runs of device
//! calls what each atom holds, and what a stop may leave there.
#![tactic(auto)]

mod device;
mod joined;
mod views;

pub use device::Disk;
pub use joined::JoinedDisk;
pub use views::read_into;
