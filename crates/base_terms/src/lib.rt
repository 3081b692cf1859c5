//! Terms that every layer of the server cites: the one failure of the outside and the count that
//! shows its cause, the numbers of the errors that a client is answered, a text of bytes that
//! contracts see as a list, a buffer that is used again, and (in `specs/`) the words on lists of
//! bytes and blocks of which disks, contents and messages are spelt.
//!
//! `block_range` has ranges of blocks, `disk_sizes` the sizes of the disks that a header speaks of, and
//! `judged` for what a block of an open zone stands.
#![tactic(auto)]

mod block_range;
mod buffer;
mod bytes;
mod disk_sizes;
mod error_numbers;
mod failed;
mod judged;
mod vectors;

pub use block_range::BlockRange;
pub use buffer::Buffer;
pub use bytes::Bytes;
pub use disk_sizes::Sizes;
pub use error_numbers::{DEVICE_ERROR, INVALID, NO_MEMORY, NO_SPACE};
pub use failed::Failed;
pub use judged::Judged;
pub use vectors::{bytes_are_below_256, paste, zeros};
