//! One plain disk: what a volume is to its clients, whatever lies below it. An operation reads,
//! writes or flushes whole blocks, and has a reply; an operation that is wrong is refused with its
//! number and does nothing. In `specs/` stand the definitions that every promise of the server
//! cites: the content of a disk, which lists of operations and replies are those of one plain disk
//! that is asked one operation after the other, and what may be found after a stop. `PlainDisk` is
//! such a disk in memory: it never fails, and answers each operation in the one way that is right.
//! Tests compare with it what the server answers and what its disk holds in the end.
#![tactic(auto)]

mod laws;
mod operation;
mod plain_disk;

pub use laws::aligned_bodies_are_edged;
pub use operation::{MAX_READ, Op, Reply, wrong, wrong_range};
pub use plain_disk::PlainDisk;
