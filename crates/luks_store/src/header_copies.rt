// The two copies of a LUKS2 header on a disk (LUKS2 On-Disk Format Specification 1.1, section
// 2.1), as they are written: a commit leads both to the next header by a write of the primary, a
// sync, a write of the secondary and a sync, and nothing else; a repair writes one of them anew
// with the bytes of the other, and syncs. No JSON is looked into.
//
// The layer above may rely on the copies of a commit being, byte for byte, what `luks_bin` writes
// of the next header, on each step being exactly the device call that its stage names, and on
// `header_reader`: how copies are read and what they mean, for which all laws of `crash_laws`
// hold, so that each image during a commit or a repair has the header from before or the next one.

mod commit;
mod laws;
mod repair;

pub use commit::{Commit, CommitError, Stage};
pub use laws::{
    calls_are_seen, copies_are_read, copies_are_told_by_their_fronts, copies_mean_their_headers,
    copies_mean_what_they_share,
};
pub use repair::{Repair, RepairStage};
