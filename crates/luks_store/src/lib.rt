//! The header of a LUKS2 volume as a disk keeps it (LUKS2 On-Disk Format Specification 1.1, section
//! 2): which of its two copies is used, and the metadata in it, read, judged, and committed.
//!
//! The layer above may rely on `stored_in`: the header that a disk's bytes hold, or why they hold
//! none. [`load`] answers exactly that and writes nothing. A [`Commit`] leads both copies to the
//! next metadata, and [`Commit::next`] is what is loaded then; a repair writes the copy that is
//! older or lacks. What a stop leaves during either is said by `crash_laws`;
//! [`used_copies_are_headers`] says that its headers are those that are loaded, and
//! [`commits_begin`] that a disk shows a commit's beginning once it was synced and both its copies
//! are good.
//!
//! `header_copies` writes the two copies, byte for byte, and looks into no JSON. `slot_commit` writes
//! a new keyslot's area and the header that names it.
#![tactic(auto)]

mod commit;
mod copies;
mod fault;
pub mod header_copies;
mod laws;
mod loaded;
mod reading;
mod repair;
mod slot_commit;
mod used;

pub use crate::header_copies::{CommitError, Repair, Stage};
pub use commit::{Commit, Prepared};
pub use copies::{Copies, CopyPlace, CopyState, HeaderCopy};
pub use fault::{ReadFault, StoreFault};
pub use laws::{
    commits_begin, headers_stand_in_front, metadata_go_by_meaning, used_copies_are_headers,
};
pub use loaded::{Loaded, Stored, load};
pub use slot_commit::{SlotCommit, slot_commits_keep_headers, write_slot};
