//! The JSON area of a LUKS2 header (LUKS2 On-Disk Format, version 1.1, section 3): a text becomes
//! the metadata that it holds, or the first fault in it with its path, and metadata become a text
//! again. Members that the format gives no name are kept as they were read, and written again.
//!
//! The layer above may rely on one definition, `meta_from`: the metadata that a text is, or its
//! first fault; beside it stands for each object which members it has, of which form. `Meta::read`
//! gives exactly that. And it may rely on `Meta::write`: what is written is read as the same
//! metadata. Both are of the trait [`JsonText`].
#![tactic(auto)]

mod config;
mod digest;
mod entries;
mod iterations;
mod keyslot;
mod laws;
mod luks2;
mod meta;
mod reencrypt;
mod segment;
mod token;

pub use laws::{metadata_are_read_by_form, objects_are_read_by_form};
pub use meta::JsonText;
pub use reencrypt::AreaType;
pub use segment::SegmentType;
