//! Checksums, one of the ways to keep an open zone of a conversion safe: before the zone's blocks
//! are written anew, the SHA-256 (FIPS 180-4) of each of its old atoms is written into an area of
//! the keyslots area. A digest has 32 bytes, so the area has room for as many blocks as it has
//! whole digests, whatever an atom has. After a stop the digest tells whether the atom in a block's
//! place is still the old one; so a zone is begun only where no new atom has its old one's digest.
//!
//! The layer above may rely on [`save`], whose bytes are the digests in the order of the blocks, on
//! [`clash`], which compares atoms, and on [`clash_by`], which has the old ones' digests, on
//! [`judge`], whose answers [`atoms_are_told`] says to be right, and on [`capacity`] and
//! [`saved_len`], which [`fills_capacity`] ties to each other. [`save`], [`clash`] and [`clash_by`]
//! have threads take parts of the work. No call takes memory.
#![tactic(auto)]

mod digests;
mod judging;
mod parts;

pub use digests::{capacity, fills_capacity, save, saved_len};
pub use judging::{atoms_are_told, clash, clash_by, judge};
