//! The binary header of a LUKS2 volume and the JSON area behind it, as bytes (LUKS2 On-Disk Format
//! Specification 1.1, section 2).
//!
//! A volume has two copies of its header: the primary at its first byte, the secondary right behind
//! it, at a place that equals the header's size. A copy is a binary header of 4096 bytes and the
//! JSON area, and has one of nine sizes. [`read_copy`] takes exactly the bytes that begin with a
//! copy of the place where they stand, and says of all others what is wrong with them first;
//! [`write_copy`] writes a copy that reads back as the same header, and [`move_copy`] makes of one
//! copy that of another place. No call takes memory, and none looks into the JSON text.
//!
//! The layer above may rely on `specs/Copies.antt`: `copy_of` is the header that bytes are, or
//! their first fault, and [`copies_are_spelt`] says in plain words which bytes are a copy.
#![tactic(auto)]

mod areas;
mod comparing;
mod fields;
mod header;
mod hidden;
mod laws;
mod reading;
mod writing;

pub use areas::json_text;
pub use comparing::first_difference;
pub use header::{BinFault, BinHeader, HEADER_SIZES, is_header_size};
pub use hidden::hides_copy;
pub use laws::{copies_are_spelt, copies_are_their_fronts, sizes_are_told_by_heads};
pub use reading::{read_copy, read_size};
pub use writing::{move_copy, write_copy};
