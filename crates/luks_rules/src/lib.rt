//! The rules that the objects of a LUKS2 header keep among themselves and towards the disks that
//! they speak of. The LUKS2 On-Disk Format (version 1.1, section 3) says which objects there are;
//! which of them belong together, and where areas and segments may lie, is said here. There are
//! eleven rules in one order, those of every header and then those of a conversion that is under
//! way, each a test of its own with a law that says it in plain words.
//!
//! The layer above may rely on `check`: metadata that break no rule become a `Valid`, and any other
//! are answered by exactly the first rule that they break. Of a `Valid` it may rely on `is_sound`:
//! areas share no byte and lie within bounds, segments lie on the disk in whole atoms, each crypt
//! segment has its one digest; the one segment of a volume that isn't being converted, with its
//! blocks, is what `idle` tells, and the live segments of a conversion are the parts of the old and
//! of the new one that `progress` tells. So it never looks into the objects for them.
#![tactic(auto)]

mod areas;
mod conversions;
mod extents;
mod fault;
mod foreign;
mod idle;
mod laws;
mod multiples;
mod overlaps;
mod plan;
mod references;
mod room;
mod rules;
mod segments;
mod shape;
mod valid;

pub use areas::{Area, list_areas};
pub use base_terms::Sizes;
pub use conversions::Conversion;
pub use extents::{Extent, Mark};
pub use fault::{CheckError, RuleFault};
pub use idle::Idle;
pub use laws::{
    conversions_are_shaped, rules_are_plain, shapes_are_choices, sound_metadata_are_valid,
};
pub use overlaps::overlaps_are_shared_bytes;
pub use plan::Plan;
pub use references::lists_number;
pub use shape::Progress;
pub use valid::{Checked, Valid, check};
