//! What a new volume is by its header (LUKS2 On-Disk Format Specification 1.1): its metadata, its
//! identifier, and which of the drawn bytes are spent for what, all of it a function of what is
//! wished and of these bytes.
//!
//! The layer above may rely on two definitions. `parts_for` are the metadata: one keyslot, one
//! segment, one digest, which [`make_meta`] makes exactly; they break no rule wherever the
//! keyslot's area fits between the header and the data, and the disk has a block behind the data's
//! offset, [`new_metadata_break_no_rule`]; so it is for a header with a disk of its own, where the
//! keyslots area ends on that disk. `drawn_by` deals the drawn bytes out, in one order, and
//! [`split_drawn`] spends each of them once. Nothing is drawn here.
//!
//! `format_disk` makes all that is written of a new volume, and writes it by six device calls.
#![tactic(auto)]

mod drawn;
mod format_disk;
mod identifier;
mod laws;
mod metadata;
mod wish;

pub use drawn::{Drawn, drawn_len, split_drawn};
pub use format_disk::{
    FormatFault, NewVolume, make_volume, new_volumes_are_opened, new_volumes_are_written,
    new_volumes_fit_their_disk, new_volumes_leave_the_rest, write_volume,
};
pub use identifier::{identifier_field, identifier_for};
pub use laws::{new_metadata_break_no_rule, new_volumes_take_the_lowest_place};
pub use metadata::make_meta;
pub use wish::Wish;
