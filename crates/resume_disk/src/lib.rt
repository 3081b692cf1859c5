//! A conversion on a disk that is led to its end: the volume of which it is under way is opened, and
//! zone after zone is converted (LUKS2 On-Disk Format Specification 1.1, sections 2, 3 and 5).
//!
//! The layer above may rely on [`resume_conversion`]. The header is read, and the keyslots give the
//! keys of both sides to the passphrase; then [`open_conversion`] opens the volume, by which a zone
//! that a stop left open is written again, and `volume_core` leads the conversion on. By
//! `IsFinishedBy` every block is new once it is at its end, by a header that converts nothing, and
//! each call that was made since is one of the opening or of a step of the volume's worker. Else it
//! says why it isn't at its end: what was refused, or how the worker ended. The disk is handed back,
//! whatever is answered. [`standing_conversions_end`]: where the bytes of the disk stand for a content
//! under the passphrase, and no device call failed, only memory, or what a header or a checksum has no
//! room for, keeps it from its end.
//!
//! [`take_up_conversion`] is what of that comes before the first zone: it opens the volume, for those
//! who do something else with it than lead its conversion to the end. By `IsOpenedMidway` it is the volume
//! of the header that the disk has, under the keys that its keyslots give to the passphrase, in order
//! and with nothing under way. [`find_side_keys`] finds those keys.
//!
//! `midway` opens a volume under way by keys at hand; its parts are public calls for those who have
//! more to check.
#![tactic(auto)]

mod midway;
mod refusal;
mod resuming;
mod standing;
mod taking;
mod unlocking;

pub use midway::{
    Begun, ConversionCause, ConversionFault, Course, check_conversion, find_sides, make_steps,
    open_conversion,
};
pub use refusal::{Finished, Halted, Refusal, Refused, Unfinished};
pub use resuming::resume_conversion;
pub use standing::{standing_conversions_are_led_on, standing_conversions_end};
pub use taking::take_up_conversion;
pub use unlocking::find_side_keys;
