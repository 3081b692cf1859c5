//! The opening of the encrypted volume on a disk by a passphrase (LUKS2 On-Disk Format
//! Specification 1.1, sections 2, 3.2 and 5).
//!
//! The layer above may rely on `IsOpenedBy`: what the disk held when it was handed in stands, under
//! the passphrase, for one content, and the volume is one from which runs start as from the plain
//! disk that holds this content for certain. The header is read, then the keyslots, and then
//! `reenc_recovery` opens the volume under the key that they gave. Where none is opened the disk is
//! handed back, with why. And on `StandsAlong`: wherever a run of such a volume stops, each image
//! stands by itself for an allowed content, under the same passphrase, and nothing is being
//! converted by its header, as [`standing_volumes_are_opened`] asks of what is opened.
//!
//! [`read_header`] and [`find_key`] are calls of their own, for those who do something else with the
//! volume than open it.
#![tactic(auto)]

mod laws;
mod notices;
mod opening;
mod refusal;
mod standing;

pub use laws::opened_volumes_stand_along;
pub use notices::note_repair;
pub use opening::{find_key, open_by_passphrase, read_header};
pub use refusal::{Refusal, Unopened};
pub use standing::standing_volumes_are_opened;
