//! The metadata of a LUKS2 header (LUKS2 On-Disk Format, version 1.1, section 3): its keyslots,
//! tokens, segments, digests and config, as types. Members that the format gives no name are kept as
//! they were read. How they are read from a JSON text, and written as one, is no matter here.
//!
//! The layer above may rely on a [`Meta`] having a text: its numbers fit, and what it keeps beside
//! the named members has none of their names, and is nested no deeper than a text may be.
#![tactic(auto)]

mod config;
mod digest;
mod keyslot;
mod luks2;
mod meta;
mod names;
mod reencrypt;
mod segment;
mod token;

pub use config::{Config, PROFILE, Requirements};
pub use digest::Digest;
pub use keyslot::{
    Derivation, Kdf, Keyslot, Luks2, Origin, OtherArea, OtherSlot, Pbkdf2, Priority, SlotArea,
    SlotType, Splitter,
};
pub use meta::{Meta, Parts};
pub use names::{Cipher, Hash};
pub use reencrypt::{Direction, Mode, Reencrypt, ReencryptArea, Resilience};
pub use segment::{Encryption, Segment, SegmentSize};
pub use token::Token;
