//! The keyslots of a LUKS2 volume that a passphrase opens (LUKS2 On-Disk Format 1.1, sections 3.2,
//! 3.5 and 4). A keyslot's area holds the stripes of a volume key, sealed under what PBKDF2 derives
//! from a passphrase; a digest tells whether what they merge to is the key.
//!
//! The layer above may rely on one definition, `key_of`: the key that a disk's bytes give to a
//! passphrase for a digest, or none. [`unlock`] answers exactly that, and writes nothing. Where
//! there is none it tells of each keyslot why it gave none. What [`add`] makes is a keyslot that
//! its passphrase opens to the key handed in, wherever its bytes stand at its place, which is the
//! lowest one with room ([`find_gap`]); [`slot_at`] makes the same at a place that the caller
//! gives. Both draw nothing and write nothing.
//!
//! Argon2 isn't known here: such a keyslot is kept, and never opened.
//!
//! `new_keys` says which of the drawn bytes are spent for a new key, and makes its digest.
#![tactic(auto)]

mod fault;
mod functions;
mod gap;
mod key;
mod key_digest;
mod kinds;
mod laws;
mod new_keys;
mod new_slot;
mod passphrase;
mod slots;
mod stripes;

pub use fault::{Refusal, SlotFault};
pub use functions::cipher_spec;
pub use gap::find_gap;
pub use key::Key;
pub use key_digest::{FEWEST_DIGEST_BYTES, MOST_DIGEST_BYTES, derive_digest, is_key_of};
pub use kinds::{SlotKind, holders};
pub use laws::{keys_are_behind_headers, keys_are_in_areas};
pub use new_keys::{Drawn, drawn_len, make_digest, split_drawn};
pub use new_slot::{NewSlot, add, area_size, slot_at, slot_object};
pub use passphrase::unlock;
