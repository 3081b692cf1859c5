//! The ciphers of LUKS2 segments, over whole sectors as a disk holds them.
//!
//! A [`Context`] is a cipher with its keys, made once from the name in a segment's `encryption`
//! ([`Spec`]) and the volume key. It seals and unseals whole sectors where they lie, and takes no
//! memory. The IV number of a sector counts units of 512 bytes, also where sectors are larger: the
//! second sector of 4096 bytes has the first one's number and 8. [`seal_many`] and [`unseal_many`]
//! do so for many atoms, in parts that threads work on, by any cipher of sectors.
//!
//! The names known are `aes-xts-plain64` (IEEE 1619) and `aes-cbc-essiv:sha256`; a linear context
//! changes nothing. `specs/Context.antt` has their definitions, down to AES (FIPS 197), and each
//! context is proved equal to its own. The layer above needs none of them: to it a context is what
//! it makes of bytes and the laws of [`SectorCipher`](cipher_laws::SectorCipher).
#![tactic(auto)]

pub use aes_core::KeyLength;
pub use context::Context;
pub use disk::DiskCipher;
pub use spec::{Spec, UnknownCipher};

mod context;
mod disk;
mod keys;
mod spec;
