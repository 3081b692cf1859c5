//! XTS, the mode of IEEE 1619, over any block cipher.
//!
//! A sector is sealed block by block. Each block has a tweak, which is xored to it before and after
//! the data cipher works on it: the first block's is the sector's number, encrypted under a second
//! key, and each other block's is the one before, doubled in the field of 2^128 elements. Sectors
//! are whole blocks here, so no last block borrows from its neighbour (the standard's ciphertext
//! stealing).
//!
//! `specs/Xts.antt` has the definition, and [`Xts`] is proved equal to it, for every sector, number
//! and pair of ciphers. The layer above may rely on that and on the laws of
//! [`SectorMode`](cipher_laws::SectorMode).
#![tactic(auto)]

pub use mode::Xts;

mod mode;
mod sector;
mod tweak;
