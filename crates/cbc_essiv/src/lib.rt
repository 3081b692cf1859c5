//! CBC with the IV of ESSIV, over any block cipher.
//!
//! A sector is sealed block by block, each block xored with the sealed block before it (NIST
//! SP 800-38A, 6.2). The first is xored with the sector's initialization vector (IV), which is the
//! sector's number, encrypted under a key of its own, so that nobody foresees it. In the disk
//! cipher `aes-cbc-essiv:sha256` that key is the SHA-256 of the data key; here it is whatever
//! cipher is handed in.
//!
//! `specs/Cbc.antt` has the definition, and [`CbcEssiv`] is proved equal to it, for every sector,
//! number and pair of ciphers. The layer above may rely on that and on the laws of
//! [`SectorMode`](cipher_laws::SectorMode).
#![tactic(auto)]

pub use mode::CbcEssiv;

mod chain;
mod mode;
mod side_by_side;
