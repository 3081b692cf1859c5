//! The block cipher AES (FIPS 197), with keys of 16 and 32 bytes.
//!
//! [`Aes::new`] expands a key once; then `seal` and `unseal` of the trait `BlockCipher` change a
//! block of 16 bytes where it lies. The definition, in `specs/`, is the standard's: the field
//! GF(2^8), the S-box by inverse and affine map, the four transformations of the state, the key
//! expansion, Cipher and InvCipher. The code is proved to compute it for every key and block, and
//! the trait's laws, that unsealing undoes sealing and sealing undoes unsealing, are proved of it
//! too. No call takes memory.
//!
//! Eight blocks are worked on at once, in eight bit planes: plane i has bit i of each of their
//! bytes. The S-box is a circuit of sums and products of planes, for the key expansion too, and a
//! block alone runs the circuit of eight. So no table is read at a place, and no branch is taken,
//! that depends on a key or on data, which can be read off the code: constant time is no part of
//! what is proved, and rests on the compiler.
#![tactic(auto)]

pub use cipher::{Aes, KeyLength};

mod cipher;
mod columns;
mod inversion;
mod key_schedule;
mod plane;
mod planes;
mod s_box;
mod transposition;
