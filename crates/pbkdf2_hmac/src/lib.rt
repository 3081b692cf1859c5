//! Message authentication and key derivation over SHA-2: HMAC as RFC 2104 defines it, and PBKDF2
//! as RFC 8018 defines it, with HMAC as its pseudorandom function. These are the functions that a
//! LUKS2 header names `sha256` and `sha512` in its keyslots and digests. The layer above may rely
//! on each result being the standard's, byte for byte: `hmac` gives the digest of two
//! concatenations, and `derive` the exclusive or of the chain of iterates of each output block.
//!
//! The two padded blocks of a password are hashed once per call, and their hash states copied, so
//! that a round costs two compressions and not four. No call takes memory from an allocator.
#![tactic(auto)]

ghost use Rattle.std.specs.Prelude.{◌≡◌, ◌≤◌, ◌++◌, length};
ghost use Rattle.pbkdf2_hmac.specs.Hashes.{digest_len, digest_of};
ghost use Rattle.pbkdf2_hmac.specs.Hmac.{hmac_of};
ghost use Rattle.pbkdf2_hmac.specs.Pbkdf2.{derived_key};

use hasher::Hasher;
use keyed::Keyed;
use sha2::{Sha256, Sha512};

mod blocks;
mod bytes;
mod hasher;
mod keyed;

pub use bytes::xor_into;

/// The most rounds that `derive` takes.
pub const MOST_ROUNDS: u32 = 268_435_456;

/// The most bytes that `derive` makes.
pub const MOST_BYTES: usize = 512;

/// A hash function of FIPS 180-4.
#[derive(Clone, Copy, PartialEq, Eq)]
pub enum Hash {
    /// SHA-256: digests of 32 bytes, blocks of 64.
    Sha256,
    /// SHA-512: digests of 64 bytes, blocks of 128.
    Sha512,
}

impl Hash {
    /// The length of a digest in bytes.
    pub fn digest_len(self) -> usize
        ensures { result ≡ digest_len self }
    {
        match self {
            Hash::Sha256 => 32,
            Hash::Sha512 => 64,
        }
    }

    /// Writes the digest of `head` followed by `body` into `out`, which has a digest's length
    /// (FIPS 180-4, section 6).
    pub fn digest(self, head: &[u8], body: &[u8], out: &mut [u8])
        requires { length out.old ≡ digest_len self }
        ensures { out.new ≡ digest_of self (head.now ++ body.now) }
    {
        match self {
            Hash::Sha256 => hasher::digest::<Sha256>(head, body, out),
            Hash::Sha512 => hasher::digest::<Sha512>(head, body, out),
        }
    }
}

/// Writes HMAC of `text` under `key` into `out`, which has a digest's length (RFC 2104, section 2).
/// A key of any length will do: one longer than the hash's block is hashed first.
pub fn hmac(hash: Hash, key: &[u8], text: &[u8], out: &mut [u8])
    requires { length out.old ≡ digest_len hash }
    ensures { out.new ≡ hmac_of hash key.now text.now }
{
    match hash {
        Hash::Sha256 => Keyed::<Sha256>::new(key).tag(text, out),
        Hash::Sha512 => Keyed::<Sha512>::new(key).tag(text, out),
    }
}

/// Fills `out` with the key that PBKDF2 derives from a password and a salt, both of any length, in
/// `rounds` rounds (RFC 8018, section 5.2). `out` has 1 to `MOST_BYTES` bytes.
pub fn derive(hash: Hash, pass: &[u8], salt: &[u8], rounds: u32, out: &mut [u8])
    requires some_rounds { 1 ≤ rounds }
    requires most_rounds { rounds ≤ MOST_ROUNDS }
    requires some_bytes { 1 ≤ length out.old }
    requires most_bytes { length out.old ≤ MOST_BYTES }
    ensures { out.new ≡ derived_key hash pass.now salt.now rounds (length out.old) }
{
    match hash {
        Hash::Sha256 => blocks::fill::<Sha256>(&Keyed::new(pass), salt, rounds, out),
        Hash::Sha512 => blocks::fill::<Sha512>(&Keyed::new(pass), salt, rounds, out),
    }
}
