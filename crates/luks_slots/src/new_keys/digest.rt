// The digest of a new key, by which it is told.

ghost use Rattle.std.specs.Prelude.{◌≡◌, ◌<◌, ◌^◌, ℕ, true, IfOk, slice_index};
ghost use Rattle.std.specs.List.{AllByRecursion};
ghost use Rattle.luks_meta.specs.Digests.{IsDigest};
ghost use Rattle.luks_slots.specs.KeyMaking.Digests.{digest_for};
ghost use Rattle.luks_slots.specs.Unlocks.{matches};

use base_terms::bytes_are_below_256;
use json_members::{Object, copy_bytes, copy_numbers};
use luks_meta::{Digest, Hash};
use pbkdf2_hmac::derive;
use std::alloc::{AllocError, Global};

/// The rounds of the digest, and its bytes.
const ROUNDS: u32 = 1000;

const DIGEST: usize = 32;

/// A law, with nothing to run: each number is below 2^64.
fn numbers_have_64_bits(numbers: &[u64])
    ensures { AllByRecursion (λ n. n < 2 ^ 64) numbers.now }
{}

/// The digest, whose bytes are bytes.
#[tactic(auto, unfolding(crate::specs::KeyMaking::Digests::digest_for))]
fn digest_under(
    alloc: Global,
    keyslots: &[u64],
    segments: &[u64],
    key: &[u8],
    salt: &[u8],
) -> Result<Digest, AllocError>
    ensures is { IfOk result
        (λ digest. digest ≡ digest_for keyslots.now segments.now key.now salt.now) }
    ensures bytes { IfOk result (λ digest. (k : ℕ) → slice_index digest.digest k < 256) }
{
    let mut digest = [0; DIGEST];
    derive(pbkdf2_hmac::Hash::Sha256, key, salt, ROUNDS, &mut digest);
    bytes_are_below_256(&digest);
    Ok(Digest {
        keyslots: copy_numbers(alloc, keyslots)?,
        segments: copy_numbers(alloc, segments)?,
        hash: Hash::Sha256,
        iterations: ROUNDS as u64,
        salt: copy_bytes(alloc, salt)?,
        digest: copy_bytes(alloc, &digest)?,
        rest: Object::empty(alloc),
    })
}

/// The digest of a key under a salt, both of any length, for keyslots and segments by their
/// numbers: 32 bytes by PBKDF2 with SHA-256 in 1000 rounds.
///
/// # Errors
///
/// Memory was wanted.
pub fn make_digest(
    alloc: Global,
    keyslots: &[u64],
    segments: &[u64],
    key: &[u8],
    salt: &[u8],
) -> Result<Digest, AllocError>
    ensures is { IfOk result
        (λ digest. digest ≡ digest_for keyslots.now segments.now key.now salt.now) }
    ensures has_text { IfOk result IsDigest }
    ensures matches { IfOk result (λ digest. matches digest key.now ≡ true) }
{
    numbers_have_64_bits(keyslots);
    numbers_have_64_bits(segments);
    bytes_are_below_256(salt);
    let digest = digest_under(alloc, keyslots, segments, key, salt)?;
    Ok(digest)
}
