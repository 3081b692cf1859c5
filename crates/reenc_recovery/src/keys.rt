// The keys of a volume's sides, and the ciphers of its segments under them.

ghost use Rattle.std.specs.Prelude.{◌≡◌, ◌≢◌, ◌⊎◌, ℕ, true, false, List, [], length, Some};
ghost use Rattle.std.specs.Prelude.{IfOk, IfErr, IfSome, IsSome, MatchResult};
ghost use Rattle.luks_meta.specs.Names.{is_iterations};
ghost use Rattle.luks_meta.specs.Segments.{is_sector_size};
ghost use Rattle.luks_meta.specs.declared.digest.Digest.{Digest as digest_type};
ghost use Rattle.luks_rules.specs.References.{value_at};
ghost use Rattle.luks_rules.specs.States.{IsUnder};
ghost use Rattle.luks_slots.specs.Functions.{named_cipher};
ghost use Rattle.luks_slots.specs.Unlocks.{matches};
ghost use Rattle.reenc_recovery.specs.Causes.{IsNoKey, IsRefused};
ghost use Rattle.reenc_recovery.specs.Keys.{IsCipherOf, IsKeyOf, used_by};
ghost use Rattle.reenc_recovery.specs.declared.fault.OpenCause.TheVariants.{KeyDiffers, Memory};
ghost use Rattle.sector_cipher.specs.declared.spec.Spec.{Spec as spec_type};

use crate::fault::OpenCause;
use base_terms::Bytes;
use cipher_laws::SectorCipher;
use luks_meta::{Digest, Encryption};
use luks_rules::{Extent, Valid};
use luks_slots::{
    FEWEST_DIGEST_BYTES, Key, MOST_DIGEST_BYTES, cipher_spec, derive_digest, is_key_of,
};
use sector_cipher::Context;
use std::alloc::{AllocError, Global};

/// The keys of a volume's sides, as its keyslots gave them. A linear side has none; a volume of
/// which nothing is being converted has its key in `new`, and of it `old` is never looked at.
#[derive(Drop)]
pub struct SideKeys {
    pub old: Option<Key>,
    pub new: Option<Key>,
}

/// That a key isn't the one of a digest, with copies of what was computed and of what is stored.
fn refuse_key(alloc: Global, computed: &[u8], digest: &Digest) -> OpenCause
    ensures { (result ≡ Memory) ⊎ (result ≡ KeyDiffers computed.now digest.now.digest) }
{
    match copy_both(alloc, computed, digest.digest.as_slice()) {
        Ok((computed, stored)) => OpenCause::KeyDiffers { computed, stored },
        Err(_) => OpenCause::Memory,
    }
}

fn copy_both(alloc: Global, one: &[u8], other: &[u8]) -> Result<(Bytes, Bytes), AllocError>
    ensures { IfOk result (λ both. (both.0 ≡ one.now) × (both.1 ≡ other.now)) }
{
    let one = Vec::from_slice(alloc, one)?;
    let other = Vec::from_slice(alloc, other)?;
    Ok((Bytes::new(one), Bytes::new(other)))
}

/// That a key isn't the one of a digest, with what PBKDF2 makes of it, or with nothing where the
/// digest has a length that no key's digest has.
#[tactic(auto, unfolding(luks_slots::specs::Unlocks::matches))]
fn refuse_other(alloc: Global, digest: &Digest, key: &Key) -> OpenCause
    requires rounds { is_iterations digest.now.iterations ≡ true }
    requires other { matches digest.now key.now ≡ false }
    ensures { (spec : spec_type) → IsRefused digest.now spec (Some key.now) result }
{
    let stored = digest.digest.as_slice();
    if stored.len() < FEWEST_DIGEST_BYTES || MOST_DIGEST_BYTES < stored.len() {
        return refuse_key(alloc, &[], digest);
    }
    let mut made = [0; MOST_DIGEST_BYTES];
    let made = &mut made[..stored.len()];
    derive_digest(digest, key, made);
    refuse_key(alloc, made, digest)
}

/// The cipher of a segment that is encrypted so, under the key of this digest.
fn cipher_under(
    alloc: Global,
    encryption: &Encryption,
    digest: &Digest,
    key: &Option<Key>,
) -> Result<Context, OpenCause>
    requires rounds { is_iterations digest.now.iterations ≡ true }
    requires sector { is_sector_size encryption.now.sector_size ≡ true }
    ensures cipher { IfOk result (IsCipherOf ⟦<Context as SectorCipher>⟧.sector
        ⟦<Context as SectorCipher>⟧.sealed ⟦<Context as SectorCipher>⟧.opened
        (Some encryption.now) (used_by (Some encryption.now) key.now)) }
    ensures key { IfOk result
        (λ _. matches digest.now (used_by (Some encryption.now) key.now) ≡ true) }
    ensures refused { IfErr result (λ cause. IsRefused digest.now
        (named_cipher encryption.now.cipher) key.now cause) }
{
    let Some(key) = key else {
        return Err(refuse_key(alloc, &[], digest));
    };
    let spec = cipher_spec(encryption.cipher);
    if !spec.has_key_length(key.as_slice().len()) {
        return Err(refuse_key(alloc, &[], digest));
    }
    if !is_key_of(digest, key) {
        return Err(refuse_other(alloc, digest, key));
    }
    match Context::new(spec, key.as_slice(), encryption.sector_size as u32) {
        Ok(context) => Ok(context),
        Err(_) => unreachable!(),
    }
}

/// The cipher of a segment under the key that was handed in for it, which must be the one of the
/// segment's digest. A linear segment has the cipher that changes nothing, and no key.
///
/// # Errors
///
/// The key isn't the one of the digest, or there is none: `KeyDiffers`; or memory was wanted.
pub fn segment_cipher(
    alloc: Global,
    valid: &Valid,
    segment: &Extent,
    key: &Option<Key>,
) -> Result<Context, OpenCause>
    requires sector { IfSome segment.now.encryption (λ e. is_sector_size e.sector_size ≡ true) }
    requires digest { IsSome segment.now.encryption → (n : ℕ) × (d : digest_type)
        × IsUnder valid.now.meta segment.now n d }
    ensures cipher { IfOk result (IsCipherOf ⟦<Context as SectorCipher>⟧.sector
        ⟦<Context as SectorCipher>⟧.sealed ⟦<Context as SectorCipher>⟧.opened
        segment.now.encryption (used_by segment.now.encryption key.now)) }
    ensures key { IfOk result
        (λ _. IsKeyOf valid.now.meta segment.now (used_by segment.now.encryption key.now)) }
    ensures refused { IfErr result (IsNoKey valid.now.meta segment.now key.now) }
{
    let Some(encryption) = &segment.encryption else {
        return Ok(Context::linear());
    };
    let Some(number) = segment.digest else {
        unreachable!()
    };
    let Some(digest) = valid.digest(number) else {
        unreachable!()
    };
    cipher_under(alloc, encryption, digest, key)
}
