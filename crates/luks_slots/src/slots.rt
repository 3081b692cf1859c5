// Which keyslots a passphrase is tried on, and why it isn't on the others.

ghost use Rattle.std.specs.Prelude.{◌≡◌, ◌≤◌, ◌&&◌, ◌||◌, not, IfOk, IfSome, IsTrue};
ghost use Rattle.std.specs.List.{list_all};
ghost use Rattle.luks_rules.specs.References.{lists};
ghost use Rattle.luks_slots.specs.Functions.{has_key_length};
ghost use Rattle.luks_slots.specs.Slots.{fits, functions_for, has_room, has_sizes, HasSizes};
ghost use Rattle.luks_slots.specs.Slots.{is_ignored, is_ranked, refusal_of, takes_key};
ghost use Rattle.luks_slots.specs.Unlocks.{refusals, refused};

use crate::fault::Refusal;
use crate::functions::{Functions, cipher_spec, named_functions};
use crate::kinds::kind_by;
use luks_meta::{Derivation, Digest, Encryption, Keyslot, Luks2, Parts, Priority, Segment};
use luks_rules::lists_number;
use sector_cipher::Spec;
use std::alloc::{AllocError, Global};

/// The stripes of a key.
pub(crate) const STRIPES: usize = 4000;

/// Whether a cipher has keys of so many bytes.
fn has_keys(cipher: Spec, bytes: u64) -> bool
    ensures { result ≡ has_key_length cipher bytes }
{
    match cipher {
        Spec::AesXtsPlain64 => bytes == 32 || bytes == 64,
        Spec::AesCbcEssivSha256 => bytes == 16 || bytes == 32,
    }
}

fn takes(bytes: u64, encryption: &Option<Encryption>) -> bool
    ensures { result ≡ takes_key bytes encryption.now }
{
    match encryption {
        Some(encryption) => has_keys(cipher_spec(encryption.cipher), bytes),
        None => true,
    }
}

/// Whether a key of so many bytes is one for each segment that a digest lists.
fn fits_segments(segments: &[(u64, Segment)], digest: &Digest, bytes: u64) -> bool
    ensures { result
        ≡ list_all (λ s. not (lists digest.now.segments s.0) || takes_key bytes s.1.encryption)
        segments.now }
{
    segments.iter().all(|segment| {
        !lists_number(digest.segments.as_slice(), segment.0) || takes(bytes, &segment.1.encryption)
    })
}

#[tactic(auto, unfolding(crate::specs::Slots::fits))]
fn fits_key(parts: &Parts, digest: &Digest, bytes: u64) -> bool
    ensures is { result ≡ fits parts.now digest.now bytes }
    ensures some { IsTrue result → 1 ≤ bytes }
    ensures most { IsTrue result → bytes ≤ 64 }
{
    1 <= bytes && bytes <= 64 && fits_segments(parts.segments.as_slice(), digest, bytes)
}

fn have_room(slot: &Luks2) -> bool
    requires { slot.now.key_size ≤ 64 }
    ensures { result ≡ has_room slot.now }
{
    slot.af.stripes == STRIPES as u64 && slot.key_size * STRIPES as u64 <= slot.area.size
}

fn have_sizes(parts: &Parts, digest: &Digest, slot: &Luks2, functions: Functions) -> bool
    ensures { result ≡ has_sizes parts.now digest.now slot.now functions }
{
    if !has_keys(functions.cipher, slot.area.key_size) {
        return false;
    }
    if !fits_key(parts, digest, slot.key_size) {
        return false;
    }
    have_room(slot)
}

/// By which functions a keyslot is opened; by none where it isn't supported for a digest.
#[tactic(auto, unfolding(crate::specs::Slots::functions_for))]
pub(crate) fn opening_functions(parts: &Parts, digest: &Digest, slot: &Luks2) -> Option<Functions>
    ensures is { result ≡ functions_for parts.now digest.now slot.now }
    ensures sizes { IfSome result (λ functions. HasSizes parts.now digest.now slot.now functions) }
{
    let Derivation::Pbkdf2(kdf) = &slot.kdf.derivation else {
        return None;
    };
    let Some(functions) = named_functions(kdf, slot) else {
        return None;
    };
    if have_sizes(parts, digest, slot, functions) {
        Some(functions)
    } else {
        None
    }
}

fn ignores(priority: &Option<Priority>) -> bool
    ensures { result ≡ is_ignored priority.now }
{
    match priority {
        Some(Priority::Ignore) => true,
        Some(Priority::Normal) | Some(Priority::High) | None => false,
    }
}

/// Whether a keyslot is tried among those of this priority.
pub(crate) fn has_rank(rank: Priority, priority: &Option<Priority>) -> bool
    ensures { result ≡ is_ranked rank priority.now }
{
    match (rank, priority) {
        (Priority::High, Some(Priority::High)) => true,
        (Priority::Normal, Some(Priority::Normal)) => true,
        (Priority::Normal, None) => true,
        _ => false,
    }
}

/// The first reason not to try the keyslot with this number.
#[tactic(auto, unfolding(crate::specs::Slots::refusal_of))]
fn refuse(parts: &Parts, digest: &Digest, number: u64, slot: &Luks2) -> Option<Refusal>
    ensures { result ≡ refusal_of parts.now digest.now number slot.now }
{
    if !lists_number(digest.keyslots.as_slice(), number) {
        return Some(Refusal::NotAssigned);
    }
    if ignores(&slot.priority) {
        return Some(Refusal::Priority);
    }
    match opening_functions(parts, digest, slot) {
        Some(_) => None,
        None => Some(Refusal::Unsupported(kind_by(&slot.kdf.derivation))),
    }
}

/// Why a keyslot gave no key, if a passphrase might open it.
fn refuse_entry(parts: &Parts, digest: &Digest, entry: &(u64, Keyslot)) -> Option<(u64, Refusal)>
    ensures { result ≡ refused parts.now digest.now entry.now }
{
    let Keyslot::Luks2(slot) = &entry.1 else {
        return None;
    };
    match refuse(parts, digest, entry.0, slot) {
        Some(refusal) => Some((entry.0, refusal)),
        None => Some((entry.0, Refusal::DigestDiffers)),
    }
}

/// Why each keyslot that a passphrase might open gave no key.
#[tactic(auto, unfolding(crate::specs::Unlocks::refusals))]
pub(crate) fn list_refusals(
    alloc: Global,
    parts: &Parts,
    digest: &Digest,
) -> Result<Vec<(u64, Refusal)>, AllocError>
    ensures { IfOk result (λ list. list.items ≡ refusals parts.now digest.now) }
{
    parts
        .keyslots
        .as_slice()
        .iter()
        .filter_map(|entry| refuse_entry(parts, digest, entry))
        .collect(alloc)
}
