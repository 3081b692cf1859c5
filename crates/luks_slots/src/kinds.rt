// Of which kinds keyslots are, and which of them hold the key of a digest.

ghost use Rattle.std.specs.Prelude.{◌≡◌, IfOk};
ghost use Rattle.luks_slots.specs.Kinds.{held_by, holders, kind_by, kind_named, kind_of};

use luks_meta::{Derivation, Digest, Keyslot, Parts};
use luks_rules::lists_number;
use std::alloc::{AllocError, Global};

/// Of which kind a keyslot is: by its type, and where a passphrase opens it by the function that
/// derives its key.
#[derive(Clone, Copy, Debug, PartialEq, Eq)]
pub enum SlotKind {
    /// A passphrase opens it by PBKDF2.
    Pbkdf2,
    /// By Argon2i.
    Argon2i,
    /// By Argon2id.
    Argon2id,
    /// By another function.
    OtherDerivation,
    /// It is of a conversion.
    Reencrypt,
    /// It is of another type.
    Other,
}

fn kind_named(name: &str) -> SlotKind
    ensures { result ≡ kind_named name.now }
{
    if name == "argon2i" {
        SlotKind::Argon2i
    } else if name == "argon2id" {
        SlotKind::Argon2id
    } else {
        SlotKind::OtherDerivation
    }
}

/// The kind of a keyslot that a passphrase opens, by how its key is derived.
pub(crate) fn kind_by(derivation: &Derivation) -> SlotKind
    ensures { result ≡ kind_by derivation.now }
{
    match derivation {
        Derivation::Pbkdf2(_) => SlotKind::Pbkdf2,
        Derivation::Unknown(name) => kind_named(name.as_str()),
    }
}

fn kind_of(slot: &Keyslot) -> SlotKind
    ensures { result ≡ kind_of slot.now }
{
    match slot {
        Keyslot::Luks2(slot) => kind_by(&slot.kdf.derivation),
        Keyslot::Reencrypt(_) => SlotKind::Reencrypt,
        Keyslot::Unknown(_) => SlotKind::Other,
    }
}

/// A keyslot that a digest lists, by its number and its kind.
fn held_by(digest: &Digest, slot: &(u64, Keyslot)) -> Option<(u64, SlotKind)>
    ensures { result ≡ held_by digest.now slot.now }
{
    if lists_number(digest.keyslots.as_slice(), slot.0) {
        Some((slot.0, kind_of(&slot.1)))
    } else {
        None
    }
}

/// The keyslots that hold the key of a digest, by rising number.
#[tactic(auto, unfolding(crate::specs::Kinds::holders))]
pub fn holders(
    alloc: Global,
    parts: &Parts,
    digest: &Digest,
) -> Result<Vec<(u64, SlotKind)>, AllocError>
    ensures { IfOk result (λ list. list.items ≡ holders parts.now digest.now) }
{
    parts
        .keyslots
        .as_slice()
        .iter()
        .filter_map(|slot| held_by(digest, slot))
        .collect(alloc)
}
