// What a conversion changes of a volume besides its key, for people.

use crate::Wish;
use gates::Gate;
use luks_meta::{Derivation, Digest, Encryption, Keyslot, Parts};
use luks_rules::{Valid, lists_number};
use luks_slots::Key;
use std::alloc::{AllocError, Global};

/// Tells the gate a line, where there is memory for it.
fn tell<G: Gate>(gate: &G, line: Result<String, AllocError>) {
    if let Ok(line) = line {
        gate.notify(line.as_str());
    }
}

/// The rounds of PBKDF2 of a keyslot that a digest lists; 0 of any other.
fn rounds_of(digest: &Digest, slot: &(u64, Keyslot)) -> u64 {
    if !lists_number(digest.keyslots.as_slice(), slot.0) {
        return 0;
    }
    let Keyslot::Luks2(opened) = &slot.1 else {
        return 0;
    };
    match &opened.kdf.derivation {
        Derivation::Pbkdf2(kdf) => kdf.iterations,
        Derivation::Unknown(_) => 0,
    }
}

/// The most rounds of a keyslot that a digest lists.
fn most_rounds(parts: &Parts, digest: &Digest) -> u64 {
    let mut most = 0;
    for slot in parts.keyslots.as_slice() {
        most = rounds_of(digest, slot).max(most);
    }
    most
}

/// Says how the new segment is encrypted otherwise than the old one.
fn tell_encryption<G: Gate>(alloc: Global, gate: &G, old: Encryption, wish: &Wish) {
    if old.cipher != wish.cipher {
        let before = old.cipher.name();
        let now = wish.cipher.name();
        tell(
            gate,
            format!(in alloc; "the cipher changes from {before} to {now}"),
        );
    }
    if old.sector_size != u64::from(wish.sector_size) {
        let before = old.sector_size;
        let now = wish.sector_size;
        tell(
            gate,
            format!(in alloc; "the sector size changes from {before} to {now} bytes"),
        );
    }
}

/// Says in one line each what the conversion that is wished changes of a volume besides its key: the
/// cipher, the sizes of the key and of the sectors, and the rounds that a passphrase takes, where
/// there are to be fewer.
pub(crate) fn tell_changes<G: Gate>(
    alloc: Global,
    gate: &G,
    valid: &Valid,
    key: &Option<Key>,
    wish: &Wish,
) {
    let Some(idle) = valid.idle() else {
        return;
    };
    if let Some(old) = idle.segment.encryption {
        tell_encryption(alloc, gate, old, wish);
    }
    if let Some(key) = key {
        let before = key.as_slice().len();
        let now = wish.key_size;
        if before != now as usize {
            tell(
                gate,
                format!(in alloc; "the key size changes from {before} to {now} bytes"),
            );
        }
    }
    let Some(number) = idle.segment.digest else {
        return;
    };
    if let Some(digest) = valid.digest(number) {
        let before = most_rounds(valid.meta().parts(), digest);
        let now = wish.iterations;
        if u64::from(now) < before {
            tell(
                gate,
                format!(in alloc; "the rounds of PBKDF2 fall from {before} to {now}"),
            );
        }
    }
}
