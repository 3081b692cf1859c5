// The functions that a keyslot names.

ghost use Rattle.std.specs.Prelude.{◌≡◌};
ghost use Rattle.luks_slots.specs.Functions.{cipher_in, functions_of, hash_in, named_cipher};
ghost use Rattle.luks_slots.specs.Functions.{named_hash};

use luks_meta::{Cipher, Luks2, Pbkdf2};
use pbkdf2_hmac::Hash;
use sector_cipher::Spec;

/// By which functions a passphrase opens a keyslot.
#[derive(Clone, Copy, PartialEq, Eq)]
pub struct Functions {
    /// The hash of PBKDF2, by which the area's key is derived.
    pub kdf: Hash,
    /// The cipher of the area.
    pub cipher: Spec,
    /// The hash of the anti-forensic split.
    pub af: Hash,
}

/// The function of a hash that a header names.
pub(crate) fn hash_function(hash: luks_meta::Hash) -> Hash
    ensures { result ≡ named_hash hash }
{
    match hash {
        luks_meta::Hash::Sha256 => Hash::Sha256,
        luks_meta::Hash::Sha512 => Hash::Sha512,
    }
}

/// The cipher of sectors that a header names.
pub fn cipher_spec(cipher: Cipher) -> Spec
    ensures { result ≡ named_cipher cipher }
{
    match cipher {
        Cipher::AesXtsPlain64 => Spec::AesXtsPlain64,
        Cipher::AesCbcEssivSha256 => Spec::AesCbcEssivSha256,
    }
}

fn hash_named(name: &str) -> Option<Hash>
    ensures { result ≡ hash_in name.now }
{
    match luks_meta::Hash::of_name(name) {
        Some(hash) => Some(hash_function(hash)),
        None => None,
    }
}

fn cipher_named(name: &str) -> Option<Spec>
    ensures { result ≡ cipher_in name.now }
{
    match Cipher::of_name(name) {
        Some(cipher) => Some(cipher_spec(cipher)),
        None => None,
    }
}

/// Those that a keyslot names, where each is known.
#[tactic(auto, unfolding(crate::specs::Functions::functions_of))]
pub(crate) fn named_functions(kdf: &Pbkdf2, slot: &Luks2) -> Option<Functions>
    ensures { result ≡ functions_of kdf.now slot.now }
{
    let hash = hash_named(kdf.hash.as_str());
    let cipher = cipher_named(slot.area.encryption.as_str());
    let af = hash_named(slot.af.hash.as_str());
    match (hash, cipher, af) {
        (Some(kdf), Some(cipher), Some(af)) => Some(Functions { kdf, cipher, af }),
        _ => None,
    }
}
