// The digest of a key, by which it is told (LUKS2 On-Disk Format 1.1, section 3.5).

ghost use Rattle.std.specs.Prelude.{◌≡◌, ◌≤◌, true, length};
ghost use Rattle.luks_meta.specs.Names.{is_iterations};
ghost use Rattle.luks_slots.specs.Unlocks.{digest_of, matches};

use crate::functions::hash_function;
use crate::key::Key;
use luks_meta::Digest;
use pbkdf2_hmac::derive;

/// The fewest bytes of a digest that tells a key.
pub const FEWEST_DIGEST_BYTES: usize = 20;

/// The most bytes of a digest that tells a key.
pub const MOST_DIGEST_BYTES: usize = 64;

/// What PBKDF2 makes of a key to be compared with a digest, as many bytes as are wanted. A digest
/// that was read has as many iterations as PBKDF2 may have.
pub fn derive_digest(digest: &Digest, key: &Key, made: &mut [u8])
    requires rounds { is_iterations digest.now.iterations ≡ true }
    requires some { 1 ≤ length made.old }
    requires most { length made.old ≤ 64 }
    ensures { made.new ≡ digest_of digest.now key.now (length made.old) }
{
    let hash = hash_function(digest.hash);
    let salt = digest.salt.as_slice();
    derive(hash, key.as_slice(), salt, digest.iterations as u32, made);
}

/// Whether PBKDF2 makes of a key what a digest stores, in its whole length, which must be 20 to 64
/// bytes. A digest that was read has as many iterations as PBKDF2 may have.
#[tactic(auto, unfolding(crate::specs::Unlocks::matches))]
pub fn is_key_of(digest: &Digest, key: &Key) -> bool
    requires { is_iterations digest.now.iterations ≡ true }
    ensures { result ≡ matches digest.now key.now }
{
    let stored = digest.digest.as_slice();
    if stored.len() < FEWEST_DIGEST_BYTES || MOST_DIGEST_BYTES < stored.len() {
        return false;
    }
    let mut made = [0; MOST_DIGEST_BYTES];
    let made = &mut made[..stored.len()];
    derive_digest(digest, key, made);
    &*made == stored
}
