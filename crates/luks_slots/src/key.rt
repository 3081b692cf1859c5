// The key of a volume.

ghost use Rattle.std.specs.Prelude.{◌≡◌, ◌≤◌, length};

use std::marker::Model;

/// The most bytes of a key.
pub(crate) const MOST_BYTES: usize = 64;

/// A volume key of 1 to 64 bytes, which contracts see as the list of its bytes.
#[derive(Drop)]
pub struct Key {
    bytes: [u8; 64],
    len: usize,
}

impl Model for Key {
    ghost use Rattle.std.specs.Prelude.{ℕ, List, ◌≤◌, take};

    ghost Value = { List ℕ };

    ghost view = { λ key. take key.len key.bytes };

    ghost invariant = { λ key. (1 ≤ key.len) × (key.len ≤ 64) };
}

impl Key {
    /// The key of these bytes, 1 to 64.
    pub fn new(bytes: &[u8]) -> Key
        requires some { 1 ≤ length bytes.now }
        requires most { length bytes.now ≤ 64 }
        ensures { result ≡ bytes.now }
    {
        let mut key = [0; MOST_BYTES];
        key[..bytes.len()].copy_from_slice(bytes);
        Key {
            bytes: key,
            len: bytes.len(),
        }
    }

    /// All bytes, 1 to 64.
    pub fn as_slice(&self) -> &[u8]
        ensures bytes { result.now ≡ self.now }
        ensures some { 1 ≤ length self.now }
        ensures most { length self.now ≤ 64 }
    {
        &self.bytes[..self.len]
    }

    /// The same key again.
    pub fn copy(&self) -> Key
        ensures { result ≡ self.now }
    {
        Key {
            bytes: self.bytes,
            len: self.len,
        }
    }
}
