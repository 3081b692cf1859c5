ghost use Rattle.std.specs.Prelude.{◌≡◌, ◌≤◌, ◌==◌, ℕ, List, length, take};

use crate::Buffer;
use std::marker::Model;

/// A text of bytes of its own, which contracts see as the list of its bytes. Where it was made of a
/// buffer, it keeps the memory behind its last byte.
#[derive(Drop)]
pub struct Bytes {
    vec: Vec<u8>,
    len: usize,
}

impl Model for Bytes {
    ghost Value = { List ℕ };

    ghost view = { λ bytes. take bytes.len bytes.vec.items };

    ghost invariant = { λ bytes. bytes.len ≤ length bytes.vec.items };
}

impl Bytes {
    /// The bytes of a vector.
    pub fn new(vec: Vec<u8>) -> Bytes
        ensures { result ≡ vec.items }
    {
        let len = vec.len();
        Bytes { vec, len }
    }

    /// The first bytes of a vector, which keeps its memory.
    pub(crate) fn front_of(vec: Vec<u8>, len: usize) -> Bytes
        requires { len ≤ length vec.items }
        ensures { result ≡ take len vec.items }
    {
        Bytes { vec, len }
    }

    /// All bytes.
    pub fn as_slice(&self) -> &[u8]
        ensures { result.now ≡ self.now }
    {
        &self.vec[..self.len]
    }

    /// How many bytes there are.
    pub fn len(&self) -> usize
        ensures { result ≡ length self.now }
    {
        self.len
    }

    /// Whether there is no byte.
    pub fn is_empty(&self) -> bool
        ensures { result ≡ (length self.now == 0) }
    {
        self.len == 0
    }

    /// The vector of the bytes.
    pub fn into_vec(self) -> Vec<u8>
        ensures { result.items ≡ self }
    {
        let Bytes { mut vec, len } = self;
        vec.truncate(len);
        vec
    }

    /// The buffer that the text was made of, or one of its bytes: it has these at its front.
    pub fn into_buffer(self) -> Buffer
        ensures front { take (length self) result ≡ self }
        ensures long { length self ≤ length result }
    {
        let Bytes { vec, len: _ } = self;
        Buffer::new(vec)
    }
}
