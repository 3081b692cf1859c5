ghost use Rattle.std.specs.Prelude.{◌≡◌, ◌≤◌, ℕ, List, [], length, take, max, OnOk, OnErr};

use crate::Bytes;
use std::alloc::{AllocError, Global};
use std::marker::Model;

/// A buffer of bytes that is used again and again. It keeps its longest length and lends its front,
/// so that a shorter text takes no memory and writes no byte twice. Contracts see it as the list of
/// all its bytes.
#[derive(Drop)]
pub struct Buffer {
    vec: Vec<u8>,
}

impl Model for Buffer {
    ghost Value = { List ℕ };

    ghost view = { λ buffer. buffer.vec.items };
}

impl Buffer {
    ghost use Rattle.std.specs.Borrow.{Lends, sem, Array, u8 as byte};
    ghost use Rattle.base_terms.specs.Blocks.{rewritten};
    ghost use Rattle.base_terms.specs.contracts.buffer.Buffer.{the_row};

    /// A buffer of no bytes, which has no memory.
    pub fn empty(alloc: Global) -> Buffer
        ensures { result ≡ [] }
    {
        Buffer {
            vec: Vec::new(alloc),
        }
    }

    /// The bytes of a vector.
    pub fn new(vec: Vec<u8>) -> Buffer
        ensures { result ≡ vec.items }
    {
        Buffer { vec }
    }

    /// How many bytes there are: the longest length that it had.
    pub fn len(&self) -> usize
        ensures { result ≡ length self.now }
    {
        self.vec.len()
    }

    /// Makes it at least so long, in a block of memory that is no longer than it must be.
    pub fn grow(&mut self, len: usize) -> Result<(), AllocError>
        ensures long { OnOk result (length self.new ≡ max (length self.old) len) }
        ensures front { OnOk result (take (length self.old) self.new ≡ self.old) }
        ensures err { OnErr result (self.new ≡ self.old) }
    {
        if self.vec.len() < len {
            self.vec.reserve_exact(len - self.vec.len())?;
            self.vec.resize(len, 0)?;
        }
        Ok(())
    }

    /// The first bytes.
    pub fn front(&self, len: usize) -> &[u8]
        requires { len ≤ length self.now }
        ensures { result.now ≡ take len self.now }
    {
        &self.vec[..len]
    }

    /// All bytes, to be written.
    pub fn as_mut_slice(&mut self) -> &mut [u8]
        ensures* writes_back { sem 𝓛 (Lends the_row (Array byte 0) self.entry result
            (rewritten self.old)) }
        ensures value { result.now ≡ self.old }
    {
        self.vec.as_mut_slice()
    }

    /// A text of the first bytes, which keeps the whole buffer's memory.
    pub fn into_text(self, len: usize) -> Bytes
        requires { len ≤ length self }
        ensures { result ≡ take len self }
    {
        let Buffer { vec } = self;
        Bytes::front_of(vec, len)
    }
}
