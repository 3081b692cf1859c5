// Eight blocks that are worked on at once.

ghost use Rattle.std.specs.Prelude.{◌≡◌};
ghost use Rattle.cipher_laws.specs.Eight.{blocks_of};

use std::simd::prelude::*;

/// Eight blocks of 16 bytes, each in a vector of its own.
#[derive(Clone, Copy)]
pub struct EightBlocks {
    pub b0: u8x16,
    pub b1: u8x16,
    pub b2: u8x16,
    pub b3: u8x16,
    pub b4: u8x16,
    pub b5: u8x16,
    pub b6: u8x16,
    pub b7: u8x16,
}

impl EightBlocks {
    /// The blocks in their order.
    pub fn to_arrays(&self) -> [[u8; 16]; 8]
        ensures { result ≡ blocks_of self.now }
    {
        [
            self.b0.to_array(),
            self.b1.to_array(),
            self.b2.to_array(),
            self.b3.to_array(),
            self.b4.to_array(),
            self.b5.to_array(),
            self.b6.to_array(),
            self.b7.to_array(),
        ]
    }
}
