// Sectors in a row, each under its sealed number.

ghost use Rattle.std.specs.Prelude.{◌≡◌, ℕ, ◌+◌, ◌/◌, ◌%◌, ◌<◌, ◌^◌, List, length};
ghost use Rattle.cipher_laws.specs.Sectors.{by_sectors};
ghost use Rattle.cipher_laws.specs.CipherBlocks.Blocks.{number_block};

use crate::BlockCipher;
use crate::blocks::numbers::sealed_numbers;

/// Work on one sector under its initialization vector (IV).
pub trait UnderIv {
    // what a sector becomes under an IV
    ghost changed: { Self → List ℕ → List ℕ → List ℕ };

    /// Works on the sector where it lies. Its length is a multiple of 16 bytes.
    fn change(&self, iv: [u8; 16], sector: &mut [u8])
        requires { length sector.old % 16 ≡ 0 }
        ensures { sector.new ≡ changed self.now iv sector.old };
}

/// Works on sectors of `size` bytes in a row, each under its number as a block, sealed by `cipher`.
/// The first sector has the number `first`, and every 512 bytes raise the number by one. Eight
/// numbers are sealed at once.
pub fn change_sectors<W: UnderIv, C: BlockCipher>(
    work: &W,
    cipher: &C,
    size: usize,
    first: u64,
    bytes: &mut [u8],
)
    requires some { 0 < size }
    requires units { size % 512 ≡ 0 }
    requires whole { length bytes.old % size ≡ 0 }
    requires in_range { first + length bytes.old / 512 < 2 ^ 64 }
    ensures { bytes.new ≡ by_sectors
        (λ number. W.changed work.now (C.sealed cipher.now (number_block number))) size first
        bytes.old }
{
    let units = (size / 512) as u64;
    let mut number = first;
    let mut ivs = [[0; 16]; 8];
    for i in 0..bytes.len() / size {
        if i % 8 == 0 {
            ivs = sealed_numbers(cipher, number, units).to_arrays();
        }
        let at = size * i;
        work.change(ivs[i % 8], &mut bytes[at..at + size]);
        number += units;
    }
}
