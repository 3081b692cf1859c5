// XTS over a block cipher.

ghost use Rattle.std.specs.Prelude.{◌≡◌};
ghost use Rattle.std.specs.Int.{from_le_bytes, w128};
ghost use Rattle.cipher_laws.specs.CipherBlocks.Blocks.{number_block};
ghost use Rattle.xts_mode.specs.Xts.{xts};

use crate::sector::{Whitening, whiten_blocks};
use cipher_laws::{BlockCipher, Inverse, SectorMode, change_sectors, number_block};

/// XTS with its two keys, each in a block cipher of its own.
#[derive(Clone, Copy)]
pub struct Xts<B> {
    body: B,
    tweak: B,
}

impl<B> Xts<B> {
    /// XTS that seals blocks by `body`, and the sector's number by `tweak`. In a key of XTS the
    /// first half is the body's (IEEE 1619, 5.3.1).
    pub fn new(body: B, tweak: B) -> Self
        ensures body { result.body ≡ body }
        ensures tweak { result.tweak ≡ tweak }
    {
        Xts { body, tweak }
    }
}

impl<B: BlockCipher> Xts<B> {
    // The tweak of a sector's first block.
    fn first_tweak(&self, number: u64) -> u128
        ensures { result ≡ from_le_bytes w128 (B.sealed self.now.tweak (number_block number)) }
    {
        let mut block = number_block(u128::from(number));
        self.tweak.seal(&mut block);
        u128::from_le_bytes(block)
    }
}

#[tactic(auto, unfolding(crate::specs::Xts::xts))]
impl<B: BlockCipher> SectorMode for Xts<B> {
    ghost use Rattle.xts_mode.specs.Laws.{xts_keeps_lengths, xts_gives_bytes, xts_undone};

    ghost sealed = { λ x. xts (B.sealed x.body) (B.sealed x.tweak) };

    ghost opened = { λ x. xts (B.opened x.body) (B.sealed x.tweak) };

    fn seal_sector(&self, number: u64, sector: &mut [u8]) {
        whiten_blocks(&self.body, self.first_tweak(number), sector);
    }

    fn unseal_sector(&self, number: u64, sector: &mut [u8]) {
        whiten_blocks(&Inverse(&self.body), self.first_tweak(number), sector);
    }

    fn seal_sectors(&self, size: usize, first: u64, bytes: &mut [u8]) {
        change_sectors(&Whitening(&self.body), &self.tweak, size, first, bytes);
    }

    fn unseal_sectors(&self, size: usize, first: u64, bytes: &mut [u8]) {
        let inverse = Inverse(&self.body);
        change_sectors(&Whitening(&inverse), &self.tweak, size, first, bytes);
    }

    ghost sealed_length = { λ x. xts_keeps_lengths (B.sealed x.body) (B.sealed x.tweak)
        (B.sealed_block x.body) };

    ghost opened_length = { λ x. xts_keeps_lengths (B.opened x.body) (B.sealed x.tweak)
        (B.opened_block x.body) };

    ghost sealed_bytes = { λ x. xts_gives_bytes (B.sealed x.body) (B.sealed x.tweak)
        (B.sealed_block x.body) };

    ghost opened_bytes = { λ x. xts_gives_bytes (B.opened x.body) (B.sealed x.tweak)
        (B.opened_block x.body) };

    ghost unseal_undoes_seal = { λ x. xts_undone (B.opened x.body) (B.sealed x.body)
        (B.sealed x.tweak)
        (B.sealed_block x.body) (B.unseal_undoes_seal x.body) };

    ghost seal_undoes_unseal = { λ x. xts_undone (B.sealed x.body) (B.opened x.body)
        (B.sealed x.tweak)
        (B.opened_block x.body) (B.seal_undoes_unseal x.body) };
}
