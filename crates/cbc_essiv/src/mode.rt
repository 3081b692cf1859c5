// CBC over a block cipher.

ghost use Rattle.std.specs.Prelude.{◌≡◌};
ghost use Rattle.cbc_essiv.specs.Cbc.{essiv, cbc_essiv_sealed, cbc_essiv_opened};

use crate::chain::{SealsChain, UnsealsChain, seal_chain, unseal_chain};
use crate::side_by_side::seal_eights;
use cipher_laws::{BlockCipher, SectorMode, change_sectors, number_block};

/// CBC with its two keys, each in a block cipher of its own.
#[derive(Clone, Copy)]
pub struct CbcEssiv<B> {
    body: B,
    iv: B,
}

impl<B> CbcEssiv<B> {
    /// CBC that seals blocks by `body`, and the sector's number by `iv`.
    pub fn new(body: B, iv: B) -> Self
        ensures body { result.body ≡ body }
        ensures iv { result.iv ≡ iv }
    {
        CbcEssiv { body, iv }
    }
}

impl<B: BlockCipher> CbcEssiv<B> {
    // The IV of the sector with this number.
    #[tactic(auto, unfolding(crate::specs::Cbc::essiv))]
    fn first_chain(&self, number: u64) -> [u8; 16]
        ensures { result ≡ essiv (B.sealed self.now.iv) number }
    {
        let mut block = number_block(u128::from(number));
        self.iv.seal(&mut block);
        block
    }
}

#[tactic(auto, unfolding(crate::specs::Cbc::cbc_essiv_sealed, crate::specs::Cbc::cbc_essiv_opened, crate::specs::Cbc::essiv))]
impl<B: BlockCipher> SectorMode for CbcEssiv<B> {
    ghost use Rattle.cbc_essiv.specs.Laws.{sealed_keeps_lengths, opened_keeps_lengths};
    ghost use Rattle.cbc_essiv.specs.Laws.{sealed_gives_bytes, opened_gives_bytes, sealed_undone};
    ghost use Rattle.cbc_essiv.specs.Laws.{opened_undone};

    ghost sealed = { λ c. cbc_essiv_sealed (B.sealed c.body) (B.sealed c.iv) };

    ghost opened = { λ c. cbc_essiv_opened (B.opened c.body) (B.sealed c.iv) };

    fn seal_sector(&self, number: u64, sector: &mut [u8]) {
        seal_chain(&self.body, &self.first_chain(number), sector);
    }

    fn unseal_sector(&self, number: u64, sector: &mut [u8]) {
        unseal_chain(&self.body, &self.first_chain(number), sector);
    }

    fn seal_sectors(&self, size: usize, first: u64, bytes: &mut [u8]) {
        let number = seal_eights(&self.body, &self.iv, size, first, bytes);
        let done = size * (8 * (bytes.len() / size / 8));
        change_sectors(
            &SealsChain(&self.body),
            &self.iv,
            size,
            number,
            &mut bytes[done..],
        );
    }

    fn unseal_sectors(&self, size: usize, first: u64, bytes: &mut [u8]) {
        change_sectors(&UnsealsChain(&self.body), &self.iv, size, first, bytes);
    }

    ghost sealed_length = { λ c. sealed_keeps_lengths (B.sealed c.body) (B.sealed c.iv)
        (B.sealed_block c.body) (B.sealed_block c.iv) };

    ghost opened_length = { λ c. opened_keeps_lengths (B.opened c.body) (B.sealed c.iv)
        (B.opened_block c.body) (B.sealed_block c.iv) };

    ghost sealed_bytes = { λ c. sealed_gives_bytes (B.sealed c.body) (B.sealed c.iv)
        (B.sealed_block c.body) (B.sealed_block c.iv) };

    ghost opened_bytes = { λ c. opened_gives_bytes (B.opened c.body) (B.sealed c.iv)
        (B.opened_block c.body) (B.sealed_block c.iv) };

    ghost unseal_undoes_seal = { λ c. sealed_undone (B.sealed c.body) (B.opened c.body)
        (B.sealed c.iv)
        (B.sealed_block c.body) (B.sealed_block c.iv) (B.unseal_undoes_seal c.body) };

    ghost seal_undoes_unseal = { λ c. opened_undone (B.sealed c.body) (B.opened c.body)
        (B.sealed c.iv)
        (B.opened_block c.body) (B.sealed_block c.iv) (B.seal_undoes_unseal c.body) };
}
