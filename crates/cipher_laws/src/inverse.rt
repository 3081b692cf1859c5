// A cipher turned round.

use crate::{BlockCipher, EightBlocks, SectorCipher};

/// The inverse of a cipher: what seals for the one unseals for the other. A mode or a loop that
/// works alike in both directions is written once, and called with the cipher or its inverse.
#[derive_where(Clone, Copy)]
pub struct Inverse<'a, C>(pub &'a C);

impl<C: BlockCipher> BlockCipher for Inverse<'_, C> {
    ghost sealed = { λ it. C.opened it.0.now };

    ghost opened = { λ it. C.sealed it.0.now };

    fn seal(&self, block: &mut [u8; 16]) {
        self.0.unseal(block);
    }

    fn unseal(&self, block: &mut [u8; 16]) {
        self.0.seal(block);
    }

    fn seal_eight(&self, blocks: &mut EightBlocks) {
        self.0.unseal_eight(blocks);
    }

    fn unseal_eight(&self, blocks: &mut EightBlocks) {
        self.0.seal_eight(blocks);
    }

    ghost sealed_block = { λ it. C.opened_block it.0.now };

    ghost opened_block = { λ it. C.sealed_block it.0.now };

    ghost unseal_undoes_seal = { λ it. C.seal_undoes_unseal it.0.now };

    ghost seal_undoes_unseal = { λ it. C.unseal_undoes_seal it.0.now };
}

impl<C: SectorCipher> SectorCipher for Inverse<'_, C> {
    ghost sector = { λ it. C.sector it.0.now };

    ghost sealed = { λ it. C.opened it.0.now };

    ghost opened = { λ it. C.sealed it.0.now };

    fn seal_atom(&self, first: u64, bytes: &mut [u8]) {
        self.0.unseal_atom(first, bytes);
    }

    fn unseal_atom(&self, first: u64, bytes: &mut [u8]) {
        self.0.seal_atom(first, bytes);
    }

    ghost some_sector = { λ it. C.some_sector it.0.now };

    ghost sector_units = { λ it. C.sector_units it.0.now };

    ghost sealed_length = { λ it. C.opened_length it.0.now };

    ghost opened_length = { λ it. C.sealed_length it.0.now };

    ghost sealed_bytes = { λ it. C.opened_bytes it.0.now };

    ghost opened_bytes = { λ it. C.sealed_bytes it.0.now };

    ghost unseal_undoes_seal = { λ it. C.seal_undoes_unseal it.0.now };

    ghost seal_undoes_unseal = { λ it. C.unseal_undoes_seal it.0.now };

    ghost sealed_joined = { λ it. C.opened_joined it.0.now };

    ghost opened_joined = { λ it. C.sealed_joined it.0.now };
}
