// A cipher of blocks of 16 bytes, with its key.

ghost use Rattle.std.specs.Prelude.{◌≡◌, ◌<◌, ℕ, List};
ghost use Rattle.cipher_laws.specs.Eight.{block};
ghost use Rattle.cipher_laws.specs.Laws.{KeepsBlocks, UndoesBlocks};

use crate::EightBlocks;

/// A block cipher with its key: a permutation of the blocks of 16 bytes, and its inverse.
pub trait BlockCipher {
    // what a block becomes when it is sealed, and when it is unsealed
    ghost sealed: { Self → List ℕ → List ℕ };

    ghost opened: { Self → List ℕ → List ℕ };

    /// Encrypts the block where it lies.
    fn seal(&self, block: &mut [u8; 16])
        ensures { block.new ≡ sealed self.now block.old };

    /// Decrypts the block where it lies.
    fn unseal(&self, block: &mut [u8; 16])
        ensures { block.new ≡ opened self.now block.old };

    /// Encrypts eight blocks where they lie, each as `seal` does.
    fn seal_eight(&self, blocks: &mut EightBlocks)
        ensures { (k : ℕ) → k < 8 → block k blocks.new ≡ sealed self.now (block k blocks.old) };

    /// Decrypts eight blocks where they lie, each as `unseal` does.
    fn unseal_eight(&self, blocks: &mut EightBlocks)
        ensures { (k : ℕ) → k < 8 → block k blocks.new ≡ opened self.now (block k blocks.old) };

    ghost sealed_block: { (c : Self) → KeepsBlocks (sealed c) };

    ghost opened_block: { (c : Self) → KeepsBlocks (opened c) };

    ghost unseal_undoes_seal: { (c : Self) → UndoesBlocks (opened c) (sealed c) };

    ghost seal_undoes_unseal: { (c : Self) → UndoesBlocks (sealed c) (opened c) };
}
