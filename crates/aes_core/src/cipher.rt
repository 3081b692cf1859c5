// AES under a key: Cipher and InvCipher (FIPS 197, sections 5.1 and 5.3).

ghost use Rattle.std.specs.Prelude.{◌≡◌, ◌<◌, ◌≤◌, ◌↔◌, ℕ, List, length, IsOk, IfOk, IfErr};
ghost use Rattle.cipher_laws.specs.Bytes.{IsBlock};
ghost use Rattle.aes_core.specs.KeySchedule.{IsKeyLength};
ghost use Rattle.aes_core.specs.RoundKeys.{key_at, AreAlike};
ghost use Rattle.aes_core.specs.Cipher.{cipher, inverse_cipher, aes, inverse_aes};
ghost use Rattle.aes_core.specs.Laws.{cipher_block, inverse_cipher_block};
ghost use Rattle.aes_core.specs.Laws.{cipher_undone, inverse_cipher_undone, first_keys};

use crate::columns::{inverse_mix_columns, mix_columns};
use crate::key_schedule::{ROUND_KEYS, round_keys};
use crate::planes::Planes;
use crate::s_box::{inverse_sub_bytes, sub_bytes};
use crate::transposition::{copies, to_blocks, to_planes};
use cipher_laws::{BlockCipher, EightBlocks};
use std::simd::prelude::*;
use thiserror::Error;

/// The length in bytes of a key that the cipher does not take.
#[derive(Clone, Copy, Debug, PartialEq, Eq, Error)]
#[error("a key of {0} bytes does not fit the cipher")]
pub struct KeyLength(pub usize);

/// AES-128 or AES-256 under one key (FIPS 197).
#[derive(Clone, Copy)]
pub struct Aes {
    round_keys: [Planes; ROUND_KEYS],
    rounds: usize,
    ghost in_range: { (0 < rounds) × (rounds < 15) },
    ghost alike: { AreAlike round_keys },
    ghost keys_are_blocks: { (r : ℕ) → r < 15 → IsBlock (key_at round_keys r) },
}

impl Aes {
    /// AES under a key of 16 or 32 bytes. The key is expanded once, here.
    ///
    /// `KeyLength(n)` comes exactly where the key has `n` bytes, and `n` is neither 16 nor 32.
    pub fn new(key: &[u8]) -> Result<Aes, KeyLength>
        ensures accepted { IsOk result ↔ IsKeyLength (length key.now) }
        ensures refused { IfErr result (λ e. e.0 ≡ length key.now) }
        ensures seals { IfOk result (λ a. (block : List ℕ)
            → ⟦<Aes as BlockCipher>⟧.sealed a block ≡ aes key.now block) }
        ensures unseals { IfOk result (λ a. (block : List ℕ)
            → ⟦<Aes as BlockCipher>⟧.opened a block ≡ inverse_aes key.now block) }
    {
        if key.len() != 16 && key.len() != 32 {
            return Err(KeyLength(key.len()));
        }
        Ok(Aes {
            round_keys: round_keys(key),
            rounds: key.len() / 4 + 6,
        })
    }
}

impl BlockCipher for Aes {
    ghost sealed = { λ a block. cipher a.rounds (key_at a.round_keys) block };

    ghost opened = { λ a block. inverse_cipher a.rounds (key_at a.round_keys) block };

    // One block runs the circuit of eight.
    fn seal(&self, block: &mut [u8; 16]) {
        let mut blocks = copies(u8x16::from_array(*block));
        self.seal_eight(&mut blocks);
        *block = blocks.b0.to_array();
    }

    fn unseal(&self, block: &mut [u8; 16]) {
        let mut blocks = copies(u8x16::from_array(*block));
        self.unseal_eight(&mut blocks);
        *block = blocks.b0.to_array();
    }

    fn seal_eight(&self, blocks: &mut EightBlocks) {
        let mut state = to_planes(*blocks) ^ self.round_keys[0];
        for round in 1..self.rounds {
            let mixed = mix_columns(sub_bytes(state).shift_rows());
            state = mixed ^ self.round_keys[round];
        }
        let last = sub_bytes(state).shift_rows();
        *blocks = to_blocks(last ^ self.round_keys[self.rounds]);
    }

    fn unseal_eight(&self, blocks: &mut EightBlocks) {
        let mut state = to_planes(*blocks) ^ self.round_keys[self.rounds];
        for round in (1..self.rounds).rev() {
            let boxed = inverse_sub_bytes(state.inverse_shift_rows());
            state = inverse_mix_columns(boxed ^ self.round_keys[round]);
        }
        let first = inverse_sub_bytes(state.inverse_shift_rows());
        *blocks = to_blocks(first ^ self.round_keys[0]);
    }

    ghost sealed_block = { λ a. cipher_block a.rounds (key_at a.round_keys)
        (first_keys a.rounds a.in_range.1 a.keys_are_blocks) };

    ghost opened_block = { λ a. inverse_cipher_block a.rounds (key_at a.round_keys)
        (first_keys a.rounds a.in_range.1 a.keys_are_blocks) };

    ghost unseal_undoes_seal = { λ a. cipher_undone a.rounds (key_at a.round_keys)
        (first_keys a.rounds a.in_range.1 a.keys_are_blocks) };

    ghost seal_undoes_unseal = { λ a. inverse_cipher_undone a.rounds (key_at a.round_keys)
        (first_keys a.rounds a.in_range.1 a.keys_are_blocks) };
}
