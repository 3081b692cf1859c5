// The key expansion (FIPS 197, section 5.2). A word of the standard is a vector of its 4 bytes.

ghost use Rattle.std.specs.Prelude.{◌≡◌, ℕ, [], ◌++◌, ◌+◌, ◌*◌, ◌≤◌, ◌<◌, length, take};
ghost use Rattle.aes_core.specs.KeySchedule.{IsKeyLength, IsWordCount, rounds_for, key_expansion};
ghost use Rattle.aes_core.specs.KeySchedule.{next_word, addend, add_words, sub_word, rot_word};
ghost use Rattle.aes_core.specs.KeySchedule.{round_constant};
ghost use Rattle.aes_core.specs.Cipher.{round_keys_of};
ghost use Rattle.aes_core.specs.Planes.{state_in};
ghost use Rattle.aes_core.specs.RoundKeys.{key_at, carried, AreAlike};
ghost use Rattle.cipher_laws.specs.Bytes.{IsBlock};

use crate::planes::Planes;
use crate::s_box::{CONSTANT, sub_block};
use crate::transposition::{copies, to_planes};
use std::simd::prelude::*;

// The round keys of the longest key, and their words.
pub(crate) const ROUND_KEYS: usize = 15;

const WORDS: usize = 60;

// x^0, x^1, .. x^9.
const POWERS_OF_X: [u8; 10] = [0x01, 0x02, 0x04, 0x08, 0x10, 0x20, 0x40, 0x80, 0x1b, 0x36];

// The keys of the rounds in planes. Those past the last round of a short key are of no use.
pub(crate) fn round_keys(key: &[u8]) -> [Planes; ROUND_KEYS]
    requires { IsKeyLength (length key.now) }
    ensures keys { (r : ℕ) → r ≤ rounds_for key.now → key_at result r ≡ round_keys_of key.now r }
    ensures alike { AreAlike result }
    ensures blocks { (r : ℕ) → r < 15 → IsBlock (key_at result r) }
{
    let words = key_expansion(key);
    let mut keys = [key_planes(u8x16::splat(0), 0); ROUND_KEYS];
    for round in 0..ROUND_KEYS {
        let bytes = joined(
            words[4 * round],
            words[4 * round + 1],
            words[4 * round + 2],
            words[4 * round + 3],
        );
        keys[round] = key_planes(bytes, round);
    }
    keys
}

// The planes of the key of a round, for each of the eight blocks. Each key but the first carries
// the constant that the S-box's circuit leaves out.
fn key_planes(key: u8x16, round: usize) -> Planes
    ensures { (k : ℕ) → k < 8 → state_in k result ≡ carried round key }
{
    if round == 0 {
        return to_planes(copies(key));
    }
    to_planes(copies(key ^ u8x16::splat(CONSTANT)))
}

// A round key of four words.
fn joined(w0: u8x4, w1: u8x4, w2: u8x4, w3: u8x4) -> u8x16
    ensures bytes { result ≡ w0 ++ w1 ++ w2 ++ w3 }
    ensures block { IsBlock result }
{
    let [a0, a1, a2, a3] = w0.to_array();
    let [b0, b1, b2, b3] = w1.to_array();
    let [c0, c1, c2, c3] = w2.to_array();
    let [d0, d1, d2, d3] = w3.to_array();
    u8x16::from_array([
        a0, a1, a2, a3, b0, b1, b2, b3, c0, c1, c2, c3, d0, d1, d2, d3,
    ])
}

// The words of the schedule, and then zeros.
fn key_expansion(key: &[u8]) -> [u8x4; WORDS]
    requires { IsKeyLength (length key.now) }
    ensures { let n = 4 * (rounds_for key.now + 1) in take n result ≡ key_expansion key.now n }
{
    let mut words = [u8x4::splat(0); WORDS];
    for i in 0..4 * (key.len() / 4 + 7) {
        words[i] = next_word(key, &words, i);
    }
    words
}

fn next_word(key: &[u8], words: &[u8x4; WORDS], i: usize) -> u8x4
    requires key_length { IsKeyLength (length key.now) }
    requires in_range { i < 4 * (rounds_for key.now + 1) }
    ensures { result ≡ next_word key.now words.now i }
{
    let key_words = key.len() / 4;
    if i < key_words {
        return u8x4::from_slice(&key[4 * i..]);
    }
    add_words(words[i - key_words], addend(key_words, i, words[i - 1]))
}

fn addend(key_words: usize, i: usize, word: u8x4) -> u8x4
    requires key_words { IsWordCount key_words }
    requires in_range { (key_words ≤ i) × (i < 4 * (key_words + 7)) }
    ensures { result ≡ addend key_words i word }
{
    if i % key_words == 0 {
        return add_words(sub_word(rot_word(word)), round_constant(i / key_words));
    }
    if key_words > 6 && i % key_words == 4 {
        return sub_word(word);
    }
    word
}

fn add_words(v: u8x4, w: u8x4) -> u8x4
    ensures { result ≡ add_words v w }
{
    v ^ w
}

fn sub_word(word: u8x4) -> u8x4
    ensures { result ≡ sub_word word }
{
    let [a, b, c, d] = word.to_array();
    let block = u8x16::from_array([a, b, c, d, 0, 0, 0, 0, 0, 0, 0, 0, 0, 0, 0, 0]);
    let boxed = sub_block(block).to_array();
    u8x4::from_array([boxed[0], boxed[1], boxed[2], boxed[3]])
}

fn rot_word(word: u8x4) -> u8x4
    ensures { result ≡ rot_word word }
{
    word.swizzle([1, 2, 3, 0])
}

fn round_constant(j: usize) -> u8x4
    requires { (0 < j) × (j ≤ 10) }
    ensures { result ≡ round_constant j }
{
    u8x4::from_array([POWERS_OF_X[j - 1], 0, 0, 0])
}
