// AES beside the vectors and the table of its standard.

use crate::same::same;
use aes_core::{Aes, KeyLength};
use cipher_laws::{BlockCipher, EightBlocks, xor};
use std::simd::prelude::*;
use std::test::Fail;

// A key of 16 bytes, or of 32 whose second half stands in `more`, a block and what it is sealed to.
struct Vector {
    key: u128,
    more: Option<u128>,
    plain: u128,
    sealed: u128,
}

// FIPS 197, appendices B, C.1 and C.3, and NIST SP 800-38A, sections F.1.1 and F.1.5.
const PUBLISHED: [Vector; 11] = [
    Vector {
        key: 0x00010203_04050607_08090a0b_0c0d0e0f,
        more: None,
        plain: 0x00112233_44556677_8899aabb_ccddeeff,
        sealed: 0x69c4e0d8_6a7b0430_d8cdb780_70b4c55a,
    },
    Vector {
        key: 0x2b7e1516_28aed2a6_abf71588_09cf4f3c,
        more: None,
        plain: 0x3243f6a8_885a308d_313198a2_e0370734,
        sealed: 0x3925841d_02dc09fb_dc118597_196a0b32,
    },
    Vector {
        key: 0x2b7e1516_28aed2a6_abf71588_09cf4f3c,
        more: None,
        plain: 0x6bc1bee2_2e409f96_e93d7e11_7393172a,
        sealed: 0x3ad77bb4_0d7a3660_a89ecaf3_2466ef97,
    },
    Vector {
        key: 0x2b7e1516_28aed2a6_abf71588_09cf4f3c,
        more: None,
        plain: 0xae2d8a57_1e03ac9c_9eb76fac_45af8e51,
        sealed: 0xf5d3d585_03b9699d_e785895a_96fdbaaf,
    },
    Vector {
        key: 0x2b7e1516_28aed2a6_abf71588_09cf4f3c,
        more: None,
        plain: 0x30c81c46_a35ce411_e5fbc119_1a0a52ef,
        sealed: 0x43b1cd7f_598ece23_881b00e3_ed030688,
    },
    Vector {
        key: 0x2b7e1516_28aed2a6_abf71588_09cf4f3c,
        more: None,
        plain: 0xf69f2445_df4f9b17_ad2b417b_e66c3710,
        sealed: 0x7b0c785e_27e8ad3f_82232071_04725dd4,
    },
    Vector {
        key: 0x00010203_04050607_08090a0b_0c0d0e0f,
        more: Some(0x10111213_14151617_18191a1b_1c1d1e1f),
        plain: 0x00112233_44556677_8899aabb_ccddeeff,
        sealed: 0x8ea2b7ca_516745bf_eafc4990_4b496089,
    },
    Vector {
        key: 0x603deb10_15ca71be_2b73aef0_857d7781,
        more: Some(0x1f352c07_3b6108d7_2d9810a3_0914dff4),
        plain: 0x6bc1bee2_2e409f96_e93d7e11_7393172a,
        sealed: 0xf3eed1bd_b5d2a03c_064b5a7e_3db181f8,
    },
    Vector {
        key: 0x603deb10_15ca71be_2b73aef0_857d7781,
        more: Some(0x1f352c07_3b6108d7_2d9810a3_0914dff4),
        plain: 0xae2d8a57_1e03ac9c_9eb76fac_45af8e51,
        sealed: 0x591ccb10_d410ed26_dc5ba74a_31362870,
    },
    Vector {
        key: 0x603deb10_15ca71be_2b73aef0_857d7781,
        more: Some(0x1f352c07_3b6108d7_2d9810a3_0914dff4),
        plain: 0x30c81c46_a35ce411_e5fbc119_1a0a52ef,
        sealed: 0xb6ed21b9_9ca6f4f9_f153e7b1_beafed1d,
    },
    Vector {
        key: 0x603deb10_15ca71be_2b73aef0_857d7781,
        more: Some(0x1f352c07_3b6108d7_2d9810a3_0914dff4),
        plain: 0xf69f2445_df4f9b17_ad2b417b_e66c3710,
        sealed: 0x23304b7a_39f9f3ff_067d8d8f_9e24ecc7,
    },
];

/// The cipher under a vector's key.
fn cipher_of(vector: &Vector) -> Result<Aes, KeyLength> {
    let mut key = [0; 32];
    key[..16].copy_from_slice(&vector.key.to_be_bytes());
    key[16..].copy_from_slice(&vector.more.unwrap_or(0).to_be_bytes());
    let length = if vector.more.is_some() { 32 } else { 16 };
    Aes::new(&key[..length])
}

/// A vector's block as it is sealed, and that as it is unsealed.
fn there_and_back(vector: &Vector) -> Result<[u128; 2], KeyLength> {
    let cipher = cipher_of(vector)?;
    let mut block = vector.plain.to_be_bytes();
    cipher.seal(&mut block);
    let sealed = u128::from_be_bytes(block);
    cipher.unseal(&mut block);
    Ok([sealed, u128::from_be_bytes(block)])
}

#[test]
fn published_vectors(rt: HostRuntime) {
    for vector in &PUBLISHED {
        let wanted = [vector.sealed, vector.plain];
        same(&rt, there_and_back(vector), Ok(wanted));
    }
}

// FIPS 197, figure 7: row x has the S-box of the bytes x0, .., xf.
const S_BOX: [u128; 16] = [
    0x637c777b_f26b6fc5_3001672b_fed7ab76,
    0xca82c97d_fa5947f0_add4a2af_9ca472c0,
    0xb7fd9326_363ff7cc_34a5e5f1_71d83115,
    0x04c723c3_1896059a_071280e2_eb27b275,
    0x09832c1a_1b6e5aa0_523bd6b3_29e32f84,
    0x53d100ed_20fcb15b_6acbbe39_4a4c58cf,
    0xd0efaafb_434d3385_45f9027f_503c9fa8,
    0x51a3408f_929d38f5_bcb6da21_10fff3d2,
    0xcd0c13ec_5f974417_c4a77e3d_645d1973,
    0x60814fdc_222a9088_46eeb814_de5e0bdb,
    0xe0323a0a_4906245c_c2d3ac62_9195e479,
    0xe7c8376d_8dd54ea9_6c56f4ea_657aae08,
    0xba78252e_1ca6b4c6_e8dd741f_4bbd8b8a,
    0x703eb566_4803f60e_613557b9_86c11d9e,
    0xe1f89811_69d98e94_9b1e87e9_ce5528df,
    0x8ca1890d_bfe64268_41992d0f_b054bb16,
];

/// The S-box of a byte, by its row and column.
fn boxed(byte: u8) -> u8 {
    let row = S_BOX[usize::from(byte / 16)].to_be_bytes();
    row[usize::from(byte % 16)]
}

/// SubBytes and ShiftRows.
fn shifted(state: &[u8; 16]) -> [u8; 16] {
    let mut moved = [0; 16];
    for place in 0..16usize {
        moved[place] = boxed(state[place * 5 % 16]);
    }
    moved
}

fn doubled(byte: u8) -> u8 {
    (byte << 1) ^ ((byte >> 7) * 0x1b)
}

/// MixColumns.
fn mixed(state: &[u8; 16]) -> [u8; 16] {
    let mut mixed = [0; 16];
    for place in 0..16usize {
        let top = place / 4 * 4;
        let (one, two) = (state[place], state[top + (place + 1) % 4]);
        let (three, four) = (state[top + (place + 2) % 4], state[top + (place + 3) % 4]);
        mixed[place] = doubled(one ^ two) ^ two ^ three ^ four;
    }
    mixed
}

/// The next round's key of a key of 16 bytes.
fn next_key(key: &[u8; 16], constant: u8) -> [u8; 16] {
    let mut next = *key;
    next[0] ^= constant;
    for place in 0..4usize {
        next[place] ^= boxed(key[12 + (place + 1) % 4]);
    }
    for place in 4..16usize {
        next[place] ^= next[place - 4];
    }
    next
}

/// Sixteen times this byte, sealed under zeros by the table alone. Each is boxed as it is, since the
/// first round's key is zeros.
fn sealed_by_table(byte: u8) -> [u8; 16] {
    let (mut key, mut state) = ([0; 16], [byte; 16]);
    for constant in [1, 2, 4, 8, 16, 32, 64, 128, 0x1b] {
        key = next_key(&key, constant);
        state = xor(&mixed(&shifted(&state)), &key);
    }
    xor(&shifted(&state), &next_key(&key, 0x36))
}

/// Sixteen times this byte, as it is sealed under zeros, and that as it is unsealed.
fn sealed_under_zeros(byte: u8) -> Result<[[u8; 16]; 2], KeyLength> {
    let cipher = Aes::new(&[0; 16])?;
    let mut block = [byte; 16];
    cipher.seal(&mut block);
    let sealed = block;
    cipher.unseal(&mut block);
    Ok([sealed, block])
}

#[test]
fn s_box_of_each_byte(rt: HostRuntime) {
    for byte in 0..=255u8 {
        let wanted = [sealed_by_table(byte), [byte; 16]];
        same(&rt, sealed_under_zeros(byte), Ok(wanted));
    }
}

fn vector_of(block: u128) -> u8x16 {
    u8x16::from_array(block.to_be_bytes())
}

/// Four blocks, and the same from the last to the first.
fn eight_of(blocks: [u128; 4]) -> EightBlocks {
    EightBlocks {
        b0: vector_of(blocks[0]),
        b1: vector_of(blocks[1]),
        b2: vector_of(blocks[2]),
        b3: vector_of(blocks[3]),
        b4: vector_of(blocks[3]),
        b5: vector_of(blocks[2]),
        b6: vector_of(blocks[1]),
        b7: vector_of(blocks[0]),
    }
}

#[test]
fn eight_blocks_are_sealed_and_unsealed_at_once(rt: HostRuntime) -> Result<(), Fail> {
    let [.., first, second, third, fourth] = &PUBLISHED;
    let plain = eight_of([first.plain, second.plain, third.plain, fourth.plain]);
    let sealed = eight_of([first.sealed, second.sealed, third.sealed, fourth.sealed]);
    let cipher = cipher_of(first)?;
    let mut blocks = plain;
    cipher.seal_eight(&mut blocks);
    same(&rt, blocks.to_arrays(), sealed.to_arrays());
    cipher.unseal_eight(&mut blocks);
    same(&rt, blocks.to_arrays(), plain.to_arrays());
    Ok(())
}

/// The length that is refused, if a key of so many bytes is.
fn refused(length: usize) -> Option<KeyLength> {
    let bytes = [0x5a; 64];
    Aes::new(&bytes[..length.min(64)]).err()
}

#[test]
fn other_key_lengths_are_refused(rt: HostRuntime) {
    for length in [0, 1, 15, 17, 24, 31, 33, 48, 64] {
        same(&rt, refused(length), Some(KeyLength(length)));
    }
    same(&rt, [refused(16), refused(32)], [None, None]);
}

fn is_shared<T: Send + Sync>(_value: &T) {}

#[test]
fn a_key_is_shared_between_threads(rt: HostRuntime) -> Result<(), Fail> {
    let cipher = Aes::new(&[0; 16])?;
    is_shared(&cipher);
    let mut block = [0; 16];
    cipher.seal(&mut block);
    let sealed = u128::from_be_bytes(block);
    same(&rt, sealed, 0x66e94bd4_ef8a2c3b_884cfa59_ca342b2e);
    Ok(())
}
