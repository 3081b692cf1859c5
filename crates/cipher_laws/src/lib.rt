//! What a cipher is to the code that uses it.
//!
//! A cipher changes bytes where they lie, and each change can be undone. Three traits say so, for
//! a block of 16 bytes ([`BlockCipher`], which also takes eight blocks at once, [`EightBlocks`]),
//! for a sector under its number and sectors in a row ([`SectorMode`]), and for a run of sectors
//! under the IV number of the first ([`SectorCipher`]). Each has its meaning as
//! two functions on lists of bytes, `sealed` and `opened`, and the laws that they keep: to unseal
//! undoes to seal, to seal undoes to unseal, bytes become as many bytes, and a run of sectors is
//! sealed as its parts are. The layers above rely on these laws alone, whatever the cipher is.
//!
//! `blocks` has what the modes of a block cipher share: blocks of 16 bytes in a sector, and bytes that
//! are worked on piece after piece.
#![tactic(auto)]

pub use block::BlockCipher;
pub use blocks::{
    UnderIv, block_at, change_sectors, eight_at, number_block, put_block, put_eight,
    sealed_numbers, xor, xor_eight,
};
pub use eight_blocks::EightBlocks;
pub use inverse::Inverse;
pub use sector::SectorCipher;
pub use sector_mode::SectorMode;

mod block;
mod blocks;
mod eight_blocks;
mod inverse;
mod sector;
mod sector_mode;
