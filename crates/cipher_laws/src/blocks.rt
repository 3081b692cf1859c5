// Blocks of 16 bytes in a sector, and bytes that are worked on piece after piece.
//
// What the modes of a block cipher share: to read a block or eight out of a sector and to put
// them back, to xor them, and a sector's number as a block. [`sealed_numbers`] seals the numbers
// of eight sectors at once, and [`change_sectors`] works on sectors in a row, each under its
// sealed number. XTS, CBC and runs of sectors are stated as pieces of a size in turn, each changed
// under a value that the piece before it handed on; `specs/PieceLaws.antt` says once for all of
// them that such work keeps lengths, gives bytes, and is undone piece by piece.

pub use block::{block_at, number_block, put_block, xor};
pub use eight::{eight_at, put_eight, xor_eight};
pub use numbers::sealed_numbers;
pub use rows::{UnderIv, change_sectors};

mod block;
mod eight;
mod numbers;
mod rows;
