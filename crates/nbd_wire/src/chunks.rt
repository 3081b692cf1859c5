ghost use Rattle.std.specs.Prelude.{◌≡◌, ◌≢◌, ◌↔◌, ◌<◌, ◌^◌, IsTrue, IfOk, IfErr, IfSome, Some};
ghost use Rattle.std.specs.Prelude.{◌++◌, ℕ, List, MatchOption, take};
ghost use Rattle.std.specs.Int.{IsBitSet};
ghost use Rattle.nbd_wire.specs.Chunks.{IsChunkHead, IsError, IsErrorAt, chunk_head_text};
ghost use Rattle.nbd_wire.specs.Chunks.{chunk_number, chunk_of, error_at_text, error_data_text};
ghost use Rattle.nbd_wire.specs.Fields.{u32_text, u64_text};
ghost use Rattle.nbd_wire.specs.Magic.{chunk_magic};

use crate::fields::{u16_at, u32_at, u64_at};
use crate::parts::put;
use crate::{BadMagic, CHUNK_MAGIC};

/// What a chunk of a structured reply holds ("Structured reply types"). A type without a name here
/// is `Other`, with its number; those from 2^15 on are errors.
#[derive(Clone, Copy, PartialEq, Eq)]
pub enum ChunkType {
    /// Nothing ("NBD_REPLY_TYPE_NONE").
    Nothing,
    /// The offset of some data in the export, and the data.
    OffsetData,
    /// The number of an error.
    Error,
    /// The same, and the offset in the export where it came.
    ErrorOffset,
    Other(u16),
}

impl ChunkType {
    /// The type of a number.
    pub fn from_number(number: u16) -> ChunkType
        ensures is { result ≡ chunk_of number }
        ensures back { chunk_number result ≡ number }
    {
        match number {
            0 => ChunkType::Nothing,
            1 => ChunkType::OffsetData,
            0x8001 => ChunkType::Error,
            0x8002 => ChunkType::ErrorOffset,
            _ => ChunkType::Other(number),
        }
    }

    /// The number of a type.
    pub fn number(self) -> u16
        ensures { result ≡ chunk_number self }
    {
        match self {
            ChunkType::Nothing => 0,
            ChunkType::OffsetData => 1,
            ChunkType::Error => 0x8001,
            ChunkType::ErrorOffset => 0x8002,
            ChunkType::Other(number) => number,
        }
    }
}

/// The set of a chunk's flags ("Structured reply flags").
#[derive(Clone, Copy, PartialEq, Eq)]
pub struct ChunkFlags {
    pub bits: u16,
}

impl ChunkFlags {
    /// No flag.
    pub const NONE: ChunkFlags = ChunkFlags { bits: 0 };

    /// The chunk is the last one of its reply.
    pub const DONE: ChunkFlags = ChunkFlags { bits: 1 };

    /// Whether the chunk is the last one of its reply.
    pub fn has_done(self) -> bool
        ensures { IsTrue result ↔ IsBitSet self.bits 0 }
    {
        self.bits & 1 != 0
    }
}

/// The head of a chunk, behind which come `length` bytes of data.
#[derive(Clone, Copy, PartialEq, Eq)]
pub struct ChunkHead {
    pub flags: ChunkFlags,
    pub chunk: ChunkType,
    /// The cookie of the request.
    pub cookie: u64,
    pub length: u32,
}

impl ChunkHead {
    /// The head that these bytes spell. Fails only where they don't begin with `CHUNK_MAGIC`.
    pub fn read(bytes: &[u8; 20]) -> Result<ChunkHead, BadMagic>
        ensures taken { IfOk result
            (λ head. IsChunkHead head × (chunk_head_text head ≡ bytes.now)) }
        ensures only { (head : ChunkHead) → IsChunkHead head → chunk_head_text head ≡ bytes.now
            → result ≡ Ok head }
        ensures refused { IfErr result
            (λ bad. (u32_text bad.number ≡ take 4 bytes.now) × (bad.number ≢ chunk_magic)) }
        ensures fits { IfErr result (λ bad. bad.number < 2 ^ 32) }
    {
        let magic = u32_at(bytes, 0);
        if magic != CHUNK_MAGIC {
            return Err(BadMagic {
                number: u64::from(magic),
            });
        }
        Ok(ChunkHead {
            flags: ChunkFlags {
                bits: u16_at(bytes, 4),
            },
            chunk: ChunkType::from_number(u16_at(bytes, 6)),
            cookie: u64_at(bytes, 8),
            length: u32_at(bytes, 16),
        })
    }

    /// The bytes of the head.
    #[tactic(auto, unfolding(crate::specs::Chunks::chunk_head_text, crate::specs::Fields::u16_text, crate::specs::Fields::u32_text, crate::specs::Fields::u64_text))]
    pub fn write(self) -> [u8; 20]
        ensures { result ≡ chunk_head_text self }
    {
        // whole fields, which take fewer instructions than their bytes
        let mut bytes = [0; 20];
        put(&mut bytes, 0, &CHUNK_MAGIC.to_be_bytes());
        put(&mut bytes, 4, &self.flags.bits.to_be_bytes());
        put(&mut bytes, 6, &self.chunk.number().to_be_bytes());
        put(&mut bytes, 8, &self.cookie.to_be_bytes());
        put(&mut bytes, 16, &self.length.to_be_bytes());
        bytes
    }
}

/// What the data of a chunk of content spells ("NBD_REPLY_TYPE_OFFSET_DATA"): a u64 offset in the
/// export, and the bytes from there on. None of fewer than 8 bytes.
pub fn offset_and_content(bytes: &[u8]) -> Option<(u64, &[u8])>
    ensures taken { IfSome result
        (λ found. (found.0 < 2 ^ 64) × (u64_text found.0 ++ found.1.now ≡ bytes.now)) }
    ensures only { (offset : ℕ) (content : List ℕ) → offset < 2 ^ 64
        → u64_text offset ++ content ≡ bytes.now
        → MatchOption result ⊥ (λ found. (found.0 ≡ offset) × (found.1.now ≡ content)) }
{
    if bytes.len() < 8 {
        return None;
    }
    Some((u64_at(bytes, 0), &bytes[8..]))
}

/// The data of an error, whose number isn't 0, without a text for people ("NBD_REPLY_TYPE_ERROR").
#[tactic(auto, unfolding(crate::specs::Chunks::error_data_text, crate::specs::Fields::u16_text, crate::specs::Fields::u32_text))]
pub fn error_data(error: u32) -> [u8; 6]
    requires { 0 < error }
    ensures { result ≡ error_data_text error }
{
    let e = error.to_be_bytes();
    [e[0], e[1], e[2], e[3], 0, 0]
}

/// The number of the error that these bytes tell. None where a text for people is announced, or the
/// number is 0.
pub fn error_number(bytes: &[u8; 6]) -> Option<u32>
    ensures taken { IfSome result
        (λ error. IsError error × (error_data_text error ≡ bytes.now)) }
    ensures only { (error : ℕ) → IsError error → error_data_text error ≡ bytes.now
        → result ≡ Some error }
{
    if u16_at(bytes, 4) != 0 {
        return None;
    }
    let error = u32_at(bytes, 0);
    if error == 0 {
        return None;
    }
    Some(error)
}

/// The data of an error, whose number isn't 0, at an offset in the export, without a text for
/// people ("NBD_REPLY_TYPE_ERROR_OFFSET").
#[derive(Clone, Copy, PartialEq, Eq)]
pub struct ErrorAt {
    pub error: u32,
    pub offset: u64,
}

impl ErrorAt {
    /// The error that these bytes spell. None where a text for people is announced, or the number
    /// is 0.
    pub fn read(bytes: &[u8; 14]) -> Option<ErrorAt>
        ensures taken { IfSome result
            (λ found. IsErrorAt found × (error_at_text found ≡ bytes.now)) }
        ensures only { (found : ErrorAt) → IsErrorAt found → error_at_text found ≡ bytes.now
            → result ≡ Some found }
    {
        if u16_at(bytes, 4) != 0 {
            return None;
        }
        let error = u32_at(bytes, 0);
        if error == 0 {
            return None;
        }
        Some(ErrorAt {
            error,
            offset: u64_at(bytes, 6),
        })
    }

    /// The bytes of the data.
    #[tactic(auto, unfolding(crate::specs::Chunks::error_at_text, crate::specs::Fields::u16_text, crate::specs::Fields::u32_text, crate::specs::Fields::u64_text))]
    pub fn write(self) -> [u8; 14]
        requires { 0 < self.error }
        ensures { result ≡ error_at_text self }
    {
        let e = self.error.to_be_bytes();
        let o = self.offset.to_be_bytes();
        [
            e[0], e[1], e[2], e[3], 0, 0, o[0], o[1], o[2], o[3], o[4], o[5], o[6], o[7],
        ]
    }
}
