ghost use Rattle.std.specs.Prelude.{◌≡◌, ◌++◌};
ghost use Rattle.nbd_wire.specs.Chunks.{IsChunkHead};
ghost use Rattle.nbd_wire.specs.ReadReplying.Parts.{IsHeld, bits_of, bytes_of, head_of, held-prop};
ghost use Rattle.nbd_wire.specs.ReadReplying.Parts.{held_length};
ghost use Rattle.nbd_wire.specs.ReadReplying.Parts.{part_text, type_of};
ghost use Rattle.nbd_wire.specs.ReadReplying.Payloads.{held_by};

use crate::read_replies::Front;
use crate::{ChunkFlags, ChunkHead, ChunkType, ErrorAt, error_data};

/// What a chunk holds ("Structured reply types").
#[derive(Clone, Copy)]
pub enum Payload<'a> {
    /// Nothing: the READ was of no bytes.
    Nothing,
    /// Bytes of the export, from an offset on.
    Data { offset: u64, bytes: &'a [u8] },
    /// The number of the error by which the READ failed.
    Error(u32),
    /// The same, and the offset in the export where it came.
    ErrorAt(ErrorAt),
}

impl<'a> Payload<'a> {
    /// The type of a chunk that holds this.
    pub fn chunk_type(&self) -> ChunkType
        ensures { result ≡ type_of (held_by self.now) }
    {
        match self {
            Payload::Nothing => ChunkType::Nothing,
            Payload::Data { .. } => ChunkType::OffsetData,
            Payload::Error(_) => ChunkType::Error,
            Payload::ErrorAt(_) => ChunkType::ErrorOffset,
        }
    }

    /// How many bytes of data a chunk has that holds this: with the offset, where there is one.
    pub fn data_length(&self) -> u32
        requires { IsHeld (held_by self.now) }
        ensures { result ≡ held_length (held_by self.now) }
    {
        match self {
            Payload::Nothing => 0,
            Payload::Data { bytes, .. } => 8 + bytes.len() as u32,
            Payload::Error(_) => 6,
            Payload::ErrorAt(_) => 14,
        }
    }
}

/// A chunk of the reply to a READ.
#[derive(Clone, Copy)]
pub struct Chunk<'a> {
    /// Whether it is the last one.
    pub done: bool,
    pub payload: Payload<'a>,
    ghost fits: { IsHeld (held_by payload) } by { held-prop (held_by payload) },
}

impl<'a> Chunk<'a> {
    ghost use Rattle.nbd_wire.specs.ReadReplying.Views.{part_by};

    /// The chunk's head, under the cookie of the READ.
    pub fn head(&self, cookie: u64) -> ChunkHead
        ensures is { result ≡ head_of cookie (part_by self.now) }
        ensures fits { IsChunkHead result }
    {
        ChunkHead {
            flags: flags(self.done),
            chunk: self.payload.chunk_type(),
            cookie,
            length: self.payload.data_length(),
        }
    }

    /// The chunk's text in front of its bytes of the export: its head, and the offset of these
    /// bytes, or the error.
    pub fn front(&self, cookie: u64) -> Front
        ensures { result ++ bytes_of (held_by self.now.payload)
            ≡ part_text cookie (part_by self.now) }
    {
        let head = self.head(cookie).write();
        match self.payload {
            Payload::Nothing => Front::joined(&head, &[]),
            Payload::Data { offset, .. } => Front::joined(&head, &offset.to_be_bytes()),
            Payload::Error(number) => Front::joined(&head, &error_data(number)),
            Payload::ErrorAt(at) => Front::joined(&head, &at.write()),
        }
    }

    /// The chunk's bytes of the export, none of one that holds none.
    pub fn bytes(&self) -> &'a [u8]
        ensures { result.now ≡ bytes_of (held_by self.now.payload) }
    {
        match self.payload {
            Payload::Data { bytes, .. } => bytes,
            Payload::Nothing | Payload::Error(_) | Payload::ErrorAt(_) => &[],
        }
    }
}

/// The flags of a chunk that is the last one, or isn't.
fn flags(done: bool) -> ChunkFlags
    ensures { result.bits ≡ bits_of done }
{
    if done {
        ChunkFlags::DONE
    } else {
        ChunkFlags::NONE
    }
}
