ghost use Rattle.std.specs.Prelude.{◌≡◌, [], ◌∷◌, MatchOption};
ghost use Rattle.nbd_wire.specs.ReadReplying.Outcomes.{answer_by};
ghost use Rattle.nbd_wire.specs.ReadReplying.Replies.{IsAnswer, answer-prop, chunks_of, content};

use crate::ErrorAt;
use crate::read_replies::{Chunk, Payload};

/// The most bytes that a chunk holds, where a READ may be answered in several.
const MOST: usize = 1 << 20;

/// What a READ comes to.
#[derive(Clone, Copy)]
pub enum Outcome<'a> {
    /// The bytes of its range.
    Content(&'a [u8]),
    /// The number of an error, which isn't 0.
    Error(u32),
    /// The same, and the offset in the export where it came.
    ErrorAt(ErrorAt),
}

/// The reply to a READ from an offset of the export on.
#[derive(Clone, Copy)]
pub struct ReadReply<'a> {
    pub offset: u64,
    pub outcome: Outcome<'a>,
    ghost fits: { IsAnswer offset (answer_by outcome) } by { answer-prop offset
        (answer_by outcome) },
}

impl<'a> ReadReply<'a> {
    ghost use Rattle.nbd_wire.specs.ReadReplying.Views.{chunks_left, left_of, part_by};

    /// The chunks of the reply: one for each MiB of the content and one for what is behind, or one
    /// for all of it where the client wants it `whole`; one that holds nothing where there is no
    /// byte; and one for an error.
    pub fn chunks(self, whole: bool) -> ReadChunks<'a>
        ensures { chunks_left result
            ≡ chunks_of whole self.entry.offset (answer_by self.entry.outcome) }
    {
        ReadChunks {
            rest: Some(self),
            whole,
        }
    }

    /// The first of these chunks, and the reply that is put in those behind it, if there are any.
    fn split(self, whole: bool) -> (Chunk<'a>, Option<ReadReply<'a>>)
        ensures { chunks_of whole self.entry.offset (answer_by self.entry.outcome)
            ≡ part_by result.0 ∷ left_of whole result.1 }
    {
        match self.outcome {
            Outcome::Content(bytes) => ReadReply::split_content(self.offset, bytes, whole),
            Outcome::Error(number) => {
                let payload = Payload::Error(number);
                (
                    Chunk {
                        done: true,
                        payload,
                    },
                    None,
                )
            }
            Outcome::ErrorAt(at) => {
                let payload = Payload::ErrorAt(at);
                (
                    Chunk {
                        done: true,
                        payload,
                    },
                    None,
                )
            }
        }
    }

    /// The same of a content.
    fn split_content(
        offset: u64,
        bytes: &'a [u8],
        whole: bool,
    ) -> (Chunk<'a>, Option<ReadReply<'a>>)
        requires { IsAnswer offset (content bytes.now) }
        ensures { chunks_of whole offset (content bytes.now)
            ≡ part_by result.0 ∷ left_of whole result.1 }
    {
        if bytes.is_empty() {
            let none = Chunk {
                done: true,
                payload: Payload::Nothing,
            };
            return (none, None);
        }
        let all = Chunk {
            done: true,
            payload: Payload::Data { offset, bytes },
        };
        if whole {
            return (all, None);
        }
        if bytes.len() <= MOST {
            return (all, None);
        }
        let rest = ReadReply {
            offset: offset + MOST as u64,
            outcome: Outcome::Content(&bytes[MOST..]),
        };
        let payload = Payload::Data {
            offset,
            bytes: &bytes[..MOST],
        };
        let first = Chunk {
            done: false,
            payload,
        };
        (first, Some(rest))
    }
}

/// The chunks of a reply that are still to come.
#[derive(Clone, Copy)]
pub struct ReadChunks<'a> {
    rest: Option<ReadReply<'a>>,
    whole: bool,
}

impl<'a> ReadChunks<'a> {
    ghost use Rattle.nbd_wire.specs.ReadReplying.Views.{chunks_left, part_by};

    /// Takes the next chunk; None behind the last one.
    pub fn next_chunk(&mut self) -> Option<Chunk<'a>>
        ensures { MatchOption result
            ((chunks_left self.old ≡ []) × (chunks_left self.new ≡ []))
            (λ chunk. chunks_left self.old ≡ part_by chunk ∷ chunks_left self.new) }
    {
        match self.rest {
            Some(reply) => {
                let (chunk, rest) = reply.split(self.whole);
                self.rest = rest;
                Some(chunk)
            }
            None => None,
        }
    }
}
