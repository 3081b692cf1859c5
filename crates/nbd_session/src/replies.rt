ghost use Rattle.std.specs.Prelude.{◌≡◌, ℕ, List, OnOk};
ghost use Rattle.nbd_wire.specs.ReadReplying.Outcomes.{answer_by};
ghost use Rattle.nbd_wire.specs.ReadReplying.Parts.{part_text, parts_text};
ghost use Rattle.nbd_wire.specs.ReadReplying.Replies.{IsAnswer};
ghost use Rattle.nbd_wire.specs.ReadReplying.Views.{chunks_left, part_by};
ghost use Rattle.nbd_stream.specs.Putting.{IsOut, Puts};
ghost use Rattle.nbd_session.specs.Replies.{IsAnswerIn, answer_in, data_of};
ghost use Rattle.nbd_session.specs.Replies.{errno_of, reply_text, simple_text};

use crate::forms::Form;
use base_terms::Failed;
use io_edge::Sink;
use nbd_stream::{put_message, put_piece};
use nbd_wire::{Chunk, ErrorAt, Outcome, ReadChunks, ReadReply, SimpleReplyHead};
use plain_disk::Reply;

/// Puts a reply in its form, and lets it go out.
#[inline(always)]
pub fn put_reply<K: Sink>(
    sink: &mut K,
    form: Form,
    cookie: u64,
    reply: &Reply,
    put: &mut u64,
) -> Result<(), Failed>
    requires { IsAnswerIn form reply.now }
    ensures out { OnOk result (IsOut (K.outlet sink.new)) }
    ensures puts { (whole : List ℕ) × (front : List ℕ)
        × Puts (K.outlet sink.old) (K.outlet sink.new) put.old put.new
        (reply_text form cookie reply.now) result whole front }
{
    match form {
        Form::Simple => put_simple_reply(sink, cookie, reply, put),
        Form::Chunks { whole, offset } => {
            let chunks = read_reply(offset, reply).chunks(whole);
            put_chunks(sink, cookie, chunks, put)
        }
    }
}

/// Puts a simple reply, its head and the data of a read behind it as a second piece, and lets it go
/// out.
#[inline(always)]
fn put_simple_reply<K: Sink>(
    sink: &mut K,
    cookie: u64,
    reply: &Reply,
    put: &mut u64,
) -> Result<(), Failed>
    ensures out { OnOk result (IsOut (K.outlet sink.new)) }
    ensures puts { (whole : List ℕ) × (front : List ℕ)
        × Puts (K.outlet sink.old) (K.outlet sink.new) put.old put.new
        (simple_text cookie reply.now) result whole front }
{
    let head = SimpleReplyHead {
        error: errno(reply),
        cookie,
    }
    .write();
    let body = data(reply);
    if body.is_empty() {
        return put_message(sink, &head, put);
    }
    match put_piece(sink, &head, put) {
        Ok(()) => put_message(sink, body, put),
        Err(failed) => Err(failed),
    }
}

/// What a READ from an offset on comes to by its reply.
fn read_reply(offset: u64, reply: &Reply) -> ReadReply<'_>
    requires { IsAnswer offset (answer_in reply.now) }
    ensures offset { result.offset ≡ offset }
    ensures outcome { answer_by result.outcome ≡ answer_in reply.now }
{
    let outcome = match reply {
        Reply::Content(bytes) => Outcome::Content(bytes.as_slice()),
        Reply::Done => Outcome::Content(&[]),
        Reply::Errno(number) => Outcome::Error(*number),
        Reply::ErrnoAt(number, place) => Outcome::ErrorAt(ErrorAt {
            error: *number,
            offset: *place,
        }),
    };
    ReadReply { offset, outcome }
}

/// Puts the chunks of a reply one behind the other, and lets them go out.
#[inline(never)]
fn put_chunks<K: Sink>(
    sink: &mut K,
    cookie: u64,
    chunks: ReadChunks<'_>,
    put: &mut u64,
) -> Result<(), Failed>
    ensures out { OnOk result (IsOut (K.outlet sink.new)) }
    ensures puts { (whole : List ℕ) × (front : List ℕ)
        × Puts (K.outlet sink.old) (K.outlet sink.new) put.old put.new
        (parts_text cookie (chunks_left chunks.entry)) result whole front }
{
    let mut chunks = chunks;
    'chunks: while let Some(chunk) = chunks.next_chunk() {
        match put_chunk(sink, cookie, &chunk, put) {
            Ok(()) => {}
            Err(failed) => return Err(failed),
        }
    }
    sink.push_out()
}

/// Puts a chunk, its bytes of the export as a piece of their own.
fn put_chunk<K: Sink>(
    sink: &mut K,
    cookie: u64,
    chunk: &Chunk<'_>,
    put: &mut u64,
) -> Result<(), Failed>
    ensures { (whole : List ℕ) × (front : List ℕ)
        × Puts (K.outlet sink.old) (K.outlet sink.new) put.old put.new
        (part_text cookie (part_by chunk.now)) result whole front }
{
    let front = chunk.front(cookie);
    let bytes = chunk.bytes();
    if bytes.is_empty() {
        return put_piece(sink, front.as_slice(), put);
    }
    match put_piece(sink, front.as_slice(), put) {
        Ok(()) => put_piece(sink, bytes, put),
        Err(failed) => Err(failed),
    }
}

/// The error number of a reply, 0 of one without error.
fn errno(reply: &Reply) -> u32
    ensures { result ≡ errno_of reply.now }
{
    match reply {
        Reply::Content(_) | Reply::Done => 0,
        Reply::Errno(number) | Reply::ErrnoAt(number, _) => *number,
    }
}

/// The data of a reply, which only a read has.
fn data(reply: &Reply) -> &[u8]
    ensures { result.now ≡ data_of reply.now }
{
    match reply {
        Reply::Content(bytes) => bytes.as_slice(),
        Reply::Done | Reply::Errno(_) | Reply::ErrnoAt(..) => &[],
    }
}
