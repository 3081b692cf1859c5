ghost use Rattle.std.specs.Prelude.{◌≡◌, ◌<◌, ◌≤◌, ◌^◌, ◌+◌, ◌⊎◌, ℕ, Bool, List, length, Some};
ghost use Rattle.std.specs.Prelude.{None};
ghost use Rattle.nbd_stream.specs.Moments.{moment};
ghost use Rattle.nbd_stream.specs.Putting.{IsOut};
ghost use Rattle.nbd_session.specs.Replies.{IsAnswerIn, reply_text, Replies};
ghost use Rattle.nbd_session.specs.Serving.{Serves};
ghost use Rattle.nbd_session.specs.Session.{IsSession, Log};
ghost use Rattle.nbd_session.specs.Turns.{Turn, exchanges_of};
ghost use Rattle.nbd_stream.specs.declared.ending.Ending.{Ending};

use crate::forms::Form;
use crate::replies::put_reply;
use crate::requests::{MAX_REQUESTS, Next, next_request};
use crate::{Ending, Export, Port, SessionEnd, Submitted};
use base_terms::{Buffer, Bytes, NO_MEMORY};
use io_edge::{Sink, Source};
use nbd_hand::negotiate;
use nbd_stream::Tally;
use plain_disk::Reply;
use std::alloc::Global;
use std::mem;

/// Serves one client to its end. What was put is the greeting, the answers to the options and a
/// reply for each request, in order: a simple one, or chunks for a read where structured replies
/// were agreed on; what the port was asked are the operations of the requests, but for those that
/// were answered 12 for want of memory, in order. A request of an unknown type, or with a flag that
/// its type may not have, is no operation; it is answered 22. Of the source the session takes the
/// bytes up to the end of the message that ends it, or of that message's head where that decides,
/// and no more.
///
/// It ends with `ReadFault` exactly where the source's count of faults rose, and with `WriteFault`
/// exactly where the sink's did; then at most the last message, or a rear of it, is missing. All
/// chunks of a read are one message: up to 32 MiB of it, and chunks that would be whole, may be
/// missing. With `TooMany` it ends exactly after the answer to the 65536th option that goes on, or
/// the reply to the 2^32nd request; with `PortSpent` only where the port is spent. Each message has
/// gone out before the next one of the client is asked for, and all have at the end, unless the
/// sink failed. Once the negotiation is over, and before a request is taken, the source hears it by
/// `settle`.
///
/// It keeps one buffer, of at most 32 MiB, for the bodies of writes and the contents of reads, one
/// after the other.
pub fn serve_session<S: Source, K: Sink, P: Port>(
    alloc: Global,
    source: &mut S,
    sink: &mut K,
    port: &mut P,
    export: &Export,
) -> SessionEnd
    requires usable { P.usable port.old }
    ensures usable { P.usable port.new }
    ensures out { (result.ending ≡ Ending.WriteFault) ⊎ IsOut (K.outlet sink.new) }
    ensures spent { result.ending ≡ Ending.PortSpent → P.is_spent port.new }
    ensures session { (log : Log) × P.did port.old port.new (exchanges_of log.turns)
        × IsSession export.now result
        (moment (S.intake source.old) (K.outlet sink.old) 0 0)
        (moment (S.intake source.new) (K.outlet sink.new) result.taken result.put)
        log }
{
    let mut tally = Tally { taken: 0, put: 0 };
    let ending = match negotiate(alloc, source, sink, export, &mut tally) {
        Ok(agreed) => {
            source.settle();
            serve_requests(alloc, source, sink, port, agreed.structured, &mut tally)
        }
        Err(ending) => ending,
    };
    end_of(export, ending, tally)
}

/// A session's end, by its counts.
pub(crate) fn end_of(export: &Export, ending: Ending, tally: Tally) -> SessionEnd
    ensures is { result ≡ record {
      number = export.now.number;
      ending = ending;
      taken = tally.taken;
      put = tally.put;
    } }
    ensures taken_fits { tally.taken < 2 ^ 64 }
    ensures put_fits { tally.put < 2 ^ 64 }
{
    SessionEnd {
        number: export.number,
        ending,
        taken: tally.taken,
        put: tally.put,
    }
}

/// Serves requests to the session's end.
fn serve_requests<S: Source, K: Sink, P: Port>(
    alloc: Global,
    source: &mut S,
    sink: &mut K,
    port: &mut P,
    structured: bool,
    tally: &mut Tally,
) -> Ending
    requires out { IsOut (K.outlet sink.old) }
    requires usable { P.usable port.old }
    ensures usable { P.usable port.new }
    ensures out { (result ≡ Ending.WriteFault) ⊎ IsOut (K.outlet sink.new) }
    ensures spent { result ≡ Ending.PortSpent → P.is_spent port.new }
    ensures served { (turns : List Turn) × (taken : List ℕ) × (whole : List ℕ) × (front : List ℕ)
        × (ended : Bool)
        × P.did port.old port.new (exchanges_of turns)
        × Serves structured 0
        (moment (S.intake source.old) (K.outlet sink.old) tally.old.taken tally.old.put)
        (moment (S.intake source.new) (K.outlet sink.new) tally.new.taken tally.new.put)
        (Some result) turns taken whole front ended }
{
    let mut spare = Buffer::empty(alloc);
    for number in 0..MAX_REQUESTS {
        match serve_request(alloc, source, sink, port, structured, &mut spare, tally) {
            None => {}
            Some(ending) => return ending,
        }
    }
    Ending::TooMany(MAX_REQUESTS)
}

/// Serves the next request, and says how the session ended where it did. All that was put before
/// has gone out when the request is asked for, and so has its reply when the next one is.
fn serve_request<S: Source, K: Sink, P: Port>(
    alloc: Global,
    source: &mut S,
    sink: &mut K,
    port: &mut P,
    structured: bool,
    spare: &mut Buffer,
    tally: &mut Tally,
) -> Option<Ending>
    requires out { IsOut (K.outlet sink.old) }
    requires usable { P.usable port.old }
    ensures usable { P.usable port.new }
    ensures out { (result ≡ Some Ending.WriteFault) ⊎ IsOut (K.outlet sink.new) }
    ensures spent { result ≡ Some Ending.PortSpent → P.is_spent port.new }
    ensures served { (turns : List Turn) × (taken : List ℕ) × (whole : List ℕ) × (front : List ℕ)
        × (ended : Bool)
        × (result ≡ None → length turns ≡ 1)
        × P.did port.old port.new (exchanges_of turns)
        × ((n : ℕ) → n < 2 ^ 32 → Serves structured n
        (moment (S.intake source.old) (K.outlet sink.old) tally.old.taken tally.old.put)
        (moment (S.intake source.new) (K.outlet sink.new) tally.new.taken tally.new.put)
        result turns taken whole front ended) }
{
    match next_request(alloc, source, structured, spare, &mut tally.taken) {
        Next::Stop(ending) => Some(ending),
        Next::Refuse {
            cookie,
            form,
            number,
        } => answer(sink, form, cookie, &Reply::Errno(number), &mut tally.put),
        Next::Ask { cookie, form, op } => match port.submit(alloc, op, taken_from(alloc, spare)) {
            Ok(Submitted::Replied(reply, buffer)) => {
                let ending = answer(sink, form, cookie, &reply, &mut tally.put);
                keep(spare, buffer);
                keep_content(spare, reply);
                ending
            }
            Ok(Submitted::Spent) => Some(Ending::PortSpent),
            Err(_) => answer(sink, form, cookie, &Reply::Errno(NO_MEMORY), &mut tally.put),
        },
    }
}

/// Takes the spare buffer, as the text of all its bytes, and leaves one without memory.
pub(crate) fn taken_from(alloc: Global, spare: &mut Buffer) -> Bytes
    ensures { result ≡ spare.old }
{
    let buffer = mem::replace(spare, Buffer::empty(alloc));
    let len = buffer.len();
    buffer.into_text(len)
}

/// Keeps the longer buffer for the next operation.
pub(crate) fn keep(spare: &mut Buffer, used: Bytes)
    ensures as_long { length used ≤ length spare.new }
    ensures kept { length spare.old ≤ length spare.new }
{
    let buffer = used.into_buffer();
    if spare.len() < buffer.len() {
        *spare = buffer;
    }
}

/// Keeps the buffer of a read's content, once it was put.
pub(crate) fn keep_content(spare: &mut Buffer, reply: Reply) {
    match reply {
        Reply::Content(bytes) => keep(spare, bytes),
        Reply::Done | Reply::Errno(_) | Reply::ErrnoAt(..) => {}
    }
}

/// Puts a reply, and says that the session ended where the sink failed.
#[inline(always)]
fn answer<K: Sink>(
    sink: &mut K,
    form: Form,
    cookie: u64,
    reply: &Reply,
    put: &mut u64,
) -> Option<Ending>
    requires { IsAnswerIn form reply.now }
    ensures out { (result ≡ Some Ending.WriteFault)
        ⊎ ((result ≡ None) × IsOut (K.outlet sink.new)) }
    ensures replies { (whole : List ℕ) × (front : List ℕ)
        × Replies (K.outlet sink.old) (K.outlet sink.new) put.old put.new
        (reply_text form cookie reply.now) result whole front }
{
    match put_reply(sink, form, cookie, reply, put) {
        Ok(()) => None,
        Err(_) => Some(Ending::WriteFault),
    }
}
