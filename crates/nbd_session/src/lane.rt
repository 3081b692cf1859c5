//! One lane of a session with several requests in flight.
ghost use Rattle.std.specs.Prelude.{◌≡◌, ◌⊎◌, ℕ, List, [], ◌∷◌, length, MatchOption, Some};
ghost use Rattle.nbd_session.specs.Lanes.{AreServed, HasCalled, HasServed, IsLane, IsLast, IsPut};
ghost use Rattle.nbd_session.specs.Lanes.{WasTaken};
ghost use Rattle.nbd_session.specs.Turns.{Turn, exchanges_of};
ghost use Rattle.nbd_session.specs.Asking.{Asked};
ghost use Rattle.nbd_session.specs.Replies.{IsAnswerIn};
ghost use Rattle.volume_cell.specs.Histories.{call};
ghost use Rattle.volume_cell.specs.Passes.{IsPassOf, known};

use crate::forms::Form;
use crate::reader::{Reader, Take, Taken};
use crate::requests::Next;
use crate::session::{keep, keep_content, taken_from};
use crate::writer::{Put, Writer, Written};
use crate::{Ending, Port, Submitted};
use base_terms::{Buffer, NO_MEMORY};
use io_edge::{Sink, Source};
use plain_disk::Reply;
use std::alloc::Global;
use std::mem;
use std::sync::Wait;
use std::thread::Threads;
use volume_cell::{Cell, Pass};

/// Why a lane takes no more requests.
#[derive(Clone, Copy, PartialEq, Eq)]
pub enum Halt {
    /// The requests ended so.
    RequestsEnded(Ending),
    /// The sink failed, at the lane's reply or before it.
    SinkFailed,
    /// The port takes no operation any more.
    PortSpent,
    /// The reader can't be asked any more, or the writer: its history is full.
    CellSpent,
}

/// A lane of a session: its passes to the reader and the writer, its port, and why it halted, once it
/// did.
#[derive(Drop)]
pub struct Lane<A, B, P> {
    pub(crate) source: A,
    pub(crate) sink: B,
    pub(crate) port: P,
    pub(crate) halt: Option<Halt>,
}

/// Serves the requests that the lane takes, one after the other, each answered by the lane's port and
/// its reply put before the next one is taken. Other lanes take and put beside it.
pub(crate) fn serve_lane<R: Threads + Wait + Sync, S: Source, K: Sink, P: Port>(
    rt: &R,
    alloc: Global,
    reader: &Cell<Reader<S>>,
    writer: &Cell<Writer<K>>,
    source: &mut Pass<Reader<S>>,
    sink: &mut Pass<Writer<K>>,
    port: &mut P,
) -> Halt
    requires source { IsPassOf reader.now source.old }
    requires sink { IsPassOf writer.now sink.old }
    requires lane { IsLane (known source.old) (known sink.old) }
    requires usable { P.usable port.old }
    ensures source { IsPassOf reader.now source.new }
    ensures sink { IsPassOf writer.now sink.new }
    ensures usable { P.usable port.new }
    ensures spent { result ≡ Halt.PortSpent → P.is_spent port.new }
    ensures full { result ≡ Halt.CellSpent →
        (length (known source.new).history ≡ reader.now.limit)
        ⊎ (length (known sink.new).history ≡ writer.now.limit) }
    ensures served { (takes : _) × (puts : _) × (turns : List Turn) × (left : List Asked)
        × HasCalled (known source.old) (known source.new) takes
        × HasCalled (known sink.old) (known sink.new) puts
        × P.did port.old port.new (exchanges_of turns)
        × HasServed result takes puts turns left }
{
    let mut spare = Buffer::empty(alloc);
    for _ in rt.forever() {
        match serve_next(rt, alloc, reader, writer, source, sink, port, &mut spare) {
            None => {}
            Some(halt) => return halt,
        }
    }
    unreachable!()
}

/// Takes the next request, has it answered, and puts the reply; says why the lane halts where it does.
fn serve_next<R: Threads + Wait + Sync, S: Source, K: Sink, P: Port>(
    rt: &R,
    alloc: Global,
    reader: &Cell<Reader<S>>,
    writer: &Cell<Writer<K>>,
    source: &mut Pass<Reader<S>>,
    sink: &mut Pass<Writer<K>>,
    port: &mut P,
    spare: &mut Buffer,
) -> Option<Halt>
    requires source { IsPassOf reader.now source.old }
    requires sink { IsPassOf writer.now sink.old }
    requires lane { IsLane (known source.old) (known sink.old) }
    requires usable { P.usable port.old }
    ensures source { IsPassOf reader.now source.new }
    ensures sink { IsPassOf writer.now sink.new }
    ensures usable { P.usable port.new }
    ensures spent { result ≡ Some Halt.PortSpent → P.is_spent port.new }
    ensures full { result ≡ Some Halt.CellSpent →
        (length (known source.new).history ≡ reader.now.limit)
        ⊎ (length (known sink.new).history ≡ writer.now.limit) }
    ensures served { (takes : _) × (puts : _) × (turns : List Turn)
        × HasCalled (known source.old) (known source.new) takes
        × HasCalled (known sink.old) (known sink.new) puts
        × P.did port.old port.new (exchanges_of turns)
        × MatchOption result (AreServed takes puts turns)
        (λ halt. (left : List Asked) × IsLast halt takes puts turns left) }
{
    let event = Take {
        spare: mem::replace(spare, Buffer::empty(alloc)),
    };
    match reader.turn(rt, source, event) {
        Ok(taken) => answer(rt, alloc, writer, sink, port, spare, taken),
        Err(_) => Some(Halt::CellSpent),
    }
}

/// Has a request that was taken answered, and puts the reply; says why the lane halts where it does.
/// The spare buffer that comes with it is kept.
fn answer<R: Threads + Wait + Sync, K: Sink, P: Port>(
    rt: &R,
    alloc: Global,
    writer: &Cell<Writer<K>>,
    sink: &mut Pass<Writer<K>>,
    port: &mut P,
    spare: &mut Buffer,
    taken: Taken,
) -> Option<Halt>
    requires sink { IsPassOf writer.now sink.old }
    requires lane { (lane : ℕ) × ((known sink.old).name ≡ lane ∷ []) }
    requires usable { P.usable port.old }
    requires taken { WasTaken taken.next }
    ensures sink { IsPassOf writer.now sink.new }
    ensures usable { P.usable port.new }
    ensures spent { result ≡ Some Halt.PortSpent → P.is_spent port.new }
    ensures full { result ≡ Some Halt.CellSpent →
        length (known sink.new).history ≡ writer.now.limit }
    ensures answered { (event : _) → (puts : _) × (turns : List Turn)
        × HasCalled (known sink.old) (known sink.new) puts
        × P.did port.old port.new (exchanges_of turns)
        × MatchOption result (AreServed (call event taken ∷ []) puts turns)
        (λ halt. (left : List Asked) × IsLast halt (call event taken ∷ []) puts turns left) }
{
    let Taken {
        number,
        next,
        spare: kept,
    } = taken;
    *spare = kept;
    match next {
        Next::Stop(ending) => Some(Halt::RequestsEnded(ending)),
        Next::Refuse {
            cookie,
            form,
            number: error,
        } => {
            let reply = Reply::Errno(error);
            hand_over(rt, writer, sink, spare, number, cookie, form, reply)
        }
        Next::Ask { cookie, form, op } => match port.submit(alloc, op, taken_from(alloc, spare)) {
            Ok(Submitted::Replied(reply, buffer)) => {
                keep(spare, buffer);
                hand_over(rt, writer, sink, spare, number, cookie, form, reply)
            }
            Ok(Submitted::Spent) => Some(Halt::PortSpent),
            Err(_) => {
                let reply = Reply::Errno(NO_MEMORY);
                hand_over(rt, writer, sink, spare, number, cookie, form, reply)
            }
        },
    }
}

/// Has the writer put the reply to the request of this number, and keeps its buffer; says why the lane
/// halts where it does.
fn hand_over<R: Threads + Wait + Sync, K: Sink>(
    rt: &R,
    writer: &Cell<Writer<K>>,
    sink: &mut Pass<Writer<K>>,
    spare: &mut Buffer,
    number: u64,
    cookie: u64,
    form: Form,
    reply: Reply,
) -> Option<Halt>
    requires sink { IsPassOf writer.now sink.old }
    requires lane { (lane : ℕ) × ((known sink.old).name ≡ lane ∷ []) }
    requires fits { IsAnswerIn form reply }
    ensures sink { IsPassOf writer.now sink.new }
    ensures full { result ≡ Some Halt.CellSpent →
        length (known sink.new).history ≡ writer.now.limit }
    ensures put { (puts : _) × HasCalled (known sink.old) (known sink.new) puts
        × IsPut (record { number = number; cookie = cookie; form = form; reply = reply }) puts result }
{
    let event = Put {
        number,
        cookie,
        form,
        reply,
    };
    match writer.turn(rt, sink, event) {
        Ok(Written::Done(reply)) => {
            keep_content(spare, reply);
            None
        }
        Ok(Written::SinkFailed(reply)) => {
            keep_content(spare, reply);
            Some(Halt::SinkFailed)
        }
        Err(_) => Some(Halt::CellSpent),
    }
}
