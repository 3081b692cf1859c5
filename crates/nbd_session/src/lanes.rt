//! A session with several requests in flight.
ghost use Rattle.std.specs.Prelude.{◌≡◌, ◌<◌, ◌≤◌, ◌⊎◌, ◌||◌, ◌^◌, ◌+◌, ◌-◌, ◌++◌, [], ◌∷◌, length, false};
ghost use Rattle.std.specs.Prelude.{true};
ghost use Rattle.std.specs.Prelude.{slice_index_or, vec_capacity, map, Some, Option, ℕ};
ghost use Rattle.nbd_stream.specs.Moments.{moment};
ghost use Rattle.nbd_stream.specs.Putting.{IsOut};
ghost use Rattle.nbd_stream.specs.declared.ending.Ending.{Ending};
ghost use Rattle.nbd_session.specs.Flights.{FlightLog, IsFlight};
ghost use Rattle.nbd_session.specs.Flying.{AreMade, AreUsable, HasLanded, HaveDone, IsOneSpent};
ghost use Rattle.nbd_session.specs.Flying.{IsReady, LeavesSpent, any_spent, is_spent_halt};
ghost use Rattle.nbd_session.specs.Passing.{HasJoined, HasSplit, IsFirst};
ghost use Rattle.nbd_session.specs.Puts.{HasWritten};
ghost use Rattle.nbd_session.specs.Takes.{HasRead};
ghost use Rattle.nbd_session.specs.Turns.{exchanges_of};
ghost use Rattle.nbd_session.specs.declared.reader.Reading.{Reading};
ghost use Rattle.nbd_session.specs.declared.writer.Writing.{Writing};
ghost use Rattle.volume_cell.specs.Knowing.{beginning};
ghost use Rattle.volume_cell.specs.Passes.{IsPassOf, known};

use crate::flying::fly;
use crate::lane::{Halt, Lane};
use crate::reader::{Reader, Reading};
use crate::session::end_of;
use crate::writer::{Writer, Writing};
use crate::{Ending, Export, Port, SessionEnd};
use io_edge::{Sink, Source};
use nbd_hand::negotiate;
use nbd_stream::Tally;
use std::alloc::{AllocFailed, Global};
use std::sync::Wait;
use std::thread::Threads;
use volume_cell::{Cell, Pass};

/// How many calls the reader takes at most, and how many the writer.
const MAX_CALLS: u64 = (1 << 63) - 2;

/// A session that was served, with its source, its sink and its ports.
#[derive(Drop)]
pub struct LanesServed<S, K, P> {
    pub end: SessionEnd,
    pub source: S,
    pub sink: K,
    pub ports: Vec<P>,
}

/// The lanes of a session: with a pass to its reader and one to its writer each.
type Lanes<S, K, P> = Vec<Lane<Pass<Reader<S>>, Pass<Writer<K>>, P>>;

/// Serves one client to its end as `serve_session` does, but with as many of its requests in flight
/// as there are ports. Each port has a lane, in a thread of its own where one can be made: it takes a
/// request, submits its operation to the port, puts the reply and takes the next one, while the other
/// lanes do so beside it. Replies go out in the order in which they are ready, and none waits for a
/// read of the source.
///
/// Each request is taken by one lane, and a lane answers those that it took in their order. The
/// session ends with `WriteFault` exactly where the sink's count of faults rose. Then a lane that put
/// a reply, the last one perhaps in part, lacks nothing more. Each other lane may lack its last reply,
/// or leave its last operation unanswered if its port is spent.
///
/// Else the session ends with `PortSpent` only where a lane left an operation unanswered, since its
/// port is spent. All replies were put then. It ends with `Memory` where memory was wanted for an
/// option's data, or for the lanes before any request was read. Else it ends as `serve_session`
/// would, and each request was answered.
///
/// The log tells how the reading ended, if it did. The source's count of faults rose exactly where
/// it ended with `ReadFault`, also where the session ends with `WriteFault` or `PortSpent`. With one
/// port the reading hasn't ended then.
///
/// Each lane keeps one buffer, of at most 32 MiB, for the bodies of writes and the contents of
/// reads, one after the other.
pub fn serve_lanes<
    R: Threads + Wait + Sync,
    S: Source + Send,
    K: Sink + Send,
    P: Port + Send + Drop,
>(rt: &R, alloc: Global, source: S, sink: K, ports: Vec<P>, export: &Export) -> LanesServed<S, K, P>
    requires some { 0 < length ports.items }
    requires few { length ports.items ≤ 4294967295 }
    requires usable { AreUsable P.usable ports.items }
    ensures usable { AreUsable P.usable result.ports.items }
    ensures spent { result.end.ending ≡ Ending.PortSpent →
        IsOneSpent P.is_spent result.ports.items }
    ensures out { (result.end.ending ≡ Ending.WriteFault) ⊎ IsOut (K.outlet result.sink) }
    ensures session { (log : FlightLog)
        × HaveDone P.did ports.items result.ports.items (λ k. exchanges_of (log.lanes k))
        × LeavesSpent P.is_spent result.ports.items log.left
        × IsFlight (length ports.items) export.now result.end
        (moment (S.intake source) (K.outlet sink) 0 0)
        (moment (S.intake result.source) (K.outlet result.sink) result.end.taken result.end.put)
        log }
{
    let mut source = source;
    let mut sink = sink;
    let mut tally = Tally { taken: 0, put: 0 };
    match negotiate(alloc, &mut source, &mut sink, export, &mut tally) {
        Ok(agreed) => {
            source.settle();
            let reader = Reader::new(alloc, source, tally.taken, agreed.structured);
            let writer = Writer::new(sink, tally.put);
            serve_requests(rt, alloc, reader, writer, ports, export)
        }
        Err(ending) => LanesServed {
            end: end_of(export, ending, tally),
            source,
            sink,
            ports,
        },
    }
}

/// Serves requests to the session's end, by a lane for each port.
fn serve_requests<
    R: Threads + Wait + Sync,
    S: Source + Send,
    K: Sink + Send,
    P: Port + Send + Drop,
>(
    rt: &R,
    alloc: Global,
    reader: Reader<S>,
    writer: Writer<K>,
    ports: Vec<P>,
    export: &Export,
) -> LanesServed<S, K, P>
    requires some { 0 < length ports.items }
    requires few { length ports.items ≤ 4294967295 }
    requires usable { AreUsable P.usable ports.items }
    requires reads { HasRead S.intake reader.opening.value reader.reading [] }
    requires writes { HasWritten K.outlet writer.opening.value writer.writing [] }
    ensures { HasLanded S.intake K.outlet P.usable P.is_spent P.did export.now
        reader.opening.value writer.opening.value ports.items result }
{
    let Ok(lanes) = Vec::with_capacity(alloc, ports.len()) else {
        return landed(export, Ending::Memory, reader, writer, ports);
    };
    let Ok(left) = Vec::with_capacity(alloc, ports.len()) else {
        return landed(export, Ending::Memory, reader, writer, ports);
    };
    let (source, reading) = match Cell::new(alloc, reader, MAX_CALLS) {
        Ok(made) => made,
        Err(AllocFailed { value }) => {
            return landed(export, Ending::Memory, value, writer, ports);
        }
    };
    match Cell::new(alloc, writer, MAX_CALLS) {
        Ok((sink, writing)) => serve_all(
            rt, alloc, source, reading, sink, writing, ports, lanes, left, export,
        ),
        Err(AllocFailed { value }) => {
            let (reader, pass) = source.close(reading);
            drop(pass);
            landed(export, Ending::Memory, reader, value, ports)
        }
    }
}

/// Serves requests to the session's end, by a lane for each port, from the first passes to the reader
/// and the writer on. The lists have room for a lane and a port each.
fn serve_all<R: Threads + Wait + Sync, S: Source + Send, K: Sink + Send, P: Port + Send + Drop>(
    rt: &R,
    alloc: Global,
    source: Cell<Reader<S>>,
    mut reading: Pass<Reader<S>>,
    sink: Cell<Writer<K>>,
    mut writing: Pass<Writer<K>>,
    ports: Vec<P>,
    mut lanes: Lanes<S, K, P>,
    mut left: Vec<P>,
    export: &Export,
) -> LanesServed<S, K, P>
    requires source { IsPassOf source reading × (source.limit ≡ 2 ^ 63 - 2) }
    requires sink { IsPassOf sink writing × (sink.limit ≡ 2 ^ 63 - 2) }
    requires begun { (begun : Reading S) × (known reading ≡ beginning begun) }
    requires started { (start : Writing K) × (known writing ≡ beginning start) }
    requires some { 0 < length ports.items }
    requires few { length ports.items ≤ 4294967295 }
    requires usable { AreUsable P.usable ports.items }
    requires none { (lanes.items ≡ []) × (left.items ≡ []) }
    requires room { (length ports.items ≤ vec_capacity lanes)
        × (length ports.items ≤ vec_capacity left) }
    ensures { (begun : Reading S) (start : Writing K) →
        known reading ≡ beginning begun → known writing ≡ beginning start →
        HasLanded S.intake K.outlet P.usable P.is_spent P.did export.now begun start ports.items
        result }
{
    engage(
        &source,
        &sink,
        &mut reading,
        &mut writing,
        ports,
        &mut lanes,
    );
    fly(rt, alloc, &source, &sink, lanes.as_mut_slice());
    let spent = dismiss(&source, &sink, &mut reading, &mut writing, lanes, &mut left);
    let (reader, read) = source.close(reading);
    let (writer, written) = sink.close(writing);
    drop(read);
    drop(written);
    let ending = ending_of(writer.writing.failed, spent, reader.reading.ending);
    landed(export, ending, reader, writer, left)
}

/// How the session ended: by its sink; by a port that is spent, or since no lane reads any more; or as
/// the requests did.
fn ending_of(failed: bool, spent: bool, read: Option<Ending>) -> Ending
    ensures sink { failed ≡ true → result ≡ Ending.WriteFault }
    ensures spent { failed ≡ false → spent ≡ true → result ≡ Ending.PortSpent }
    ensures read { (ending : Ending) → failed ≡ false → spent ≡ false → read ≡ Some ending →
        result ≡ ending }
{
    if failed {
        return Ending::WriteFault;
    }
    match read {
        Some(ending) if !spent => ending,
        _ => Ending::PortSpent,
    }
}

/// The session that ended, with what its reader and its writer had.
fn landed<S: Source, K: Sink, P: Drop>(
    export: &Export,
    ending: Ending,
    reader: Reader<S>,
    writer: Writer<K>,
    ports: Vec<P>,
) -> LanesServed<S, K, P>
    ensures is { result ≡ record {
      end = record {
        number = export.now.number;
        ending = ending;
        taken = reader.reading.taken;
        put = writer.writing.put;
      };
      source = reader.reading.source;
      sink = writer.writing.sink;
      ports = ports;
    } }
    ensures taken_fits { reader.reading.taken < 2 ^ 64 }
    ensures put_fits { writer.writing.put < 2 ^ 64 }
{
    let Reader { reading, .. } = reader;
    let Writer { writing, .. } = writer;
    let Reading { source, taken, .. } = reading;
    let Writing { sink, put, .. } = writing;
    LanesServed {
        end: SessionEnd {
            number: export.number,
            ending,
            taken,
            put,
        },
        source,
        sink,
        ports,
    }
}

/// Makes a lane for each port, by passes that are split off the first ones, in order.
fn engage<S: Source, K: Sink, P: Port + Drop>(
    reader: &Cell<Reader<S>>,
    writer: &Cell<Writer<K>>,
    reading: &mut Pass<Reader<S>>,
    writing: &mut Pass<Writer<K>>,
    ports: Vec<P>,
    lanes: &mut Lanes<S, K, P>,
)
    requires source { IsPassOf reader.now reading.old }
    requires sink { IsPassOf writer.now writing.old }
    requires first { IsFirst 0 0 (known reading.old) × IsFirst 0 0 (known writing.old) }
    requires usable { AreUsable P.usable ports.items }
    requires none { lanes.old.items ≡ [] }
    requires room { length ports.items ≤ vec_capacity lanes.old }
    ensures source { IsPassOf reader.now reading.new }
    ensures sink { IsPassOf writer.now writing.new }
    ensures splits { HasSplit (length ports.items) (known reading.old) (known reading.new)
        × HasSplit (length ports.items) (known writing.old) (known writing.new) }
    ensures lanes { AreMade P.usable reader.now writer.now ports.items lanes.new.items }
{
    for port in ports {
        let source = reader.split(reading);
        let sink = writer.split(writing);
        push_in_room(
            lanes,
            Lane {
                source,
                sink,
                port,
                halt: None,
            },
        );
    }
}

/// Joins the passes of the lanes into the first ones, in order, and puts their ports into a list.
/// Tells whether one of them halted since its port is spent, or a cell.
fn dismiss<S: Source, K: Sink, P: Port + Drop>(
    reader: &Cell<Reader<S>>,
    writer: &Cell<Writer<K>>,
    reading: &mut Pass<Reader<S>>,
    writing: &mut Pass<Writer<K>>,
    lanes: Lanes<S, K, P>,
    ports: &mut Vec<P>,
) -> bool
    requires source { IsPassOf reader.now reading.old }
    requires sink { IsPassOf writer.now writing.old }
    requires first { IsFirst (length lanes.items) 0 (known reading.old)
        × IsFirst (length lanes.items) 0 (known writing.old) }
    requires ready { (k : ℕ) (lane : _) → k < length lanes.items →
        IsReady P.usable reader.now writer.now k (slice_index_or lanes.items k lane) }
    requires none { ports.old.items ≡ [] }
    requires room { length lanes.items ≤ vec_capacity ports.old }
    ensures source { IsPassOf reader.now reading.new }
    ensures sink { IsPassOf writer.now writing.new }
    ensures joins { HasJoined (length lanes.items) (λ lane. known lane.source) lanes.items
        (known reading.old) (known reading.new)
        × HasJoined (length lanes.items) (λ lane. known lane.sink) lanes.items
        (known writing.old) (known writing.new) }
    ensures ports { ports.new.items ≡ map (λ lane. lane.port) lanes.items }
    ensures spent { result ≡ any_spent lanes.items }
{
    let mut spent = false;
    for lane in lanes {
        let Lane {
            source,
            sink,
            port,
            halt,
        } = lane;
        reader.join(reading, source);
        writer.join(writing, sink);
        push_in_room(ports, port);
        spent = is_spent(halt, spent);
    }
    spent
}

/// Whether a lane halted since its port is spent, or a cell, or another one did.
fn is_spent(halt: Option<Halt>, other: bool) -> bool
    ensures { result ≡ (is_spent_halt halt || other) }
{
    match halt {
        Some(Halt::PortSpent | Halt::CellSpent) => true,
        Some(Halt::RequestsEnded(_) | Halt::SinkFailed) | None => other,
    }
}

/// Adds an item to a list that has room.
fn push_in_room<T: Drop>(list: &mut Vec<T>, item: T)
    requires { length list.old.items + 1 ≤ vec_capacity list.old }
    ensures items { list.new.items ≡ list.old.items ++ item ∷ [] }
    ensures capacity { vec_capacity list.old ≤ vec_capacity list.new }
{
    let Ok(()) = list.push(item) else {
        unreachable!()
    };
}
