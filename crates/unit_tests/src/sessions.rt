ghost use Rattle.io_edge.specs.Memory.{outlet_of};

mod blocks;
mod cases;
mod messages;
mod requests;

use self::blocks::Blocks;
use self::cases::{CLIENT, Case, PIECES, PORTS, SERVER, SINKS, SOURCES, USUAL};
use self::messages::bytes_of;
use self::requests::{
    BUFFERS, CHUNKED, FORCED, NO_REQUESTS, REFUSED_RANGES, REFUSED_TYPES, ZEROED,
};
use crate::same::same;
use base_terms::Failed;
use io_edge::{ListSink, ListSource, Sink};
use nbd_session::{Ending, Export, SessionEnd, serve_session};
use std::alloc::{AllocError, Global};
use std::process::Abort;
use std::test::Fail;

const EXPORT: Export = Export {
    number: 5,
    size: 8192,
    atom: 512,
};

/// A sink that knows how often it was put to, and how often, and how much, was let out.
#[derive(Drop)]
struct Door {
    inner: ListSink,
    puts: u32,
    times: u32,
    out: usize,
}

impl Door {
    fn new(alloc: Global, room: usize, fails: &[u64]) -> Result<Door, AllocError> {
        Ok(Door {
            inner: ListSink::new(alloc, room, fails)?,
            puts: 0,
            times: 0,
            out: 0,
        })
    }

    /// Whether all that was put was let out in so many turns, and put in so many pieces, where the
    /// numbers are given.
    fn is_called(&self, calls: Option<(u32, u32)>) -> bool {
        match calls {
            Some(calls) => {
                calls == (self.puts, self.times) && self.out == self.inner.as_slice().len()
            }
            None => true,
        }
    }
}

impl Sink for Door {
    ghost outlet = { λ s. outlet_of s.inner };

    fn put(&mut self, bytes: &[u8]) -> Result<(), Failed> {
        self.puts = self.puts.saturating_add(1);
        self.inner.put(bytes)
    }

    fn push_out(&mut self) -> Result<(), Failed> {
        self.times = self.times.saturating_add(1);
        self.out = self.inner.as_slice().len();
        self.inner.push_out()
    }

    fn faults(&self) -> u64 {
        self.inner.faults()
    }
}

fn end(ending: Ending, taken: usize, put: usize) -> SessionEnd {
    SessionEnd {
        number: 5,
        ending,
        taken: taken as u64,
        put: put as u64,
    }
}

/// A session that has ended, with what was served.
#[derive(Drop)]
struct Session {
    end: SessionEnd,
    sink: Door,
    port: Blocks,
}

/// The session with a client that sends these bytes.
fn served(alloc: Global, case: &Case, sent: &[u8]) -> Result<Session, AllocError> {
    let mut source = source_of(alloc, sent, case)?;
    let mut sink = Door::new(alloc, case.room, &[case.sink_call])?;
    let mut port = Blocks::new(case.has_memory, case.operations);
    let end = serve_session(alloc, &mut source, &mut sink, &mut port, &EXPORT);
    Ok(Session { end, sink, port })
}

fn source_of(alloc: Global, sent: &[u8], case: &Case) -> Result<ListSource, AllocError> {
    let piece = case.piece.max(1);
    ListSource::new(alloc, sent, piece, &[case.source_call])
}

impl Session {
    /// Whether it ended as the case says, took so many bytes and put these, and left the disk so.
    fn meets(&self, case: &Case, taken: usize, put: &[u8], holds: &[u8]) -> bool {
        self.end == end(case.ending, taken, put.len())
            && self.sink.inner.as_slice() == put
            && self.sink.is_called(case.calls)
            && self.port.has(holds, case.forced, case.capacity)
    }

    /// Whether it ended as one whose client sends so many bytes of the usual ones.
    fn is_cut(&self, length: usize, usual: &[u8]) -> bool {
        let (ending, put) = cut_short(length);
        self.end == end(ending, length, put) && Some(self.sink.inner.as_slice()) == usual.get(..put)
    }
}

/// All that a case's client sends, and how many bytes of it the session takes.
fn sent_by(alloc: Global, case: &Case) -> Result<(Vec<u8>, usize), Fail> {
    let mut sent = bytes_of(alloc, case.taken)?;
    let taken = sent.len();
    let left = bytes_of(alloc, case.left)?;
    sent.extend_from_slice(&left)?;
    Ok((sent, taken))
}

/// Whether the session with a case's client ended as the case says, and put what it says.
fn is_met(alloc: Global, case: &Case) -> Result<bool, Fail> {
    let put = bytes_of(alloc, case.put)?;
    let holds = bytes_of(alloc, case.holds)?;
    let (sent, taken) = sent_by(alloc, case)?;
    let session = served(alloc, case, &sent)?;
    let is_met = session.meets(case, taken, &put, &holds);
    drop(session);
    Ok(is_met)
}

/// What the first case shows that isn't met.
fn first_unmet(alloc: Global, cases: &[Case]) -> Result<Option<&'static str>, Fail> {
    for case in cases {
        if !is_met(alloc, case)? {
            return Ok(Some(case.shows));
        }
    }
    Ok(None)
}

/// Asserts that all cases are met.
fn are_met<R: Abort>(rt: &R, alloc: Global, cases: &[Case]) -> Result<(), Fail> {
    same(rt, first_unmet(alloc, cases)?, None);
    Ok(())
}

#[test]
fn each_request_is_answered_however_the_bytes_come(rt: HostRuntime) -> Result<(), Fail> {
    are_met(&rt, rt.alloc(), PIECES)
}

#[test]
fn a_port_without_memory_or_operations_is_told(rt: HostRuntime) -> Result<(), Fail> {
    are_met(&rt, rt.alloc(), PORTS)
}

#[test]
fn a_session_ends_by_a_sink_that_fails(rt: HostRuntime) -> Result<(), Fail> {
    are_met(&rt, rt.alloc(), SINKS)
}

#[test]
fn a_session_ends_by_a_source_that_fails(rt: HostRuntime) -> Result<(), Fail> {
    are_met(&rt, rt.alloc(), SOURCES)
}

#[test]
fn a_range_is_refused_and_the_next_request_served(rt: HostRuntime) -> Result<(), Fail> {
    are_met(&rt, rt.alloc(), REFUSED_RANGES)
}

#[test]
fn a_type_is_refused_and_the_next_request_served(rt: HostRuntime) -> Result<(), Fail> {
    are_met(&rt, rt.alloc(), REFUSED_TYPES)
}

#[test]
fn a_request_that_is_none_ends_the_session(rt: HostRuntime) -> Result<(), Fail> {
    are_met(&rt, rt.alloc(), NO_REQUESTS)
}

#[test]
fn a_forced_write_is_submitted_so(rt: HostRuntime) -> Result<(), Fail> {
    are_met(&rt, rt.alloc(), FORCED)
}

#[test]
fn zeroes_are_submitted_so(rt: HostRuntime) -> Result<(), Fail> {
    are_met(&rt, rt.alloc(), ZEROED)
}

#[test]
fn reads_are_answered_by_chunks_where_that_was_agreed(rt: HostRuntime) -> Result<(), Fail> {
    are_met(&rt, rt.alloc(), CHUNKED)
}

#[test]
fn a_used_buffer_takes_each_body_as_it_is(rt: HostRuntime) -> Result<(), Fail> {
    are_met(&rt, rt.alloc(), BUFFERS)
}

/// Where each message of the usual client begins, and how much it was put by then.
const MESSAGES: &[(usize, usize)] = &[
    (0, 18),
    (4, 18),
    (26, 104),
    (566, 120),
    (594, 648),
    (622, 664),
];

/// How the session ends with a client that sends so many bytes of the usual ones, and how much it is
/// put.
fn cut_short(length: usize) -> (Ending, usize) {
    let (mut whole, mut put) = (0, 18);
    for (begins, by_then) in MESSAGES {
        if *begins <= length {
            (whole, put) = (*begins, *by_then);
        }
    }
    match length.saturating_sub(whole) {
        0 => (Ending::Closed, put),
        n => (Ending::Truncated(n as u64), put),
    }
}

/// The usual client, whose bytes come by fifties.
const CUT: Case = Case {
    piece: 50,
    room: 664,
    ..USUAL
};

/// Whether a client that sends so many bytes of the usual ones is answered so.
fn is_cut(alloc: Global, length: usize) -> Result<bool, Fail> {
    let usual = bytes_of(alloc, SERVER)?;
    let mut sent = bytes_of(alloc, CLIENT)?;
    sent.truncate(length);
    let session = served(alloc, &CUT, &sent)?;
    let is_cut = session.is_cut(length, &usual);
    drop(session);
    Ok(is_cut)
}

#[test]
fn a_session_cut_short_ends_within_its_message(rt: HostRuntime) -> Result<(), Fail> {
    for length in 0..650usize {
        assert!(rt; is_cut(rt.alloc(), length)?, "{length}");
    }
    Ok(())
}
