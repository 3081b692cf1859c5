//! The lanes of a session, each in a thread of its own.
ghost use Rattle.std.specs.Prelude.{◌≡◌, ◌<◌, ℕ, length, slice_index_or};
ghost use Rattle.nbd_session.specs.Flying.{HasFlown, IsReady};
ghost use Rattle.volume_cell.specs.Passes.{known};
ghost use denote.Param.Send.{IsSync};

use crate::Port;
use crate::lane::{Lane, serve_lane};
use crate::reader::Reader;
use crate::writer::Writer;
use io_edge::{Sink, Source};
use std::alloc::Global;
use std::sync::Wait;
use std::thread::{Threads, for_each_mut};
use volume_cell::{Cell, Pass};

/// Has each lane serve requests, in a thread of its own where one can be made, until it halts.
pub(crate) fn fly<R: Threads + Wait + Sync, S: Source + Send, K: Sink + Send, P: Port + Send>(
    rt: &R,
    alloc: Global,
    reader: &Cell<Reader<S>>,
    writer: &Cell<Writer<K>>,
    lanes: &mut [Lane<Pass<Reader<S>>, Pass<Writer<K>>, P>],
)
    requires ready { (k : ℕ) (lane : _) → k < length lanes.old →
        IsReady P.usable reader.now writer.now k (slice_index_or lanes.old k lane) }
    ensures count { length lanes.new ≡ length lanes.old }
    ensures flown { (k : ℕ) (lane : _) → k < length lanes.old →
        HasFlown P.usable reader.now writer.now P.is_spent P.did k
        (slice_index_or lanes.old k lane) (slice_index_or lanes.new k lane) }
{
    let threads = lanes.len().max(1);
    let each = move |k: usize, lane: &mut Lane<Pass<Reader<S>>, Pass<Writer<K>>, P>|
        requires sync { IsSync R.row }
        requires ready { IsReady P.usable reader.now writer.now k lane.now }
        ensures flown { HasFlown P.usable reader.entry.now writer.entry.now P.is_spent P.did k
            lane.entry.now lane.exit.now }
    {
        let halt = serve_lane(
            rt,
            alloc,
            reader,
            writer,
            &mut lane.source,
            &mut lane.sink,
            &mut lane.port,
        );
        lane.halt = Some(halt);
    };
    for_each_mut(rt, lanes, threads, &each);
}
