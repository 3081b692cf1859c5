// The next connection of a link.

ghost use Rattle.std.specs.Prelude.{◌≢◌, ℕ, List, None};
ghost use Rattle.block_server.specs.Asking.{AskedIs};
ghost use Rattle.block_server.specs.Sessions.{LeavesBy, Played, tagged_of};

use crate::port::SharedPort;
use bays::Link;
use nbd_session::{Export, SessionEnd, serve_session};
use std::alloc::Global;

/// What came of asking a link for its next connection: it was served, there is none, the link
/// failed, or memory was wanted before the link was asked.
#[derive(Clone, Copy)]
pub enum Asked {
    Served,
    Ended,
    Failed,
    Memory,
}

/// Asks a link for its next connection and serves it. The room for the session's end is taken
/// before the link is asked.
pub fn serve_next<L: Link, P: SharedPort>(
    alloc: Global,
    link: &mut L,
    ends: &mut Vec<SessionEnd>,
    port: &mut P,
    export: &Export,
) -> Asked
    requires usable { P.usable port.old }
    ensures usable { P.usable port.new }
    ensures asked { (k : ℕ) → (played : List Played)
        × AskedIs export.now (P.left_by port.new ≢ None) k
        (L.state link.old) (L.state link.new) ends.old.items ends.new.items result played
        × P.executed port.old port.new (tagged_of played)
        × LeavesBy played (P.left_by port.old) (P.left_by port.new) }
{
    if ends.reserve(1).is_err() {
        return Asked::Memory;
    }
    match link.next() {
        Ok(Some((mut source, mut sink))) => {
            port.begin(export.number);
            let end = serve_session(alloc, &mut source, &mut sink, port, export);
            link.done(source, sink);
            let Ok(()) = ends.push(end) else {
                unreachable!()
            };
            Asked::Served
        }
        Ok(None) => Asked::Ended,
        Err(_) => Asked::Failed,
    }
}
