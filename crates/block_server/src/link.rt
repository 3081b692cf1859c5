// The sessions of one link.

ghost use Rattle.std.specs.Prelude.{◌≢◌, ◌+◌, ◌*◌, ◌^◌, ◌<◌, ◌≤◌, ℕ, List, None};
ghost use Rattle.block_server.specs.Links.{IsLinkServed};
ghost use Rattle.block_server.specs.Sessions.{LeavesBy, Played, tagged_of};

use crate::connection::{Asked, serve_next};
use crate::port::SharedPort;
use bays::Link;
use nbd_session::{Export, SessionEnd};
use std::alloc::Global;

/// The most sessions that one link serves.
pub const MAX_SESSIONS: u32 = u32::MAX;

/// After so many asks a link has none ahead, since it has at most `MAX_SESSIONS`.
const MAX_ASKS: u64 = 4_294_967_296;

/// How a link stands: it was to be asked on, it had no more, or it failed.
#[derive(Clone, Copy, Debug, PartialEq, Eq)]
pub enum Standing {
    Live,
    Ended,
    Failed,
}

/// Serves the sessions of a link, one after the other, until it has none ahead or failed itself, or
/// memory is wanted for a session's end, which leaves the link live. The first session has the
/// export's number, and each other one `step` more than the one before.
pub fn serve_link<L: Link, P: SharedPort>(
    alloc: Global,
    link: &mut L,
    ends: &mut Vec<SessionEnd>,
    port: &mut P,
    first: &Export,
    step: u64,
) -> Standing
    requires bound { (L.state link.old).bound ≤ 4294967295 }
    requires numbers { first.now.number + 4294967296 * step < 2 ^ 64 }
    requires usable { P.usable port.old }
    ensures usable { P.usable port.new }
    ensures served { (k : ℕ) → (played : List Played)
        × IsLinkServed first.now (P.left_by port.new ≢ None) step k
        (L.state link.old) (L.state link.new) ends.old.items ends.new.items result played
        × P.executed port.old port.new (tagged_of played)
        × LeavesBy played (P.left_by port.old) (P.left_by port.new) }
{
    for turn in 0..MAX_ASKS {
        let export = Export {
            number: first.number + turn * step,
            size: first.size,
            atom: first.atom,
        };
        match serve_next(alloc, link, ends, port, &export) {
            Asked::Served => {}
            Asked::Ended => return Standing::Ended,
            Asked::Failed => return Standing::Failed,
            Asked::Memory => return Standing::Live,
        }
    }
    unreachable!()
}
