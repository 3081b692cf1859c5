ghost use Rattle.std.specs.Prelude.{◌≡◌, ◌<◌, ◌≤◌, IfOk};
ghost use Rattle.demo_clients.specs.Connections.{connection_of, demo_connections, output_size};

use crate::contents::share_at;
use crate::input::input;
use io_edge::{ListSink, ListSource};
use std::alloc::{AllocError, Global};

/// The most bytes that a source gives at once.
const PIECE: usize = 65536;

/// The connections of the clients, one a session, in order of the sessions' numbers. Each source
/// gives what its client sends, each sink has room for just what the client is answered, and
/// neither is to fail.
pub fn scripts(
    alloc: Global,
    seed: u64,
    blocks: u32,
    workers: u32,
) -> Result<Vec<(ListSource, ListSink)>, AllocError>
    requires blocks { blocks ≤ 16384 }
    requires workers { workers ≤ 16 }
    ensures { IfOk result (λ scripts. scripts.items ≡ demo_connections seed blocks workers) }
{
    let mut scripts = Vec::with_capacity(alloc, workers as usize)?;
    for session in 0..workers {
        scripts.push_reserved(connection(alloc, seed, blocks, workers, session)?);
    }
    Ok(scripts)
}

/// The connection of one session.
fn connection(
    alloc: Global,
    seed: u64,
    blocks: u32,
    workers: u32,
    session: u32,
) -> Result<(ListSource, ListSink), AllocError>
    requires blocks { blocks ≤ 16384 }
    requires workers { workers ≤ 16 }
    requires session { session < workers }
    ensures { IfOk result
        (λ connection. connection ≡ connection_of seed blocks workers session) }
{
    let share = share_at(session, blocks, workers);
    let input = input(alloc, seed, share)?;
    let source = ListSource::new(alloc, &input, PIECE, &[])?;
    let sink = ListSink::new(alloc, output_size(share.count), &[])?;
    Ok((source, sink))
}

/// How many bytes a client with so many blocks is answered.
pub(crate) fn output_size(count: u32) -> usize
    ensures { result ≡ output_size count }
{
    120 + 544 * count as usize
}
