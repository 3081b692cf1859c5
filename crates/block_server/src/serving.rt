// All links of a volume at once.

ghost use Rattle.std.specs.Prelude.{◌≡◌, ◌+◌, ◌-◌, ◌^◌, ◌<◌, ◌≤◌, ◌↔◌, ℕ, [], length, map};
ghost use Rattle.std.specs.Prelude.{slice_index_or, vec_capacity, IfOk, IsSome, IsSomeAnd, IsTrue, MatchResult};
ghost use Rattle.block_server.specs.Leaving.{IsRoomFor};
ghost use Rattle.block_server.specs.Passing.{IsBegun};
ghost use Rattle.block_server.specs.Serving.{HasServedBeside, HasServedNone};
ghost use Rattle.shared_volume.specs.Ciphers.{Context, opened, sealed};
ghost use Rattle.shared_volume.specs.Histories.{MayBeShared};
ghost use Rattle.shared_volume.specs.Working.{HasWorker};
ghost use Rattle.volume_cell.specs.Passes.{IsPassOf, known};
ghost use Rattle.volume_machine.specs.Seals.{seals_of};
ghost use Rattle.volume_machine.specs.States.{State};
ghost use Rattle.volume_machine.specs.declared.keys.Keys.{Keys};

use crate::leading::{relieve, work};
use crate::leavings::Leavings;
use crate::link::Standing;
use crate::worker::Worker;
use crate::workers::{dismiss, engage};
use bays::Link;
use gates::Gate;
use nbd_session::SessionEnd;
use reenc_worker::WorkerEnd;
use sector_cipher::Context;
use sector_disk::Disk;
use shared_volume::{
    SharedCell, SharedVolume, Sharing, answers_join, share, shared_volumes_serve_their_lanes,
    worker_ends_are_deeds,
};
use std::alloc::Global;
use std::sync::Wait;
use std::thread::Threads;
use volume_cell::Pass;
use volume_core::Volume;
use volume_laws::lanes_are_alone_beside;

/// The most links that are served.
pub const MAX_LINKS: usize = 16;

/// The pass by which the whole history of a volume that was served is known: that of its cell, into
/// which the pass of each worker was joined. It has no bytes.
pub type VolumePass<D> = Pass<SharedVolume<D>>;

/// What came of serving links: for each link the ends of its sessions, and how it stands. A link
/// that is live was not asked to its end, since memory was wanted for the end of a session.
#[derive(Drop)]
pub struct Served<D: Disk, L> {
    pub volume: Volume<D, Context>,
    pub pass: VolumePass<D>,
    pub links: Vec<L>,
    pub sessions: Vec<Vec<SessionEnd>>,
    pub standings: Vec<Standing>,
    /// How the worker of the conversion ended, where there was one.
    pub worker: Option<WorkerEnd>,
}

/// Volume and links, as they were: memory was wanted before a link was asked.
#[derive(Drop)]
pub struct Unserved<D: Disk, L> {
    pub volume: Volume<D, Context>,
    pub links: Vec<L>,
}

/// Serves the sessions of all links, each link in a thread of its own where one can be made, until
/// each has none ahead or failed itself, or memory is wanted for the end of a session of its own.
/// Beside them, in the calling thread, a worker leads the volume's conversion until it ends, where
/// `converts` says so and the volume has what its conversion takes. Where no thread can be made, the
/// links are served behind it.
///
/// The link `k` of `n` serves the sessions of the numbers `k`, `k + n`, `k + 2 * n` and so on, on
/// the lane `k` of the volume, which has one more for its conversion; no operation is under way on
/// it. The history can get `limit` entries long, a call of a client or a step of the worker each; a
/// session that asks for more ends since the port is spent, and so does the worker. The call comes
/// back once every link and the worker have ended.
pub fn serve<R: Threads + Wait + Sync, D: Disk + Send, L: Link + Send + Drop, G: Gate + Sync>(
    rt: &R,
    alloc: Global,
    volume: Volume<D, Context>,
    links: Vec<L>,
    gate: &G,
    limit: u64,
    converts: bool,
) -> Result<Served<D, L>, Unserved<D, L>>
where
    L::In: Send,
    L::Out: Send,
    requires shared { MayBeShared volume }
    requires lanes { length volume.lanes ≡ length links.items + 1 }
    requires some { 0 < length links.items }
    requires few { length links.items ≤ 16 }
    requires bound { (k : ℕ) (link : L) → k < length links.items →
        (L.state (slice_index_or links.items k link)).bound ≤ 4294967295 }
    requires limit { (1 ≤ limit) × (limit < 2 ^ 63 - 1) }
    ensures served { MatchResult result
        (λ served. HasServedBeside L.state
        (seals_of sealed opened volume.map.atom volume.keys) volume served.volume
        (known served.pass) limit links.items served.links.items
        (map (λ list. list.items) served.sessions.items) served.standings.items served.worker)
        (λ same. HasServedNone volume same.volume links.items same.links.items) }
    ensures led { IfOk result (λ served. IsSome served.worker
        ↔ (IsTrue converts × IsSome volume.work)) }
{
    let Ok(workers) = Vec::with_capacity(alloc, links.len()) else {
        return Err(Unserved { volume, links });
    };
    let Ok(leavings) = Leavings::room_for(alloc, links.len()) else {
        return Err(Unserved { volume, links });
    };
    let armed = volume.progress().armed;
    let leads = converts && armed;
    match share(alloc, volume, limit) {
        Ok(sharing) => Ok(serve_all(rt, alloc, sharing, links, gate, workers, leavings, leads)),
        Err(volume) => Err(Unserved { volume, links }),
    }
}

/// Serves the sessions of all links on a volume that is shared, and has its conversion led beside them
/// or not.
fn serve_all<R: Threads + Wait + Sync, D: Disk + Send, L: Link + Send + Drop, G: Gate + Sync>(
    rt: &R,
    alloc: Global,
    sharing: Sharing<D>,
    links: Vec<L>,
    gate: &G,
    mut workers: Vec<Option<Worker<D, L>>>,
    mut leavings: Leavings<L>,
    leads: bool,
) -> Served<D, L>
where
    L::In: Send,
    L::Out: Send,
    requires pass { IsPassOf sharing.shared.cell sharing.first }
    requires some { 0 < length links.items }
    requires few { length links.items ≤ 16 }
    requires bound { (k : ℕ) (link : L) → k < length links.items →
        (L.state (slice_index_or links.items k link)).bound ≤ 4294967295 }
    requires none { workers.items ≡ [] }
    requires room { length links.items ≤ vec_capacity workers }
    requires leavings { IsRoomFor (length links.items) leavings }
    requires limit { sharing.shared.cell.limit < 2 ^ 63 - 1 }
    requires begun { (volume : State (Keys Context))
        × IsBegun (length links.items) sharing volume }
    requires has { IsTrue leads →
        IsSomeAnd (known sharing.first).start (HasWorker (length links.items)) }
    ensures served { (volume : State (Keys Context)) →
        IsBegun (length links.items) sharing volume →
        HasServedBeside L.state (seals_of sealed opened volume.map.atom volume.keys) volume
        result.volume (known result.pass) sharing.shared.cell.limit links.items result.links.items
        (map (λ list. list.items) result.sessions.items) result.standings.items result.worker }
    ensures led { IsSome result.worker ↔ IsTrue leads }
{
    answers_join::<Context>();
    lanes_are_alone_beside::<Context>();
    shared_volumes_serve_their_lanes::<Context>();
    worker_ends_are_deeds::<Context>();
    let Sharing {
        shared,
        mut first,
        keys,
        shape,
        converted,
    } = sharing;
    engage(
        alloc,
        &shared.cell,
        &mut first,
        links,
        keys,
        shape,
        &mut workers,
    );
    let led = work(
        rt,
        alloc,
        &shared,
        &mut first,
        gate,
        shape,
        workers.as_mut_slice(),
        converted,
        leads,
    );
    dismiss(&shared.cell, &mut first, workers, &mut leavings);
    let worker = relieve(&shared.cell, &mut first, led);
    let SharedCell { cell, .. } = shared;
    let (machine, pass) = cell.close(first);
    let Leavings {
        links,
        sessions,
        standings,
    } = leavings;
    Served {
        volume: machine.into_volume(),
        pass,
        links,
        sessions,
        standings,
        worker,
    }
}
