// Sessions over a volume.

ghost use Rattle.std.specs.Prelude.{◌≡◌, ◌+◌, ◌≢◌, ◌<◌, ◌≤◌, ◌⊎◌, ℕ, true, false, length, map};
ghost use Rattle.std.specs.Prelude.{slice_index_or, Some};
ghost use Rattle.block_server.specs.declared.link.Standing.TheVariants.{Live};
ghost use Rattle.reenc_tool.specs.Outcomes.{came_of, none_came};
ghost use Rattle.reenc_tool.specs.Sessions.{cause_of, has_spent};
ghost use Rattle.reenc_tool.specs.Standings.{AreFaultsOfFirst, HasLive, failed_in};
ghost use Rattle.reenc_tool.specs.Volumes.{IsServedAs};
ghost use Rattle.reenc_tool.specs.declared.ended.Cause.TheVariants.{Memory};
ghost use Rattle.recovery_laws.specs.Served.Clients.{without_work};
ghost use Rattle.shared_volume.specs.Histories.{MayBeShared};
ghost use Rattle.volume_cell.specs.Passes.{known};
ghost use Rattle.volume_machine.specs.Beginnings.{IsFresh};
ghost use Rattle.volume_machine.specs.Seals.{seals_of};
ghost use Rattle.volume_machine.specs.Sound.{IsSound};

use crate::ended::{Cause, Sessions};
use crate::trouble::{MOST_EVENTS, cause, trouble_of};
use bays::Link;
use block_server::{Served, Unserved, serve};
use cipher_laws::SectorCipher;
use gates::Gate;
use luks_store::header_copies::copies_are_read;
use recovery_laws::clients_leave_work_alone;
use sector_cipher::Context;
use sector_disk::Disk;
use std::alloc::Global;
use std::sync::Wait;
use std::thread::Threads;
use volume_core::Volume;
use volume_laws::served_beside::{
    deeds_fail_by_faults, deeds_stop_anywhere, device_errors_are_exact as deeds_errors_are_exact,
    failures_go_by_deeds, tables_are_of_deeds,
};
use volume_laws::{
    conversions_end_beside, device_errors_are_exact, every_conversion_is_served,
    every_run_is_served, executions_join, executions_join_beside, failures_go_by_events,
    keys_seal_lawfully, runs_are_deeds, runs_fail_by_faults, runs_stop_anywhere,
    settled_volumes_are_covered, tables_are_of_events,
};

/// How many lanes a volume has that so many workers serve: one each, and the conversion's own.
pub fn lanes_for(workers: u32) -> u32
    requires { workers ≤ 16 }
    ensures { result ≡ workers + 1 }
{
    workers + 1
}

/// Serves sessions over links on a volume that has just begun, each link in a thread of its own, and
/// leads the volume's conversion on beside them, where that is wanted and it has one. Else what that
/// takes lies idle meanwhile. Hands the disk and the links back; where memory was wanted before the first
/// session, as they were.
pub fn serve_volume<
    'w,
    R: Threads + Wait + Sync,
    D: Disk + Send,
    L: Link + Send + Drop,
    G: Gate + Sync,
>(
    rt: &R,
    alloc: Global,
    volume: Volume<D, Context>,
    links: Vec<L>,
    gate: &G,
    converts: bool,
) -> (D, Sessions<'w, D, L>)
where
    L::In: Send,
    L::Out: Send,
    requires shared { MayBeShared volume }
    requires fresh { IsFresh (without_work volume) }
    requires sound { IsSound (without_work volume) }
    requires lanes { length volume.lanes ≡ length links.items + 1 }
    requires some { 0 < length links.items }
    requires few { length links.items ≤ 16 }
    requires bound { (k : ℕ) (link : L) → k < length links.items →
        (L.state (slice_index_or links.items k link)).bound ≤ 4294967295 }
    ensures served { IsServedAs L.state converts volume (seals_of ⟦<Context as SectorCipher>⟧.sealed
        ⟦<Context as SectorCipher>⟧.opened volume.map.atom volume.keys) (D.device result.0)
        links.items (came_of result.1)
        ⊎ ((D.device result.0 ≡ volume.disk)
        × (came_of result.1 ≡ none_came Memory links.items)) }
    ensures size { (D.device result.0).size ≡ volume.map.atom }
{
    let _keys = volume.keys();
    keys_seal_lawfully::<Context>();
    clients_leave_work_alone::<Context>();
    every_run_is_served::<Context>();
    every_conversion_is_served::<Context>();
    executions_join::<Context>();
    executions_join_beside::<Context>();
    runs_are_deeds::<Context>();
    failures_go_by_events::<Context>();
    failures_go_by_deeds::<Context>();
    device_errors_are_exact::<Context>();
    deeds_errors_are_exact::<Context>();
    runs_stop_anywhere::<Context>();
    deeds_stop_anywhere::<Context>();
    tables_are_of_events::<Context>();
    tables_are_of_deeds::<Context>();
    runs_fail_by_faults::<Context>();
    deeds_fail_by_faults::<Context>();
    conversions_end_beside::<Context>();
    copies_are_read();
    settled_volumes_are_covered::<Context>();
    match serve(rt, alloc, volume, links, gate, MOST_EVENTS, converts) {
        Ok(served) => conclude(served),
        Err(Unserved { volume, links }) => (
            volume.into_disk(),
            Sessions::none(alloc, Cause::Memory, links),
        ),
    }
}

/// The disk of a volume that was served, and what came of its sessions.
fn conclude<'w, D: Disk, L: Link>(served: Served<D, L>) -> (D, Sessions<'w, D, L>)
    requires { length served.standings.items ≤ length served.links.items }
    ensures disk { D.device result.0 ≡ served.volume.disk }
    ensures size { (D.device result.0).size ≡ served.volume.map.atom }
    ensures came { (faults : ℕ)
        × AreFaultsOfFirst L.state served.links.items served.standings.items faults
        × (came_of result.1 ≡ record {
          cause = cause_of served.volume.broken (D.device result.0).faults served.worker
              (has_spent (map (λ list. list.items) served.sessions.items))
              (failed_in served.standings.items) faults result.1.memory;
          memory = result.1.memory;
          pass = Some (known served.pass);
          links = served.links.items;
          ends = map (λ list. list.items) served.sessions.items;
        }) }
    ensures short { result.1.memory ≡ true →
        HasLive (length served.standings.items) served.standings.items }
    ensures to_the_end { result.1.memory ≡ false → (k : ℕ) → k < length served.standings.items →
        slice_index_or served.standings.items k Live ≢ Live }
{
    let Served {
        volume,
        pass,
        links,
        sessions,
        standings,
        worker,
    } = served;
    let trouble = trouble_of(links.as_slice(), standings.as_slice(), sessions.as_slice());
    let broken = volume.progress().broken;
    let disk = volume.into_disk();
    let cause = cause(broken, disk.faults(), worker, trouble);
    let sessions = Sessions {
        cause,
        memory: trouble.memory,
        pass: Some(pass),
        ends: sessions,
        links,
    };
    (disk, sessions)
}
