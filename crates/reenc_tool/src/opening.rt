// `serve` on an encrypted volume.

ghost use Rattle.std.specs.Prelude.{◌≡◌, ◌+◌, ◌<◌, ◌≤◌, ◌⊎◌, ℕ, length, slice_index_or};
ghost use Rattle.std.specs.Prelude.{None, Some, IfErr, IfOk};
ghost use Rattle.command_line.specs.Commands.{IsServing, serving};
ghost use Rattle.reenc_tool.specs.Asking.{IsLinked, bay_view};
ghost use Rattle.reenc_tool.specs.Encrypted.{HandsBack};
ghost use Rattle.reenc_tool.specs.Servicing.{ServesBy, ServesUnder};
ghost use Rattle.reenc_tool.specs.Volumes.{IsAnyVolume, IsNoVolume, RanAs};
ghost use Rattle.recovery_laws.specs.Served.Clients.{without_work};
ghost use Rattle.luks_store.specs.Devices.{device_of};
ghost use Rattle.reenc_tool.specs.Outcomes.{came_of, ended_refused, none_came, outcome_of};
ghost use Rattle.reenc_tool.specs.Status.{cause_of_refusal, status_of};
ghost use Rattle.reenc_tool.specs.declared.ended.Cause.{Cause};
ghost use Rattle.reenc_tool.specs.declared.volume_refusal.VolumeRefusal.{VolumeRefusal};
ghost use Rattle.shared_volume.specs.Histories.{MayBeShared};
ghost use Rattle.volume_machine.specs.Beginnings.{IsFresh};
ghost use Rattle.volume_machine.specs.Seals.{seals_of};
ghost use Rattle.volume_machine.specs.Sound.{IsSound};

use crate::commands::{cause_by, unserved};
use crate::ended::{Cause, Ended, Failing, Sessions};
use crate::history::Pass;
use crate::resuming::ended_unresumed;
use crate::sessions::{lanes_for, serve_volume};
use crate::volume_refusal::VolumeRefusal;
use bays::{Bay, Link, Manner};
use cipher_laws::SectorCipher;
use command_line::Serve;
use gates::Gate;
use luks_slots::keys_are_in_areas;
use luks_store::header_copies::copies_are_read;
use luks_store::headers_stand_in_front;
use recovery_laws::{
    begun_conversions_start, conversions_go_on_under_their_passphrase,
    ends_beside_clients_stand_under_passphrases, found_keys_are_given,
    openings_of_conversions_keep_content, passphrases_give_keys, resumed_conversions_keep_content,
    stops_beside_clients_stand_again, stops_beside_clients_stand_under_passphrases,
    taken_volumes_keep_content,
};
use resume_disk::{Refused, standing_conversions_end, take_up_conversion};
use sector_cipher::Context;
use sector_disk::{Disk, JoinedDisk};
use std::alloc::Global;
use std::sync::Wait;
use std::thread::Threads;
use volume_core::Volume;
use volume_laws::served_beside::tables_are_of_deeds;
use volume_laws::{
    conversions_end_beside_clients, every_run_is_served, executions_join, executions_join_beside,
};
use volume_opening::{Refusal, Unopened, open_by_passphrase, opened_volumes_stand_along};

/// Why no volume was opened, of which nothing is being converted, or of which something is.
enum NoVolume<D: Disk> {
    Idle(Unopened<D>),
    Midway(Refused<D>),
}

/// Asks the bay for the passphrase, opens the volume on a disk under it, and serves sessions there. Where
/// a conversion is under way it is taken up first, and led on beside the sessions, unless the words ask
/// for none of that.
pub fn serve_encrypted<'w, R: Threads + Wait + Sync, B: Bay, G: Gate + Sync>(
    rt: &R,
    alloc: Global,
    bay: &mut B,
    disk: B::Disk,
    key_file: &str,
    words: &Serve<'_>,
    gate: &G,
) -> Ended<'w, B::Disk, B::Link>
where
    B::Disk: Send,
    B::Link: Send + Drop,
    <B::Link as Link>::In: Send,
    <B::Link as Link>::Out: Send,
    requires { IsServing (serving words.now) }
    ensures status { result.status ≡ status_of result.cause }
    ensures ended { ServesBy (bay_view B.Disk.device B.Link.state B.holdings B.asks_disk
        B.asks_reading B.asks_key B.asks_links) (serving words.now) (Some key_file.now)
        disk bay.old bay.new (outcome_of result) }
{
    match bay.key(alloc, key_file) {
        Ok(pass) => serve_under(rt, alloc, bay, disk, pass.as_slice(), words, gate),
        Err(fault) => {
            let cause = cause_by(Failing::Keying, fault, bay.faults());
            unserved(alloc, cause, Some(disk), Vec::new(alloc))
        }
    }
}

/// The disk of a volume that wasn't opened, in front of which there was none.
fn only_disk<D: Disk>(unopened: Unopened<D>) -> D
    requires { unopened.header ≡ None }
    ensures { result ≡ unopened.disk }
{
    let Unopened {
        header,
        disk,
        refusal: _refusal,
    } = unopened;
    match header {
        None => disk,
        Some(_header) => unreachable!(),
    }
}

/// Opens the volume on a disk under a passphrase, with so many lanes. Where a conversion of it is under
/// way that is taken up.
fn open_volume<R: Threads + Sync, D: Disk, G: Gate>(
    rt: &R,
    alloc: Global,
    disk: D,
    pass: &[u8],
    lanes: u32,
    gate: &G,
) -> Result<Volume<JoinedDisk<D>, Context>, NoVolume<D>>
    requires { 0 < lanes }
    ensures opened { IfOk result (IsAnyVolume ⟦<Context as SectorCipher>⟧.sector
        ⟦<Context as SectorCipher>⟧.sealed ⟦<Context as SectorCipher>⟧.opened (D.device disk)
        pass.now lanes) }
    ensures none { IfErr result (IsNoVolume ⟦<Context as SectorCipher>⟧.sector
        ⟦<Context as SectorCipher>⟧.sealed ⟦<Context as SectorCipher>⟧.opened D.device disk
        pass.now) }
{
    match open_by_passphrase(alloc, disk, pass, lanes, gate) {
        Ok(volume) => Ok(volume),
        Err(unopened) => match &unopened.refusal {
            Refusal::InProgress => {
                let disk = only_disk(unopened);
                match take_up_conversion(rt, alloc, disk, pass, lanes, gate) {
                    Ok(volume) => Ok(volume),
                    Err(refused) => Err(NoVolume::Midway(refused)),
                }
            }
            Refusal::Header(_) | Refusal::Passphrase(_) | Refusal::Slots(_) | Refusal::Opening(_) =>
                Err(NoVolume::Idle(unopened)),
        },
    }
}

/// Opens the volume on a disk under a passphrase, and serves sessions there.
fn serve_under<'w, R: Threads + Wait + Sync, B: Bay, G: Gate + Sync>(
    rt: &R,
    alloc: Global,
    bay: &mut B,
    disk: B::Disk,
    pass: &[u8],
    words: &Serve<'_>,
    gate: &G,
) -> Ended<'w, B::Disk, B::Link>
where
    B::Disk: Send,
    B::Link: Send + Drop,
    <B::Link as Link>::In: Send,
    <B::Link as Link>::Out: Send,
    requires { IsServing (serving words.now) }
    ensures status { result.status ≡ status_of result.cause }
    ensures ended { ServesUnder (bay_view B.Disk.device B.Link.state B.holdings B.asks_disk
        B.asks_reading B.asks_key B.asks_links) (serving words.now) pass.now disk bay.old bay.new
        (outcome_of result) }
{
    opened_volumes_stand_along::<Context>();
    every_run_is_served::<Context>();
    executions_join::<Context>();
    keys_are_in_areas();
    headers_stand_in_front();
    passphrases_give_keys::<Context>();
    found_keys_are_given();
    standing_conversions_end::<B::Disk>();
    taken_volumes_keep_content::<Context>();
    openings_of_conversions_keep_content::<Context>();
    resumed_conversions_keep_content::<Context>();
    begun_conversions_start::<Context>();
    copies_are_read();
    executions_join_beside::<Context>();
    tables_are_of_deeds::<Context>();
    stops_beside_clients_stand_again::<Context>();
    conversions_go_on_under_their_passphrase::<Context>();
    stops_beside_clients_stand_under_passphrases::<Context>();
    conversions_end_beside_clients::<Context>();
    ends_beside_clients_stand_under_passphrases::<Context>();
    match open_volume(rt, alloc, disk, pass, lanes_for(words.workers), gate) {
        Ok(volume) => serve_opened(rt, alloc, bay, volume, words, gate),
        Err(NoVolume::Idle(unopened)) => ended_unopened(alloc, unopened),
        Err(NoVolume::Midway(refused)) => ended_unresumed(alloc, refused),
    }
}

/// Asks the bay for its links and serves sessions on a volume that was opened.
fn serve_opened<'w, R: Threads + Wait + Sync, B: Bay, G: Gate + Sync>(
    rt: &R,
    alloc: Global,
    bay: &mut B,
    volume: Volume<JoinedDisk<B::Disk>, Context>,
    words: &Serve<'_>,
    gate: &G,
) -> Ended<'w, B::Disk, B::Link>
where
    B::Disk: Send,
    B::Link: Send + Drop,
    <B::Link as Link>::In: Send,
    <B::Link as Link>::Out: Send,
    requires words { IsServing (serving words.now) }
    requires lanes { length volume.lanes ≡ words.now.workers + 1 }
    requires shared { MayBeShared volume }
    requires fresh { IsFresh (without_work volume) }
    requires sound { IsSound (without_work volume) }
    ensures status { result.status ≡ status_of result.cause }
    ensures linked { IsLinked (bay_view B.Disk.device B.Link.state B.holdings B.asks_disk
        B.asks_reading B.asks_key B.asks_links) (serving words.now) bay.old bay.new
        (λ cause links. HandsBack B.Disk.device volume.disk (none_came cause links)
        (outcome_of result))
        (λ begun. RanAs B.Disk.device B.Link.state words.now.converts volume (seals_of
        ⟦<Context as SectorCipher>⟧.sealed ⟦<Context as SectorCipher>⟧.opened volume.map.atom
        volume.keys) begun (outcome_of result)) }
{
    let manner = Manner {
        idle_timeout: words.idle_timeout,
        verbose: words.verbose,
    };
    match bay.links(alloc, words.address, words.workers, words.sessions, manner) {
        Ok(links) => serve_joined(rt, alloc, volume, links, gate, words.converts),
        Err(fault) => {
            let cause = cause_by(Failing::Listening, fault, bay.faults());
            hand_back(
                volume.into_disk(),
                Sessions::none(alloc, cause, Vec::new(alloc)),
            )
        }
    }
}

/// Serves sessions over links on a volume that was opened.
fn serve_joined<
    'w,
    R: Threads + Wait + Sync,
    D: Disk + Send,
    L: Link + Send + Drop,
    G: Gate + Sync,
>(
    rt: &R,
    alloc: Global,
    volume: Volume<JoinedDisk<D>, Context>,
    links: Vec<L>,
    gate: &G,
    converts: bool,
) -> Ended<'w, D, L>
where
    L::In: Send,
    L::Out: Send,
    requires lanes { length volume.lanes ≡ length links.items + 1 }
    requires shared { MayBeShared volume }
    requires fresh { IsFresh (without_work volume) }
    requires sound { IsSound (without_work volume) }
    requires some { 0 < length links.items }
    requires few { length links.items ≤ 16 }
    requires bound { (k : ℕ) (link : L) → k < length links.items →
        (L.state (slice_index_or links.items k link)).bound ≤ 4294967295 }
    ensures status { result.status ≡ status_of result.cause }
    ensures ended { RanAs D.device L.state converts volume (seals_of
        ⟦<Context as SectorCipher>⟧.sealed ⟦<Context as SectorCipher>⟧.opened volume.map.atom
        volume.keys) links.items (outcome_of result)
        ⊎ HandsBack D.device volume.disk (none_came Cause.Memory links.items)
        (outcome_of result) }
{
    let (joined, sessions) = serve_volume(rt, alloc, volume, links, gate, converts);
    hand_back(joined, sessions)
}

/// Ends with the disks of a volume, one by one, and what came of its sessions.
fn hand_back<'w, D: Disk, L>(
    joined: JoinedDisk<D>,
    sessions: Sessions<'w, JoinedDisk<D>, L>,
) -> Ended<'w, D, L>
    ensures status { result.status ≡ status_of result.cause }
    ensures back { HandsBack D.device (device_of joined) (came_of sessions.entry)
        (outcome_of result) }
{
    let (header, disk) = joined.parts();
    let Sessions {
        cause,
        memory,
        pass,
        ends,
        links,
    } = sessions;
    Ended {
        status: cause.status(),
        cause,
        fault: None,
        refusal: None,
        memory,
        disk: Some(disk),
        header,
        pass: Pass::of_encrypted(pass),
        demo: None,
        sessions: ends,
        links,
    }
}

/// Ends without a volume, and says why.
fn ended_unopened<'w, D: Disk, L>(alloc: Global, unopened: Unopened<D>) -> Ended<'w, D, L>
    ensures status { result.status ≡ status_of result.cause }
    ensures outcome { outcome_of result
        ≡ ended_refused (cause_of_refusal unopened.refusal (D.device unopened.disk).faults)
        (Some (VolumeRefusal.Opening unopened.refusal)) unopened.header unopened.disk }
{
    let Unopened {
        header,
        disk,
        refusal,
    } = unopened;
    let cause = Cause::of_opening(&refusal, disk.faults());
    Ended {
        status: cause.status(),
        cause,
        fault: None,
        refusal: Some(VolumeRefusal::Opening(refusal)),
        memory: false,
        disk: Some(disk),
        header,
        pass: None,
        demo: None,
        sessions: Vec::new(alloc),
        links: Vec::new(alloc),
    }
}
