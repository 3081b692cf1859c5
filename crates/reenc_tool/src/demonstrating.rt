// `demo`: a volume in memory is made, and converted while clients use it.

ghost use Rattle.std.specs.Prelude.{◌≡◌, IfSome, Some, IsSome, option_map};
ghost use Rattle.std.specs.Prelude.{string_bytes};
ghost use Rattle.std.specs.List.{list_all};
ghost use Rattle.command_line.specs.Demonstrations.{IsDemonstrating, demonstrating};
ghost use Rattle.demo_clients.specs.SureSupplies.{sure_supply};
ghost use Rattle.reenc_tool.specs.Demonstrating.{
  Concludes,
  HasBegun,
  HasDemonstrated,
  HasFormatted,
  HasReadBack,
  HasServedClients,
  IsDemoSupply,
  PutsBack,
  demo_ended,
  has_disconnected,
};
ghost use Rattle.reenc_tool.specs.Outcomes.{outcome_of};
ghost use Rattle.reenc_tool.specs.Status.{status_of};
ghost use Rattle.reenc_tool.specs.declared.ended.Cause.TheVariants.{Fine};

use crate::commands::{serve, unserved};
use crate::demo_setting::{Setting, format_words, init_words, serve_words, setting_for};
use crate::ended::{Cause, Ended};
use crate::making::make;
use crate::starting::start;
use command_line::Demo;
use demo_clients::{
    ClientLink, DemoBay, SureSeeds, demo_text, demonstrations_are_told,
    histories_leave_the_content, read_back,
};
use gates::Gate;
use luks_format::new_volumes_are_opened;
use memory_disks::RamDisk;
use nbd_session::{Ending, SessionEnd};
use sector_disk::Disk;
use sha2::{Digest, Sha256};
use std::alloc::Global;
use std::sync::Wait;
use std::thread::Threads;
use volume_opening::standing_volumes_are_opened;

/// The end of the demonstration by that of one of its commands.
fn demo_ended<'w, D: Disk, L>(
    alloc: Global,
    ended: Ended<'w, RamDisk, ClientLink>,
) -> Ended<'w, D, L>
    ensures status { result.status ≡ status_of result.cause }
    ensures outcome { outcome_of result ≡ demo_ended (outcome_of ended.entry) }
{
    let Ended {
        cause,
        fault,
        refusal,
        memory,
        pass,
        ..
    } = ended;
    Ended {
        status: cause.status(),
        cause,
        fault,
        refusal,
        memory,
        disk: None,
        header: None,
        pass: None,
        demo: pass,
        sessions: Vec::new(alloc),
        links: Vec::new(alloc),
    }
}

/// Whether one session was served, which the client ended by disconnecting.
fn has_disconnected(ends: &[SessionEnd]) -> bool
    ensures { result ≡ has_disconnected ends.now }
{
    match ends {
        [end] => matches!(end.ending, Ending::Disconnected),
        _ => false,
    }
}

/// Whether each link served one, which ended so.
fn all_disconnected(lists: &[Vec<SessionEnd>]) -> bool
    ensures { result ≡ list_all (λ list. has_disconnected list.items) lists.now }
{
    lists.iter().all(|ends| has_disconnected(ends.as_slice()))
}

/// What is told of clients that were served. None where a client didn't disconnect at its end, where it
/// was answered an error, or where memory is wanted.
fn report(alloc: Global, words: &Demo, served: &Ended<'_, RamDisk, ClientLink>) -> Option<String>
    requires { IsDemonstrating (demonstrating words.now) }
    ensures { IfSome result (λ text. HasReadBack (demonstrating words.now) (outcome_of served.now)
        (Some (string_bytes text))) }
{
    if served.links.len() != words.workers as usize {
        return None;
    }
    if !all_disconnected(served.sessions.as_slice()) {
        return None;
    }
    match read_back(alloc, served.links.as_slice(), words.blocks) {
        Ok(Some(content)) => {
            let digest = Sha256::digest(content.as_slice());
            match demo_text(alloc, words.seed, words.blocks, words.workers, &digest) {
                Ok(text) => Some(text),
                Err(_) => None,
            }
        }
        Ok(None) | Err(_) => None,
    }
}

/// Ends by what came of the clients, and says what they read.
fn conclude<'w, D: Disk, L>(
    alloc: Global,
    words: &Demo,
    served: Ended<'w, RamDisk, ClientLink>,
) -> (Ended<'w, D, L>, Option<String>)
    requires { IsDemonstrating (demonstrating words.now) }
    ensures status { result.0.status ≡ status_of result.0.cause }
    ensures concludes { Concludes (demonstrating words.now) (outcome_of served.entry)
        (outcome_of result.0) (option_map (λ text. string_bytes text) result.1) }
{
    if !served.cause.is_fine() {
        return (demo_ended(alloc, served), None);
    }
    match report(alloc, words, &served) {
        Some(text) => (demo_ended(alloc, served), Some(text)),
        None => (demo_ended(alloc, served.ending_by(Cause::Memory)), None),
    }
}

/// The disk that a command hands back.
fn disk_of(ended: Ended<'_, RamDisk, ClientLink>) -> Option<RamDisk>
    ensures { result ≡ ended.entry.disk }
{
    let Ended { disk, .. } = ended;
    disk
}

/// Puts the disk of a command that did what it was asked back into the bay, for the next one.
fn put_back(bay: &mut DemoBay, ended: Ended<'_, RamDisk, ClientLink>)
    requires fine { (outcome_of ended).cause ≡ Fine }
    requires some { IsSome (outcome_of ended).disk }
    ensures { PutsBack (outcome_of ended.entry) bay.old bay.new }
{
    match disk_of(ended) {
        Some(disk) => bay.put_back(disk),
        None => unreachable!(),
    }
}

/// Serves the volume to the clients, and leads its conversion on meanwhile.
fn serve_clients<'w, W: Threads + Wait + Sync, D: Disk, L, G: Gate + Sync>(
    rt: &W,
    alloc: Global,
    words: &Demo,
    bay: &mut DemoBay,
    gate: &G,
) -> (Ended<'w, D, L>, Option<String>)
    requires { IsDemonstrating (demonstrating words.now) }
    ensures status { result.0.status ≡ status_of result.0.cause }
    ensures served { HasServedClients (demonstrating words.now) (outcome_of result.0)
        (option_map (λ text. string_bytes text) result.1) bay.old }
{
    let served = serve(rt, alloc, bay, &serve_words(words.workers), gate);
    conclude(alloc, words, served)
}

/// Begins the conversion of the volume, and serves it.
fn begin<'w, W: Threads + Wait + Sync, D: Disk, L, G: Gate + Sync>(
    rt: &W,
    alloc: Global,
    words: &Demo,
    bay: &mut DemoBay,
    seeds: &mut SureSeeds,
    gate: &G,
) -> (Ended<'w, D, L>, Option<String>)
    requires words { IsDemonstrating (demonstrating words.now) }
    requires seeds { IsDemoSupply words.now.seed 1 (sure_supply seeds.old) }
    ensures status { result.0.status ≡ status_of result.0.cause }
    ensures begun { HasBegun (demonstrating words.now) (outcome_of result.0)
        (option_map (λ text. string_bytes text) result.1) bay.old }
{
    let (started, _line) = start(alloc, bay, seeds, &init_words(), gate);
    if !started.cause.is_fine() {
        return (demo_ended(alloc, started), None);
    }
    put_back(bay, started);
    serve_clients(rt, alloc, words, bay, gate)
}

/// Makes the volume, begins its conversion, and serves it.
fn format<'w, W: Threads + Wait + Sync, D: Disk, L, G: Gate + Sync>(
    rt: &W,
    alloc: Global,
    words: &Demo,
    setting: Setting,
    gate: &G,
) -> (Ended<'w, D, L>, Option<String>)
    requires words { IsDemonstrating (demonstrating words.now) }
    requires first { IsDemoSupply words.now.seed 0 (sure_supply setting.first) }
    requires second { IsDemoSupply words.now.seed 1 (sure_supply setting.second) }
    ensures status { result.0.status ≡ status_of result.0.cause }
    ensures formatted { HasFormatted (demonstrating words.now) (outcome_of result.0)
        (option_map (λ text. string_bytes text) result.1) setting.bay }
{
    let Setting {
        mut bay,
        mut first,
        mut second,
    } = setting;
    let (made, _line) = make(alloc, &mut bay, &mut first, &format_words(), gate);
    if !made.cause.is_fine() {
        return (demo_ended(alloc, made), None);
    }
    put_back(&mut bay, made);
    begin(rt, alloc, words, &mut bay, &mut second, gate)
}

/// Shows on a volume in memory what the other commands do: makes it, begins its conversion, and leads
/// that on while clients write all its blocks and read them, each client by a worker of its own. What
/// they read is told by its digest.
pub fn demonstrate<'w, W: Threads + Wait + Sync, D: Disk, L, G: Gate + Sync>(
    rt: &W,
    alloc: Global,
    words: &Demo,
    gate: &G,
) -> (Ended<'w, D, L>, Option<String>)
    requires { IsDemonstrating (demonstrating words.now) }
    ensures status { result.0.status ≡ status_of result.0.cause }
    ensures demonstrated { HasDemonstrated (demonstrating words.now) (outcome_of result.0)
        (option_map (λ text. string_bytes text) result.1) }
{
    demonstrations_are_told();
    histories_leave_the_content();
    new_volumes_are_opened();
    standing_volumes_are_opened::<RamDisk>();
    match setting_for(alloc, words) {
        Ok(setting) => format(rt, alloc, words, setting, gate),
        Err(_) => (unserved(alloc, Cause::Memory, None, Vec::new(alloc)), None),
    }
}
