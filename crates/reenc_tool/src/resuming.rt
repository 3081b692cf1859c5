// `resume`: the conversion that is under way of the volume on a disk is led to its end.

ghost use Rattle.std.specs.Prelude.{◌≡◌, ◌≤◌, ◌+◌, ◌++◌, [], length, option_map, None, Some};
ghost use Rattle.std.specs.Prelude.{string_bytes, string_capacity, string_len};
ghost use Rattle.command_line.specs.Resumes.{resuming};
ghost use Rattle.command_line.specs.Values.{IsAtomSize};
ghost use Rattle.reenc_tool.specs.Asking.{UnderKey, bay_view};
ghost use Rattle.reenc_tool.specs.Outcomes.{ended_refused, ended_with, outcome_of};
ghost use Rattle.reenc_tool.specs.Resuming.{ComesToResume, HasResumed, finished_line};
ghost use Rattle.reenc_tool.specs.Status.{cause_of_conversion, cause_of_end, cause_of_resume};
ghost use Rattle.reenc_tool.specs.Status.{cause_of_unfit, status_of};
ghost use Rattle.reenc_tool.specs.declared.ended.Cause.TheVariants.{Fine};
ghost use Rattle.reenc_tool.specs.declared.volume_refusal.VolumeRefusal.{VolumeRefusal};

use crate::commands::{cause_by, unserved};
use crate::ended::{Cause, Ended, Failing, Fit, Sessions};
use crate::volume_refusal::VolumeRefusal;
use bays::Bay;
use command_line::Resume;
use gates::Gate;
use itoa::Buffer;
use recovery_laws::{
    conversions_go_on_under_their_passphrase, found_keys_are_given,
    openings_of_conversions_keep_content, passphrases_give_keys, resumed_conversions_keep_content,
    stopped_conversions_may_be_resumed,
};
use reenc_worker::{NoFit, WorkerEnd};
use resume_disk::{
    ConversionCause, Finished, Halted, Refusal, Refused, Unfinished, resume_conversion,
    standing_conversions_end,
};
use sector_cipher::Context;
use sector_disk::Disk;
use std::alloc::Global;
use std::thread::Threads;

/// The bytes of the longest line of a conversion that was led to its end: a number has 20 digits at
/// most.
const LONGEST_LINE: usize = 37;

impl<'w> Cause<'w> {
    /// The cause of a command whose disk, of which so many calls failed, opened no volume by the
    /// header and the keys of a conversion.
    fn of_conversion(cause: &ConversionCause, faults: u64) -> Cause<'w>
        ensures { result ≡ cause_of_conversion cause.now faults }
    {
        match cause {
            ConversionCause::Opening(cause) => Cause::of_volume(cause, faults),
            ConversionCause::Idle | ConversionCause::NotBuilt => Cause::WrongState,
            ConversionCause::SeqEnd { left, wanted } => Cause::NoFit {
                what: Fit::Numbers,
                number: *wanted,
                limit: *left,
            },
            ConversionCause::JsonFull { length, limit } => Cause::NoFit {
                what: Fit::Json,
                number: *length,
                limit: *limit,
            },
        }
    }

    /// The cause of a command that led no conversion on, on a disk of which so many calls failed.
    fn of_resume(refusal: &Refusal, faults: u64) -> Cause<'w>
        ensures { result ≡ cause_of_resume refusal.now faults }
    {
        match refusal {
            Refusal::Header(fault) => Cause::of_store(fault, faults),
            Refusal::Idle => Cause::WrongState,
            Refusal::Passphrase(length) => Cause::of_passphrase(*length as u64),
            Refusal::Slots(_, fault) => Cause::of_slots(fault, faults),
            Refusal::Tail(bytes) => Cause::of_tail(*bytes),
            Refusal::Unopened(cause) => Cause::of_conversion(cause, faults),
        }
    }

    /// The cause of a command whose conversion lacks what a zone needs, or its end.
    pub(crate) fn of_unfit(unfit: NoFit) -> Cause<'w>
        ensures { result ≡ cause_of_unfit unfit }
    {
        match unfit {
            NoFit::SeqEnd { left, wanted } => Cause::NoFit {
                what: Fit::Numbers,
                number: wanted,
                limit: left,
            },
            NoFit::JsonFull { length, limit } => Cause::NoFit {
                what: Fit::Json,
                number: length,
                limit,
            },
        }
    }

    /// The cause of a command whose conversion's worker ended so, on a disk of which so many calls
    /// failed.
    fn of_end(end: WorkerEnd, faults: u64) -> Cause<'w>
        ensures { result ≡ cause_of_end end faults }
    {
        match end {
            WorkerEnd::Finished => Cause::Fine,
            WorkerEnd::Device | WorkerEnd::Broken => Cause::Device {
                failing: Failing::Converting,
                faults,
            },
            WorkerEnd::Clash { block, digest } => Cause::Clash { block, digest },
            WorkerEnd::NoFit(unfit) => Cause::of_unfit(unfit),
            WorkerEnd::Spent => Cause::NoFit {
                what: Fit::Events,
                number: u64::MAX,
                limit: u64::MAX - 1,
            },
            WorkerEnd::Memory => Cause::Memory,
        }
    }
}

/// Writes behind a text that has room for it.
fn write_part(line: &mut String, part: &str)
    requires { string_len line.old + length part.now ≤ string_capacity line.old }
    ensures bytes { string_bytes line.new ≡ string_bytes line.old ++ part.now }
    ensures len { string_len line.new ≡ string_len line.old + length part.now }
    ensures capacity { string_capacity line.old ≤ string_capacity line.new }
{
    match line.push_str(part) {
        Ok(()) => {}
        Err(_) => unreachable!(),
    }
}

/// What is said of a conversion that was led to its end, written into room that was taken before.
#[tactic(auto, using(crate::proofs::ResumingLemmas::line_is))]
fn finished_line(room: String, blocks: u64) -> String
    requires empty { string_bytes room ≡ [] }
    requires len { string_len room ≡ 0 }
    requires room { 37 ≤ string_capacity room }
    ensures { string_bytes result ≡ finished_line blocks }
{
    let mut line = room;
    let mut buffer = Buffer::new();
    write_part(&mut line, "finished ");
    write_part(&mut line, buffer.format(blocks));
    write_part(&mut line, " blocks\n");
    line
}

/// Ends a command that opened no volume of which a conversion is under way, and says why.
pub fn ended_unresumed<'w, D: Disk, L>(alloc: Global, refused: Refused<D>) -> Ended<'w, D, L>
    ensures status { result.status ≡ status_of result.cause }
    ensures outcome { outcome_of result
        ≡ ended_refused (cause_of_resume refused.refusal (D.device refused.disk).faults)
        (Some (VolumeRefusal.Resuming refused.refusal)) refused.header refused.disk }
{
    let Refused {
        header,
        disk,
        refusal,
    } = refused;
    let cause = Cause::of_resume(&refusal, disk.faults());
    Ended {
        status: cause.status(),
        cause,
        fault: None,
        refusal: Some(VolumeRefusal::Resuming(refusal)),
        memory: false,
        disk: Some(disk),
        header,
        pass: None,
        demo: None,
        sessions: Vec::new(alloc),
        links: Vec::new(alloc),
    }
}

/// Ends a command whose conversion was led on, and isn't at its end.
fn ended_halted<'w, D: Disk, L>(alloc: Global, halted: Halted<D>) -> Ended<'w, D, L>
    ensures status { result.status ≡ status_of result.cause }
    ensures outcome { outcome_of result
        ≡ ended_with (cause_of_end halted.end (D.device halted.disk).faults) (Some halted.disk)
        halted.header }
{
    let Halted { header, disk, end } = halted;
    let cause = Cause::of_end(end, disk.faults());
    Sessions::none(alloc, cause, Vec::new(alloc)).ended(Some(disk), header)
}

/// Ends a command that led a conversion to its end.
fn ended_finished<'w, D: Disk, L>(alloc: Global, header: Option<D>, disk: D) -> Ended<'w, D, L>
    ensures status { result.status ≡ status_of result.cause }
    ensures outcome { outcome_of result ≡ ended_with Fine (Some disk) header }
{
    Sessions::none(alloc, Cause::Fine, Vec::new(alloc)).ended(Some(disk), header)
}

/// Leads the conversion of a disk's volume to its end under a passphrase; and what is said of it, for
/// which room is taken before the first device call, so that no memory is wanted behind a conversion
/// that is done. What the disk stood for is kept, at the end and wherever this stops.
fn resume_on<'w, R: Threads + Sync, D: Disk, L, G: Gate>(
    rt: &R,
    alloc: Global,
    disk: D,
    pass: &[u8],
    gate: &G,
) -> (Ended<'w, D, L>, Option<String>)
    ensures status { result.0.status ≡ status_of result.0.cause }
    ensures resumed { ComesToResume D.device pass.now disk (outcome_of result.0)
        (option_map (λ text. string_bytes text) result.1) }
{
    passphrases_give_keys::<Context>();
    openings_of_conversions_keep_content::<Context>();
    resumed_conversions_keep_content::<Context>();
    stopped_conversions_may_be_resumed::<Context>();
    conversions_go_on_under_their_passphrase::<Context>();
    found_keys_are_given();
    standing_conversions_end::<D>();
    let Ok(room) = String::with_capacity(alloc, LONGEST_LINE) else {
        return (
            unserved(alloc, Cause::Memory, Some(disk), Vec::new(alloc)),
            None,
        );
    };
    match resume_conversion(rt, alloc, disk, pass, gate) {
        Ok(finished) => {
            let Finished {
                header,
                disk,
                blocks,
            } = finished;
            let line = finished_line(room, blocks);
            (ended_finished(alloc, header, disk), Some(line))
        }
        Err(Unfinished::Refused(refused)) => (ended_unresumed(alloc, refused), None),
        Err(Unfinished::Halted(halted)) => (ended_halted(alloc, halted), None),
    }
}

/// Asks the bay for the passphrase, and leads the conversion of the volume on the disk that it gave
/// to its end.
fn resume_in<'w, R: Threads + Sync, B: Bay, G: Gate>(
    rt: &R,
    alloc: Global,
    bay: &mut B,
    disk: B::Disk,
    words: &Resume<'_>,
    gate: &G,
) -> (Ended<'w, B::Disk, B::Link>, Option<String>)
    ensures status { result.0.status ≡ status_of result.0.cause }
    ensures resumed { UnderKey (bay_view B.Disk.device B.Link.state B.holdings B.asks_disk
        B.asks_reading B.asks_key B.asks_links) (resuming words.now).key_file disk None bay.old
        bay.new (outcome_of result.0) (option_map (λ text. string_bytes text) result.1)
        (λ pass. ComesToResume B.Disk.device pass disk (outcome_of result.0)
        (option_map (λ text. string_bytes text) result.1)) }
{
    match bay.key(alloc, words.key_file) {
        Ok(pass) => resume_on(rt, alloc, disk, pass.as_slice(), gate),
        Err(fault) => {
            let cause = cause_by(Failing::Keying, fault, bay.faults());
            (unserved(alloc, cause, Some(disk), Vec::new(alloc)), None)
        }
    }
}

/// Asks the bay for a disk and for a passphrase, and leads the conversion of the volume there to its
/// end. It draws nothing, and asks for no clients.
pub fn resume<'w, R: Threads + Sync, B: Bay, G: Gate>(
    rt: &R,
    alloc: Global,
    bay: &mut B,
    words: &Resume<'_>,
    gate: &G,
) -> (Ended<'w, B::Disk, B::Link>, Option<String>)
    requires { IsAtomSize words.now.atom }
    ensures status { result.0.status ≡ status_of result.0.cause }
    ensures resumed { HasResumed (bay_view B.Disk.device B.Link.state B.holdings B.asks_disk
        B.asks_reading B.asks_key B.asks_links) (resuming words.now) bay.old bay.new
        (outcome_of result.0) (option_map (λ text. string_bytes text) result.1) }
{
    match bay.disk(alloc, words.disk, words.atom) {
        Ok(disk) => resume_in(rt, alloc, bay, disk, words, gate),
        Err(fault) => {
            let cause = cause_by(Failing::Opening, fault, bay.faults());
            (unserved(alloc, cause, None, Vec::new(alloc)), None)
        }
    }
}
