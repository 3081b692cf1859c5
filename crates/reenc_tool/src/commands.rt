ghost use Rattle.std.specs.Prelude.{◌≡◌, ◌+◌, ◌<◌, ◌≤◌, ◌⊎◌, ℕ, List, [], length, map};
ghost use Rattle.std.specs.Prelude.{slice_index_or};
ghost use Rattle.std.specs.Prelude.{string_bytes, vec_len, Option, Some, None};
ghost use Rattle.command_line.specs.Commands.{IsServing, asked, serving};
ghost use Rattle.reenc_tool.specs.Asking.{bay_view};
ghost use Rattle.reenc_tool.specs.Plain.{IsUnserved, Ran, ServesPlain};
ghost use Rattle.reenc_tool.specs.Promise.{Came};
ghost use Rattle.reenc_tool.specs.Servicing.{Serviced};
ghost use Rattle.reenc_tool.specs.Outcomes.{Outcome, cause_of_fault, outcome_of, unserved};
ghost use Rattle.reenc_tool.specs.Ending.{EndsAs};
ghost use Rattle.reenc_tool.specs.Making.{DrawsNone};
ghost use Rattle.reenc_tool.specs.Status.{status_of};
ghost use Rattle.reenc_tool.specs.Texts.{Prints, said, sessions_in, text_of};
ghost use Rattle.reenc_tool.specs.declared.ended.Cause.{Cause};

use crate::alone::{Alone, run_alone};
use crate::demonstrating::demonstrate;
use crate::ended::{Cause, Ended, Failing, Fit, Sessions};
use crate::notices::note_tail;
use crate::opening::serve_encrypted;
use crate::sessions::{lanes_for, serve_volume};
use crate::text::print_end;
use bays::{Bay, BayFault, Link, Manner};
use command_line::Serve;
use gates::Gate;
use io_edge::{Seeds, Sink};
use sector_cipher::Context;
use sector_disk::Disk;
use std::alloc::Global;
use std::sync::Wait;
use std::thread::Threads;
use volume_core::Volume;
use volume_laws::{every_run_is_served, executions_join, plain_volumes_start};

/// Serves sessions over links on a disk that has a block, as it is, and hands both back. The volume gets
/// so many lanes: one for each link, and one that no conversion needs.
fn serve_disk<'w, R: Threads + Wait + Sync, D: Disk + Send, L: Link + Send + Drop, G: Gate + Sync>(
    rt: &R,
    alloc: Global,
    disk: D,
    links: Vec<L>,
    lanes: u32,
    gate: &G,
) -> Ended<'w, D, L>
where
    L::In: Send,
    L::Out: Send,
    requires lanes { lanes ≡ length links.items + 1 }
    requires some { 0 < length links.items }
    requires few { length links.items ≤ 16 }
    requires bound { (k : ℕ) (link : L) → k < length links.items →
        (L.state (slice_index_or links.items k link)).bound ≤ 4294967295 }
    ensures status { result.status ≡ status_of result.cause }
    ensures ended { Ran D.device L.state disk links.items (outcome_of result)
        ⊎ IsUnserved D.device disk links.items (outcome_of result)
        ⊎ (outcome_of result ≡ unserved Cause.Memory (Some disk) links.items) }
{
    plain_volumes_start::<Context>();
    every_run_is_served::<Context>();
    executions_join::<Context>();
    match Volume::plain(alloc, disk, lanes) {
        Ok(volume) => {
            let (disk, sessions) = serve_volume(rt, alloc, volume, links, gate, false);
            sessions.ended(Some(disk), None)
        }
        Err(disk) => unserved(alloc, Cause::Memory, Some(disk), links),
    }
}

/// The cause of a command to which a bay gave nothing of which so many calls failed.
pub fn cause_by<'w>(failing: Failing, fault: BayFault, faults: u64) -> Cause<'w>
    ensures { result ≡ cause_of_fault failing fault faults }
{
    match fault {
        BayFault::Failed => Cause::Device { failing, faults },
        BayFault::Memory => Cause::Memory,
    }
}

/// Ends without a session, and hands back the disk and the links that the bay gave.
pub fn unserved<'w, D: Disk, L>(
    alloc: Global,
    cause: Cause<'w>,
    disk: Option<D>,
    links: Vec<L>,
) -> Ended<'w, D, L>
    ensures status { result.status ≡ status_of cause.entry }
    ensures outcome { outcome_of result ≡ unserved cause.entry disk links.items }
{
    Sessions::none(alloc, cause, links).ended(disk, None)
}

/// Asks the bay for its links and serves sessions on a disk that it gave.
fn serve_plain<'w, R: Threads + Wait + Sync, B: Bay, G: Gate + Sync>(
    rt: &R,
    alloc: Global,
    bay: &mut B,
    disk: B::Disk,
    words: &Serve<'_>,
    gate: &G,
) -> Ended<'w, B::Disk, B::Link>
where
    B::Disk: Send,
    B::Link: Send + Drop,
    <B::Link as Link>::In: Send,
    <B::Link as Link>::Out: Send,
    requires { IsServing (serving words.now) }
    ensures status { result.status ≡ status_of result.cause }
    ensures ended { ServesPlain (bay_view B.Disk.device B.Link.state B.holdings B.asks_disk
        B.asks_reading B.asks_key B.asks_links) (serving words.now) disk bay.old bay.new
        (outcome_of result) }
{
    if disk.atoms() == 0 {
        let cause = Cause::NoFit {
            what: Fit::Blocks,
            number: 0,
            limit: 1,
        };
        return unserved(alloc, cause, Some(disk), Vec::new(alloc));
    }
    let manner = Manner {
        idle_timeout: words.idle_timeout,
        verbose: words.verbose,
    };
    match bay.links(alloc, words.address, words.workers, words.sessions, manner) {
        Ok(links) => serve_disk(rt, alloc, disk, links, lanes_for(words.workers), gate),
        Err(fault) => {
            let cause = cause_by(Failing::Listening, fault, bay.faults());
            unserved(alloc, cause, Some(disk), Vec::new(alloc))
        }
    }
}

/// Asks the bay for a disk, and serves sessions on it.
pub fn serve<'w, R: Threads + Wait + Sync, B: Bay, G: Gate + Sync>(
    rt: &R,
    alloc: Global,
    bay: &mut B,
    words: &Serve<'_>,
    gate: &G,
) -> Ended<'w, B::Disk, B::Link>
where
    B::Disk: Send,
    B::Link: Send + Drop,
    <B::Link as Link>::In: Send,
    <B::Link as Link>::Out: Send,
    requires { IsServing (serving words.now) }
    ensures status { result.status ≡ status_of result.cause }
    ensures serviced { Serviced (bay_view B.Disk.device B.Link.state B.holdings B.asks_disk
        B.asks_reading B.asks_key B.asks_links) (serving words.now) bay.old bay.new
        (outcome_of result) None }
{
    match bay.disk(alloc, words.disk, words.atom) {
        Ok(disk) => {
            note_tail(alloc, gate, words.disk, &disk);
            match words.key_file {
                None => serve_plain(rt, alloc, bay, disk, words, gate),
                Some(key_file) => serve_encrypted(rt, alloc, bay, disk, key_file, words, gate),
            }
        }
        Err(fault) => {
            let cause = cause_by(Failing::Opening, fault, bay.faults());
            unserved(alloc, cause, None, Vec::new(alloc))
        }
    }
}

/// Runs the command that the words behind the program's name ask for, and prints what it says: of
/// `format` `formatted U`, of `init` `started reencrypt DIRECTION RESILIENCE`, of `resume` `finished N
/// blocks`, of `serve` `served S sessions`, of `status` what the header of a disk says, of `demo` what
/// its clients wrote and read, and of one that is refused `fault N NAME` with the status and the cause.
/// `docs/CLI.md` has the words.
///
/// Before each step of a conversion the gate is told how far it is. Whatever serves no client is done by
/// [`run_alone`], which doesn't wait.
///
/// What holds at the end is `Came` of `specs/`, before the text is printed. Where sessions were served
/// they are sessions of the protocol over the bytes that the links' connections gave, at once where
/// there are several links, and their operations are one legal history of a plain disk: the one that
/// was handed in, or the content that it stands for under the passphrase of the key file. So it is also
/// where a conversion is under way, which stays where it is, or is led on by the volume's worker
/// meanwhile: then the command is fine only where it came to its end, at which every block is new, by a
/// header that converts nothing, and holds its newest value. By the pass that is handed back all events
/// of clients, and the worker's steps, are known, entry by entry. The disk's tables are those of their
/// device calls, and wherever the run stops the disk holds what that history allows. Where all was
/// fine, the bytes that a plain disk tells then are the newest values, and those of an encrypted volume
/// of which nothing is being converted stand for them under the passphrase. Of a header all lines are
/// told, or why there is none; the disk is read alone. A new volume is what the words wish, made of 32
/// bytes that the seeds gave once, and its header and its keyslot's area are written and nothing else.
/// A conversion is what the words wish too, by 32 bytes that the seeds gave once: where it was begun,
/// and in each image that a stop leaves from the first sync on, the disk stands for the content that it
/// stood for under the passphrase. A conversion that is led to its end was opened under the keys that
/// the passphrase has on both sides, where the disk tells its bytes, else under keys of the digests of
/// both; and it was led on by steps of the volume's worker alone: at its end every block is new, by a
/// header that converts nothing. Where the disk told its bytes, and they stood for a content under the
/// passphrase, each image that a stop leaves of the opening or of the worker stands for that content,
/// whatever the conversion ended with, and at its end each block holds it. Each cause has its reason.
/// `demo` does what `format`, `init` and `serve` do on a disk in memory, for clients of its own: where it
/// is fine each of their requests was served, every block is new and holds what was written, and the
/// digest that is told is that of these blocks.
/// No conversion is begun, led on or served of a volume where bytes that may be sectors of it lie behind
/// the last whole atom of its disk. None is begun where several keyslots hold the volume's key, unless
/// the others may go. These are refused before anything is written. The bay is asked once for the disk,
/// once for the header's and once for a key file, each where the words name one, and for clients once
/// for the links, and for nothing else. The text changes the cause only where all was fine: to `Output`
/// where it can't be put and pushed out, to `Memory` where memory is wanted for it. Words that ask for
/// nothing, or for `demo`, leave the bay as it was, and those of other commands than `format` and `init`
/// the seeds.
pub fn run<'w, W: Threads + Wait + Sync, B: Bay, R: Seeds, O: Sink, G: Gate + Sync>(
    rt: &W,
    alloc: Global,
    words: &'w [String],
    bay: &mut B,
    seeds: &mut R,
    out: &mut O,
    gate: &G,
) -> Ended<'w, B::Disk, B::Link>
where
    B::Disk: Send,
    B::Link: Send + Drop,
    <B::Link as Link>::In: Send,
    <B::Link as Link>::Out: Send,
    ensures status { result.status ≡ status_of result.cause }
    ensures run { (cause : Cause) × (report : Option (List ℕ))
        × EndsAs cause (O.outlet out.old).faults (O.outlet out.new).faults result.cause
        × Came (bay_view B.Disk.device B.Link.state B.holdings B.asks_disk
        B.asks_reading B.asks_key B.asks_links) (map string_bytes words.now)
        (R.supply seeds.old) (R.supply seeds.new) bay.old bay.new
        (record (outcome_of result) { cause = cause }) report
        × Prints (O.outlet out.old) (O.outlet out.new) (text_of cause result.cause
        (said report (sessions_in (λ list. vec_len list) result.sessions.items))) }
    ensures unasked { asked (map string_bytes words.now) ≡ None → bay.new ≡ bay.old }
    ensures seeds { DrawsNone (map string_bytes words.now) seeds.old seeds.new }
{
    match run_alone(rt, alloc, words, bay, seeds, out, gate) {
        Alone::Ended(ended) => ended,
        Alone::Serve(words) => {
            let ended = serve(rt, alloc, bay, &words, gate);
            print_end(alloc, out, ended, &None)
        }
        Alone::Demo(words) => {
            let (ended, report) = demonstrate(rt, alloc, &words, gate);
            print_end(alloc, out, ended, &report)
        }
    }
}
