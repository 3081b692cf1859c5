// The commands that are executed without clients.

ghost use Rattle.std.specs.Prelude.{◌≡◌, ℕ, List, Option, Some, None, map, option_map};
ghost use Rattle.std.specs.Prelude.{string_bytes, vec_len};
ghost use Rattle.command_line.specs.Commands.{asked};
ghost use Rattle.reenc_tool.specs.Alone.{CameAlone, IfEnded, IsHandedBack, MatchAlone};
ghost use Rattle.reenc_tool.specs.Asking.{bay_view};
ghost use Rattle.reenc_tool.specs.Ending.{EndsAs};
ghost use Rattle.reenc_tool.specs.Making.{DrawsNone};
ghost use Rattle.reenc_tool.specs.Outcomes.{outcome_of};
ghost use Rattle.reenc_tool.specs.Status.{status_of};
ghost use Rattle.reenc_tool.specs.Texts.{Prints, said, sessions_in, text_of};
ghost use Rattle.reenc_tool.specs.declared.ended.Cause.{Cause};

use crate::commands::unserved;
use crate::ended::{Cause, Ended};
use crate::making::make;
use crate::resuming::resume;
use crate::showing::show;
use crate::starting::start;
use crate::text::print_end;
use bays::Bay;
use command_line::{Command, Demo, Refusal, Serve, read_words};
use gates::Gate;
use io_edge::{Seeds, Sink};
use std::alloc::Global;
use std::thread::Threads;

/// What comes of words that are executed without clients.
#[derive(Drop)]
pub enum Alone<'w, T> {
    /// A command was executed, or refused, and this is its end.
    Ended(T),
    /// The words ask for clients to be served, as these say. Nothing was done.
    Serve(Serve<'w>),
    /// The words ask for clients to be served on a volume in memory, as these say. Nothing was done.
    Demo(Demo),
}

/// Executes the command that the words ask for, and gives its report, where it has one. Hands back
/// what they say where clients are to be served.
fn execute<'w, W: Threads + Sync, B: Bay, R: Seeds, G: Gate>(
    rt: &W,
    alloc: Global,
    words: &'w [String],
    bay: &mut B,
    seeds: &mut R,
    gate: &G,
) -> Alone<'w, (Ended<'w, B::Disk, B::Link>, Option<String>)>
    ensures status { IfEnded result (λ told. told.0.status ≡ status_of told.0.cause) }
    ensures came { MatchAlone result
        (λ told. CameAlone (bay_view B.Disk.device B.Link.state B.holdings B.asks_disk
        B.asks_reading B.asks_key B.asks_links) (map string_bytes words.now)
        (R.supply seeds.old) (R.supply seeds.new) bay.old bay.new
        (outcome_of told.0) (option_map (λ text. string_bytes text) told.1))
        (λ says. IsHandedBack (map string_bytes words.now) says bay.old bay.new seeds.old
        seeds.new) }
    ensures unasked { asked (map string_bytes words.now) ≡ None → bay.new ≡ bay.old }
    ensures seeds { DrawsNone (map string_bytes words.now) seeds.old seeds.new }
{
    let command = match read_words(alloc, words) {
        Ok(command) => command,
        Err(Refusal::Usage) => {
            let cause = Cause::Usage { words };
            return Alone::Ended((unserved(alloc, cause, None, Vec::new(alloc)), None));
        }
        Err(Refusal::Memory) => {
            return Alone::Ended((unserved(alloc, Cause::Memory, None, Vec::new(alloc)), None));
        }
    };
    match command {
        Command::Format(words) => Alone::Ended(make(alloc, bay, seeds, &words, gate)),
        Command::Init(words) => Alone::Ended(start(alloc, bay, seeds, &words, gate)),
        Command::Serve(words) => Alone::Serve(words),
        Command::Resume(words) => Alone::Ended(resume(rt, alloc, bay, &words, gate)),
        Command::Status(words) => Alone::Ended(show(alloc, bay, &words, gate)),
        Command::Demo(words) => Alone::Demo(words),
    }
}

/// Runs the command that the words behind the program's name ask for, and prints what it says, as
/// [`run`](crate::run) does, but serves no client: it hands back what words say that ask for that.
///
/// It waits for no client and for no lock, so it returns once the calls of the gate, of the bay, of
/// its disks, of the seeds and of the output have returned.
///
/// What holds at the end of `format`, of `init`, of `resume`, of `status` and of words that ask for
/// nothing is `CameAlone` of `specs/`, before the text is printed, by which `run` says what it does.
/// The text changes the cause only where all was fine: to `Output` where it can't be put and pushed
/// out, to `Memory` where memory is wanted for it. Where the words ask for clients to be served, also those
/// of `demo`, the bay, the seeds and the output are as they were; or memory was wanted before that was known, which
/// is then the cause. Words that ask for nothing leave the bay as it was, and those of other commands
/// than `format` and `init` the seeds.
pub fn run_alone<'w, W: Threads + Sync, B: Bay, R: Seeds, O: Sink, G: Gate>(
    rt: &W,
    alloc: Global,
    words: &'w [String],
    bay: &mut B,
    seeds: &mut R,
    out: &mut O,
    gate: &G,
) -> Alone<'w, Ended<'w, B::Disk, B::Link>>
    ensures status { IfEnded result (λ ended. ended.status ≡ status_of ended.cause) }
    ensures run { MatchAlone result
        (λ ended. (cause : Cause) × (report : Option (List ℕ))
        × EndsAs cause (O.outlet out.old).faults (O.outlet out.new).faults ended.cause
        × CameAlone (bay_view B.Disk.device B.Link.state B.holdings B.asks_disk
        B.asks_reading B.asks_key B.asks_links) (map string_bytes words.now)
        (R.supply seeds.old) (R.supply seeds.new) bay.old bay.new
        (record (outcome_of ended) { cause = cause }) report
        × Prints (O.outlet out.old) (O.outlet out.new) (text_of cause ended.cause
        (said report (sessions_in (λ list. vec_len list) ended.sessions.items))))
        (λ says. IsHandedBack (map string_bytes words.now) says bay.old bay.new seeds.old
        seeds.new × (out.new ≡ out.old)) }
    ensures unasked { asked (map string_bytes words.now) ≡ None → bay.new ≡ bay.old }
    ensures seeds { DrawsNone (map string_bytes words.now) seeds.old seeds.new }
{
    match execute(rt, alloc, words, bay, seeds, gate) {
        Alone::Ended((ended, report)) => Alone::Ended(print_end(alloc, out, ended, &report)),
        Alone::Serve(words) => Alone::Serve(words),
        Alone::Demo(words) => Alone::Demo(words),
    }
}
