//! The program: it gives the words of its command line, the machine's bay and standard output to
//! `reenc_tool::run`, and ends with the status. Words that ask for help or for the version it answers
//! itself. Everything that matters is in the libraries.
#![tactic(auto)]

mod line_feed;
mod notices;
mod unsupported;

use file_disk::FileSystem;
use gates::Gate;
use host_edge::{HostBay, Network, ProgressGate, keep_standard_streams};
use io_edge::{OsSeeds, Seeds, Sink, StdSink};
use line_feed::tell_line_feed;
use notices::{Reason, explain};
use reenc_tool::{Cause, Ended, Failing, asked_help, run};
use std::alloc::Global;
use std::env;
use std::io::{ErrorKind, Stderr};
use std::process::ExitCode;
use std::sync::Wait;
use std::thread::Threads;
use std::time::Clock;
use unsupported::tell_name;

fn main(rt: HostRuntime) -> ExitCode {
    if let Err(error) = keep_standard_streams(&rt) {
        return ended_unheard(&rt, rt.stderr(), error.kind());
    }
    let mut out = StdSink::new(rt.stdout());
    let words = match env::args(&rt) {
        Ok(words) => words,
        Err(error) => return ended_early(&rt, rt.stderr(), error.kind()),
    };
    let Ok(words) = words.skip(1).collect::<Vec<String>>(rt.alloc()) else {
        return ended_early(&rt, rt.stderr(), ErrorKind::OutOfMemory);
    };
    match asked_help(rt.alloc(), words.as_slice()) {
        Ok(None) => {}
        Ok(Some(text)) => return helped(text.as_str(), &mut out),
        Err(_) => return ended_early(&rt, rt.stderr(), ErrorKind::OutOfMemory),
    }
    let mut bay = HostBay::new(rt, rt.stderr());
    let mut seeds = OsSeeds::new(rt);
    let gate = ProgressGate::new(rt, rt.stderr());
    let told = command(
        &rt,
        rt.alloc(),
        words.as_slice(),
        &mut bay,
        &mut seeds,
        &mut out,
        &gate,
    );
    explain(rt.alloc(), rt.stderr(), &told);
    tell_line_feed(
        &rt,
        rt.alloc(),
        rt.stderr(),
        words.as_slice(),
        told.refusal.as_ref(),
    );
    tell_name(
        &rt,
        rt.alloc(),
        rt.stderr(),
        words.as_slice(),
        told.header_fault(),
    );
    ExitCode::from(told.cause.status())
}

/// Runs the command of the words over the machine's bay, and gives why it ended as it did.
fn command<
    'w,
    W: Threads + Wait + Sync,
    R: FileSystem + Network + Clock + Copy + Drop + Send + Sync,
    S: Seeds,
    O: Sink,
    G: Gate + Sync,
>(
    rt: &W,
    alloc: Global,
    words: &'w [String],
    bay: &mut HostBay<R>,
    seeds: &mut S,
    out: &mut O,
    gate: &G,
) -> Reason<'w>
where
    R::Opened: Send,
    R::Listener: Send,
{
    let Ended {
        cause,
        fault,
        refusal,
        ..
    } = run(rt, alloc, words, bay, seeds, out, gate);
    Reason {
        cause,
        fault,
        refusal,
        is_format: is_format(words),
    }
}

/// Whether the words ask for a new volume.
fn is_format(words: &[String]) -> bool {
    match words.first() {
        Some(word) => word.as_str() == "format",
        None => false,
    }
}

/// Prints the help, or the version, that the words ask for. That is all that was asked.
fn helped(text: &str, out: &mut impl Sink) -> ExitCode {
    if out.put(text.as_bytes()).is_ok() && out.push_out().is_ok() {
        return ExitCode::SUCCESS;
    }
    let cause = Cause::Output {
        faults: out.faults(),
    };
    ExitCode::from(cause.status())
}

/// Ends where a standard stream is closed and can't be kept from what is opened next.
fn ended_unheard(rt: &impl Print, errors: Stderr, kind: ErrorKind) -> ExitCode {
    let cause = Cause::Device {
        failing: Failing::Opening,
        faults: 1,
    };
    let _ = rt.print(cause.line());
    let _ = eprintln!(errors; "reencd: a standard stream is closed, and /dev/null: {kind}");
    ExitCode::from(cause.status())
}

/// Ends before any word was seen: a word that isn't text is a faulty command line.
fn ended_early(rt: &impl Print, errors: Stderr, kind: ErrorKind) -> ExitCode {
    let cause = if kind == ErrorKind::OutOfMemory {
        Cause::Memory
    } else {
        Cause::Usage { words: &[] }
    };
    let _ = rt.print(cause.line());
    if let Cause::Usage { .. } = cause {
        let _ = eprintln!(errors; "reencd: a word isn't UTF-8");
    }
    ExitCode::from(cause.status())
}
