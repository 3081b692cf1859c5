ghost use Rattle.std.specs.Prelude.{◌≡◌, ◌++◌, ℕ, vec_len, IfOk, option_map, string_bytes};
ghost use Rattle.base_terms.specs.Causes.{HasCause};
ghost use Rattle.reenc_tool.specs.Ending.{EndsAs};
ghost use Rattle.reenc_tool.specs.Outcomes.{outcome_of};
ghost use Rattle.reenc_tool.specs.Status.{status_of};
ghost use Rattle.reenc_tool.specs.Texts.{Prints, said, served_line, sessions_in, text_of};
ghost use Rattle.reenc_tool.specs.declared.ended.Cause.{Cause};

use crate::ended::{Cause, Ended};
use base_terms::Failed;
use io_edge::Sink;
use nbd_session::SessionEnd;
use sector_disk::Disk;
use std::alloc::{AllocError, Global};

/// How many sessions there were.
fn count_sessions(lists: &[Vec<SessionEnd>]) -> usize
    ensures { result ≡ sessions_in (λ list. vec_len list) lists.now }
{
    lists
        .iter()
        .fold(0usize, |count, list| count.saturating_add(list.len()))
}

/// Prints what a command says that ended so, and says how it ends: where all was fine and the text
/// can't be put and pushed out, by `Output`; where memory is wanted for it, by `Memory`. What is
/// said where all was fine is the report, or, where there is none, how many sessions were served.
fn print<'w, O: Sink>(
    alloc: Global,
    out: &mut O,
    cause: Cause<'w>,
    report: &Option<String>,
    sessions: usize,
) -> Cause<'w>
    ensures cause { EndsAs cause.entry (O.outlet out.old).faults (O.outlet out.new).faults result }
    ensures text { Prints (O.outlet out.old) (O.outlet out.new)
        (text_of cause.entry result
        (said (option_map (λ text. string_bytes text) report.now) sessions)) }
{
    if !cause.is_fine() {
        let _ = put_text(out, cause.line());
        return cause;
    }
    if let Some(report) = report {
        return put_report(out, report.as_str());
    }
    let Ok(line) = served_text(alloc, sessions) else {
        let _ = put_text(out, Cause::Memory.line());
        return Cause::Memory;
    };
    put_report(out, line.as_str())
}

/// Prints the text of a command that came to this end, with its report where it has one, and gives
/// the end that it comes to by that.
pub fn print_end<'w, O: Sink, D: Disk, L>(
    alloc: Global,
    out: &mut O,
    ended: Ended<'w, D, L>,
    report: &Option<String>,
) -> Ended<'w, D, L>
    ensures status { result.status ≡ status_of result.cause }
    ensures cause { EndsAs ended.entry.cause (O.outlet out.old).faults (O.outlet out.new).faults
        result.cause }
    ensures rest { outcome_of ended.entry
        ≡ record (outcome_of result) { cause = ended.entry.cause } }
    ensures text { Prints (O.outlet out.old) (O.outlet out.new)
        (text_of ended.entry.cause result.cause
        (said (option_map (λ text. string_bytes text) report.now)
        (sessions_in (λ list. vec_len list) result.sessions.items))) }
{
    let count = count_sessions(ended.sessions.as_slice());
    let cause = print(alloc, out, ended.cause, report, count);
    ended.ending_by(cause)
}

/// Prints the text of a command that did what it was asked.
fn put_report<'w, O: Sink>(out: &mut O, text: &str) -> Cause<'w>
    ensures cause { EndsAs Cause.Fine (O.outlet out.old).faults (O.outlet out.new).faults result }
    ensures text { Prints (O.outlet out.old) (O.outlet out.new)
        (text_of Cause.Fine result text.now) }
{
    match put_text(out, text) {
        Ok(()) => Cause::Fine,
        Err(_) => Cause::Output {
            faults: out.faults(),
        },
    }
}

fn put_text<O: Sink>(out: &mut O, text: &str) -> Result<(), Failed>
    ensures text { Prints (O.outlet out.old) (O.outlet out.new) text.now }
    ensures cause { HasCause (O.outlet out.old).faults (O.outlet out.new).faults result }
{
    match out.put(text.as_bytes()) {
        Ok(()) => out.push_out(),
        Err(failed) => Err(failed),
    }
}

fn served_text(alloc: Global, sessions: usize) -> Result<String, AllocError>
    ensures { IfOk result (λ line. string_bytes line ≡ served_line sessions) }
{
    format!(in alloc; "served {sessions} sessions\n")
}
