ghost use Rattle.std.specs.Prelude.{◌≡◌, [], option_map, string_bytes};
ghost use Rattle.command_line.specs.Commands.{showing};
ghost use Rattle.command_line.specs.Values.{IsAtomSize};
ghost use Rattle.header_report.specs.Examinations.{seen};
ghost use Rattle.reenc_tool.specs.Asking.{bay_view};
ghost use Rattle.reenc_tool.specs.Outcomes.{Outcome, outcome_of};
ghost use Rattle.reenc_tool.specs.Showing.{HasShown, report_in, shown};
ghost use Rattle.reenc_tool.specs.Status.{status_of};

use crate::commands::{cause_by, unserved};
use crate::ended::{Cause, Ended, Failing};
use crate::notices::note_copy;
use bays::Bay;
use command_line::Status;
use gates::Gate;
use header_report::{Examined, examine};
use luks_store::StoreFault;
use sector_disk::Disk;
use std::alloc::Global;

/// Ends a command that read the header of a disk, and gives what it says.
fn shown<'w, D: Disk, L>(
    alloc: Global,
    disk: D,
    told: Result<String, StoreFault>,
) -> (Ended<'w, D, L>, Option<String>)
    ensures status { result.0.status ≡ status_of result.0.cause }
    ensures outcome { outcome_of result.0 ≡ shown disk (D.device disk).faults (seen told) }
    ensures report { option_map (λ text. string_bytes text) result.1 ≡ report_in (seen told) }
{
    let (cause, fault, report) = match told {
        Ok(text) => (Cause::Fine, None, Some(text)),
        Err(fault) => (Cause::of_store(&fault, disk.faults()), Some(fault), None),
    };
    let ended = Ended {
        status: cause.status(),
        cause,
        fault,
        refusal: None,
        memory: false,
        disk: Some(disk),
        header: None,
        pass: None,
        demo: None,
        sessions: Vec::new(alloc),
        links: Vec::new(alloc),
    };
    (ended, report)
}

/// Asks the bay for a disk to be read alone, and gives what its header says. The gate is told of a copy
/// of the header that isn't as the other one.
pub fn show<'w, B: Bay, G: Gate>(
    alloc: Global,
    bay: &mut B,
    words: &Status<'_>,
    gate: &G,
) -> (Ended<'w, B::Disk, B::Link>, Option<String>)
    requires { IsAtomSize words.now.atom }
    ensures status { result.0.status ≡ status_of result.0.cause }
    ensures shown { HasShown (bay_view B.Disk.device B.Link.state B.holdings B.asks_disk
        B.asks_reading B.asks_key B.asks_links) (showing words.now) bay.old bay.new
        (outcome_of result.0) (option_map (λ text. string_bytes text) result.1) }
{
    match bay.disk_to_read(alloc, words.disk, words.atom) {
        Ok(opened) => {
            let Examined { disk, told, notice } = examine(alloc, opened);
            note_copy(alloc, gate, notice);
            shown(alloc, disk, told)
        }
        Err(fault) => {
            let cause = cause_by(Failing::Opening, fault, bay.faults());
            (unserved(alloc, cause, None, Vec::new(alloc)), None)
        }
    }
}
