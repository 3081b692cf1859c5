ghost use Rattle.std.specs.Prelude.{◌≡◌, ◌++◌, IfOk, OnOk, map, string_bytes};
ghost use Rattle.luks_rules.specs.Idles.{idle_of};
ghost use Rattle.luks_rules.specs.Shapes.{progress_of};
ghost use Rattle.header_report.specs.Reports.{
  busy_lines,
  idle_lines,
  lines_of,
  report_of,
  slot_line,
  text_of_lines,
  volume_lines,
};

use crate::lines::{
    boundary_line, segment_line, seqid_line, slot_line, state_line, uuid_line, zone_line,
};
use luks_meta::Keyslot;
use luks_rules::{Idle, Progress, Valid};
use luks_store::Loaded;
use std::alloc::{AllocError, Global};

/// The lines of a volume that isn't being converted.
#[tactic(auto, unfolding(crate::specs::Reports::text_of_lines))]
fn idle_text(alloc: Global, volume: &Idle) -> Result<String, AllocError>
    ensures { IfOk result (λ text. string_bytes text ≡ text_of_lines (idle_lines volume.now)) }
{
    let blocks = volume.blocks;
    let tail = format!(in alloc; " blocks {blocks}")?;
    let live = segment_line(alloc, "live: ", &volume.segment, tail.as_str())?;
    format!(in alloc; "state: idle\n{live}")
}

/// The lines of a conversion.
#[tactic(auto, unfolding(crate::specs::Reports::text_of_lines))]
fn busy_text(alloc: Global, progress: &Progress) -> Result<String, AllocError>
    ensures { IfOk result (λ text. string_bytes text ≡ text_of_lines (busy_lines progress.now)) }
{
    let state = state_line(alloc, progress)?;
    let old = segment_line(alloc, "old: ", &progress.old, "")?;
    let new = segment_line(alloc, "new: ", &progress.new, "")?;
    let boundary = boundary_line(alloc, progress)?;
    let zone = zone_line(alloc, &progress.plan)?;
    format!(in alloc; "{state}{old}{new}{boundary}{zone}")
}

/// The lines of the volume, or of the conversion that is under way.
fn volume_text(alloc: Global, valid: &Valid) -> Result<String, AllocError>
    ensures { IfOk result (λ text. string_bytes text ≡ text_of_lines (volume_lines
        (idle_of valid.now.meta valid.now.sizes) (progress_of valid.now.meta valid.now.sizes))) }
{
    if let Some(volume) = valid.idle() {
        return idle_text(alloc, &volume);
    }
    if let Some(progress) = valid.progress() {
        return busy_text(alloc, &progress);
    }
    String::from_str(alloc, "")
}

/// Adds the lines of keyslots, by rising number.
fn add_slots(alloc: Global, report: &mut String, slots: &[(u64, Keyslot)]) -> Result<(), AllocError>
    ensures { OnOk result (string_bytes report.new
        ≡ string_bytes report.old ++ text_of_lines (map slot_line slots.now)) }
{
    for slot in slots {
        let line = slot_line(alloc, slot)?;
        report.push_str(line.as_str())?;
    }
    Ok(())
}

/// What is told of a header, line by line, each with a line feed: `uuid: U`, or `none`; `seqid: n`;
/// of a volume that isn't being converted `state: idle` and `live: CIPHER sector S offset O blocks
/// N`, or `linear offset O`, and of a conversion `state: MODE DIRECTION RESILIENCE`, `old: ..`,
/// `new: ..`, `boundary: b of N` and `zone: none` or `zone: b + len`; then `slot k: ..` for each
/// keyslot, by rising number.
#[tactic(auto, unfolding(crate::specs::Reports::lines_of, crate::specs::Reports::text_of_lines))]
pub fn report(alloc: Global, loaded: &Loaded) -> Result<String, AllocError>
    ensures { IfOk result (λ text. string_bytes text ≡ report_of loaded.now) }
{
    let header = loaded.header();
    let valid = loaded.valid();
    let uuid = uuid_line(alloc, &header.uuid)?;
    let seqid = seqid_line(alloc, header.seqid)?;
    let volume = volume_text(alloc, valid)?;
    let mut report = format!(in alloc; "{uuid}{seqid}{volume}")?;
    add_slots(alloc, &mut report, valid.meta().parts().keyslots.as_slice())?;
    Ok(report)
}
