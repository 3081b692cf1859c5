// The segments of a conversion, and the lists of its digests.

ghost use Rattle.std.specs.Prelude.{◌≡◌, ◌+◌, ◌*◌, ◌/◌, ◌<◌, ◌≤◌, ◌^◌, IfOk, IfSome, Some};
ghost use Rattle.std.specs.Prelude.{[], ◌∷◌, false, length, map, true};
ghost use Rattle.std.specs.List.{All, enumerate_from};
ghost use Rattle.luks_rules.specs.Plans.{same_digest};
ghost use Rattle.reenc_meta.specs.Layouts.{HasPlace, encryption_behind, flags_on, is_under};
ghost use Rattle.reenc_meta.specs.Layouts.{listed_by, numbers_under, part_of, parts_by};
ghost use Rattle.reenc_meta.specs.Layouts.{segments_by, segments_under, whole_on, wholes_of};

use crate::runs::Run;
use json_members::{Entry, Listed, Object, Text};
use luks_meta::{Digest, Encryption, Segment, SegmentSize};
use luks_rules::{Extent, Progress};
use segment_map::Side;
use std::alloc::{AllocError, Global};

/// The flag of an open zone.
const ZONE: &str = "in-reencryption";

/// A list with one text.
pub(crate) fn only_text(alloc: Global, text: &str) -> Result<Listed<Text>, AllocError>
    ensures { IfOk result (λ texts. texts ≡ text.now ∷ []) }
{
    let mut texts = Vec::new(alloc);
    texts.push(Text::new(String::from_str(alloc, text)?))?;
    Ok(Listed::new(texts))
}

/// The whole segment that a side's blocks are of.
fn whole_of(progress: &Progress, side: Side) -> Extent
    ensures { result ≡ whole_on progress.now side }
{
    match side {
        Side::Old | Side::Zone => progress.old,
        Side::New => progress.new,
    }
}

fn flags_of(alloc: Global, side: Side) -> Result<Option<Listed<Text>>, AllocError>
    ensures { IfOk result (λ flags. flags ≡ flags_on side) }
{
    match side {
        Side::Zone => Ok(Some(only_text(alloc, ZONE)?)),
        Side::Old | Side::New => Ok(None),
    }
}

/// An encryption from so many units of 512 bytes on.
fn encryption_from(units: u64, encryption: &Option<Encryption>) -> Option<Encryption>
    requires { IfSome encryption.now (λ e. e.iv_tweak + units < 2 ^ 64) }
    ensures { result ≡ encryption_behind units encryption.now }
{
    match encryption {
        Some(e) => Some(Encryption {
            iv_tweak: e.iv_tweak + units,
            cipher: e.cipher,
            sector_size: e.sector_size,
        }),
        None => None,
    }
}

/// A run's blocks, where their whole segment has them.
#[tactic(auto, unfolding(crate::specs::Layouts::part_of))]
fn make_part(alloc: Global, atom: u32, whole: &Extent, run: &Run) -> Result<Segment, AllocError>
    requires { HasPlace atom whole.now run.now }
    ensures { IfOk result (λ segment. segment ≡ part_of atom whole.now run.now) }
{
    let behind = run.from * atom as u64;
    Ok(Segment {
        offset: whole.offset + behind,
        size: SegmentSize::Sized(run.blocks * atom as u64),
        encryption: encryption_from(behind / 512, &whole.encryption),
        flags: flags_of(alloc, run.side)?,
        rest: Object::empty(alloc),
    })
}

/// The live segments.
fn list_parts(
    alloc: Global,
    atom: u32,
    progress: &Progress,
    runs: &[Run],
) -> Result<Vec<Segment>, AllocError>
    requires { All (λ run. HasPlace atom (whole_on progress.now run.side) run) runs.now }
    ensures { IfOk result (λ parts. parts.items ≡ parts_by atom progress.now runs.now) }
{
    let mut parts = Vec::new(alloc);
    for run in runs {
        let whole = whole_of(progress, run.side);
        parts.push(make_part(alloc, atom, &whole, run)?)?;
    }
    Ok(parts)
}

/// Copies of the two whole segments, which stand behind the live ones.
pub(crate) fn copy_wholes(
    alloc: Global,
    progress: &Progress,
    segments: &[(u64, Segment)],
) -> Result<Vec<Segment>, AllocError>
    requires { progress.now.old.number ≤ length segments.now }
    ensures { IfOk result (λ wholes. wholes.items ≡ wholes_of progress.now segments.now) }
{
    let mut wholes = Vec::new(alloc);
    for segment in &segments[progress.old.number as usize..] {
        wholes.push(segment.1.copy(alloc)?)?;
    }
    Ok(wholes)
}

/// Numbers things from 0 on.
fn number_from_0<T: Drop>(alloc: Global, things: Vec<T>) -> Result<Listed<(u64, T)>, AllocError>
    ensures { IfOk result (λ numbered. numbered ≡ enumerate_from 0 things.items) }
{
    let mut numbered = Vec::new(alloc);
    for thing in things {
        let number = numbered.len() as u64;
        numbered.push((number, thing))?;
    }
    Ok(Listed::new(numbered))
}

/// The live segments and the two whole ones, numbered from 0.
pub(crate) fn list_segments(
    alloc: Global,
    atom: u32,
    progress: &Progress,
    runs: &[Run],
    mut wholes: Vec<Segment>,
) -> Result<Listed<(u64, Segment)>, AllocError>
    requires { All (λ run. HasPlace atom (whole_on progress.now run.side) run) runs.now }
    ensures { IfOk result
        (λ segments. segments ≡ segments_by atom progress.now runs.now wholes.items) }
{
    let mut segments = list_parts(alloc, atom, progress, runs)?;
    segments.append(&mut wholes)?;
    number_from_0(alloc, segments)
}

fn is_under_digest(new: bool, side: Side) -> bool
    ensures { result ≡ is_under new side }
{
    match side {
        Side::Old | Side::Zone => !new,
        Side::New => new,
    }
}

/// The numbers of the segments that the new digest lists, or of those that the old one does.
pub(crate) fn list_numbers(
    alloc: Global,
    new: bool,
    sides: &[Side],
) -> Result<Listed<u64>, AllocError>
    ensures { IfOk result (λ numbers. numbers ≡ numbers_under new 0 sides.now) }
{
    let mut numbers = Vec::new(alloc);
    let mut number: u64 = 0;
    for side in sides {
        if is_under_digest(new, *side) {
            numbers.push(number)?;
        }
        number += 1;
    }
    Ok(Listed::new(numbers))
}

/// The segments that a digest lists.
fn segments_of_digest(
    alloc: Global,
    progress: &Progress,
    sides: &[Side],
    number: u64,
) -> Result<Listed<u64>, AllocError>
    ensures { IfOk result (λ numbers. numbers ≡ segments_under progress.now sides.now number) }
{
    if is_number(progress.old.digest, number) {
        list_numbers(alloc, false, sides)
    } else if is_number(progress.new.digest, number) {
        list_numbers(alloc, true, sides)
    } else {
        Ok(Listed::new(Vec::new(alloc)))
    }
}

/// Whether a digest is the one of a number.
pub(crate) fn is_number(digest: Option<u64>, number: u64) -> bool
    ensures { result ≡ same_digest digest (Some number) }
{
    match digest {
        Some(d) => d == number,
        None => false,
    }
}

/// A digest with the segments on its side.
fn list_anew(
    alloc: Global,
    progress: &Progress,
    sides: &[Side],
    digest: &(u64, Digest),
) -> Result<(u64, Digest), AllocError>
    ensures { IfOk result (λ d. d ≡ listed_by progress.now sides.now digest.now) }
{
    let mut copy = digest.1.copy(alloc)?;
    copy.segments = segments_of_digest(alloc, progress, sides, digest.0)?;
    Ok((digest.0, copy))
}

/// All digests, the two of the conversion with the segments on their side.
pub(crate) fn list_digests(
    alloc: Global,
    progress: &Progress,
    sides: &[Side],
    digests: &[(u64, Digest)],
) -> Result<Vec<(u64, Digest)>, AllocError>
    ensures { IfOk result
        (λ listed. listed.items ≡ map (listed_by progress.now sides.now) digests.now) }
{
    let mut listed = Vec::new(alloc);
    for digest in digests {
        listed.push(list_anew(alloc, progress, sides, digest)?)?;
    }
    Ok(listed)
}
