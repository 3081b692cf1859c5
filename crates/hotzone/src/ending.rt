// The end of a conversion, made before its first device call.

ghost use Rattle.std.specs.Prelude.{◌≡◌, ◌≤◌, not, IfErr, IfOk};
ghost use Rattle.std.specs.List.{All, filter};
ghost use Rattle.hotzone.specs.Endings.{HasZeros, IsEnding, IsFinishing, MayFinishFrom, is_left};
ghost use Rattle.hotzone.specs.Endings.{wiped};
ghost use Rattle.hotzone.specs.Headings.{IsUnmade};
ghost use Rattle.reenc_meta.specs.Placements.{all_atoms};
ghost use Rattle.sector_disk.specs.Geometry.{IsDisk};

use crate::headers::numbers_left;
use crate::worker::{Ending, Wipes, ZoneFault};
use base_terms::{Bytes, zeros};
use json_members::Listed;
use luks_meta::Keyslot;
use luks_rules::{Area, list_areas};
use luks_store::{Commit, Loaded};
use reenc_meta::Reenc;
use std::alloc::{AllocError, Global};

/// Whether an area is among these.
fn is_among(areas: &[Area], area: &Area) -> bool
    ensures { result ≡ is_left areas.now area.now }
{
    areas
        .iter()
        .any(|a| a.offset == area.offset && a.size == area.size)
}

/// The areas that aren't among these.
fn list_without(alloc: Global, areas: &[Area], left: &[Area]) -> Result<Vec<Area>, AllocError>
    ensures { IfOk result (λ gone. gone.items ≡ filter (λ a. not (is_left left.now a)) areas.now) }
{
    let mut gone = Vec::new(alloc);
    for area in areas {
        if !is_among(left, area) {
            gone.push(*area)?;
        }
    }
    Ok(gone)
}

/// The bytes of the longest area.
fn longest(areas: &[Area]) -> u64
    ensures { All (λ a. a.size ≤ result) areas.now }
{
    let mut most: u64 = 0;
    for area in areas {
        most = most.max(area.size);
    }
    most
}

/// The areas of keyslots that aren't there any more, but for the one that guarded the conversion,
/// and zeros for them.
fn list_wipes(
    alloc: Global,
    guard: Area,
    before: &[(u64, Keyslot)],
    after: &[(u64, Keyslot)],
) -> Result<Wipes, AllocError>
    ensures areas { IfOk result (λ wipes. wipes.areas ≡ wiped guard before.now after.now) }
    ensures zeros { IfOk result HasZeros }
{
    let areas = list_areas(alloc, before)?;
    let mut left = list_areas(alloc, after)?;
    left.push(guard)?;
    let gone = list_without(alloc, areas.as_slice(), left.as_slice())?;
    let zeros = zeros(alloc, longest(gone.as_slice()) as usize)?;
    Ok(Wipes {
        areas: Listed::new(gone),
        zeros: Bytes::new(zeros),
    })
}

/// The end of a conversion of which no block is left to convert.
pub(crate) fn make_ending(alloc: Global, before: &Loaded) -> Result<Ending, ZoneFault>
    requires disk { IsDisk before.now.valid.sizes.atom (all_atoms before.now.valid.sizes) }
    requires may { MayFinishFrom before.now }
    ensures is { IfOk result (IsEnding before.now) }
    ensures unmade { IfErr result (IsUnmade before.now 1 (IsFinishing before.now)) }
{
    before.is_stored();
    // The header's number is at most 2^64 - 1, which is told by what is left.
    let _left = numbers_left(before);
    let Some(reenc) = Reenc::of(before.valid()) else {
        unreachable!()
    };
    let meta = reenc.finish(alloc)?;
    let commit = Commit::new(alloc, before, &meta)?;
    let wipes = list_wipes(
        alloc,
        reenc.progress.conversion.area,
        before.valid().meta().parts().keyslots.as_slice(),
        meta.parts().keyslots.as_slice(),
    )?;
    Ok(Ending { commit, wipes })
}
