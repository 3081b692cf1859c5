ghost use Rattle.std.specs.Prelude.{◌≡◌, ◌<◌, IfOk, MatchResult, None};
ghost use Rattle.luks_rules.specs.Areas.{areas_of};
ghost use Rattle.luks_rules.specs.Conversions.{conversions_of};
ghost use Rattle.luks_rules.specs.Rules.{IsCause, first_fault, first_of, rules_of_conversion};
ghost use Rattle.luks_rules.specs.Rules.{rules_of_places, rules_of_sizes};
ghost use Rattle.luks_rules.specs.Shapes.{progress_of};

use crate::areas::{Area, break_bounds, list_areas};
use crate::conversions::{Conversion, list_conversions};
use crate::fault::{CheckError, RuleFault};
use crate::foreign::first_foreign_string;
use crate::multiples::{any_is_uneven, any_number_passes, any_sector_cuts_atom};
use crate::overlaps::any_overlap;
use crate::references::break_references;
use crate::room::{has_no_capacity, has_no_shift};
use crate::segments::hold_no_volume;
use crate::shape::{Progress, find_progress, has_no_shape};
use base_terms::Sizes;
use luks_meta::Parts;
use std::alloc::{AllocError, Global};

/// Whose header it is, its areas, and what digests list: the first rule that is broken.
fn fault_of_places(
    alloc: Global,
    parts: &Parts,
    areas: &[Area],
    sizes: &Sizes,
) -> Result<Option<RuleFault>, AllocError>
    requires { areas.now ≡ areas_of parts.now.keyslots }
    ensures { IfOk result (λ fault. fault ≡ first_of (rules_of_places parts.now sizes.now)) }
{
    if let Some(text) = first_foreign_string(alloc, &parts.config)? {
        return Ok(Some(RuleFault::Foreign(text)));
    }
    if break_bounds(parts, areas, sizes) {
        return Ok(Some(RuleFault::AreaBounds));
    }
    if any_overlap(alloc, areas)? {
        return Ok(Some(RuleFault::AreaOverlap));
    }
    if break_references(alloc, parts)? {
        return Ok(Some(RuleFault::DigestRef));
    }
    Ok(None)
}

/// Segments, and whole sectors and atoms: the first rule that is broken.
fn fault_of_sizes(parts: &Parts, areas: &[Area], sizes: &Sizes) -> Option<RuleFault>
    requires atom { 0 < sizes.now.atom }
    requires areas { areas.now ≡ areas_of parts.now.keyslots }
    ensures { result ≡ first_of (rules_of_sizes parts.now sizes.now) }
{
    if hold_no_volume(parts, sizes) {
        return Some(RuleFault::SegmentGap);
    }
    if any_sector_cuts_atom(parts, sizes) {
        return Some(RuleFault::SectorSize);
    }
    if any_is_uneven(parts, areas, sizes) {
        return Some(RuleFault::NotAtomMultiple);
    }
    if any_number_passes(parts, sizes) {
        return Some(RuleFault::TweakRange);
    }
    None
}

/// Conversions: the first rule that is broken.
fn fault_of_conversion(
    parts: &Parts,
    sizes: &Sizes,
    conversions: &[Conversion],
    progress: &Option<Progress>,
) -> Option<RuleFault>
    requires atom { 0 < sizes.now.atom }
    requires conversions { conversions.now ≡ conversions_of parts.now.keyslots }
    requires progress { progress.now ≡ progress_of parts.now sizes.now }
    ensures { result ≡ first_of (rules_of_conversion parts.now sizes.now) }
{
    if has_no_shape(parts, conversions, progress) {
        return Some(RuleFault::ReencryptShape);
    }
    if has_no_capacity(sizes.atom, progress) {
        return Some(RuleFault::ResilTooSmall);
    }
    if has_no_shift(progress) {
        return Some(RuleFault::ShiftRoom);
    }
    None
}

/// How far the conversion is, if one is under way, or the first rule that is broken.
pub(crate) fn judge(
    alloc: Global,
    parts: &Parts,
    sizes: &Sizes,
) -> Result<Option<Progress>, CheckError>
    requires { 0 < sizes.now.atom }
    ensures { MatchResult result
        (λ progress. (first_fault parts.now sizes.now ≡ None)
        × (progress ≡ progress_of parts.now sizes.now))
        (λ e. IsCause e (first_fault parts.now sizes.now)) }
{
    let areas = list_areas(alloc, parts.keyslots.as_slice())?;
    if let Some(fault) = fault_of_places(alloc, parts, areas.as_slice(), sizes)? {
        return Err(CheckError::Fault(fault));
    }
    if let Some(fault) = fault_of_sizes(parts, areas.as_slice(), sizes) {
        return Err(CheckError::Fault(fault));
    }
    let conversions = list_conversions(alloc, parts.keyslots.as_slice())?;
    let progress = find_progress(parts, sizes, conversions.as_slice());
    if let Some(fault) = fault_of_conversion(parts, sizes, conversions.as_slice(), &progress) {
        return Err(CheckError::Fault(fault));
    }
    Ok(progress)
}
