ghost use Rattle.std.specs.Prelude.{◌≡◌, ◌↔◌, List, true, IfOk};
ghost use Rattle.std.specs.List.{filter};
ghost use Rattle.luks_rules.specs.Overlaps.{has_bytes, overlap, reaches, IsInOrder, TwoShare};
ghost use Rattle.luks_rules.specs.declared.areas.Area.{Area};

use crate::areas::{Area, end};
use std::alloc::{AllocError, Global};

/// The areas that have a byte.
fn with_bytes(alloc: Global, areas: &[Area]) -> Result<Vec<Area>, AllocError>
    ensures { IfOk result (λ found. found.items ≡ filter has_bytes areas.now) }
{
    areas
        .iter()
        .copied()
        .filter(|area| 0 < area.size)
        .collect(alloc)
}

/// The areas that have a byte, by rising offset.
fn in_order(alloc: Global, areas: &[Area]) -> Result<Vec<Area>, AllocError>
    ensures { IfOk result (λ sorted. IsInOrder areas.now sorted.items) }
{
    let mut sorted = with_bytes(alloc, areas)?;
    sorted.sort_by_key(|area| area.offset)?;
    Ok(sorted)
}

/// Whether one of the areas begins before the one in front of it ends.
fn any_reaches_the_next(areas: &[Area]) -> bool
    ensures { result ≡ reaches 0 areas.now }
{
    let mut last = 0;
    for area in areas {
        if (area.offset as u128) < last {
            return true;
        }
        last = end(area);
    }
    false
}

/// Whether two areas share a byte.
pub(crate) fn any_overlap(alloc: Global, areas: &[Area]) -> Result<bool, AllocError>
    ensures { IfOk result (λ found. found ≡ overlap areas.now) }
{
    let sorted = in_order(alloc, areas)?;
    Ok(any_reaches_the_next(sorted.as_slice()))
}

/// A law, with nothing to run: the test of overlaps says whether two areas have a byte in common.
pub fn overlaps_are_shared_bytes()
    ensures { (areas : List Area) → (overlap areas ≡ true) ↔ TwoShare areas }
{}
