// Runs of bytes in the keyslots area that no keyslot holds.

ghost use Rattle.std.specs.Prelude.{◌≡◌, ◌+◌, ◌^◌, ◌<◌, ◌≤◌, MatchResult, IfOk, IfSome};
ghost use Rattle.luks_rules.specs.Overlaps.{IsInOrder};
ghost use Rattle.luks_slots.specs.Gaps.{lowest_in, runs_begin, runs_end, taken, widest_in};
ghost use Rattle.luks_slots.specs.Gaps.{IsGapFault, IsLowest};
ghost use Rattle.luks_slots.specs.Stripes.{rounded};

use crate::fault::SlotFault;
use luks_meta::{Config, Parts};
use luks_rules::{Area, Valid, list_areas};
use std::alloc::{AllocError, Global};

/// The areas of keyslots, and these besides, of those that have a byte, by rising offset.
fn areas_in_order(alloc: Global, parts: &Parts, besides: &[Area]) -> Result<Vec<Area>, AllocError>
    ensures { IfOk result (λ areas. IsInOrder (taken parts.now besides.now) areas.items) }
{
    let mut areas = list_areas(alloc, parts.keyslots.as_slice())?;
    areas.extend_from_slice(besides)?;
    areas.retain(|area| 0 < area.size);
    areas.sort_by_key(|area| area.offset)?;
    Ok(areas)
}

/// The first whole atom from a byte on.
fn round_up(byte: u128, atom: u32) -> u128
    requires some { 0 < atom }
    requires most { byte ≤ 2 ^ 66 }
    ensures { result ≡ rounded byte atom }
{
    byte.div_ceil(atom as u128) * atom as u128
}

/// Where runs in the keyslots area may begin, in whole atoms, and where they end.
#[derive(Clone, Copy)]
struct Bounds {
    begin: u128,
    end: u128,
    atom: u32,
}

fn bounds_of(config: &Config, atom: u32) -> Bounds
    requires { 0 < atom }
    ensures begin { result.begin ≡ runs_begin config.now atom }
    ensures end { result.end ≡ runs_end config.now }
    ensures atom { result.atom ≡ atom }
{
    let begin = 2 * (config.json_size as u128 + 4096);
    let end = begin + config.keyslots_size as u128;
    Bounds {
        begin: round_up(begin, atom),
        end: end.min(1 << 64),
        atom,
    }
}

/// The lowest place that has so many bytes, along areas by rising offset.
fn find_lowest(bounds: Bounds, areas: &[Area], wanted: u64) -> Option<u128>
    requires atom { 0 < bounds.atom }
    requires some { 0 < wanted }
    ensures is { result ≡ lowest_in bounds.atom bounds.end wanted bounds.begin areas.now }
    ensures within { IfSome result (λ place. place + wanted ≤ bounds.end) }
{
    let mut place = bounds.begin;
    for area in areas {
        let limit = bounds.end.min(area.offset as u128);
        if wanted as u128 <= limit.saturating_sub(place) {
            return Some(place);
        }
        place = place.max(round_up(area.offset as u128 + area.size as u128, bounds.atom));
    }
    if wanted as u128 <= bounds.end.saturating_sub(place) {
        Some(place)
    } else {
        None
    }
}

/// The most bytes that one place has, along areas by rising offset.
fn find_widest(bounds: Bounds, areas: &[Area]) -> u128
    requires { 0 < bounds.atom }
    ensures { result ≡ widest_in bounds.atom bounds.end bounds.begin areas.now }
{
    let mut place = bounds.begin;
    let mut widest = 0;
    for area in areas {
        let limit = bounds.end.min(area.offset as u128);
        widest = limit.saturating_sub(place).max(widest);
        place = place.max(round_up(area.offset as u128 + area.size as u128, bounds.atom));
    }
    bounds.end.saturating_sub(place).max(widest)
}

/// The lowest place in the keyslots area, a whole atom, from which on so many bytes, at least one,
/// lie in no area of a keyslot and in none of `besides`. Where there is none, `NoRoom` tells how
/// many bytes are wanted, and the most that are free at one place.
pub fn find_gap(
    alloc: Global,
    valid: &Valid,
    besides: &[Area],
    wanted: u64,
) -> Result<u64, SlotFault>
    requires { 0 < wanted }
    ensures { MatchResult result
        (λ offset. IsLowest valid.now.meta besides.now valid.now.sizes.atom wanted offset)
        (λ e. IsGapFault valid.now.meta besides.now valid.now.sizes.atom wanted e) }
{
    let parts = valid.meta().parts();
    let bounds = bounds_of(&parts.config, valid.sizes().atom);
    let areas = match areas_in_order(alloc, parts, besides) {
        Ok(areas) => areas,
        Err(_) => return Err(SlotFault::Memory),
    };
    match find_lowest(bounds, areas.as_slice(), wanted) {
        Some(place) => Ok(place as u64),
        None => Err(SlotFault::NoRoom(wanted, find_widest(bounds, areas.as_slice()) as u64)),
    }
}
