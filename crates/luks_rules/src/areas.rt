ghost use Rattle.std.specs.Prelude.{◌≡◌, IfOk, nat_lt};
ghost use Rattle.std.specs.List.{list_any};
ghost use Rattle.luks_rules.specs.Areas.{area_of, areas_of, end_of, areas_begin, areas_end};
ghost use Rattle.luks_rules.specs.Areas.{is_outside, passes_limit, breaks_bounds};

use base_terms::Sizes;
use luks_meta::{Config, Keyslot, Parts, Segment};
use std::alloc::{AllocError, Global};

/// A run of bytes of the header's disk that a keyslot holds.
#[derive(Clone, Copy, PartialEq, Eq)]
pub struct Area {
    /// Its first byte.
    pub offset: u64,
    /// Its bytes.
    pub size: u64,
}

/// The area of a keyslot, where it has one.
fn area_of_slot(slot: &Keyslot) -> Option<Area>
    ensures { result ≡ area_of slot.now }
{
    match slot {
        Keyslot::Luks2(luks2) => Some(Area {
            offset: luks2.area.offset,
            size: luks2.area.size,
        }),
        Keyslot::Reencrypt(reencrypt) => Some(Area {
            offset: reencrypt.area.offset,
            size: reencrypt.area.size,
        }),
        Keyslot::Unknown(other) => match &other.area {
            Some(area) => Some(Area {
                offset: area.offset,
                size: area.size,
            }),
            None => None,
        },
    }
}

/// The areas of keyslots, in the order of their numbers.
pub fn list_areas(alloc: Global, slots: &[(u64, Keyslot)]) -> Result<Vec<Area>, AllocError>
    ensures { IfOk result (λ areas. areas.items ≡ areas_of slots.now) }
{
    let mut areas = Vec::new(alloc);
    for slot in slots {
        match area_of_slot(&slot.1) {
            Some(area) => areas.push(area)?,
            None => {}
        }
    }
    Ok(areas)
}

/// The byte behind an area.
pub(crate) fn end(area: &Area) -> u128
    ensures { result ≡ end_of area.now }
{
    area.offset as u128 + area.size as u128
}

/// The first byte of the keyslots area: the two copies of the header end there.
fn begin_of_areas(config: &Config) -> u128
    ensures { result ≡ areas_begin config.now }
{
    2 * (config.json_size as u128 + 4096)
}

/// The byte behind the keyslots area.
fn end_of_areas(config: &Config) -> u128
    ensures { result ≡ areas_end config.now }
{
    2 * (config.json_size as u128 + 4096) + config.keyslots_size as u128
}

fn any_outside(config: &Config, areas: &[Area]) -> bool
    ensures { result ≡ list_any (λ a. is_outside config.now a) areas.now }
{
    let begin = begin_of_areas(config);
    let last = end_of_areas(config);
    areas
        .iter()
        .any(|area| (area.offset as u128) < begin || last < end(area))
}

fn any_begins_before(segments: &[(u64, Segment)], end: u128) -> bool
    ensures { result ≡ list_any (λ s. nat_lt s.1.offset end) segments.now }
{
    segments
        .iter()
        .any(|segment| (segment.1.offset as u128) < end)
}

/// Whether the keyslots area passes what it may reach: the first segment, or, where the header is
/// detached, the end of its disk.
fn passes(parts: &Parts, sizes: &Sizes) -> bool
    ensures { result ≡ passes_limit parts.now sizes.now }
{
    let last = end_of_areas(&parts.config);
    if sizes.detached {
        sizes.header_atoms as u128 * (sizes.atom as u128) < last
    } else {
        any_begins_before(parts.segments.as_slice(), last)
    }
}

/// Whether an area lies outside the keyslots area, or that area passes what it may reach.
#[tactic(auto, unfolding(crate::specs::Areas::breaks_bounds))]
pub(crate) fn break_bounds(parts: &Parts, areas: &[Area], sizes: &Sizes) -> bool
    requires { areas.now ≡ areas_of parts.now.keyslots }
    ensures { result ≡ breaks_bounds parts.now sizes.now }
{
    any_outside(&parts.config, areas) || passes(parts, sizes)
}
