ghost use Rattle.std.specs.Prelude.{◌≡◌, ◌<◌, ◌||◌, ◌^◌};
ghost use Rattle.std.specs.List.{list_any};
ghost use Rattle.luks_rules.specs.Areas.{areas_of};
ghost use Rattle.luks_rules.specs.Multiples.{breaks_multiples, breaks_sectors, breaks_tweaks};
ghost use Rattle.luks_rules.specs.Multiples.{cuts_atom, is_uneven, is_uneven_area};
ghost use Rattle.luks_rules.specs.Multiples.{is_uneven_segment, is_uneven_size, passes_numbers};
ghost use Rattle.luks_rules.specs.Segments.{bytes_of};

use crate::areas::Area;
use crate::segments::segment_bytes;
use base_terms::Sizes;
use luks_meta::{Encryption, Parts, Segment, SegmentSize};

/// Whether sectors of this encryption don't divide the atom.
fn sectors_cut_atom(encryption: &Option<Encryption>, atom: u32) -> bool
    ensures { result ≡ cuts_atom atom encryption.now }
{
    match encryption {
        Some(e) => e.sector_size == 0 || atom as u64 % e.sector_size != 0,
        None => false,
    }
}

/// Whether a segment's sectors don't divide the atom.
#[tactic(auto, unfolding(crate::specs::Multiples::breaks_sectors))]
pub(crate) fn any_sector_cuts_atom(parts: &Parts, sizes: &Sizes) -> bool
    ensures { result ≡ breaks_sectors parts.now sizes.now }
{
    let atom = sizes.atom;
    parts
        .segments
        .as_slice()
        .iter()
        .any(|s| sectors_cut_atom(&s.1.encryption, atom))
}

fn is_uneven_number(number: u64, atom: u32) -> bool
    requires { 0 < atom }
    ensures { result ≡ is_uneven atom number }
{
    number % atom as u64 != 0
}

fn segment_is_uneven(segment: &Segment, atom: u32) -> bool
    requires { 0 < atom }
    ensures { result ≡ is_uneven_segment atom segment.now }
{
    is_uneven_number(segment.offset, atom) || size_is_uneven(&segment.size, atom)
}

fn size_is_uneven(size: &SegmentSize, atom: u32) -> bool
    requires { 0 < atom }
    ensures { result ≡ is_uneven_size atom size.now }
{
    match size {
        SegmentSize::Dynamic => false,
        SegmentSize::Sized(bytes) => is_uneven_number(*bytes, atom),
    }
}

fn area_is_uneven(area: &Area, atom: u32) -> bool
    requires { 0 < atom }
    ensures { result ≡ is_uneven_area atom area.now }
{
    is_uneven_number(area.offset, atom) || is_uneven_number(area.size, atom)
}

fn any_segment_is_uneven(segments: &[(u64, Segment)], atom: u32) -> bool
    requires { 0 < atom }
    ensures { result ≡ list_any (λ s. is_uneven_segment atom s.1) segments.now }
{
    segments.iter().any(|s| segment_is_uneven(&s.1, atom))
}

fn any_area_is_uneven(areas: &[Area], atom: u32) -> bool
    requires { 0 < atom }
    ensures { result ≡ list_any (is_uneven_area atom) areas.now }
{
    areas.iter().any(|area| area_is_uneven(area, atom))
}

/// Whether a place or size of a segment or an area isn't a multiple of the atom.
#[tactic(auto, unfolding(crate::specs::Multiples::breaks_multiples))]
pub(crate) fn any_is_uneven(parts: &Parts, areas: &[Area], sizes: &Sizes) -> bool
    requires atom { 0 < sizes.now.atom }
    requires areas { areas.now ≡ areas_of parts.now.keyslots }
    ensures { result ≡ breaks_multiples parts.now sizes.now }
{
    any_segment_is_uneven(parts.segments.as_slice(), sizes.atom)
        || any_area_is_uneven(areas, sizes.atom)
}

/// Whether the number of a segment's last sector, or the one behind it, has more than 64 bits.
fn numbers_pass(encryption: &Option<Encryption>, bytes: u128) -> bool
    requires { bytes < 2 ^ 127 }
    ensures { result ≡ passes_numbers bytes encryption.now }
{
    match encryption {
        Some(e) => (u64::MAX as u128) < e.iv_tweak as u128 + bytes / 512,
        None => false,
    }
}

/// Whether a segment's sectors have numbers of more than 64 bits.
#[tactic(auto, unfolding(crate::specs::Multiples::breaks_tweaks))]
pub(crate) fn any_number_passes(parts: &Parts, sizes: &Sizes) -> bool
    ensures { result ≡ breaks_tweaks parts.now sizes.now }
{
    parts.segments.as_slice().iter().any(|s| numbers_pass(
        &s.1.encryption,
        segment_bytes(&s.1, sizes),
    ))
}
