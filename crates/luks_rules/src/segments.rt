ghost use Rattle.std.specs.Prelude.{◌≡◌, ◌<◌, ◌-◌, ◌*◌, ◌/◌, ◌^◌, ◌&&◌, not, nat_lt};
ghost use Rattle.std.specs.List.{list_any, sum_by};
ghost use Rattle.std.specs.Str.{bytes_eq};
ghost use Rattle.luks_meta.specs.Configs.{profile};
ghost use Rattle.luks_rules.specs.Areas.{main_bytes};
ghost use Rattle.luks_rules.specs.Segments.{breaks_count, breaks_segments, bytes_of, flag_in};
ghost use Rattle.luks_rules.specs.Segments.{goes_to_end, holds_none, in_progress, is_backup, is_dynamic};
ghost use Rattle.luks_rules.specs.Segments.{is_live, live_bytes, passes_end, whole_blocks};

use base_terms::Sizes;
use json_members::{Listed, Text};
use luks_meta::{Config, PROFILE, Parts, Segment, SegmentSize};

/// The bytes of the smallest sector that a segment may have.
pub(crate) const SMALLEST_SECTOR: u64 = 512;

/// Whether a conversion is under way: the profile's string is mandatory.
#[tactic(auto, unfolding(crate::specs::Segments::in_progress))]
pub(crate) fn is_in_progress(config: &Config) -> bool
    ensures { result ≡ in_progress config.now }
{
    match &config.requirements {
        Some(requirements) => has_text(requirements.mandatory.as_slice(), PROFILE),
        None => false,
    }
}

fn has_text(texts: &[Text], text: &str) -> bool
    ensures { result ≡ list_any (λ t. bytes_eq t text.now) texts.now }
{
    texts.iter().any(|t| t.as_str() == text)
}

fn has_flag(flags: &Option<Listed<Text>>, flag: &str) -> bool
    ensures { result ≡ flag_in flag.now flags.now }
{
    match flags {
        Some(flags) => has_text(flags.as_slice(), flag),
        None => false,
    }
}

/// Whether a segment is one of the two whole ones that a conversion keeps beside the live ones.
fn is_backup_segment(segment: &Segment) -> bool
    ensures { result ≡ is_backup segment.now }
{
    has_flag(&segment.flags, "backup-previous") || has_flag(&segment.flags, "backup-final")
}

/// The bytes of the disk that holds the segments.
pub(crate) fn disk_bytes(sizes: &Sizes) -> u128
    ensures value { result ≡ main_bytes sizes.now }
    ensures fits { result < 2 ^ 96 }
{
    sizes.main_atoms as u128 * sizes.atom as u128
}

/// The bytes of a segment: a dynamic one goes to the last whole atom of the disk.
pub(crate) fn segment_bytes(segment: &Segment, sizes: &Sizes) -> u128
    ensures value { result ≡ bytes_of sizes.now segment.now }
    ensures fits { result < 2 ^ 127 }
{
    match segment.size {
        SegmentSize::Dynamic => disk_bytes(sizes).saturating_sub(segment.offset as u128),
        SegmentSize::Sized(bytes) => bytes as u128,
    }
}

/// The whole atoms behind an offset on a disk of so many.
fn atoms_behind(offset: u64, atoms: u64, atom: u32) -> u64
    requires { 0 < atom }
    ensures { result ≡ (atoms * atom - offset) / atom }
{
    let bytes = atoms as u128 * atom as u128;
    (bytes.saturating_sub(offset as u128) / atom as u128) as u64
}

/// The whole atoms of a segment.
pub(crate) fn segment_blocks(segment: &Segment, sizes: &Sizes) -> u64
    requires { 0 < sizes.now.atom }
    ensures { result ≡ whole_blocks sizes.now segment.now.offset segment.now.size }
{
    match segment.size {
        SegmentSize::Dynamic => atoms_behind(segment.offset, sizes.main_atoms, sizes.atom),
        SegmentSize::Sized(bytes) => bytes / sizes.atom as u64,
    }
}

/// Whether a segment reaches past the disk's end.
fn segment_passes_end(segment: &Segment, sizes: &Sizes) -> bool
    ensures { result ≡ passes_end sizes.now segment.now }
{
    disk_bytes(sizes) < segment.offset as u128 + segment_bytes(segment, sizes)
}

fn any_passes_end(segments: &[(u64, Segment)], sizes: &Sizes) -> bool
    ensures { result ≡ list_any (λ s. passes_end sizes.now s.1) segments.now }
{
    segments.iter().any(|s| segment_passes_end(&s.1, sizes))
}

pub(crate) fn is_dynamic_size(size: &SegmentSize) -> bool
    ensures { result ≡ is_dynamic size.now }
{
    matches!(size, SegmentSize::Dynamic)
}

/// Whether a segment has no size of its own, and goes to the main disk's end.
pub(crate) fn any_goes_to_end(segments: &[(u64, Segment)]) -> bool
    ensures { result ≡ goes_to_end segments.now }
{
    segments.iter().any(|s| is_dynamic_size(&s.1.size))
}

fn any_live_is_dynamic(segments: &[(u64, Segment)]) -> bool
    ensures { result ≡ list_any (λ s. not (is_backup s.1) && is_dynamic s.1.size) segments.now }
{
    segments
        .iter()
        .any(|s| !is_backup_segment(&s.1) && is_dynamic_size(&s.1.size))
}

/// Whether the segments are too many or too few, or a live one has no size of its own in a
/// conversion.
fn count_is_wrong(segments: &[(u64, Segment)], progress: bool) -> bool
    ensures { result ≡ breaks_count progress segments.now }
{
    if progress {
        any_live_is_dynamic(segments)
    } else {
        segments.len() != 1
    }
}

/// The bytes of a segment, where it is live.
fn bytes_if_live(segment: &Segment, progress: bool, sizes: &Sizes) -> u128
    ensures { result ≡ live_bytes progress sizes.now segment.now }
{
    if progress && is_backup_segment(segment) {
        0
    } else {
        segment_bytes(segment, sizes)
    }
}

/// Whether the live segments have less than one atom.
fn lacks_block(segments: &[(u64, Segment)], progress: bool, sizes: &Sizes) -> bool
    ensures { result
        ≡ nat_lt (sum_by (λ s. live_bytes progress sizes.now s.1) segments.now) sizes.now.atom }
{
    let mut missing = sizes.atom as u128;
    for segment in segments {
        missing = missing.saturating_sub(bytes_if_live(&segment.1, progress, sizes));
    }
    0 < missing
}

/// Whether the segments hold no whole volume: too many or too few, one without a size, one past the
/// disk's end, or no block.
#[tactic(auto, unfolding(crate::specs::Segments::holds_none))]
fn hold_none(segments: &[(u64, Segment)], progress: bool, sizes: &Sizes) -> bool
    ensures { result ≡ holds_none progress sizes.now segments.now }
{
    count_is_wrong(segments, progress)
        || any_passes_end(segments, sizes)
        || lacks_block(segments, progress, sizes)
}

/// Whether the segments hold no whole volume, by what is under way.
pub(crate) fn hold_no_volume(parts: &Parts, sizes: &Sizes) -> bool
    ensures { result ≡ breaks_segments parts.now sizes.now }
{
    hold_none(
        parts.segments.as_slice(),
        is_in_progress(&parts.config),
        sizes,
    )
}
