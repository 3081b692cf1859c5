ghost use Rattle.std.specs.Prelude.{◌≡◌, ◌<◌, ◌^◌, ◌+◌, ◌==◌, ◌&&◌, is_some, length};
ghost use Rattle.std.specs.List.{find, list_any};
ghost use Rattle.luks_rules.specs.Conversions.{conversions_of};
ghost use Rattle.luks_rules.specs.References.{lists};
ghost use Rattle.luks_rules.specs.Shapes.{are_numbered, are_wholes, breaks_shape, choices, fits};
ghost use Rattle.luks_rules.specs.Shapes.{fits_mode, fits_place, has_own_digest, have_two_digests};
ghost use Rattle.luks_rules.specs.Shapes.{is_final, is_next_size, is_previous, is_whole_size};
ghost use Rattle.luks_rules.specs.Shapes.{may_open, numbered, plan_of, progress_by, progress_from};
ghost use Rattle.luks_rules.specs.Shapes.{progress_of, starts_at_0, stays_dynamic};

use crate::conversions::{Conversion, only_conversion};
use crate::extents::{Extent, Mark, blocks, make_extent};
use crate::plan::{Plan, are_laid_out, blocks_of_volume, has_size, parts};
use crate::references::lists_number;
use crate::segments::{is_dynamic_size, is_in_progress};
use base_terms::Sizes;
use luks_meta::{Digest, Encryption, Mode, Parts, Resilience, Segment, SegmentSize};

/// How far a conversion is.
#[derive(Clone, Copy, PartialEq, Eq)]
pub struct Progress {
    pub conversion: Conversion,
    /// The whole segment that is converted.
    pub old: Extent,
    /// The whole segment that it becomes.
    pub new: Extent,
    /// Which blocks belong to which.
    pub plan: Plan,
}

fn is_previous_mark(mark: Mark) -> bool
    ensures { result ≡ is_previous mark }
{
    match mark {
        Mark::Previous => true,
        Mark::Plain | Mark::Zone | Mark::Final | Mark::Other => false,
    }
}

fn is_final_mark(mark: Mark) -> bool
    ensures { result ≡ is_final mark }
{
    match mark {
        Mark::Final => true,
        Mark::Plain | Mark::Zone | Mark::Previous | Mark::Other => false,
    }
}

/// Whether a mode is one from a segment of this kind to one of that.
fn mode_fits(mode: Mode, old: bool, new: bool) -> bool
    ensures { result ≡ fits_mode mode old new }
{
    match mode {
        Mode::Reencrypt => old && new,
        Mode::Encrypt => !old && new,
        Mode::Decrypt => old && !new,
    }
}

fn is_at_0(encryption: &Option<Encryption>) -> bool
    ensures { result ≡ starts_at_0 encryption.now }
{
    match encryption {
        None => true,
        Some(e) => e.iv_tweak == 0,
    }
}

fn place_fits(atom: u32, resilience: Resilience, old: u64, new: u64) -> bool
    ensures { result ≡ fits_place atom resilience old new }
{
    match resilience {
        Resilience::Journal => new == old,
        Resilience::Checksum(n) => n == atom as u64 && new == old,
        Resilience::Datashift(_) => true,
    }
}

fn has_digest_of_its_own(encryption: &Option<Encryption>, digest: Option<u64>) -> bool
    ensures { result ≡ has_own_digest encryption.now digest }
{
    match encryption {
        None => digest.is_none(),
        Some(_) => digest.is_some(),
    }
}

fn digests_differ(old: Option<u64>, new: Option<u64>) -> bool
    ensures { result ≡ have_two_digests old new }
{
    match old {
        None => true,
        Some(d) => match new {
            None => true,
            Some(e) => d != e,
        },
    }
}

/// Whether two segments are the whole ones of a conversion, apart from their sizes.
fn are_the_wholes(atom: u32, conversion: &Conversion, old: &Extent, new: &Extent) -> bool
    ensures { result ≡ are_wholes atom conversion.now old.now new.now }
{
    is_previous_mark(old.mark)
        && is_final_mark(new.mark)
        && mode_fits(
            conversion.mode,
            old.encryption.is_some(),
            new.encryption.is_some(),
        )
        && is_at_0(&new.encryption)
        && place_fits(atom, conversion.resilience, old.offset, new.offset)
        && has_digest_of_its_own(&old.encryption, old.digest)
        && has_digest_of_its_own(&new.encryption, new.digest)
        && digests_differ(old.digest, new.digest)
}

fn is_size_of_whole(bytes: u128, size: &SegmentSize) -> bool
    ensures { result ≡ is_whole_size bytes size.now }
{
    match size {
        SegmentSize::Dynamic => true,
        SegmentSize::Sized(n) => *n as u128 == bytes,
    }
}

/// Whether the new segment will be open-ended.
fn is_to_be_dynamic(resilience: Resilience, old: &SegmentSize) -> bool
    ensures { result ≡ stays_dynamic resilience old.now }
{
    match resilience {
        Resilience::Journal | Resilience::Checksum(_) => is_dynamic_size(old),
        Resilience::Datashift(_) => false,
    }
}

fn is_size_to_be(bytes: u128, dynamic: bool, new: &SegmentSize) -> bool
    ensures { result ≡ is_next_size bytes dynamic new.now }
{
    if dynamic {
        is_dynamic_size(new)
    } else {
        has_size(bytes, new)
    }
}

fn may_be_open(resilience: Resilience, zone: u64) -> bool
    ensures { result ≡ may_open resilience zone }
{
    match resilience {
        Resilience::Journal | Resilience::Checksum(_) => true,
        Resilience::Datashift(_) => zone == 0,
    }
}

/// Whether a choice makes the segments those of the conversion.
fn plan_fits(
    atom: u32,
    conversion: &Conversion,
    old: &Extent,
    new: &Extent,
    live: &[Extent],
    plan: &Plan,
) -> bool
    ensures { result ≡ fits atom conversion.now old.now new.now live.now plan.now }
{
    let bytes = blocks_of_volume(plan) * atom as u128;
    let parts = parts(conversion.direction, old, new, plan);
    are_laid_out(atom, &parts, live)
        && is_size_of_whole(bytes, &old.size)
        && is_size_to_be(
            bytes,
            is_to_be_dynamic(conversion.resilience, &old.size),
            &new.size,
        )
        && may_be_open(conversion.resilience, plan.zone)
}

/// The first of some choices that fits.
fn first_that_fits(
    atom: u32,
    conversion: &Conversion,
    old: &Extent,
    new: &Extent,
    live: &[Extent],
    plans: &[Plan],
) -> Option<Plan>
    ensures { result ≡ find (fits atom conversion.now old.now new.now live.now) plans.now }
{
    plans
        .iter()
        .copied()
        .find(|plan| plan_fits(atom, conversion, old, new, live, plan))
}

fn make_plan(first: u64, zone: u64, last: u64) -> Plan
    ensures { result ≡ record { first = first; zone = zone; last = last } }
{
    Plan { first, zone, last }
}

/// The choice that fits the live segments.
#[tactic(auto, unfolding(crate::specs::Shapes::plan_of))]
fn fitting_plan(
    atom: u32,
    conversion: &Conversion,
    old: &Extent,
    new: &Extent,
    live: &[Extent],
) -> Option<Plan>
    requires { 0 < atom }
    ensures { result ≡ plan_of atom conversion.now old.now new.now live.now }
{
    match live {
        [a] => {
            let n = blocks(&a.size, atom);
            let plans = [make_plan(n, 0, 0), make_plan(0, n, 0), make_plan(0, 0, n)];
            first_that_fits(atom, conversion, old, new, live, &plans)
        }
        [a, b] => {
            let n = blocks(&a.size, atom);
            let m = blocks(&b.size, atom);
            let plans = [make_plan(n, m, 0), make_plan(n, 0, m), make_plan(0, n, m)];
            first_that_fits(atom, conversion, old, new, live, &plans)
        }
        [a, b, c] => {
            let plans = [make_plan(
                blocks(&a.size, atom),
                blocks(&b.size, atom),
                blocks(&c.size, atom),
            )];
            first_that_fits(atom, conversion, old, new, live, &plans)
        }
        _ => None,
    }
}

/// Whether segments are numbered from 0 on.
fn is_numbered(extents: &[Extent]) -> bool
    ensures { result ≡ numbered 0 extents.now }
{
    let mut next: u64 = 0;
    for extent in extents {
        if extent.number != next {
            return false;
        }
        next += 1;
    }
    true
}

fn are_all_numbered(live: &[Extent], old: &Extent, new: &Extent) -> bool
    ensures { result ≡ are_numbered live.now old.now new.now }
{
    is_numbered(live)
        && old.number == live.len() as u64
        && new.number as u128 == live.len() as u128 + 1
}

#[tactic(auto, unfolding(crate::specs::Shapes::progress_by))]
fn progress_by_extents(
    atom: u32,
    conversion: &Conversion,
    live: &[Extent],
    old: &Extent,
    new: &Extent,
) -> Option<Progress>
    requires { 0 < atom }
    ensures { result ≡ progress_by atom conversion.now live.now old.now new.now }
{
    if !(are_all_numbered(live, old, new) && are_the_wholes(atom, conversion, old, new)) {
        return None;
    }
    match fitting_plan(atom, conversion, old, new, live) {
        Some(plan) => Some(Progress {
            conversion: *conversion,
            old: *old,
            new: *new,
            plan,
        }),
        None => None,
    }
}

#[tactic(auto, unfolding(crate::specs::Shapes::progress_from))]
fn progress_by_segments(
    atom: u32,
    conversion: &Conversion,
    digests: &[(u64, Digest)],
    segments: &[(u64, Segment)],
) -> Option<Progress>
    requires { 0 < atom }
    ensures { result ≡ progress_from atom conversion.now digests.now segments.now }
{
    match segments {
        [a, old, new] => {
            let live = [make_extent(digests, a)];
            let old = make_extent(digests, old);
            let new = make_extent(digests, new);
            progress_by_extents(atom, conversion, &live, &old, &new)
        }
        [a, b, old, new] => {
            let live = [make_extent(digests, a), make_extent(digests, b)];
            let old = make_extent(digests, old);
            let new = make_extent(digests, new);
            progress_by_extents(atom, conversion, &live, &old, &new)
        }
        [a, b, c, old, new] => {
            let live = [
                make_extent(digests, a),
                make_extent(digests, b),
                make_extent(digests, c),
            ];
            let old = make_extent(digests, old);
            let new = make_extent(digests, new);
            progress_by_extents(atom, conversion, &live, &old, &new)
        }
        _ => None,
    }
}

fn any_lists_keyslot(digests: &[(u64, Digest)], keyslot: u64) -> bool
    ensures { result ≡ list_any (λ d. lists d.1.keyslots keyslot) digests.now }
{
    digests
        .iter()
        .any(|d| lists_number(d.1.keyslots.as_slice(), keyslot))
}

/// How far the conversion is, if metadata are those of one.
#[tactic(auto, unfolding(crate::specs::Shapes::progress_of))]
pub(crate) fn find_progress(
    parts: &Parts,
    sizes: &Sizes,
    conversions: &[Conversion],
) -> Option<Progress>
    requires atom { 0 < sizes.now.atom }
    requires conversions { conversions.now ≡ conversions_of parts.now.keyslots }
    ensures { result ≡ progress_of parts.now sizes.now }
{
    if !is_in_progress(&parts.config) {
        return None;
    }
    let Some(conversion) = only_conversion(conversions) else {
        return None;
    };
    let digests = parts.digests.as_slice();
    if any_lists_keyslot(digests, conversion.keyslot) {
        return None;
    }
    progress_by_segments(sizes.atom, &conversion, digests, parts.segments.as_slice())
}

/// Whether segments, digests and keyslot aren't those of any state of a conversion.
#[tactic(auto, unfolding(crate::specs::Shapes::breaks_shape))]
pub(crate) fn has_no_shape(
    parts: &Parts,
    conversions: &[Conversion],
    progress: &Option<Progress>,
) -> bool
    requires { conversions.now ≡ conversions_of parts.now.keyslots }
    ensures { result ≡ breaks_shape parts.now progress.now }
{
    if is_in_progress(&parts.config) {
        progress.is_none()
    } else {
        !conversions.is_empty()
    }
}
