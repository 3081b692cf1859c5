ghost use Rattle.std.specs.Prelude.{◌≡◌, ◌<◌};
ghost use Rattle.luks_rules.specs.Idles.{idle_from, idle_of};

use crate::extents::{Extent, make_extent};
use crate::segments::{is_in_progress, segment_blocks};
use base_terms::Sizes;
use luks_meta::{Digest, Parts, Segment};

/// A volume of which nothing is being converted.
#[derive(Clone, Copy, PartialEq, Eq)]
pub struct Idle {
    /// Its one segment. Whether it is encrypted is told by its `encryption` alone: also a linear
    /// segment may be listed by a digest, which then says nothing of it.
    pub segment: Extent,
    /// How many blocks of one atom it has. Block `b` lies `b` atoms behind the segment's begin.
    pub blocks: u64,
}

fn idle_by_segments(
    digests: &[(u64, Digest)],
    segments: &[(u64, Segment)],
    sizes: &Sizes,
) -> Option<Idle>
    requires { 0 < sizes.now.atom }
    ensures { result ≡ idle_from sizes.now digests.now segments.now }
{
    match segments {
        [segment] => Some(Idle {
            segment: make_extent(digests, segment),
            blocks: segment_blocks(&segment.1, sizes),
        }),
        _ => None,
    }
}

/// The volume, if nothing of it is being converted.
#[tactic(auto, unfolding(crate::specs::Idles::idle_of))]
pub(crate) fn find_idle(parts: &Parts, sizes: &Sizes) -> Option<Idle>
    requires { 0 < sizes.now.atom }
    ensures { result ≡ idle_of parts.now sizes.now }
{
    if is_in_progress(&parts.config) {
        return None;
    }
    idle_by_segments(parts.digests.as_slice(), parts.segments.as_slice(), sizes)
}
