ghost use Rattle.std.specs.Prelude.{◌≡◌, ◌<◌};
ghost use Rattle.luks_rules.specs.Extents.{blocks_of, digest_of, extent_of, mark_by, mark_named};
ghost use Rattle.luks_rules.specs.Extents.{mark_of};

use crate::references::lists_number;
use json_members::{Listed, Text};
use luks_meta::{Digest, Encryption, Segment, SegmentSize};

/// What the flags of a segment say.
#[derive(Clone, Copy, PartialEq, Eq)]
pub enum Mark {
    /// No flag: a part of a segment, or a whole one.
    Plain,
    /// `in-reencryption` alone: the open zone.
    Zone,
    /// `backup-previous` alone: the whole old segment.
    Previous,
    /// `backup-final` alone: the whole new segment.
    Final,
    /// Any other flags.
    Other,
}

/// A segment: its place, how it is encrypted, and under which digest's key.
#[derive(Clone, Copy, PartialEq, Eq)]
pub struct Extent {
    /// The segment's number.
    pub number: u64,
    /// Where it begins on the main disk, in bytes.
    pub offset: u64,
    pub size: SegmentSize,
    /// None where it is linear.
    pub encryption: Option<Encryption>,
    pub mark: Mark,
    /// The number of the first digest that lists it: of a crypt segment its one digest. A linear
    /// one has none in a conversion, and else may have one, which says nothing of it.
    pub digest: Option<u64>,
}

fn mark_named_by(flag: &str) -> Mark
    ensures { result ≡ mark_named flag.now }
{
    if flag == "in-reencryption" {
        Mark::Zone
    } else if flag == "backup-previous" {
        Mark::Previous
    } else if flag == "backup-final" {
        Mark::Final
    } else {
        Mark::Other
    }
}

fn mark_of_texts(flags: &[Text]) -> Mark
    ensures { result ≡ mark_by flags.now }
{
    match flags {
        [] => Mark::Plain,
        [flag] => mark_named_by(flag.as_str()),
        _ => Mark::Other,
    }
}

fn mark_of_flags(flags: &Option<Listed<Text>>) -> Mark
    ensures { result ≡ mark_of flags.now }
{
    match flags {
        Some(flags) => mark_of_texts(flags.as_slice()),
        None => Mark::Plain,
    }
}

/// The number of the first digest that lists a segment.
#[tactic(auto, unfolding(crate::specs::Extents::digest_of))]
fn first_digest(digests: &[(u64, Digest)], segment: u64) -> Option<u64>
    ensures { result ≡ digest_of digests.now segment }
{
    digests
        .iter()
        .find(|digest| lists_number(digest.1.segments.as_slice(), segment))
        .map(|digest| digest.0)
}

/// A segment under the digests.
pub(crate) fn make_extent(digests: &[(u64, Digest)], segment: &(u64, Segment)) -> Extent
    ensures { result ≡ extent_of digests.now segment.now }
{
    Extent {
        number: segment.0,
        offset: segment.1.offset,
        size: segment.1.size,
        encryption: segment.1.encryption,
        mark: mark_of_flags(&segment.1.flags),
        digest: first_digest(digests, segment.0),
    }
}

/// The blocks of a size in bytes; none where it is open-ended.
pub(crate) fn blocks(size: &SegmentSize, atom: u32) -> u64
    requires { 0 < atom }
    ensures { result ≡ blocks_of atom size.now }
{
    match size {
        SegmentSize::Dynamic => 0,
        SegmentSize::Sized(bytes) => *bytes / atom as u64,
    }
}
