ghost use Rattle.std.specs.Prelude.{◌≡◌, ◌+◌, ◌*◌, ◌/◌, ◌<◌, ◌^◌};
ghost use Rattle.std.specs.List.{All};
ghost use Rattle.luks_rules.specs.Plans.{blocks_in, begins, is_encrypted, is_marked, is_part};
ghost use Rattle.luks_rules.specs.Plans.{is_sized, laid_out, parts_of, rest_of, same_cipher};
ghost use Rattle.luks_rules.specs.Plans.{same_digest};

use crate::extents::{Extent, Mark};
use luks_meta::{Cipher, Direction, Encryption, SegmentSize};

/// Of how many blocks each part of a volume is while it is converted, in logical order.
#[derive(Clone, Copy, PartialEq, Eq)]
pub struct Plan {
    /// Forward those that are new, backward those that are old.
    pub first: u64,
    /// Those of the open zone, which are still where the old segment has them.
    pub zone: u64,
    /// Forward those that are old, backward those that are new.
    pub last: u64,
}

/// So many blocks of a whole segment from one of them on.
#[derive(Clone, Copy, PartialEq, Eq)]
pub(crate) struct Part {
    pub(crate) whole: Extent,
    /// Whether these blocks are the open zone.
    pub(crate) zone: bool,
    /// The first of them, by its number in the whole.
    pub(crate) from: u128,
    pub(crate) blocks: u64,
}

/// All blocks of the volume.
pub(crate) fn blocks_of_volume(plan: &Plan) -> u128
    ensures value { result ≡ blocks_in plan.now }
    ensures fits { result < 2 ^ 66 }
{
    plan.first as u128 + plan.zone as u128 + plan.last as u128
}

/// The parts in logical order.
pub(crate) fn parts(direction: Direction, old: &Extent, new: &Extent, plan: &Plan) -> [Part; 3]
    ensures { result ≡ parts_of direction old.now new.now plan.now }
{
    let (first, last) = match direction {
        Direction::Forward => (*new, *old),
        Direction::Backward => (*old, *new),
    };
    [
        Part {
            whole: first,
            zone: false,
            from: 0,
            blocks: plan.first,
        },
        Part {
            whole: *old,
            zone: true,
            from: plan.first as u128,
            blocks: plan.zone,
        },
        Part {
            whole: last,
            zone: false,
            from: plan.first as u128 + plan.zone as u128,
            blocks: plan.last,
        },
    ]
}

fn is_marked_so(zone: bool, mark: Mark) -> bool
    ensures { result ≡ is_marked zone mark }
{
    match mark {
        Mark::Plain => !zone,
        Mark::Zone => zone,
        Mark::Previous | Mark::Final | Mark::Other => false,
    }
}

/// Whether a size is so many bytes.
pub(crate) fn has_size(bytes: u128, size: &SegmentSize) -> bool
    ensures { result ≡ is_sized bytes size.now }
{
    match size {
        SegmentSize::Dynamic => false,
        SegmentSize::Sized(n) => *n as u128 == bytes,
    }
}

fn is_same_cipher(one: Cipher, other: Cipher) -> bool
    ensures { result ≡ same_cipher one other }
{
    match one {
        Cipher::AesXtsPlain64 => match other {
            Cipher::AesXtsPlain64 => true,
            Cipher::AesCbcEssivSha256 => false,
        },
        Cipher::AesCbcEssivSha256 => match other {
            Cipher::AesXtsPlain64 => false,
            Cipher::AesCbcEssivSha256 => true,
        },
    }
}

fn is_encrypted_so(units: u128, whole: &Option<Encryption>, part: &Option<Encryption>) -> bool
    requires { units < 2 ^ 120 }
    ensures { result ≡ is_encrypted units whole.now part.now }
{
    match whole {
        None => part.is_none(),
        Some(w) => match part {
            None => false,
            Some(e) => {
                is_same_cipher(w.cipher, e.cipher)
                    && e.sector_size == w.sector_size
                    && e.iv_tweak as u128 == w.iv_tweak as u128 + units
            }
        },
    }
}

fn is_same_digest(one: Option<u64>, other: Option<u64>) -> bool
    ensures { result ≡ same_digest one other }
{
    match one {
        None => other.is_none(),
        Some(d) => match other {
            None => false,
            Some(e) => d == e,
        },
    }
}

/// Whether a segment is a part of a whole one.
fn is_this_part(atom: u32, part: &Part, extent: &Extent) -> bool
    requires { part.now.from < 2 ^ 66 }
    ensures { result ≡ is_part atom part.now extent.now }
{
    let behind = part.from * atom as u128;
    is_marked_so(part.zone, extent.mark)
        && extent.offset as u128 == part.whole.offset as u128 + behind
        && has_size(part.blocks as u128 * atom as u128, &extent.size)
        && is_encrypted_so(behind / 512, &part.whole.encryption, &extent.encryption)
        && is_same_digest(part.whole.digest, extent.digest)
}

/// Whether the live segments begin with a part.
fn begin_with(atom: u32, part: &Part, live: &[Extent]) -> bool
    requires { part.now.from < 2 ^ 66 }
    ensures { result ≡ begins atom part.now live.now }
{
    match live {
        [extent, ..] => is_this_part(atom, part, extent),
        [] => false,
    }
}

/// Those behind the first.
fn behind_first(live: &[Extent]) -> &[Extent]
    ensures { result.now ≡ rest_of live.now }
{
    match live {
        [_, rest @ ..] => rest,
        [] => live,
    }
}

/// Whether the live segments are these parts, one after another.
pub(crate) fn are_laid_out(atom: u32, parts: &[Part], live: &[Extent]) -> bool
    requires { All (λ p. p.from < 2 ^ 66) parts.now }
    ensures { result ≡ laid_out atom parts.now live.now }
{
    let mut rest = live;
    for part in parts {
        if part.blocks != 0 {
            if !begin_with(atom, part, rest) {
                return false;
            }
            rest = behind_first(rest);
        }
    }
    rest.is_empty()
}
