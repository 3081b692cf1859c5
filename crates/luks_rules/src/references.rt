ghost use Rattle.std.specs.Prelude.{◌≡◌, ◌+◌, ◌<◌, ◌^◌, ◌&&◌, ◌==◌, ℕ, not, is_some, unwrap_or};
ghost use Rattle.std.specs.Prelude.{OnOk, IfOk, if◌then◌else◌};
ghost use Rattle.std.specs.List.{list_any};
ghost use Rattle.std.specs.Ordering.{nat_cmp};
ghost use Rattle.std.specs.BTreeMap as map;
ghost use Rattle.std.specs.BTreeSet as set;
ghost use Rattle.luks_rules.specs.References.{breaks_references, is_badly_listed, is_there, lists};
ghost use Rattle.luks_rules.specs.References.{lists_beyond, lists_unknown, times_listed};

use luks_meta::{Digest, Parts, Segment};
use std::alloc::{AllocError, Global};
use std::collections::{BTreeMap, BTreeSet};

/// The numbers of entries, as a set.
fn numbers_of<T>(alloc: Global, entries: &[(u64, T)]) -> Result<BTreeSet<u64>, AllocError>
    ensures { IfOk result
        (λ numbers. (n : ℕ) → set.contains nat_cmp numbers n ≡ is_there entries.now n) }
{
    let mut numbers = BTreeSet::new(alloc);
    for entry in entries {
        numbers.insert(entry.0)?;
    }
    Ok(numbers)
}

/// Whether a number is one of a list.
pub fn lists_number(numbers: &[u64], number: u64) -> bool
    ensures { result ≡ lists numbers.now number }
{
    numbers.iter().any(|n| *n == number)
}

/// Whether one of the numbers isn't in a set.
fn any_lacks(there: &BTreeSet<u64>, numbers: &[u64]) -> bool
    ensures { result ≡ list_any (λ n. not (set.contains nat_cmp there.now n)) numbers.now }
{
    numbers.iter().any(|number| !there.contains(number))
}

/// Counts a number once more.
fn count_up(counts: &mut BTreeMap<u64, u64>, number: u64) -> Result<(), AllocError>
    requires { unwrap_or (map.get nat_cmp counts.old number) 0 + 1 < 2 ^ 64 }
    ensures { OnOk result ((n : ℕ) → unwrap_or (map.get nat_cmp counts.new n) 0
        ≡ unwrap_or (map.get nat_cmp counts.old n) 0 + (if number == n then 1 else 0)) }
{
    let count = counts.get(&number).copied().unwrap_or(0);
    counts.insert(number, count + 1)?;
    Ok(())
}

/// Counts each of the numbers once, however often it is listed.
fn count_once(
    alloc: Global,
    numbers: &[u64],
    counts: &mut BTreeMap<u64, u64>,
) -> Result<(), AllocError>
    requires { (n : ℕ) → unwrap_or (map.get nat_cmp counts.old n) 0 + 1 < 2 ^ 64 }
    ensures { OnOk result ((n : ℕ) → unwrap_or (map.get nat_cmp counts.new n) 0
        ≡ unwrap_or (map.get nat_cmp counts.old n) 0 + (if lists numbers.now n then 1 else 0)) }
{
    let mut seen = BTreeSet::new(alloc);
    for number in numbers {
        if seen.insert(*number)? {
            count_up(counts, *number)?;
        }
    }
    Ok(())
}

/// How many of the digests list each segment.
fn count_listings(
    alloc: Global,
    digests: &[(u64, Digest)],
) -> Result<BTreeMap<u64, u64>, AllocError>
    ensures { IfOk result
        (λ counts. (n : ℕ) → unwrap_or (map.get nat_cmp counts n) 0 ≡ times_listed digests.now n) }
{
    let mut counts = BTreeMap::new(alloc);
    for digest in digests {
        count_once(alloc, digest.1.segments.as_slice(), &mut counts)?;
    }
    Ok(counts)
}

/// Whether a digest lists a number that isn't in the set of keyslots' or of segments' numbers.
fn lists_others(digest: &Digest, keyslots: &BTreeSet<u64>, segments: &BTreeSet<u64>) -> bool
    ensures { result
        ≡ lists_beyond (set.contains nat_cmp keyslots.now) (set.contains nat_cmp segments.now)
        digest.now }
{
    any_lacks(keyslots, digest.keyslots.as_slice())
        || any_lacks(segments, digest.segments.as_slice())
}

fn any_lists_others(
    digests: &[(u64, Digest)],
    keyslots: &BTreeSet<u64>,
    segments: &BTreeSet<u64>,
) -> bool
    ensures { result
        ≡ list_any
        (λ d. lists_beyond (set.contains nat_cmp keyslots.now) (set.contains nat_cmp segments.now)
        d.1) digests.now }
{
    digests
        .iter()
        .any(|d| lists_others(&d.1, keyslots, segments))
}

/// Whether a digest lists a keyslot or a segment that isn't there.
fn any_lists_unknown(alloc: Global, parts: &Parts) -> Result<bool, AllocError>
    ensures { IfOk result
        (λ found. found ≡ list_any (λ d. lists_unknown parts.now d.1) parts.now.digests) }
{
    let keyslots = numbers_of(alloc, parts.keyslots.as_slice())?;
    let segments = numbers_of(alloc, parts.segments.as_slice())?;
    Ok(any_lists_others(parts.digests.as_slice(), &keyslots, &segments))
}

/// Whether a crypt segment isn't listed once by these counts.
fn is_crypt_and_not_once(segment: &(u64, Segment), counts: &BTreeMap<u64, u64>) -> bool
    ensures { result ≡ is_some segment.now.1.encryption
        && not (unwrap_or (map.get nat_cmp counts.now segment.now.0) 0 == 1) }
{
    segment.1.encryption.is_some() && counts.get(&segment.0).copied().unwrap_or(0) != 1
}

fn any_not_once(segments: &[(u64, Segment)], counts: &BTreeMap<u64, u64>) -> bool
    ensures { result
        ≡ list_any
        (λ s. is_some s.1.encryption && not (unwrap_or (map.get nat_cmp counts.now s.0) 0 == 1))
        segments.now }
{
    segments.iter().any(|s| is_crypt_and_not_once(s, counts))
}

/// Whether a crypt segment is in no digest or in two.
fn any_badly_listed(alloc: Global, parts: &Parts) -> Result<bool, AllocError>
    ensures { IfOk result
        (λ found. found ≡ list_any (is_badly_listed parts.now.digests) parts.now.segments) }
{
    let counts = count_listings(alloc, parts.digests.as_slice())?;
    Ok(any_not_once(parts.segments.as_slice(), &counts))
}

/// Whether digests list what isn't there, or a crypt segment is in no digest or in two.
#[tactic(auto, unfolding(crate::specs::References::breaks_references))]
pub(crate) fn break_references(alloc: Global, parts: &Parts) -> Result<bool, AllocError>
    ensures { IfOk result (λ found. found ≡ breaks_references parts.now) }
{
    if any_lists_unknown(alloc, parts)? {
        return Ok(true);
    }
    any_badly_listed(alloc, parts)
}
