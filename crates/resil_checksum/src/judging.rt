// What digests tell of atoms.

ghost use Rattle.std.specs.Prelude.{ℕ, ◌≡◌, ◌≢◌, ◌+◌, ◌*◌, ◌/◌, ◌%◌, ◌<◌, ◌≤◌, ◌↔◌, List, length};
ghost use Rattle.std.specs.Prelude.{MatchOption};
ghost use Rattle.sha2.specs.Sha256.{sha256};
ghost use Rattle.resil_checksum.specs.Clashes.{AllDiffer, IsLowestClash};
ghost use Rattle.resil_checksum.specs.Comparing.{AllDifferIn, IsFirstClash, digest_in, part_start};
ghost use Rattle.resil_checksum.specs.Comparing.{unit_of};
ghost use Rattle.resil_checksum.specs.Digests.{AreDigests};
ghost use Rattle.resil_checksum.specs.Promises.{AtomsTold};

use crate::parts::part_of;
use base_terms::Judged;
use sha2::{Digest, Sha256};
use std::thread;
use std::thread::Threads;

/// For what a block of an open zone stands, by the atom in its place and the 32 bytes that were
/// saved of it: for that atom as an old one where these are its digest, else as a new one.
pub fn judge(own: &[u8], saved: &[u8]) -> Judged
    ensures old { (result ≡ Judged.Old) ↔ (sha256 own.now ≡ saved.now) }
    ensures new { (result ≡ Judged.New) ↔ (sha256 own.now ≢ saved.now) }
{
    if Sha256::digest(own).as_slice() == saved {
        Judged::Old
    } else {
        Judged::New
    }
}

/// What is at hand of a zone's old atoms.
#[derive(Clone, Copy)]
pub(crate) enum AtHand {
    /// They themselves, one behind the other.
    Atoms,
    /// Their digests, of 32 bytes each.
    Digests,
}

/// The digest of a block's old atom.
fn digest_at(at_hand: AtHand, old: &[u8], atom: u32, block: usize) -> [u8; 32]
    requires { block * unit_of at_hand atom + unit_of at_hand atom ≤ length old.now }
    ensures { result ≡ digest_in at_hand atom old.now block }
{
    match at_hand {
        AtHand::Atoms => {
            let size = atom as usize;
            let at = block * size;
            Sha256::digest(&old[at..at + size])
        }
        AtHand::Digests => {
            let at = block * 32;
            let mut digest = [0; 32];
            digest.copy_from_slice(&old[at..at + 32]);
            digest
        }
    }
}

/// The lowest of the blocks from one to another whose old atom and new one have the same digest.
fn first_clash(
    at_hand: AtHand,
    old: &[u8],
    new: &[u8],
    atom: u32,
    from: usize,
    to: usize,
) -> Option<u64>
    requires old { to * unit_of at_hand atom ≤ length old.now }
    requires new { to * atom ≤ length new.now }
    ensures { MatchOption result (AllDifferIn at_hand atom from to old.now new.now)
        (IsFirstClash at_hand atom from to old.now new.now) }
{
    let size = atom as usize;
    for i in from..to {
        let at = i * size;
        if digest_at(at_hand, old, atom, i) == Sha256::digest(&new[at..at + size]) {
            return Some(i as u64);
        }
    }
    None
}

/// So among the blocks of one of the parts, which have so many blocks each.
fn clash_in(
    at_hand: AtHand,
    old: &[u8],
    new: &[u8],
    atom: u32,
    run: usize,
    part: usize,
) -> Option<u64>
    requires some { 0 < atom }
    requires enough { length new.now / atom * unit_of at_hand atom ≤ length old.now }
    ensures { MatchOption result
        (AllDifferIn at_hand atom (part_start (length new.now / atom) run part)
        (part_start (length new.now / atom) run (part + 1)) old.now new.now)
        (IsFirstClash at_hand atom (part_start (length new.now / atom) run part)
        (part_start (length new.now / atom) run (part + 1)) old.now new.now) }
{
    let blocks = new.len() / atom as usize;
    let start = part.saturating_mul(run);
    let end = start.saturating_add(run);
    first_clash(at_hand, old, new, atom, start.min(blocks), end.min(blocks))
}

/// So among all of them, which are cut into at most so many parts.
fn find_clash<R: Threads + Sync>(
    rt: &R,
    at_hand: AtHand,
    old: &[u8],
    new: &[u8],
    atom: u32,
    parts: usize,
) -> Option<u64>
    requires some { 0 < atom }
    requires enough { length new.now / atom * unit_of at_hand atom ≤ length old.now }
    requires parts { (0 < parts) × (parts ≤ 16) }
    ensures { MatchOption result
        (AllDifferIn at_hand atom 0 (length new.now / atom) old.now new.now)
        (IsFirstClash at_hand atom 0 (length new.now / atom) old.now new.now) }
{
    let run = part_of(new.len() / atom as usize, parts);
    let look = move |part: usize, found: &mut Option<u64>|
        requires { (0 < atom) × (length new.now / atom * unit_of at_hand atom ≤ length old.now) }
        ensures { MatchOption found.exit.now
            (AllDifferIn at_hand atom (part_start (length new.entry.now / atom) run part)
            (part_start (length new.entry.now / atom) run (part + 1)) old.entry.now new.entry.now)
            (IsFirstClash at_hand atom (part_start (length new.entry.now / atom) run part)
            (part_start (length new.entry.now / atom) run (part + 1)) old.entry.now new.entry.now) }
    { *found = clash_in(at_hand, old, new, atom, run, part) };
    let mut found = [None; 16];
    thread::for_each_mut(rt, &mut found[..parts], parts, &look);
    for part in 0..parts {
        if found[part].is_some() {
            return found[part];
        }
    }
    None
}

/// The lowest of a zone's blocks, counted from 0, whose old atom and new one have the same digest,
/// so that it would not tell them apart; None exactly where there is none. Both are whole atoms of
/// `atom` bytes, as many of the one as of the other. They are cut into at most `parts` runs, 1 to 16,
/// each with a thread of its own where one can be started; the answer is the same for every number of
/// parts.
pub fn clash<R: Threads + Sync>(
    rt: &R,
    old: &[u8],
    new: &[u8],
    atom: u32,
    parts: usize,
) -> Option<u64>
    requires some { 0 < atom }
    requires whole { length old.now % atom ≡ 0 }
    requires equal { length new.now ≡ length old.now }
    requires parts { (0 < parts) × (parts ≤ 16) }
    ensures { MatchOption result (AllDiffer atom (length old.now / atom) old.now new.now)
        (IsLowestClash atom (length old.now / atom) old.now new.now) }
{
    find_clash(rt, AtHand::Atoms, old, new, atom, parts)
}

/// So by digests of the old atoms that are at hand, one of 32 bytes for each new atom in the order
/// of the blocks; what stands behind them is not looked at. The new atoms are whole ones.
pub fn clash_by<R: Threads + Sync>(
    rt: &R,
    digests: &[u8],
    new: &[u8],
    atom: u32,
    parts: usize,
) -> Option<u64>
    requires some { 0 < atom }
    requires whole { length new.now % atom ≡ 0 }
    requires enough { length new.now / atom * 32 ≤ length digests.now }
    requires parts { (0 < parts) × (parts ≤ 16) }
    ensures { (old : List ℕ) → AreDigests atom (length new.now / atom) old digests.now
        → MatchOption result (AllDiffer atom (length new.now / atom) old new.now)
        (IsLowestClash atom (length new.now / atom) old new.now) }
{
    find_clash(rt, AtHand::Digests, digests, new, atom, parts)
}

/// A law, with nothing to run: where digests were saved and none clashes, an atom that is a block's
/// old one or its new one has the saved digest exactly where it is the old one.
pub fn atoms_are_told()
    ensures { AtomsTold }
{}
