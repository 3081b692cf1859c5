// What is saved of a zone's blocks, and how many bytes it takes.

ghost use Rattle.std.specs.Prelude.{◌≡◌, ◌+◌, ◌*◌, ◌/◌, ◌%◌, ◌<◌, ◌≤◌, ◌^◌, ◌↔◌, length, drop};
ghost use Rattle.resil_checksum.specs.Digests.{saved_len, AreDigests, AreSaved};

use crate::parts::part_of;
use sha2::{Digest, Sha256};
use std::thread;
use std::thread::Threads;

/// The bytes of a digest.
const DIGEST: u64 = 32;

/// How many blocks a zone may have whose digests are saved in an area of so many bytes: one for
/// each 32 of them. The bytes of an atom say nothing of it.
pub fn capacity(area: u64, _atom: u32) -> u64
    ensures { result ≡ area / 32 }
{
    area / DIGEST
}

/// How many bytes are saved of so many blocks, where an atom has so many: 32 for each block, in
/// whole atoms.
pub fn saved_len(blocks: u64, atom: u32) -> u64
    requires some { 0 < atom }
    requires in_range { saved_len blocks atom < 2 ^ 64 }
    ensures { result ≡ saved_len blocks atom }
{
    let unit = atom as u64;
    (blocks * DIGEST).div_ceil(unit) * unit
}

/// A law, with nothing to run: an area of whole atoms has room for what is saved of so many blocks
/// exactly where they are no more than its [`capacity`].
pub fn fills_capacity(area: u64, blocks: u64, atom: u32)
    requires some { 0 < atom }
    requires whole { area % atom ≡ 0 }
    ensures { (blocks ≤ area / 32) ↔ (saved_len blocks atom ≤ area) }
{}

/// The digests of the atoms at the front, as many as there is room for.
fn digest_front(old: &[u8], atom: u32, out: &mut [u8])
    requires some { 0 < atom }
    requires whole { length out.old % 32 ≡ 0 }
    requires enough { length out.old / 32 * atom ≤ length old.now }
    ensures digests { AreDigests atom (length out.old / 32) old.now out.new }
    ensures length { length out.new ≡ length out.old }
{
    let size = atom as usize;
    for i in 0..out.len() / 32 {
        let digest = Sha256::digest(&old[i * size..i * size + size]);
        out[i * 32..i * 32 + 32].copy_from_slice(&digest);
    }
}

/// The digests of a run of atoms, which stand behind so many bytes of other digests.
fn digest_run(old: &[u8], atom: u32, start: usize, out: &mut [u8])
    requires some { 0 < atom }
    requires whole { length out.old % 32 ≡ 0 }
    requires enough { start / 32 * atom + length out.old / 32 * atom ≤ length old.now }
    ensures digests { AreDigests atom (length out.old / 32) (drop (start / 32 * atom) old.now)
        out.new }
{
    digest_front(&old[start / 32 * atom as usize..], atom, out);
}

/// The digest of each atom, in at most so many parts, of which each has a thread.
fn digest_all<R: Threads + Sync>(rt: &R, old: &[u8], atom: u32, out: &mut [u8], parts: usize)
    requires some { 0 < atom }
    requires whole { length old.now % atom ≡ 0 }
    requires room { length out.old ≡ length old.now / atom * 32 }
    requires parts { 0 < parts }
    ensures digests { AreDigests atom (length old.now / atom) old.now out.new }
    ensures length { length out.new ≡ length out.old }
{
    let run = part_of(old.len() / atom as usize, parts);
    let digest = move |start: usize, part: &mut [u8]|
        requires { (0 < atom) × ((length part.now % 32 ≡ 0)
            × (start / 32 * atom + length part.now / 32 * atom ≤ length old.now)) }
        ensures { AreDigests atom (length part.entry.now / 32)
            (drop (start / 32 * atom) old.entry.now) part.exit.now }
    { digest_run(old, atom, start, part) };
    thread::for_each_chunk_mut(rt, out, run * 32, &digest);
}

/// Saves digests of the old atoms of a zone's blocks: `out` is the digest of each, one behind the
/// other in the order of the blocks, and zeros behind the last one. The old atoms are whole ones of
/// `atom` bytes; `out` has the length that [`saved_len`] gives for as many blocks. The atoms are cut
/// into at most `parts` runs, each with a thread of its own where one can be started; the bytes are
/// the same for every number of parts.
pub fn save<R: Threads + Sync>(rt: &R, old: &[u8], atom: u32, out: &mut [u8], parts: usize)
    requires some { 0 < atom }
    requires whole { length old.now % atom ≡ 0 }
    requires room { length out.old ≡ saved_len (length old.now / atom) atom }
    requires parts { 0 < parts }
    ensures saved { AreSaved atom (length old.now / atom) old.now out.new }
    ensures length { length out.new ≡ length out.old }
{
    let end = old.len() / atom as usize * 32;
    digest_all(rt, old, atom, &mut out[..end], parts);
    out[end..].fill(0);
}
