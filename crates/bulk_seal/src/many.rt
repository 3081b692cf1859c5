// Many atoms, in parts that threads work on.

ghost use Rattle.std.specs.Prelude.{◌≡◌, ℕ, ◌+◌, ◌*◌, ◌/◌, ◌%◌, ◌<◌, ◌≤◌, ◌^◌, length};
ghost use Rattle.cipher_laws.specs.Bytes.{AreBytes};
ghost use Rattle.cipher_laws.specs.Laws.{KeepsLengths, JoinsSectors};
ghost use Rattle.cipher_laws.specs.Sectors.{by_sectors};

use cipher_laws::{Inverse, SectorCipher};
use std::thread;
use std::thread::Threads;

/// Encrypts atoms of `atom` bytes where they lie, each as `seal_atom` does, the first of them under
/// the IV number `first`. The atoms are cut into at most `parts` runs, 1 to 16, of as many atoms
/// each, but for the last. Each run has a thread of its own where one can be started, and waits for
/// its turn in this one where none can. Nothing is refused, no memory is taken, and the bytes are
/// the same for every number of parts.
///
/// To start a thread costs as much as to seal some ten thousand bytes, and the call waits for its
/// slowest run: parts pay from 256 KiB a run on, where as many processors are free.
pub fn seal_many<R: Threads + Sync, C: SectorCipher + Sync>(
    rt: &R,
    cipher: &C,
    first: u64,
    atom: usize,
    bytes: &mut [u8],
    parts: usize,
)
    requires some { 0 < atom }
    requires sectors { atom % C.sector cipher.now ≡ 0 }
    requires whole { length bytes.old % atom ≡ 0 }
    requires in_range { first + length bytes.old / 512 < 2 ^ 64 }
    requires parts { (0 < parts) × (parts ≤ 16) }
    ensures at_once { bytes.new ≡ C.sealed cipher.now first bytes.old }
    ensures in_turn { bytes.new ≡ by_sectors (C.sealed cipher.now) atom first bytes.old }
{
    tell_laws(cipher, bytes);
    let run = run_length(bytes.len() / atom, atom, parts);
    let seal_run = move |start: usize, part: &mut [u8]|
        requires { (length part.now % C.sector cipher.now ≡ 0)
            × (first + start / 512 + length part.now / 512 < 2 ^ 64) }
        ensures { part.exit.now
            ≡ C.sealed cipher.entry.now (first + start / 512) part.entry.now }
    { cipher.seal_atom(first + (start / 512) as u64, part) };
    thread::for_each_chunk_mut(rt, bytes, run, &seal_run);
}

/// Decrypts atoms where they lie, each as `unseal_atom` does, under the same conditions.
pub fn unseal_many<R: Threads + Sync, C: SectorCipher + Sync>(
    rt: &R,
    cipher: &C,
    first: u64,
    atom: usize,
    bytes: &mut [u8],
    parts: usize,
)
    requires some { 0 < atom }
    requires sectors { atom % C.sector cipher.now ≡ 0 }
    requires whole { length bytes.old % atom ≡ 0 }
    requires in_range { first + length bytes.old / 512 < 2 ^ 64 }
    requires parts { (0 < parts) × (parts ≤ 16) }
    ensures at_once { bytes.new ≡ C.opened cipher.now first bytes.old }
    ensures in_turn { bytes.new ≡ by_sectors (C.opened cipher.now) atom first bytes.old }
{
    seal_many(rt, &Inverse(cipher), first, atom, bytes, parts);
}

// The cipher's laws, and what bytes are: facts for the proof of work that threads take a part of.
fn tell_laws<C: SectorCipher>(cipher: &C, bytes: &[u8])
    ensures units { C.sector cipher.now % 512 ≡ 0 }
    ensures joined { JoinsSectors (C.sector cipher.now) (C.sealed cipher.now) }
    ensures lengths { KeepsLengths (C.sector cipher.now) (C.sealed cipher.now) }
    ensures are_bytes { AreBytes bytes.now }
{}

// The bytes of a run, where so many atoms are cut into at most so many runs that are equally long,
// but for the last. Without an atom it is an atom long.
fn run_length(atoms: usize, atom: usize, parts: usize) -> usize
    requires some { 0 < atom }
    requires parts { 0 < parts }
    requires fits { atoms * atom < 2 ^ 64 }
    ensures some { 0 < result }
    ensures whole { result % atom ≡ 0 }
{
    atoms.max(1).div_ceil(parts) * atom
}
