//! The journal, one of the ways to keep an open zone of a conversion safe: before the zone's blocks
//! are written anew, a copy of each of its old atoms is written into an area of the keyslots area.
//! So the area has room for as many blocks as it has whole atoms, and after a stop each block of
//! the zone stands for what was saved of it.
//!
//! The layer above may rely on [`save`], whose bytes are the old atoms, on [`judge`], and on
//! [`capacity`] and [`saved_len`], which [`fills_capacity`] ties to each other. No call takes
//! memory.
#![tactic(auto)]

ghost use Rattle.std.specs.Prelude.{◌≡◌, ◌*◌, ◌/◌, ◌<◌, ◌≤◌, ◌^◌, ◌↔◌, length};

use base_terms::Judged;

/// How many blocks a zone may have whose atoms are saved in an area of so many bytes, where an atom
/// has so many: one for each whole atom of the area.
pub fn capacity(area: u64, atom: u32) -> u64
    requires { 0 < atom }
    ensures { result ≡ area / atom }
{
    area / atom as u64
}

/// How many bytes are saved of so many blocks, where an atom has so many: their atoms.
pub fn saved_len(blocks: u64, atom: u32) -> u64
    requires { blocks * atom < 2 ^ 64 }
    ensures { result ≡ blocks * atom }
{
    blocks * atom as u64
}

/// A law, with nothing to run: an area has room for what is saved of so many blocks exactly where
/// they are no more than its [`capacity`].
pub fn fills_capacity(area: u64, blocks: u64, atom: u32)
    requires { 0 < atom }
    ensures { (blocks ≤ area / atom) ↔ (blocks * atom ≤ area) }
{}

/// Saves the old atoms of a zone's blocks: `out`, which is as long, is a copy of them.
pub fn save(old: &[u8], out: &mut [u8])
    requires { length out.old ≡ length old.now }
    ensures { out.new ≡ old.now }
{
    out.copy_from_slice(old);
}

/// For what each block of an open zone stands: for what was saved of it, whatever is in its place.
pub fn judge() -> Judged
    ensures { result ≡ Judged.FromSave }
{
    Judged::FromSave
}
