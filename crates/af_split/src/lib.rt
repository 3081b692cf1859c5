//! The anti-forensic split that LUKS stores its keys by: a key becomes many stripes of its own
//! length, all of which are needed to read it, so that it is gone as soon as one of them is
//! overwritten (LUKS On-Disk Format, the anti-forensic information splitter). All stripes but the
//! last are drawn at random by the caller. The layer above may rely on two things: the split is
//! the format's, byte for byte, and `merge` undoes `split` whatever was drawn.
//!
//! No call takes memory from an allocator.
#![tactic(auto)]

ghost use Rattle.std.specs.Prelude.{◌≡◌, ◌≤◌, ◌*◌, length};
ghost use Rattle.af_split.specs.Af.{split_of, merged};

use diffusion::put_chain;
use pbkdf2_hmac::{Hash, xor_into};

mod diffusion;

/// The most bytes of a key.
pub const MOST_BYTES: usize = 64;

/// Splits `key`, of 1 to `MOST_BYTES` bytes, in `stripes` stripes, at least one. `out` has the
/// key's length times the stripes: all of it but the last stripe stands there as drawn, and stays
/// so, and the last stripe is written. `merge` gives the key again.
pub fn split(key: &[u8], hash: Hash, stripes: usize, out: &mut [u8])
    requires some_bytes { 1 ≤ length key.now }
    requires most_bytes { length key.now ≤ MOST_BYTES }
    requires some_stripes { 1 ≤ stripes }
    requires room { length out.old ≡ stripes * length key.now }
    ensures split { out.new ≡ split_of hash key.now stripes out.old }
    ensures undone { merged hash (length key.now) stripes out.new ≡ key.now }
{
    let mut last = [0u8; 64];
    let last = &mut last[..key.len()];
    let end = out.len() - key.len();
    put_chain(hash, stripes - 1, out, last);
    xor_into(last, key);
    out[end..].copy_from_slice(last);
}

/// Writes the key of `stripes` stripes, at least one, into `key_out`, of 1 to `MOST_BYTES` bytes.
/// `split` has the key's length times the stripes.
pub fn merge(hash: Hash, stripes: usize, split: &[u8], key_out: &mut [u8])
    requires some_bytes { 1 ≤ length key_out.old }
    requires most_bytes { length key_out.old ≤ MOST_BYTES }
    requires some_stripes { 1 ≤ stripes }
    requires size { length split.now ≡ stripes * length key_out.old }
    ensures { key_out.new ≡ merged hash (length key_out.old) stripes split.now }
{
    let end = split.len() - key_out.len();
    put_chain(hash, stripes - 1, split, key_out);
    xor_into(key_out, &split[end..]);
}
