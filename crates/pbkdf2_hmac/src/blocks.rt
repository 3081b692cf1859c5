// The output blocks of PBKDF2 (RFC 8018, section 5.2).

ghost use Rattle.std.specs.Prelude.{◌≡◌, ℕ, ◌≤◌, List, length};
ghost use Rattle.pbkdf2_hmac.specs.Hashes.{digest_len};
ghost use Rattle.pbkdf2_hmac.specs.Keyed.{IsKeyed};
ghost use Rattle.pbkdf2_hmac.specs.Pbkdf2.{block_of, derived_key};

use crate::bytes::xor_into;
use crate::hasher::Hasher;
use crate::keyed::Keyed;

// Writes the block with this number, counted from 1, into `sum`, which has a digest's length.
fn put_block<H: Hasher>(keyed: &Keyed<H>, salt: &[u8], number: u32, rounds: u32, sum: &mut [u8])
    requires rounds { 1 ≤ rounds }
    requires digest { length sum.old ≡ digest_len H.hash }
    ensures { (pass : List ℕ) → IsKeyed H.hash H.holds keyed.now pass
        → sum.new ≡ block_of H.hash pass salt.now rounds number }
{
    let mut seed = keyed.begin();
    seed.take(salt);
    seed.take(&number.to_be_bytes());
    keyed.end(seed, sum);
    let mut iterate = [0u8; 64];
    let iterate = &mut iterate[..H::digest_len()];
    iterate.copy_from_slice(sum);
    'rounds: for _ in 1..rounds {
        keyed.advance(iterate);
        xor_into(sum, iterate);
    }
}

// Fills `out` with the blocks in turn, the last one cut.
pub(crate) fn fill<H: Hasher>(keyed: &Keyed<H>, salt: &[u8], rounds: u32, out: &mut [u8])
    requires rounds { 1 ≤ rounds }
    requires most { length out.old ≤ 512 }
    ensures { (pass : List ℕ) → IsKeyed H.hash H.holds keyed.now pass
        → out.new ≡ derived_key H.hash pass salt.now rounds (length out.old) }
{
    let len = H::digest_len();
    let mut block = [0u8; 64];
    let block = &mut block[..len];
    let count = out.len().div_ceil(len);
    'output: for i in 0..count {
        put_block(keyed, salt, i as u32 + 1, rounds, block);
        let start = i * len;
        let end = (start + len).min(out.len());
        out[start..end].copy_from_slice(&block[..end - start]);
    }
}
