// The hash H of the split, and the chain that it makes of the stripes.

ghost use Rattle.std.specs.Prelude.{◌≡◌, ◌≤◌, ◌*◌, length};
ghost use Rattle.pbkdf2_hmac.specs.Hashes.{digest_len};
ghost use Rattle.af_split.specs.Af.{hashed_part, diffused, chain};

use pbkdf2_hmac::{Hash, xor_into};

// Replaces the part with this number by its hash, cut to its length.
fn hash_part(hash: Hash, number: u32, part: &mut [u8])
    requires { length part.old ≤ digest_len hash }
    ensures { part.new ≡ hashed_part hash number part.old }
{
    let mut digest = [0u8; 64];
    let digest = &mut digest[..hash.digest_len()];
    hash.digest(&number.to_be_bytes(), part, digest);
    part.copy_from_slice(&digest[..part.len()]);
}

// Replaces a string by its hashed parts.
fn diffuse(hash: Hash, bytes: &mut [u8])
    requires { length bytes.old ≤ 64 }
    ensures { bytes.new ≡ diffused hash bytes.old }
{
    let len = hash.digest_len();
    let count = bytes.len().div_ceil(len);
    'parts: for i in 0..count {
        let start = i * len;
        let end = (start + len).min(bytes.len());
        hash_part(hash, i as u32, &mut bytes[start..end]);
    }
}

// Writes what the chain makes of the first `count` stripes, each of the length of `last`.
pub(crate) fn put_chain(hash: Hash, count: usize, stripes: &[u8], last: &mut [u8])
    requires most { length last.old ≤ 64 }
    requires within { count * length last.old ≤ length stripes.now }
    ensures { last.new ≡ chain hash (length last.old) stripes.now count }
{
    let size = last.len();
    last.fill(0);
    'stripes: for k in 0..count {
        xor_into(last, &stripes[k * size..k * size + size]);
        diffuse(hash, last);
    }
}
