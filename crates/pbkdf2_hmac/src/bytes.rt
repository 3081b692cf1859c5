// Byte strings under exclusive or.

ghost use Rattle.std.specs.Prelude.{◌≡◌, length};
ghost use Rattle.pbkdf2_hmac.specs.Xor.{xor_bytes};

/// Replaces each byte of `target` by its exclusive or with the byte of `other` at the same place.
/// Both have the same length.
pub fn xor_into(target: &mut [u8], other: &[u8])
    requires { length target.old ≡ length other.now }
    ensures { target.new ≡ xor_bytes target.old other.now }
{
    'bytes: for i in 0..target.len() {
        target[i] ^= other[i];
    }
}
