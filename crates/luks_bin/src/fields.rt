ghost use Rattle.std.specs.Prelude.{◌≡◌, ◌+◌, ◌≤◌, length};
ghost use Rattle.base_terms.specs.Blocks.{pasted};
ghost use Rattle.luks_bin.specs.Fields.{field, u16_in, u64_in};
ghost use Rattle.luks_bin.specs.Copies.{holds_nul, sum_of, sum_field, magic_of};

use sha2::{Digest, Sha256};

/// So many bytes from one on.
#[tactic(auto, unfolding(crate::specs::Fields::field))]
pub(crate) fn field_at<const N: usize>(bytes: &[u8], at: usize) -> [u8; N]
    requires { at + N ≤ length bytes.now }
    ensures { result ≡ field at N bytes.now }
{
    let mut found = [0; N];
    found.copy_from_slice(&bytes[at..at + N]);
    found
}

#[tactic(auto, unfolding(crate::specs::Fields::u16_in))]
pub(crate) fn u16_at(bytes: &[u8], at: usize) -> u16
    requires { at + 2 ≤ length bytes.now }
    ensures { result ≡ u16_in at bytes.now }
{
    u16::from_be_bytes(field_at(bytes, at))
}

#[tactic(auto, unfolding(crate::specs::Fields::u64_in))]
pub(crate) fn u64_at(bytes: &[u8], at: usize) -> u64
    requires { at + 8 ≤ length bytes.now }
    ensures { result ≡ u64_in at bytes.now }
{
    u64::from_be_bytes(field_at(bytes, at))
}

/// Whether a text has an end.
pub(crate) fn ends(text: &[u8]) -> bool
    ensures { result ≡ holds_nul text.now }
{
    text.iter().any(|byte| *byte == 0)
}

/// The magic of a copy at a place.
#[tactic(auto, unfolding(crate::specs::Copies::magic_of))]
pub(crate) fn magic(place: u64) -> [u8; 6]
    ensures { result ≡ magic_of place }
{
    if place == 0 {
        *b"LUKS\xba\xbe"
    } else {
        *b"SKUL\xba\xbe"
    }
}

/// The sum of a copy, its own field taken as zeros.
#[tactic(auto, unfolding(crate::specs::Copies::sum_of))]
pub(crate) fn sum(copy: &[u8]) -> [u8; 32]
    requires { 512 ≤ length copy.now }
    ensures { result ≡ sum_of copy.now }
{
    let (head, _) = copy.split_at(448);
    let (_, tail) = copy.split_at(512);
    let mut hasher = Sha256::new();
    hasher.update(head);
    hasher.update(&[0; 64]);
    hasher.update(tail);
    hasher.finalize()
}

/// The field of a sum: zeros stand behind it.
#[tactic(auto, unfolding(crate::specs::Copies::sum_field))]
pub(crate) fn padded(sum: &[u8; 32]) -> [u8; 64]
    ensures { result ≡ sum_field sum.now }
{
    let mut field = [0; 64];
    field[..32].copy_from_slice(sum);
    field
}

/// Puts bytes in place of as many of a buffer's own from one on.
#[tactic(auto, unfolding(base_terms::specs::Blocks::pasted))]
pub(crate) fn put(buf: &mut [u8], at: usize, bytes: &[u8])
    requires { at + length bytes.now ≤ length buf.old }
    ensures { buf.new ≡ pasted buf.old at bytes.now }
{
    buf[at..at + bytes.len()].copy_from_slice(bytes);
}
