ghost use Rattle.std.specs.Prelude.{◌≡◌, ◌+◌, ◌≤◌, ◌<◌, ℕ, length, replicate, slice_index, IfOk};
ghost use Rattle.base_terms.specs.Blocks.{pasted};

use std::alloc::{AllocError, Global};

/// So many zero bytes.
pub fn zeros(alloc: Global, len: usize) -> Result<Vec<u8>, AllocError>
    ensures { IfOk result (λ bytes. bytes.items ≡ replicate len 0) }
{
    let mut bytes = Vec::new(alloc);
    bytes.resize(len, 0)?;
    Ok(bytes)
}

/// A law, with nothing to run: each byte is below 256.
pub fn bytes_are_below_256(bytes: &[u8])
    ensures { (k : ℕ) → slice_index bytes.now k < 256 }
{}

/// Puts the bytes in place of as many of a vector's own from `from` on.
#[tactic(auto, unfolding(crate::specs::Blocks::pasted))]
pub fn paste(into: &mut Vec<u8>, from: usize, bytes: &[u8])
    requires { from + length bytes.now ≤ length into.old.items }
    ensures items { into.new.items ≡ pasted into.old.items from bytes.now }
    ensures len { length into.new.items ≡ length into.old.items }
    ensures bytes { (k : ℕ) → slice_index into.new.items k < 256 }
{
    into[from..from + bytes.len()].copy_from_slice(bytes);
    bytes_are_below_256(into);
}
