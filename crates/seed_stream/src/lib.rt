//! The random bytes that 32 drawn ones are stretched to: the key stream of ChaCha20 (RFC 8439, with
//! a block counter and a stream number of 64 bits each) under these as its key, of stream 0, from
//! its first word on, each word's low byte first.
//!
//! The layer above may rely on one definition, `bytes_of_seed`: how the first bytes of the stream
//! follow from a seed. What is drawn for one thing and then for another are pieces of these: behind
//! whole words of four bytes more bytes begin with the fewer ones, [`streams_go_on`]. Nothing is
//! claimed of how hard it is to foretell them.
#![tactic(auto)]

ghost use Rattle.std.specs.Prelude.{◌≡◌, IfOk};
ghost use Rattle.seed_stream.specs.Streams.{GoOn, bytes_of_seed};

use base_terms::zeros;
use rand_chacha::ChaCha20Rng;
use rand_core::SeedableRng;
use rand_core::utils::fill_bytes_via_u32;
use std::alloc::{AllocError, Global};

/// The first bytes of the stream of a seed, so many.
///
/// # Errors
///
/// Memory was wanted.
#[tactic(auto, unfolding(crate::specs::Streams::bytes_of_seed))]
pub fn stretch(alloc: Global, seed: &[u8; 32], len: usize) -> Result<Vec<u8>, AllocError>
    ensures { IfOk result (λ bytes. bytes.items ≡ bytes_of_seed seed.now len) }
{
    let mut bytes = zeros(alloc, len)?;
    let mut stream = ChaCha20Rng::from_seed(*seed);
    fill_bytes_via_u32(&mut stream, bytes.as_mut_slice());
    Ok(bytes)
}

/// A law, with nothing to run: as many bytes as are asked for come, and where whole words of four
/// are asked for, more of them begin with the same.
pub fn streams_go_on()
    ensures { GoOn }
{}
