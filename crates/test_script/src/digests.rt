// Bytes, as they are told.

use anyhow::Result;
use sha2::{Digest, Sha256};
use std::alloc::Global;

/// The bytes that are told one by one.
const TOLD: usize = 64;

/// The SHA-256 of bytes, in hexadecimal.
pub(crate) fn sum_of(alloc: Global, bytes: &[u8]) -> Result<String> {
    Ok(hex::encode(alloc, &Sha256::digest(bytes))?)
}

/// Bytes, as they are told: all of few, of more their SHA-256.
pub(crate) fn put_text(alloc: Global, bytes: &[u8]) -> Result<String> {
    if bytes.len() <= TOLD {
        Ok(hex::encode(alloc, bytes)?)
    } else {
        sum_of(alloc, bytes)
    }
}
