// Digests, by which keys are told to be right.

use crate::names::Hash;
use base_terms::Bytes;
use json_members::{Entry, Listed, Object, copy_bytes, copy_numbers};
use std::alloc::{AllocError, Global};

/// A digest of a key by PBKDF2 (RFC 8018): the type `pbkdf2`.
pub struct Digest {
    /// The numbers of the keyslots that hold the key, as they were read.
    pub keyslots: Listed<u64>,
    /// The numbers of the segments that are under the key, as they were read.
    pub segments: Listed<u64>,
    pub hash: Hash,
    /// From 1 to 268435456.
    pub iterations: u64,
    pub salt: Bytes,
    pub digest: Bytes,
    /// The members that have no name here, as they were read.
    pub rest: Object,
}

// By hand, so that a value that is dropped in place is one call to the prover.
impl Drop for Digest {
    fn drop(self) {
        let Digest {
            keyslots,
            segments,
            hash: _,
            iterations: _,
            salt,
            digest,
            rest,
        } = self;
        drop(keyslots);
        drop(segments);
        drop(salt);
        drop(digest);
        drop(rest);
    }
}

impl Entry for Digest {
    fn copy(&self, alloc: Global) -> Result<Digest, AllocError> {
        Ok(Digest {
            keyslots: copy_numbers(alloc, self.keyslots.as_slice())?,
            segments: copy_numbers(alloc, self.segments.as_slice())?,
            hash: self.hash,
            iterations: self.iterations,
            salt: copy_bytes(alloc, self.salt.as_slice())?,
            digest: copy_bytes(alloc, self.digest.as_slice())?,
            rest: self.rest.copy(alloc)?,
        })
    }
}
