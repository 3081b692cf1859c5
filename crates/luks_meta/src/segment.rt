// Segments: the runs of the main disk that hold the volume's data.

use crate::names::Cipher;
use json_members::{Entry, Listed, Object, Text, copy_texts};
use std::alloc::{AllocError, Global};

/// How long a segment is.
#[derive(Clone, Copy, PartialEq, Eq)]
pub enum SegmentSize {
    /// `dynamic`: up to the disk's end.
    Dynamic,
    /// So many bytes.
    Sized(u64),
}

/// How a crypt segment is encrypted.
#[derive(Clone, Copy, PartialEq, Eq)]
pub struct Encryption {
    /// The number of the segment's first sector, in units of 512 bytes.
    pub iv_tweak: u64,
    pub cipher: Cipher,
    /// 512, 1024, 2048 or 4096 bytes.
    pub sector_size: u64,
}

/// A segment, in the order of its members in the format. One with an encryption has the type
/// `crypt`, one without has the type `linear`.
pub struct Segment {
    /// Where it begins, in bytes.
    pub offset: u64,
    pub size: SegmentSize,
    pub encryption: Option<Encryption>,
    pub flags: Option<Listed<Text>>,
    /// The members that have no name here, as they were read.
    pub rest: Object,
}

// By hand, so that a value that is dropped in place is one call to the prover.
impl Drop for Segment {
    fn drop(self) {
        let Segment {
            offset: _,
            size: _,
            encryption: _,
            flags,
            rest,
        } = self;
        drop(flags);
        drop(rest);
    }
}

impl Entry for Segment {
    fn copy(&self, alloc: Global) -> Result<Segment, AllocError> {
        let flags = match &self.flags {
            Some(flags) => Some(copy_texts(alloc, flags.as_slice())?),
            None => None,
        };
        Ok(Segment {
            offset: self.offset,
            size: self.size,
            encryption: self.encryption,
            flags,
            rest: self.rest.copy(alloc)?,
        })
    }
}
