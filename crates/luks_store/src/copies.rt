// The two copies of a header, as they were found.

use base_terms::Bytes;
use luks_bin::BinHeader;

/// A copy of a header: its binary header, and all its bytes, the JSON area included.
#[derive(Drop)]
pub struct HeaderCopy {
    pub header: BinHeader,
    pub bytes: Bytes,
}

/// What stands at one of the two places.
#[derive(Clone, Copy, PartialEq, Eq)]
pub enum CopyState {
    /// A copy of the header that is used.
    Good,
    /// A copy of an older header.
    Older,
    /// No copy.
    Lacking,
}

/// One of the two places: what stands there, and the salt of the copy that is written there next.
/// That is the salt of the copy that stands there, or, where there is none, the other's.
#[derive(Clone, Copy, PartialEq, Eq)]
pub struct CopyPlace {
    pub state: CopyState,
    pub salt: [u8; 64],
}

/// The copies of a header on a disk: the one that is used, and both places.
#[derive(Drop)]
pub struct Copies {
    pub used: HeaderCopy,
    pub primary: CopyPlace,
    pub secondary: CopyPlace,
}
