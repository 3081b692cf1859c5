// A zone that is written again, and the device call that comes next.

use base_terms::Buffer;
use hotzone::{NextHeader, Site};
use luks_store::Loaded;
use volume_machine::Keys;

/// Why a zone isn't begun to be written again.
#[derive(Clone, Copy, PartialEq, Eq)]
pub enum MendFault {
    /// The header has so many numbers left, and the commit to come takes so many more.
    SeqEnd { left: u64, wanted: u64 },
    /// There is a number; but the text of the header to come has so many bytes, and its area room
    /// for so many.
    JsonFull { length: u64, limit: u64 },
    /// There is no memory.
    Memory,
}

/// The device call that comes next. `done` atoms of the zone were written.
#[derive(Clone, Copy, PartialEq, Eq)]
pub enum MendCall {
    /// What was saved of a part is read: by journal its old atoms, by checksum their digests.
    ReadSaved { done: u64 },
    /// By checksum the part is read as it stands in the zone.
    ReadOwn { done: u64 },
    /// The part is written anew.
    Write { done: u64 },
    /// A sync, behind which all is written for certain.
    Settle,
    /// The next call of the commit that moves the boundary.
    Move,
    /// None: all are made.
    Done,
    /// None: one has failed.
    Failed,
}

/// A zone that is written again.
#[derive(Drop)]
pub struct Mender<C> {
    /// The keys of the volume's sides.
    pub keys: Keys<C>,
    /// The header by which the zone is open.
    pub loaded: Loaded,
    /// The header with the boundary moved over it.
    pub moved: NextHeader,
    /// The zone.
    pub site: Site,
    /// The part at hand.
    pub buffer: Buffer,
    /// What was saved of it, where that is digests; by journal it has no memory.
    pub digests: Buffer,
    /// The device call that comes next.
    pub next: MendCall,
}
