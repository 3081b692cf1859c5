// A conversion that goes on: the zone at hand, and the device call that comes next.

use crate::site::Site;
use base_terms::{Buffer, Bytes};
use json_members::Listed;
use luks_rules::Area;
use luks_store::{Commit, Loaded, Stage};
use segment_map::Map;
use volume_machine::Keys;

/// What a step was.
#[derive(Clone, Copy, PartialEq, Eq)]
pub enum Stepped {
    /// Another one follows.
    Went,
    /// The zone's last one: its blocks are new by the header.
    ZoneDone,
    /// The last one of all: the volume is the new segment, and zeros were written to the areas of the
    /// keyslots that went. What guarded zones stays as it is.
    AllDone,
}

/// Why a step isn't made, or has failed.
#[derive(Clone, Copy, PartialEq, Eq)]
pub enum ZoneFault {
    /// The device call failed.
    Device,
    /// The old and the new atom of this block of the volume have this digest both, so that it
    /// doesn't tell them; of no lower block of the part that was to be saved they have the same one.
    DigestClash { block: u64, digest: [u8; 32] },
    /// The header has so many numbers left, and the zone, or the finish, takes so many more, one a
    /// commit.
    SeqEnd { left: u64, wanted: u64 },
    /// There are enough numbers; but the text of a header to come has so many bytes, and its area
    /// room for so many.
    JsonFull { length: u64, limit: u64 },
    /// There is no memory.
    Memory,
}

/// How a step that isn't made, or has failed, leaves a conversion. None follows it.
#[derive(Clone, Copy, PartialEq, Eq)]
pub enum Halt {
    /// The zone, or the finish, is given up. Nothing of it is written but what was saved, and the
    /// volume goes on as it is.
    GivenUp,
    /// The device call failed, and was none of a commit.
    Failed,
    /// It was one of a commit, which was so far before it.
    InCommit(Stage),
}

/// A header to come: its commit, and what is loaded once both copies stand.
#[derive(Drop)]
pub struct NextHeader {
    pub commit: Commit,
    pub loaded: Loaded,
}

/// The headers of a zone: with the zone open, and with the boundary moved over it. Both are kept
/// until the zone is done.
#[derive(Drop)]
pub struct Headers {
    pub opened: Commit,
    pub moved: NextHeader,
}

/// Areas of dropped keyslots, which are filled with zeros, one behind the other.
#[derive(Drop)]
pub struct Wipes {
    pub areas: Listed<Area>,
    /// As many zeros as the longest of them has bytes.
    pub zeros: Bytes,
}

/// The end of a conversion: the commit of the finished header, and the areas of the keyslots that
/// aren't in it any more, but for the one that guarded zones.
#[derive(Drop)]
pub struct Ending {
    pub commit: Commit,
    pub wipes: Wipes,
}

/// The device call that comes next, and what it and those behind it need. `done` atoms of the zone
/// were saved, or written anew. Of a conversion that is halted it is the call that failed.
#[derive(Drop)]
pub enum NextCall {
    /// A sync, with which a zone begins.
    Begin,
    /// The first part of the old atoms is read.
    ReadFirst,
    /// It is saved; before that its digests are compared, and the headers are made.
    SaveFirst,
    /// A further part of the old atoms is read.
    Read { done: u64, headers: Headers },
    /// It is saved; before that its digests are compared.
    Save { done: u64, headers: Headers },
    /// A sync, behind which all is saved for certain.
    Keep(Headers),
    /// The next call of the commit that opens the zone.
    Open(Headers),
    /// A part is read again, of a zone of several.
    ReadAgain { done: u64, headers: Headers },
    /// A part is written anew.
    Write { done: u64, headers: Headers },
    /// A sync, behind which all is written for certain.
    Settle(Headers),
    /// The next call of the commit that moves the boundary.
    Move(Headers),
    /// No old block is left: the finished header is made, and the first call of its commit follows.
    Finish,
    /// The next call of its commit.
    End(Ending),
    /// Zeros are written to the area behind the first `done` ones.
    Wipe { done: usize, ending: Ending },
    /// A sync, the last call of all.
    Rest(Ending),
    /// None: all are made.
    Over(Ending),
}

/// A conversion that goes on, by the zone that is at hand or comes next.
pub struct Worker<C> {
    /// The keys of the volume's sides.
    pub keys: Keys<C>,
    /// The header that both copies hold when the zone begins.
    pub loaded: Loaded,
    /// Where the blocks lie by it.
    pub map: Map,
    /// The zone.
    pub site: Site,
    /// The part at hand.
    pub buffer: Buffer,
    /// The device call that comes next, or that failed.
    pub next: NextCall,
    /// How it was halted, if it was.
    pub halted: Option<Halt>,
}

// By hand, so that a value that is dropped in place is one call to the prover.
impl<C: Drop> Drop for Worker<C> {
    fn drop(self) {
        let Worker {
            keys,
            loaded,
            map: _,
            site: _,
            buffer,
            next,
            halted: _,
        } = self;
        drop(keys);
        drop(loaded);
        drop(buffer);
        drop(next);
    }
}
