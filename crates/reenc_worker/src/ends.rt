// What a worker's calls answer, and how it ends.

/// What a call for the next step of a conversion came to.
#[derive(Clone, Copy, PartialEq, Eq)]
pub enum WorkAnswer {
    /// A step was made, and another one follows.
    Stepped,
    /// No step was made: clients have blocks that come next, which are waited for.
    Waiting,
    /// No step follows.
    Ended(WorkerEnd),
}

/// How the worker of a conversion ended.
#[derive(Clone, Copy, Debug, PartialEq, Eq)]
pub enum WorkerEnd {
    /// All steps are made: every block is new.
    Finished,
    /// A device call failed.
    Device,
    /// The old and the new atom of this block have this digest both, so that it doesn't tell them.
    Clash { block: u64, digest: [u8; 32] },
    /// Something doesn't fit that a zone needs, or the finish.
    NoFit(NoFit),
    /// The volume was broken.
    Broken,
    /// The port takes no call any more, or `2^64 - 1` calls were made.
    Spent,
    /// There is no memory.
    Memory,
}

/// What doesn't fit.
#[derive(Clone, Copy, Debug, PartialEq, Eq)]
pub enum NoFit {
    /// The header has so many numbers left, and the zone, or the finish, takes so many more, one a
    /// commit.
    SeqEnd { left: u64, wanted: u64 },
    /// There are enough numbers; but the text of a header to come has so many bytes, and its area
    /// room for so many.
    JsonFull { length: u64, limit: u64 },
}
