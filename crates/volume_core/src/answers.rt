// What the calls of a volume answer.

use base_terms::Buffer;
use hotzone::ZoneFault;
use volume_machine::Grant;

/// How an operation begins.
#[derive(Clone, Copy, PartialEq, Eq)]
pub enum Admitted {
    /// It has its blocks.
    Held(Grant),
    /// The entry of this lane is earlier and conflicts.
    Waiting(u32),
    /// It is refused with this number, and nothing was done.
    Refused(u32),
}

/// Where an operation stands that waited.
#[derive(Clone, Copy, PartialEq, Eq)]
pub enum Asked {
    /// It has its blocks.
    Held(Grant),
    /// The entry of this lane is earlier and conflicts.
    Waiting(u32),
}

/// A read of a piece, which gives its buffer back.
#[derive(Drop)]
pub enum PieceRead {
    /// The buffer has the bytes of the piece at its front, sealed as they lie on the disk.
    Got(Buffer),
    /// The disk failed; the buffer's content isn't to be used.
    Device(Buffer),
    /// The volume was broken; the buffer is as it was.
    Broken(Buffer),
}

/// A write of a piece, which gives its buffer back, with the sealed bytes.
#[derive(Drop)]
pub enum PieceWritten {
    Done(Buffer),
    /// The disk failed, and the volume is broken.
    Device(Buffer),
    /// The volume was broken.
    Broken(Buffer),
}

/// A wait until what was written is certain to be kept.
#[derive(Clone, Copy, PartialEq, Eq)]
pub enum Settled {
    Done,
    /// The disk failed, and the volume is broken.
    Device,
    /// The volume was broken.
    Broken,
}

/// What a step of the conversion comes to.
#[derive(Clone, Copy, PartialEq, Eq)]
pub enum Worked {
    /// It is made, and another one follows.
    Stepped,
    /// The entry of this lane is earlier and conflicts with the blocks of the next zone, which are
    /// asked for: lanes that come later wait for them. No device call is made.
    Waiting(u32),
    /// All steps are made: the header is that of the finished volume.
    Finished,
    /// The device call failed, or the zone, or the finish, can't be made. The blocks of the zone are
    /// left.
    Fault(ZoneFault),
    /// The volume was broken. The blocks of the zone are left.
    Broken,
}

/// How far a volume's conversion is.
#[derive(Clone, Copy, PartialEq, Eq)]
pub struct Progress {
    /// The block that parts new from old.
    pub boundary: u64,
    /// The number of blocks.
    pub blocks: u64,
    /// Whether no old block is left.
    pub idle: bool,
    /// The bytes of a block.
    pub atom: u32,
    /// Whether the volume has what its conversion takes.
    pub armed: bool,
    /// Whether a write or a sync has failed, or a read of the conversion behind a zone's first commit.
    pub broken: bool,
}
