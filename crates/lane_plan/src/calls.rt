// What a plan calls for, and what it is told.

use base_terms::{Buffer, Bytes};
use plain_disk::Reply;
use volume_machine::{Ask, Grant, Prepared};

/// A call of a lane on its volume.
#[derive(Drop)]
pub enum Call {
    /// Begins the operation of a session.
    Admit { session: u64, ask: Ask },
    /// Asks again whether the operation has its blocks.
    Ask,
    /// Reads the next piece into the front of a buffer, so many bytes.
    Read(Buffer, usize),
    /// Writes the next piece.
    Write(Prepared),
    /// Waits until what was written is certain to be kept.
    Settle,
    /// Ends the operation.
    Finish,
}

/// What a call answered.
#[derive(Drop)]
pub enum Answer {
    /// The operation has its blocks.
    Held(Grant),
    /// The entry of this lane is earlier and conflicts.
    Waiting(u32),
    /// The operation is refused with this number.
    Refused(u32),
    /// A piece was read into the front of its buffer, so many bytes, sealed as they lie on the
    /// disk.
    Got(Buffer, usize),
    /// A piece was written; this was its buffer.
    Written(Buffer),
    /// The settle or the finish is done.
    Done,
    /// The device failed.
    Device,
    /// An earlier write or sync had failed.
    Broken,
}

/// What comes next of a plan.
#[derive(Drop)]
pub enum Next {
    Call(Call),
    /// The operation has ended: its reply, and a buffer for another use.
    Reply(Reply, Bytes),
}
