ghost use Rattle.std.specs.Prelude.{◌≡◌, length, IfOk};

use base_terms::Bytes;
use nbd_session::{Port, Submitted};
use plain_disk::{Op, Reply, wrong};
use std::alloc::{AllocError, Global};

/// The first four blocks of a small disk, which are written, zeroed, read and flushed as long as
/// there is memory and operations are left. The disk's last block isn't read. The buffer of each
/// body is overwritten and given back.
#[derive(Drop)]
pub struct Blocks {
    bytes: [u8; 2048],
    has_memory: bool,
    operations: u32,
    forced: bool,
    /// How many bytes the buffer of the last body could hold.
    capacity: usize,
}

impl Blocks {
    pub fn new(has_memory: bool, operations: u32) -> Blocks {
        Blocks {
            bytes: [0; 2048],
            has_memory,
            operations,
            forced: false,
            capacity: 0,
        }
    }

    /// Whether it begins with these bytes, its last write was forced or not, and the buffer of the
    /// last body could hold so many, where the number is given.
    pub fn has(&self, front: &[u8], forced: bool, capacity: Option<usize>) -> bool {
        self.bytes.get(..front.len()) == Some(front)
            && self.forced == forced
            && capacity.unwrap_or(self.capacity) == self.capacity
    }

    /// The buffer of a write's body, overwritten; an empty one of another operation.
    fn used_buffer(&mut self, alloc: Global, op: Op) -> Bytes {
        match op {
            Op::Write { body, .. } => self.overwritten(body),
            _ => Bytes::new(Vec::new(alloc)),
        }
    }

    fn overwritten(&mut self, body: Bytes) -> Bytes {
        let mut buffer = body.into_vec();
        self.capacity = buffer.capacity();
        buffer.fill(0xee);
        Bytes::new(buffer)
    }

    /// The first bytes, and zeros behind them.
    fn front(&self, alloc: Global, count: usize) -> Result<Vec<u8>, AllocError>
        ensures { IfOk result (λ front. length front.items ≡ count) }
    {
        let mut front = vec![in alloc; 0u8; count]?;
        let n = front.len().min(2048);
        front[..n].copy_from_slice(&self.bytes[..n]);
        Ok(front)
    }

    fn write(&mut self, body: &[u8], fua: bool) {
        let n = body.len().min(2048);
        self.bytes[..n].copy_from_slice(&body[..n]);
        self.forced = fua;
    }

    fn zero(&mut self, count: usize, fua: bool) {
        let n = count.min(2048);
        self.bytes[..n].fill(0);
        self.forced = fua;
    }
}

impl Port for Blocks {
    ghost did = { λ _ _ _. Unit {0} };

    ghost is_spent = { λ _. Unit {0} };

    ghost usable = { λ _. Unit {0} };

    fn submit(&mut self, alloc: Global, op: Op, spare: Bytes) -> Result<Submitted, AllocError> {
        if !self.has_memory {
            return Err(AllocError);
        }
        if self.operations == 0 {
            return Ok(Submitted::Spent);
        }
        self.operations -= 1;
        // reads of 9216 bytes and of a block more than 1 MiB are answered, to show what goes out
        if let Some(number) = wrong(&op, 512, 8192) {
            if !matches!(
                op,
                Op::Read {
                    offset: 0,
                    length: 9216 | 1_049_088
                }
            ) {
                let buffer = self.used_buffer(alloc, op);
                return Ok(Submitted::Replied(Reply::Errno(number), buffer));
            }
        }
        let reply = match &op {
            Op::Read {
                offset: 7680,
                length: 512,
            } => Reply::ErrnoAt(5, 7680),
            Op::Read { length, .. } => {
                Reply::Content(Bytes::new(self.front(alloc, *length as usize)?))
            }
            Op::Write { body, fua, .. } => {
                self.write(body.as_slice(), *fua);
                Reply::Done
            }
            Op::Zeroes { length, fua, .. } => {
                self.zero(*length as usize, *fua);
                Reply::Done
            }
            Op::Flush => Reply::Done,
        };
        Ok(Submitted::Replied(reply, self.used_buffer(alloc, op)))
    }

    ghost did_none = { λ _. tt };

    ghost did_more = { λ _ _ _ _ _ _ _. tt };
}
