ghost use Rattle.std.specs.Prelude.{◌≡◌, ◌+◌, ◌*◌, ◌/◌, ◌^◌, ◌<◌, ◌≤◌, [], length, take, drop};
ghost use Rattle.std.specs.Prelude.{replicate, None, IfOk, OnErr, slice_index_or};
ghost use Rattle.base_terms.specs.Blocks.{joined, blocks_of, changed, pasted};
ghost use Rattle.plain_disk.specs.Machine.{Machine, IsWhole, AreBlocksOf, Steps, refusal_of};
ghost use Rattle.plain_disk.specs.Machine.{reply_to, put};
ghost use Rattle.plain_disk.specs.Operations.{touched, TakesMemory};
ghost use Rattle.plain_disk.specs.Outcomes.{IsDeviceError};
ghost use Rattle.plain_disk.specs.Plain.{settled_blocks, edged};

use crate::{Op, Reply, wrong};
use base_terms::{Bytes, paste, zeros};
use std::alloc::{AllocError, Global};
use std::marker::Model;

/// A plain disk in memory, which never fails.
///
/// It keeps the newest value of each block alone. What a block held before bears on no reply, so
/// the contracts speak of all blocks whose newest values are these.
#[derive(Drop)]
pub struct PlainDisk {
    atom: u32,
    blocks: u64,
    bytes: Vec<u8>,
}

impl Model for PlainDisk {
    ghost Value = { Machine };

    ghost view = { λ d. record {
      atom = d.atom;
      newest = blocks_of d.atom d.blocks d.bytes.items;
    } };

    ghost invariant = { λ d. IsWhole d.atom d.blocks d.bytes.items };
}

impl PlainDisk {
    /// A disk of so many blocks of `atom` bytes, all zero and certain to be kept.
    pub fn new(alloc: Global, atom: u32, blocks: u64) -> Result<PlainDisk, AllocError>
        requires atom { 0 < atom }
        requires fits { blocks * atom < 2 ^ 63 }
        ensures atom { IfOk result (λ disk. disk.atom ≡ atom) }
        ensures zeros { IfOk result (λ disk. disk.newest ≡ replicate blocks (replicate atom 0)) }
        ensures settled { IfOk result
            (λ disk. AreBlocksOf disk (settled_blocks (replicate blocks (replicate atom 0)))) }
    {
        let len = blocks as usize * atom as usize;
        let bytes = zeros(alloc, len)?;
        Ok(PlainDisk {
            atom,
            blocks,
            bytes,
        })
    }

    /// How many bytes a block has.
    pub fn atom(&self) -> u32
        ensures is { result ≡ self.now.atom }
        ensures some { 0 < result }
    {
        self.atom
    }

    /// How many blocks there are.
    pub fn blocks(&self) -> u64
        ensures { result ≡ length self.now.newest }
    {
        self.blocks
    }

    /// The newest value of a block.
    pub fn newest(&self, block: u64) -> &[u8]
        requires { block < length self.now.newest }
        ensures { result.now ≡ slice_index_or self.now.newest block [] }
    {
        let bytes = self.bytes();
        let len = self.atom() as usize;
        let from = block as usize * len;
        &bytes[from..from + len]
    }

    /// Executes one operation and answers it.
    ///
    /// An operation that is wrong is refused with its number and does nothing. A read is answered
    /// with the newest bytes; a write, of zeros too, or a flush is done.
    ///
    /// Only a read that isn't wrong takes memory, for its content.
    pub fn step(&mut self, alloc: Global, op: &Op) -> Result<Reply, AllocError>
        ensures reply { IfOk result (λ reply. reply ≡ reply_to self.old op.now) }
        ensures legal { IfOk result (λ reply. Steps self.old self.new op.now reply) }
        ensures no_device_error { IfOk result (λ reply. IsDeviceError reply → ⊥) }
        ensures err { OnErr result (self.new ≡ self.old) }
        ensures memory { OnErr result ((refusal_of self.old op.now ≡ None) × TakesMemory op.now) }
    {
        if let Some(number) = wrong(op, self.atom(), self.bytes().len() as u64) {
            return Ok(Reply::Errno(number));
        }
        match op {
            Op::Read { offset, length } => self.read(alloc, *offset, *length),
            Op::Write { offset, body, .. } => {
                self.write(*offset, body.as_slice());
                Ok(Reply::Done)
            }
            Op::Zeroes { offset, length, .. } => {
                self.zero(*offset, *length);
                Ok(Reply::Done)
            }
            Op::Flush => Ok(Reply::Done),
        }
    }

    /// The newest bytes, of one block after the other.
    fn bytes(&self) -> &[u8]
        ensures some { 0 < self.now.atom }
        ensures blocks { self.now.newest ≡ blocks_of self.now.atom (length self.now.newest)
            result.now }
        ensures len { length result.now ≡ length self.now.newest * self.now.atom }
        ensures fits { length result.now < 2 ^ 63 }
    {
        self.bytes.as_slice()
    }

    /// The newest bytes of a range.
    fn read(&self, alloc: Global, offset: u64, len: u32) -> Result<Reply, AllocError>
        requires { offset + len ≤ length self.now.newest * self.now.atom }
        ensures { IfOk result
            (λ reply. reply ≡ Reply.Content (take len (drop offset (joined self.now.newest)))) }
    {
        let from = offset as usize;
        let bytes = self.bytes()[from..from + len as usize].to_vec(alloc)?;
        Ok(Reply::Content(Bytes::new(bytes)))
    }

    /// Puts bytes in place of as many from `offset` on: each block of which they are has its own
    /// other bytes still.
    fn write(&mut self, offset: u64, body: &[u8])
        requires { offset + length body.now ≤ length self.old.newest * self.old.atom }
        ensures atom { self.new.atom ≡ self.old.atom }
        ensures count { length self.new.newest ≡ length self.old.newest }
        ensures newest { self.new.newest ≡ changed put self.old.newest (offset / self.old.atom)
            (blocks_of self.old.atom (touched self.old.atom offset (length body.now))
            (edged self.old.atom (joined self.old.newest) offset body.now)) }
    {
        paste(&mut self.bytes, offset as usize, body);
    }

    /// Puts zeros in place of so many bytes from `offset` on.
    fn zero(&mut self, offset: u64, len: u32)
        requires { offset + len ≤ length self.old.newest * self.old.atom }
        ensures atom { self.new.atom ≡ self.old.atom }
        ensures count { length self.new.newest ≡ length self.old.newest }
        ensures newest { self.new.newest ≡ changed put self.old.newest (offset / self.old.atom)
            (blocks_of self.old.atom (touched self.old.atom offset len)
            (edged self.old.atom (joined self.old.newest) offset (replicate len 0))) }
    {
        paste_zeros(&mut self.bytes, offset as usize, len as usize);
    }
}

/// Puts so many zeros in place of a vector's own bytes from `at` on.
#[tactic(auto, unfolding(base_terms::specs::Blocks::pasted))]
fn paste_zeros(bytes: &mut Vec<u8>, at: usize, len: usize)
    requires { at + len ≤ length bytes.old.items }
    ensures items { bytes.new.items ≡ pasted bytes.old.items at (replicate len 0) }
    ensures len { length bytes.new.items ≡ length bytes.old.items }
{
    bytes[at..at + len].fill(0);
}
