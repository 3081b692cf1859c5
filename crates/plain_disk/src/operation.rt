ghost use Rattle.std.specs.Prelude.{◌≡◌, ◌<◌};
ghost use Rattle.plain_disk.specs.Operations.{wrong_of, wrong_range_of};

use base_terms::{Bytes, INVALID, NO_SPACE};

/// The most bytes that one read may ask for.
pub const MAX_READ: u32 = 33_554_432;

/// What a client asks of a disk. Offsets and lengths are in bytes. `Zeroes` is the write of so many
/// zero bytes. With `fua` ("force unit access") a write is answered once it is certain to be kept.
#[derive(Drop)]
pub enum Op {
    Read { offset: u64, length: u32 },
    Write { offset: u64, body: Bytes, fua: bool },
    Zeroes { offset: u64, length: u32, fua: bool },
    Flush,
}

/// What an operation is answered: the content of a read, that any other is done, or the number of
/// an error (5 an error of the device, 12 want of memory, 22 an invalid argument, 28 no space).
/// `ErrnoAt` is a read's, by a piece that failed: the number, and the offset in bytes at which that
/// piece begins.
#[derive(Drop)]
pub enum Reply {
    Content(Bytes),
    Done,
    Errno(u32),
    ErrnoAt(u32, u64),
}

/// The number with which an operation on a disk of `size` bytes in blocks of `atom` bytes is
/// refused: 22 for a read of more than `MAX_READ` bytes, then 22 for an offset or length that isn't
/// a multiple of the block, then for a range past the end 22 for a read and 28 else. None of an
/// operation that isn't wrong.
pub fn wrong(op: &Op, atom: u32, size: u64) -> Option<u32>
    requires { 0 < atom }
    ensures { result ≡ wrong_of atom size op.now }
{
    match op {
        Op::Read { offset, length } => {
            if *length > MAX_READ {
                Some(INVALID)
            } else {
                wrong_range(atom, size, *offset, u64::from(*length), INVALID)
            }
        }
        Op::Write { offset, body, .. } => {
            wrong_range(atom, size, *offset, body.len() as u64, NO_SPACE)
        }
        Op::Zeroes { offset, length, .. } => {
            wrong_range(atom, size, *offset, u64::from(*length), NO_SPACE)
        }
        Op::Flush => None,
    }
}

/// The number with which a range is refused: 22 where its offset or length isn't a multiple of the
/// block, then `past` where it passes the end of `size` bytes.
pub fn wrong_range(atom: u32, size: u64, offset: u64, length: u64, past: u32) -> Option<u32>
    requires { 0 < atom }
    ensures { result ≡ wrong_range_of atom size offset length past }
{
    let atom = u64::from(atom);
    if offset % atom != 0 || length % atom != 0 {
        return Some(INVALID);
    }
    if length > size || offset > size - length {
        return Some(past);
    }
    None
}
