// The messages of clients and of the server, by the NBD protocol document.

use std::alloc::{AllocError, Global};
use std::test::Fail;

/// Bytes in hexadecimal, and how often they come.
pub type Part = (&'static str, usize);

pub const FLAGS: Part = ("00000003", 1);

pub const GO: Part = ("49484156454f50540000000700000006000000000000", 1);

/// Its head and its data.
pub const GO_HEAD: Part = ("49484156454f50540000000700000006", 1);

pub const GO_DATA: Part = ("000000000000", 1);

pub const EXPORT_NAME: Part = ("49484156454f50540000000100000006766f6c756d65", 1);

pub const WRITE: Part = (
    "25609513000000010000000000000001000000000000000000000200",
    1,
);

/// Writes of 1024, 2048 and no bytes.
pub const WRITE_OF_1024: Part = (
    "25609513000000010000000000000001000000000000000000000400",
    1,
);

pub const WRITE_OF_2048: Part = (
    "25609513000000010000000000000001000000000000000000000800",
    1,
);

pub const WRITE_OF_NOTHING: Part = (
    "25609513000000010000000000000001000000000000000000000000",
    1,
);

/// A write with "force unit access".
pub const FORCED_WRITE: Part = (
    "25609513000100010000000000000001000000000000000000000200",
    1,
);

/// A write with "no hole", which only another type may have.
pub const FLAGGED_WRITE: Part = (
    "25609513000200010000000000000001000000000000000000000200",
    1,
);

/// A write past the end of 8192 bytes.
pub const WRITE_BEHIND: Part = (
    "25609513000000010000000000000001000000000000200000000200",
    1,
);

/// A write of 33554433 bytes, with flags that no request may have.
pub const TOO_LONG_WRITE: Part = (
    "25609513ffff00010000000000000001000000000000000002000001",
    1,
);

pub const READ: Part = (
    "25609513000000000000000000000002000000000000000000000200",
    1,
);

/// A read of no bytes at the end of 8192 bytes.
pub const READ_OF_NOTHING: Part = (
    "25609513000000000000000000000002000000000000200000000000",
    1,
);

/// A read past the end of 8192 bytes.
pub const READ_BEHIND: Part = (
    "25609513000000000000000000000002000000000000200000000200",
    1,
);

/// A read at 512 bytes below 2^64.
pub const READ_FAR: Part = (
    "25609513000000000000000000000002fffffffffffffe0000000200",
    1,
);

/// A read at 1.
pub const UNALIGNED_READ: Part = (
    "25609513000000000000000000000002000000000000000100000200",
    1,
);

/// A read of 33554944 bytes.
pub const LONG_READ: Part = (
    "25609513000000000000000000000002000000000000000002000200",
    1,
);

/// A read with "force unit access", which means nothing there.
pub const FORCED_READ: Part = (
    "25609513000100000000000000000002000000000000000000000200",
    1,
);

/// A read with the flag of bit 2.
pub const FLAGGED_READ: Part = (
    "25609513000400000000000000000002000000000000000000000200",
    1,
);

/// A read of 2048 bytes.
pub const READ_OF_2048: Part = (
    "25609513000000000000000000000002000000000000000000000800",
    1,
);

/// A read of 9216 bytes.
pub const READ_OF_9216: Part = (
    "25609513000000000000000000000002000000000000000000002400",
    1,
);

/// A flush of which offset and length mean nothing.
pub const FLUSH: Part = (
    "25609513000000030000000000000003000000000000000100000001",
    1,
);

pub const PLAIN_FLUSH: Part = (
    "25609513000000030000000000000003000000000000000000000000",
    1,
);

pub const TRIM: Part = (
    "25609513000000040000000000000002000000000000000000000200",
    1,
);

/// Zeroes of two blocks; of the whole export, with "no hole"; with that and "force unit access"; of
/// nothing; behind the end; of more than a read may ask for; and with a flag that only a read may
/// have.
pub const ZEROES: Part = (
    "25609513000000060000000000000002000000000000000000000400",
    1,
);

pub const ZEROES_NO_HOLE: Part = (
    "25609513000200060000000000000002000000000000000000002000",
    1,
);

pub const FORCED_ZEROES: Part = (
    "25609513000300060000000000000002000000000000000000000200",
    1,
);

pub const ZEROES_OF_NOTHING: Part = (
    "25609513000000060000000000000002000000000000020000000000",
    1,
);

pub const ZEROES_BEHIND: Part = (
    "25609513000000060000000000000002000000000000200000000200",
    1,
);

pub const LONG_ZEROES: Part = (
    "25609513000000060000000000000002000000000000000002000200",
    1,
);

pub const FLAGGED_ZEROES: Part = (
    "25609513000400060000000000000002000000000000000000000200",
    1,
);

/// The option STRUCTURED_REPLY, what is answered, and the export where it was agreed on.
pub const STRUCTURED_REPLY: Part = ("49484156454f50540000000800000000", 1);

pub const STRUCTURED: Part = ("0003e889045565a9000000080000000100000000", 1);

pub const TOLD_STRUCTURED: Part = ("000000000000200001cd", 1);

/// A read of the last block, which fails; one of 1049088 bytes, also with "don't fragment"; a write
/// with that; and a read with "no hole", which neither may have.
pub const READ_LAST: Part = (
    "256095130000000000000000000000020000000000001e0000000200",
    1,
);

pub const READ_LARGE: Part = (
    "25609513000000000000000000000002000000000000000000100200",
    1,
);

pub const READ_LARGE_WHOLE: Part = (
    "25609513000400000000000000000002000000000000000000100200",
    1,
);

pub const WHOLE_WRITE: Part = (
    "25609513000400010000000000000001000000000000000000000200",
    1,
);

pub const READ_NO_HOLE: Part = (
    "25609513000200000000000000000002000000000000000000000200",
    1,
);

/// The chunks of reads: of a block at the front, of nothing, of 1048576 bytes and 512 behind them,
/// and of these in one; and their errors.
pub const CHUNK_OF_BLOCK: Part = (
    "668e33ef000100010000000000000002000002080000000000000000",
    1,
);

pub const CHUNK_OF_NOTHING: Part = ("668e33ef00010000000000000000000200000000", 1);

pub const FIRST_CHUNK: Part = (
    "668e33ef000000010000000000000002001000080000000000000000",
    1,
);

pub const LAST_CHUNK: Part = (
    "668e33ef000100010000000000000002000002080000000000100000",
    1,
);

pub const WHOLE_CHUNK: Part = (
    "668e33ef000100010000000000000002001002080000000000000000",
    1,
);

pub const CHUNK_INVALID: Part = ("668e33ef00018001000000000000000200000006000000160000", 1);

pub const CHUNK_WANTS_MEMORY: Part = ("668e33ef000180010000000000000002000000060000000c0000", 1);

pub const CHUNK_FAILED_AT: Part = (
    "668e33ef0001800200000000000000020000000e0000000500000000000000001e00",
    1,
);

/// The same without chunks.
pub const READ_FAILED: Part = ("67446698000000050000000000000002", 1);

pub const UNKNOWN_TYPE: Part = (
    "25609513000000090000000000000002000000000000000000000200",
    1,
);

pub const DISCONNECT: Part = (
    "25609513000000020000000000000004000000000000000000000000",
    1,
);

/// The same with all flags, and an offset and a length.
pub const FLAGGED_DISCONNECT: Part = (
    "25609513ffff000200000000000000040000000000000001ffffffff",
    1,
);

/// What begins with another magic number than a request's.
pub const OTHER_MAGIC: Part = (
    "25609514000000020000000000000004000000000000000000000000",
    1,
);

pub const BLOCK: Part = ("a5", 512);

pub const GREETING: Part = ("4e42444d4147494349484156454f50540003", 1);

/// The replies to GO: an export of 8192 bytes, with flushes, "force unit access" and several
/// connections at once, its blocks of at least 512 bytes, best 4096, and 32 MiB at most, and the
/// acknowledgement.
pub const SIZE: Part = (
    "0003e889045565a900000007000000030000000c00000000000000002000014d",
    1,
);

pub const BLOCK_SIZES: Part = (
    "0003e889045565a900000007000000030000000e0003000002000000100002000000",
    1,
);

pub const AGREED: Part = ("0003e889045565a9000000070000000100000000", 1);

/// The answer to EXPORT_NAME without its 124 zeros.
pub const TOLD: Part = ("0000000000002000014d", 1);

pub const WRITTEN: Part = ("67446698000000000000000000000001", 1);

pub const HAS_READ: Part = ("67446698000000000000000000000002", 1);

pub const FLUSHED: Part = ("67446698000000000000000000000003", 1);

/// The replies of the errors 12 (want of memory), 22 (an invalid argument) and 28 (no space).
pub const WRITE_WANTS_MEMORY: Part = ("674466980000000c0000000000000001", 1);

pub const READ_WANTS_MEMORY: Part = ("674466980000000c0000000000000002", 1);

pub const FLUSH_WANTS_MEMORY: Part = ("674466980000000c0000000000000003", 1);

pub const WRITE_INVALID: Part = ("67446698000000160000000000000001", 1);

pub const READ_INVALID: Part = ("67446698000000160000000000000002", 1);

pub const NO_SPACE: Part = ("674466980000001c0000000000000001", 1);

/// The same to zeroes.
pub const ZEROES_NO_SPACE: Part = ("674466980000001c0000000000000002", 1);

/// The bytes of these parts.
pub fn bytes_of(alloc: Global, parts: &[Part]) -> Result<Vec<u8>, Fail> {
    let mut bytes = Vec::new(alloc);
    for (part, times) in parts {
        let part = decoded(alloc, part)?;
        push_often(&mut bytes, &part, *times)?;
    }
    Ok(bytes)
}

fn decoded(alloc: Global, digits: &str) -> Result<Vec<u8>, Fail> {
    Ok(hex::decode(alloc, digits)?)
}

/// Puts a part behind the others, so many times.
fn push_often(bytes: &mut Vec<u8>, part: &[u8], times: usize) -> Result<(), AllocError> {
    for _ in 0..times {
        bytes.extend_from_slice(part)?;
    }
    Ok(())
}
