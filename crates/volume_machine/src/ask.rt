// What operations ask for.

ghost use Rattle.std.specs.Prelude.{◌≡◌, ◌+◌, ◌/◌, ◌%◌, ◌^◌, ◌<◌, length};
ghost use Rattle.plain_disk.specs.Operations.{touched_end};
ghost use Rattle.sector_disk.specs.Geometry.{IsAtom};
ghost use Rattle.volume_machine.specs.Edges.{begins_inside, edge_blocks, ends_inside};

use base_terms::{BlockRange, INVALID, NO_SPACE};
use plain_disk::{MAX_READ, wrong_range};
use range_lock::Kind;

/// What an operation asks for, without the bytes that it writes. Offsets and lengths are in bytes.
/// With `fua` ("force unit access") a write is answered once it is certain to be kept.
#[derive(Clone, Copy, PartialEq, Eq)]
pub enum Ask {
    Read { offset: u64, length: u32 },
    Write { offset: u64, length: u64, fua: bool },
    Flush,
}

impl Ask {
    ghost use Rattle.volume_machine.specs.Asks.{range_of, kind_of, has_lock, wrong_ask};
    ghost use Rattle.volume_machine.specs.Edges.{edges_of, edge_at};

    /// The number with which it is refused on a volume of `size` bytes in blocks of `atom`: 22 for
    /// a read of more than `MAX_READ` bytes, then 22 for an offset or length that isn't a multiple
    /// of the block, then for a range past the end 22 for a read and 28 for a write. None of what
    /// isn't wrong; a flush never is.
    pub fn wrong(self, atom: u32, size: u64) -> Option<u32>
        requires { 0 < atom }
        ensures { result ≡ wrong_ask atom size self }
    {
        match self {
            Ask::Read { length, .. } if length > MAX_READ => Some(INVALID),
            Ask::Read { offset, length } => {
                wrong_range(atom, size, offset, u64::from(length), INVALID)
            }
            Ask::Write { offset, length, .. } => {
                wrong_range(atom, size, offset, length, NO_SPACE)
            }
            Ask::Flush => None,
        }
    }

    /// The blocks of `atom` bytes that it reads or writes, also in part; of a flush none.
    pub fn range(self, atom: u32) -> BlockRange
        requires { IsAtom atom }
        ensures { result ≡ range_of atom self }
    {
        match self {
            Ask::Read { offset, length } => blocks(offset, u64::from(length), atom),
            Ask::Write { offset, length, .. } => blocks(offset, length, atom),
            Ask::Flush => BlockRange { start: 0, end: 0 },
        }
    }

    /// How many blocks of `atom` bytes it covers in part: a write none, one or two; a read or a flush
    /// none, since it changes none.
    #[tactic(auto, unfolding(crate::specs::Edges::edges_of))]
    pub fn edges(self, atom: u32) -> u32
        requires { IsAtom atom }
        ensures { result ≡ length (edges_of atom self) }
    {
        match self {
            Ask::Write { offset, length, .. } => count_edges(offset, length, atom),
            Ask::Read { .. } | Ask::Flush => 0,
        }
    }

    /// The block that is an edge of it, the first one in order or the second.
    #[tactic(auto, unfolding(crate::specs::Edges::edges_of), using(crate::proofs::EdgeBlocks::chosen))]
    pub fn edge(self, atom: u32, which: u32) -> u64
        requires known { IsAtom atom }
        requires some { which < length (edges_of atom self) }
        ensures { result ≡ edge_at atom self which }
    {
        match self {
            Ask::Write { offset, length, .. } => {
                let (last, _) = byte_behind(offset, length, atom);
                let first = offset / u64::from(atom);
                if which == 0 && starts_inside(offset, length, atom) {
                    first
                } else {
                    last
                }
            }
            Ask::Read { .. } | Ask::Flush => unreachable!(),
        }
    }

    /// How it has its blocks: a read with others, a write for itself.
    pub fn kind(self) -> Kind
        ensures { result ≡ kind_of self }
    {
        match self {
            Ask::Read { .. } | Ask::Flush => Kind::Shared,
            Ask::Write { .. } => Kind::Alone,
        }
    }

    /// Whether it locks its blocks; a flush has none.
    pub fn has_lock(self) -> bool
        ensures { result ≡ has_lock self }
    {
        match self {
            Ask::Read { .. } | Ask::Write { .. } => true,
            Ask::Flush => false,
        }
    }
}

/// The blocks of `atom` bytes that a range of bytes touches.
#[tactic(auto, unfolding(plain_disk::specs::Operations::touched_end))]
fn blocks(offset: u64, length: u64, atom: u32) -> BlockRange
    requires { IsAtom atom }
    ensures { result ≡ record { start = offset / atom; end = touched_end atom offset length } }
{
    let start = offset / u64::from(atom);
    if length == 0 {
        return BlockRange { start, end: start };
    }
    let (last, _) = byte_behind(offset, length - 1, atom);
    BlockRange {
        start,
        end: last + 1,
    }
}

/// The block of `atom` bytes in which the byte is that lies so many behind an offset, and its number
/// there.
#[tactic(auto, using(crate::proofs::EdgeBlocks::block_behind, crate::proofs::EdgeBlocks::rest_behind))]
fn byte_behind(offset: u64, length: u64, atom: u32) -> (u64, u64)
    requires { IsAtom atom }
    ensures block { result.0 ≡ (offset + length) / atom }
    ensures byte { result.1 ≡ (offset + length) % atom }
    ensures fits { result.0 + 1 < 2 ^ 64 }
{
    let atom = u64::from(atom);
    let rest = offset % atom + length % atom;
    (offset / atom + length / atom + rest / atom, rest % atom)
}

/// Whether a range of bytes begins inside of a block of `atom` bytes.
fn starts_inside(offset: u64, size: u64, atom: u32) -> bool
    requires { IsAtom atom }
    ensures { result ≡ begins_inside atom offset size }
{
    size != 0 && offset % u64::from(atom) != 0
}

/// How many blocks of `atom` bytes a range of bytes covers in part.
fn count_edges(offset: u64, size: u64, atom: u32) -> u32
    requires { IsAtom atom }
    ensures { result ≡ length (edge_blocks (begins_inside atom offset size)
        (ends_inside atom offset size) (offset / atom) ((offset + size) / atom)) }
{
    let (last, byte) = byte_behind(offset, size, atom);
    let begins = starts_inside(offset, size, atom);
    let ends = size != 0 && byte != 0;
    if !begins && !ends {
        return 0;
    }
    if begins && ends && offset / u64::from(atom) != last {
        return 2;
    }
    1
}
