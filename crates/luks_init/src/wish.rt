// What a conversion is to be.

ghost use Rattle.std.specs.Prelude.{◌≡◌, ◌≤◌, ◌^◌};
ghost use Rattle.luks_init.specs.Wishes.{IsWish, guard_len, resilience_for, saved_len};
ghost use Rattle.sector_disk.specs.Geometry.{IsAtom};

use luks_meta::{Cipher, Direction, Resilience};

/// The bytes of a page, in which areas are measured.
const PAGE: u64 = 4096;

/// The bytes of a block's digest.
const DIGEST: u64 = 32;

/// What keeps the open zone of a conversion safe.
#[derive(Clone, Copy, PartialEq, Eq)]
pub enum Guard {
    /// Copies of its old blocks.
    Journal,
    /// A SHA-256 of each of its old blocks.
    Checksum,
}

/// What a volume is to be converted into, and how.
#[derive(Clone, Copy)]
pub struct Wish {
    /// The cipher of the new segment.
    pub cipher: Cipher,
    /// The bytes of its key: a length of the cipher's keys.
    pub key_size: u32,
    /// The bytes of its sectors: 512, 1024, 2048 or 4096, no more than an atom.
    pub sector_size: u32,
    /// The rounds of PBKDF2 that the passphrase takes: 1 to 268435456.
    pub iterations: u32,
    /// In which order blocks are converted.
    pub direction: Direction,
    /// What keeps an open zone safe.
    pub resilience: Guard,
    /// The bytes of the largest zone that is to have room: whole atoms, at least one, and at most
    /// 67108864 bytes.
    pub hotzone_size: u64,
    /// Whether keyslots that hold the old key for other passphrases may go.
    pub drop_keyslots: bool,
}

impl Wish {
    /// The bytes that are saved of the largest zone: a copy of it, or 32 bytes for each of its
    /// blocks, which are atoms of so many bytes.
    fn saved_size(&self, atom: u32) -> u64
        requires wish { IsWish self.now atom }
        requires atom { IsAtom atom }
        ensures is { result ≡ saved_len self.now.resilience self.now.hotzone_size atom }
        ensures most { result ≤ 2 ^ 32 }
    {
        match self.resilience {
            Guard::Journal => self.hotzone_size,
            Guard::Checksum => self.hotzone_size / atom as u64 * DIGEST,
        }
    }

    /// The bytes of the area that guards zones, in whole pages.
    #[tactic(auto, unfolding(crate::specs::Wishes::guard_len))]
    pub fn guard_size(&self, atom: u32) -> u64
        requires wish { IsWish self.now atom }
        requires atom { IsAtom atom }
        ensures { result ≡ guard_len self.now atom }
    {
        self.saved_size(atom).div_ceil(PAGE) * PAGE
    }

    /// The same as the header's conversion names it: the digests are those of atoms.
    pub(crate) fn header_resilience(&self, atom: u32) -> Resilience
        ensures { result ≡ resilience_for self.now.resilience atom }
    {
        match self.resilience {
            Guard::Journal => Resilience::Journal,
            Guard::Checksum => Resilience::Checksum(atom as u64),
        }
    }
}
