// What a conversion is to become.

use luks_meta::{Cipher, Digest, Direction, Luks2, Mode, ReencryptArea};

/// What a volume is to be converted into, and how.
#[derive(Drop)]
pub struct Wish {
    /// What is converted into what.
    pub mode: Mode,
    /// In which order blocks are converted.
    pub direction: Direction,
    /// What keeps an open zone safe, and where that is written.
    pub area: ReencryptArea,
    /// The cipher of the new segment; not used where that is linear.
    pub encryption: Cipher,
    /// The bytes of its sectors: 512, 1024, 2048 or 4096, no more than an atom; not used where it
    /// is linear.
    pub sector_size: u32,
    /// The keyslot of the new key and its digest, whose lists of keyslots and segments aren't
    /// used; none where the new segment is linear.
    pub key: Option<(Luks2, Digest)>,
    /// The bytes of one copy of the next header.
    pub header_size: u64,
    /// The bytes of the next header's keyslots area.
    pub keyslots_size: u64,
}
