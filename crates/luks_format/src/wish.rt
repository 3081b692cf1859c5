// What a new volume is to be.

ghost use Rattle.std.specs.Prelude.{◌≡◌, ◌*◌};
ghost use Rattle.luks_format.specs.Wishes.{IsWish, areas_end_for, keyslots_end, keyslots_size_for};

use luks_meta::Cipher;
use uuid::Uuid;

/// The most bytes of a new volume's keyslots area.
const MOST_KEYSLOTS: u64 = 134_217_728;

/// Where the keyslots area ends of a header that has a disk of its own.
const DETACHED_END: u64 = 16_777_216;

/// What a new volume is to be.
#[derive(Clone, Copy)]
pub struct Wish {
    /// The cipher of its data.
    pub cipher: Cipher,
    /// The bytes of its key: a length of the cipher's keys.
    pub key_size: u32,
    /// 512, 1024, 2048 or 4096 bytes, no more than an atom.
    pub sector_size: u32,
    /// The byte at which its data begins, of the disk that holds it: a multiple of 4096.
    pub data_offset: u64,
    /// The rounds of PBKDF2 that a passphrase takes: 1 to 268435456.
    pub iterations: u32,
    /// The bytes of one copy of the header: one of the nine sizes.
    pub metadata_size: u64,
    /// Its identifier; where there is none, one is made of drawn bytes.
    pub identifier: Option<Uuid>,
    /// Whether its header lies on a disk of its own.
    pub detached: bool,
}

impl Wish {
    /// Where its keyslots area ends, unless that would have too many bytes.
    fn keyslots_end(&self) -> u64
        ensures { result ≡ keyslots_end self.now }
    {
        if self.detached {
            DETACHED_END
        } else {
            self.data_offset
        }
    }

    /// The bytes of its keyslots area, at most 134217728: those between the copies of its header
    /// and its data, or byte 16777216 of the header's disk where that is one of its own.
    pub fn keyslots_size(&self) -> u64
        requires { IsWish self.now }
        ensures { result ≡ keyslots_size_for self.now }
    {
        let begin = 2 * self.metadata_size;
        self.keyslots_end().saturating_sub(begin).min(MOST_KEYSLOTS)
    }

    /// The first byte behind its keyslots area.
    pub fn areas_end(&self) -> u64
        requires { IsWish self.now }
        ensures { result ≡ areas_end_for self.now }
    {
        self.area_offset() + self.keyslots_size()
    }

    /// Where its keyslot's area begins, the first place behind the copies of its header.
    pub fn area_offset(&self) -> u64
        requires { IsWish self.now }
        ensures { result ≡ 2 * self.now.metadata_size }
    {
        2 * self.metadata_size
    }
}
