// The drawn bytes of a new key, each for what it is spent.

ghost use Rattle.std.specs.Prelude.{◌≡◌, ◌≤◌, ◌++◌, length, drop};
ghost use Rattle.luks_slots.specs.KeyMaking.Drawings.{AreDrawn, draw, drawn_by, drawn_len, spent};
ghost use Rattle.luks_slots.specs.NewSlots.{drawn_len as slot_len};

/// The bytes of a salt of PBKDF2.
const SALT: usize = 32;

/// The stripes of a key that are drawn: all but the last.
const STRIPES: usize = 3999;

/// The drawn bytes of a new key, in the order in which they are spent.
#[derive(Clone, Copy)]
pub struct Drawn<'a> {
    /// The key.
    pub key: &'a [u8],
    /// What its keyslot takes: 32 of its salt, and those of 3999 stripes.
    pub slot: &'a [u8],
    /// The salt of its digest, 32.
    pub digest_salt: &'a [u8],
}

/// The bytes that a keyslot takes.
fn slot_len(key_size: usize) -> usize
    requires { key_size ≤ 64 }
    ensures { result ≡ slot_len key_size }
{
    SALT + STRIPES * key_size
}

/// How many bytes are drawn for a new key of so many bytes, at most 64.
#[tactic(auto, unfolding(crate::specs::KeyMaking::Drawings::drawn_len))]
pub fn drawn_len(key_size: usize) -> usize
    requires { key_size ≤ 64 }
    ensures { result ≡ drawn_len key_size }
{
    key_size + slot_len(key_size) + SALT
}

/// Deals drawn bytes out to a new key of so many bytes, at most 64: those at the front, in their
/// order, each once. The others are handed back, as they are.
#[tactic(auto, unfolding(crate::specs::KeyMaking::Drawings::drawn_len))]
pub fn split_drawn<'a>(key_size: usize, bytes: &'a [u8]) -> (Drawn<'a>, &'a [u8])
    requires key_size { key_size ≤ 64 }
    requires enough { drawn_len key_size ≤ length bytes.now }
    ensures is { draw result.0 ≡ drawn_by key_size bytes.now }
    ensures once { bytes.now ≡ spent (draw result.0) ++ result.1.now }
    ensures lengths { AreDrawn key_size (draw result.0) }
    ensures rest { result.1.now ≡ drop (drawn_len key_size) bytes.now }
{
    let (key, rest) = bytes.split_at(key_size);
    let (slot, rest) = rest.split_at(slot_len(key_size));
    let (digest_salt, rest) = rest.split_at(SALT);
    let drawn = Drawn {
        key,
        slot,
        digest_salt,
    };
    (drawn, rest)
}
