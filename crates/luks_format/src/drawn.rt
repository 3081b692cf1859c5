// The drawn bytes of a new volume, each for what it is spent.

ghost use Rattle.std.specs.Prelude.{◌≡◌, length};
ghost use Rattle.luks_format.specs.Drawings.{AreDrawn, draw, drawn_by, drawn_len};
ghost use Rattle.luks_format.specs.Drawings.{identifier_len, spent};
ghost use Rattle.luks_format.specs.Wishes.{IsWish};

use crate::wish::Wish;

/// The bytes of an identifier, and of a copy's salt.
const IDENTIFIER: usize = 16;

const COPY_SALT: usize = 64;

/// The drawn bytes of a new volume, in the order in which they are spent.
#[derive(Clone, Copy)]
pub struct Drawn<'a> {
    /// The volume's key.
    pub key: &'a [u8],
    /// What a keyslot takes: 32 of its salt, and those of 3999 stripes.
    pub slot: &'a [u8],
    /// The digest's salt.
    pub digest_salt: &'a [u8],
    /// What an identifier is made of; empty where one is given.
    pub identifier: &'a [u8],
    /// The salts of the two copies of the header.
    pub first_salt: &'a [u8],
    pub second_salt: &'a [u8],
}

/// The bytes that are drawn for an identifier.
fn identifier_len(wish: &Wish) -> usize
    ensures { result ≡ identifier_len wish.now.identifier }
{
    match wish.identifier {
        Some(_) => 0,
        None => IDENTIFIER,
    }
}

/// How many bytes are drawn for a new volume.
#[tactic(auto, unfolding(crate::specs::Drawings::drawn_len))]
pub fn drawn_len(wish: &Wish) -> usize
    requires { IsWish wish.now }
    ensures { result ≡ drawn_len wish.now }
{
    luks_slots::drawn_len(wish.key_size as usize) + identifier_len(wish) + 2 * COPY_SALT
}

/// Deals the drawn bytes out, in their order, each byte once.
#[tactic(auto, unfolding(crate::specs::Drawings::drawn_len))]
pub fn split_drawn<'a>(wish: &Wish, bytes: &'a [u8]) -> Drawn<'a>
    requires wish { IsWish wish.now }
    requires length { length bytes.now ≡ drawn_len wish.now }
    ensures is { draw result ≡ drawn_by wish.now bytes.now }
    ensures once { spent (draw result) ≡ bytes.now }
    ensures lengths { AreDrawn wish.now (draw result) }
{
    let (new_key, rest) = luks_slots::split_drawn(wish.key_size as usize, bytes);
    let (identifier, rest) = rest.split_at(identifier_len(wish));
    let (first_salt, second_salt) = rest.split_at(COPY_SALT);
    Drawn {
        key: new_key.key,
        slot: new_key.slot,
        digest_salt: new_key.digest_salt,
        identifier,
        first_salt,
        second_salt,
    }
}
