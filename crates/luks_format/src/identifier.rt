// The identifier of a new volume.

ghost use Rattle.std.specs.Prelude.{◌≡◌, true};
ghost use Rattle.luks_bin.specs.Copies.{holds_nul};
ghost use Rattle.luks_format.specs.Drawings.{HasIdentifier, field_of, identifier_for};

use crate::wish::Wish;
use uuid::{Builder, Uuid};

/// The identifier that is wished, or the random one (RFC 9562, version 4) of these 16 bytes.
#[tactic(auto, unfolding(crate::specs::Drawings::identifier_for))]
pub fn identifier_for(wish: &Wish, drawn: &[u8]) -> Uuid
    requires { HasIdentifier wish.now drawn.now }
    ensures { result ≡ identifier_for wish.now drawn.now }
{
    match wish.identifier {
        Some(identifier) => identifier,
        None => {
            let mut bytes = [0; 16];
            bytes.copy_from_slice(drawn);
            Builder::from_random_bytes(bytes).into_uuid()
        }
    }
}

/// An identifier as the binary header's field of 40 bytes holds it: its 36 letters, digits and
/// hyphens, in lower case, and NULs.
pub fn identifier_field(identifier: Uuid) -> [u8; 40]
    ensures text { result ≡ field_of identifier }
    ensures nul { holds_nul result ≡ true }
{
    let mut letters = [0; 36];
    let text = identifier.hyphenated().encode_lower(&mut letters);
    let mut field = [0; 40];
    field[..36].copy_from_slice(text.as_bytes());
    field
}
