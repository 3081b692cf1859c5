ghost use Rattle.std.specs.Prelude.{◌≡◌};
ghost use Rattle.luks_bin.specs.Hidden.{has_magic, hides_copy};

use crate::fields::{field_at, magic};
use crate::header::HEADER_SIZES;

/// Whether the magic of a copy that stands at this place is there.
fn holds_magic(copy: &[u8], place: u64) -> bool
    ensures { result ≡ has_magic copy.now place }
{
    if (copy.len() as u64).saturating_sub(place) < 6 {
        return false;
    }
    field_at::<6>(copy, place as usize) == magic(place)
}

/// Whether the magic of a secondary stands within a copy, at one of the nine places of a secondary.
/// Where none does, no copy is found in front of this one's own secondary, also while a write of
/// other such bytes over it is torn.
#[tactic(auto, unfolding(crate::specs::Hidden::hides_copy))]
pub fn hides_copy(copy: &[u8]) -> bool
    ensures { result ≡ hides_copy copy.now }
{
    HEADER_SIZES.iter().any(|place| holds_magic(copy, *place))
}
