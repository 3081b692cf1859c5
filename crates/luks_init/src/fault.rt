// Why no conversion begins.

use std::alloc::AllocError;

/// What stands in the way of a conversion, the first in this order; or memory was wanted, which may
/// come before any.
#[derive(Clone, Copy, Debug, PartialEq, Eq)]
pub enum InitFault {
    Memory,
    /// A conversion of the volume is under way.
    InProgress,
    /// The volume's segment isn't encrypted.
    Linear,
    /// The passphrase doesn't have 1 to 512 bytes, but so many.
    Passphrase { len: u64 },
    /// The keyslots area has no room for the area of the new keyslot, or for the one that guards
    /// zones besides it: the bytes of that area, and the most that are free at one place.
    Area { wanted: u64, gap: u64 },
    /// The header's text is longer than its area less one byte.
    Json { len: u64, limit: u64 },
}

impl From<AllocError> for InitFault {
    ghost use Rattle.std.specs.Prelude.{◌≡◌};
    ghost use Rattle.luks_init.specs.declared.fault.InitFault.TheVariants.{Memory};

    ghost from_gives = { λ _ e. e ≡ Memory };

    fn from(_: AllocError) -> InitFault {
        InitFault::Memory
    }
}
