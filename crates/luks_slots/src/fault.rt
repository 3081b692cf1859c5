// Why no key is found, and why no keyslot is made.

use crate::kinds::SlotKind;
use json_members::Listed;
use std::alloc::AllocError;

/// Why a keyslot gave no key, the first of these that holds.
#[derive(Clone, Copy, PartialEq, Eq)]
pub enum Refusal {
    /// The digest doesn't list it.
    NotAssigned,
    /// Its priority is 0: it is to be ignored.
    Priority,
    /// It isn't one that is opened here, of this kind: its key isn't derived by PBKDF2, a hash or
    /// its area's cipher isn't known, a key has no length of its cipher, it hasn't 4000 stripes, or
    /// its area is shorter than these.
    Unsupported(SlotKind),
    /// What the passphrase unseals has another digest.
    DigestDiffers,
}

/// Why there is no key, or no new keyslot.
#[derive(Drop)]
pub enum SlotFault {
    /// Memory ran out.
    Memory,
    /// A read failed.
    Device,
    /// No keyslot gives a key: of each keyslot of the type `luks2`, by rising number, why it gave
    /// none.
    NoKey(Listed<(u64, Refusal)>),
    /// The keyslots area has no room: the bytes that are wanted, and the most that are free at one
    /// place.
    NoRoom(u64, u64),
}

impl From<AllocError> for SlotFault {
    ghost use Rattle.std.specs.Prelude.{◌≡◌};
    ghost use Rattle.luks_slots.specs.declared.fault.SlotFault.TheVariants.{Memory};

    ghost from_gives = { λ _ e. e ≡ Memory };

    fn from(_: AllocError) -> SlotFault {
        SlotFault::Memory
    }
}
