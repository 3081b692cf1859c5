// Why a volume that is being converted isn't opened.

use reenc_recovery::OpenCause;
use sector_disk::{Disk, JoinedDisk};
use zone_mending::MendFault;

/// Why a volume that is being converted isn't opened: the first of the causes that the disks and the
/// keys give, unless memory was wanted or a device call failed before.
#[derive(Drop)]
pub enum ConversionCause {
    /// No header is read, a key isn't the one of its segment's digest, memory ran out, or a device
    /// call failed. That a conversion is under way is no cause.
    Opening(OpenCause),
    /// Nothing is being converted.
    Idle,
    /// Nothing is saved of the blocks of zones: they are shifted.
    NotBuilt,
    /// A zone is open, and its header has so many numbers left, where the one with the boundary moved
    /// over it takes so many more.
    SeqEnd { left: u64, wanted: u64 },
    /// A zone is open, and there is a number; but the text of the header with the boundary moved over
    /// it has so many bytes, its area room for so many.
    JsonFull { length: u64, limit: u64 },
}

/// A volume wasn't opened: the disks are handed back.
#[derive(Drop)]
pub struct ConversionFault<D: Disk> {
    pub disk: JoinedDisk<D>,
    pub cause: ConversionCause,
}

impl From<MendFault> for ConversionCause {
    ghost use Rattle.std.specs.Prelude.{◌≡◌};
    ghost use Rattle.resume_disk.specs.OpenedMidway.Causes.{cause_of};

    ghost from_gives = { λ fault e. e ≡ cause_of fault };

    fn from(fault: MendFault) -> ConversionCause {
        match fault {
            MendFault::SeqEnd { left, wanted } => ConversionCause::SeqEnd { left, wanted },
            MendFault::JsonFull { length, limit } => ConversionCause::JsonFull { length, limit },
            MendFault::Memory => ConversionCause::Opening(OpenCause::Memory),
        }
    }
}
