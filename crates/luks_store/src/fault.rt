// Why no header is loaded.

ghost use Rattle.std.specs.Prelude.{◌≡◌};
ghost use Rattle.luks_store.specs.declared.fault.StoreFault.TheVariants.{Memory};

use json_members::JsonFault;
use luks_bin::BinFault;
use luks_rules::RuleFault;
use std::alloc::AllocError;

/// Why bytes of a disk aren't read.
#[derive(Clone, Copy, PartialEq, Eq)]
pub enum ReadFault {
    /// Memory ran out.
    Memory,
    /// The read failed.
    Device,
}

impl From<AllocError> for ReadFault {
    ghost use Rattle.std.specs.Prelude.{◌≡◌};
    ghost use Rattle.luks_store.specs.declared.fault.ReadFault.TheVariants.{Memory};

    ghost from_gives = { λ _ e. e ≡ Memory };

    fn from(_: AllocError) -> ReadFault {
        ReadFault::Memory
    }
}

/// Why no header is loaded, in the order in which it is tested.
#[derive(Drop)]
pub enum StoreFault {
    /// Memory ran out.
    Memory,
    /// A read failed.
    Device,
    /// No copy is valid, at 0 and at each of the nine places of a secondary: what is wrong with the
    /// bytes at 0, and with those at the nearest place of a secondary, 16384.
    NoHeader {
        primary: BinFault,
        secondary: BinFault,
    },
    /// Both copies are valid and have this number, and at this byte they differ first, outside of
    /// magic, salt, hdr_offset and checksum.
    CopiesDiffer {
        seqid: u64,
        place: usize,
    },
    /// The text of the copy that is used has this fault.
    Json(JsonFault),
    /// Its objects break this rule.
    Rule(RuleFault),
}

impl From<ReadFault> for StoreFault {
    ghost use Rattle.std.specs.Prelude.{◌≡◌};
    ghost use Rattle.luks_store.specs.Devices.{store_fault};

    ghost from_gives = { λ fault e. e ≡ store_fault fault };

    fn from(fault: ReadFault) -> StoreFault {
        match fault {
            ReadFault::Memory => StoreFault::Memory,
            ReadFault::Device => StoreFault::Device,
        }
    }
}

/// The want of memory, where nothing else is left.
pub(crate) fn memory_of(_fault: StoreFault) -> AllocError
    requires { _fault ≡ Memory }
{
    AllocError
}
