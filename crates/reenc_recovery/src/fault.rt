// Why a volume isn't opened.

ghost use Rattle.std.specs.Prelude.{◌≡◌};

use base_terms::Bytes;
use json_members::JsonFault;
use luks_bin::BinFault;
use luks_rules::RuleFault;
use luks_store::StoreFault;
use sector_disk::{Disk, JoinedDisk};
use std::alloc::AllocError;

/// Why a volume isn't opened: the first of the causes from `NoHeader` on that the disks and the key
/// give, unless memory was wanted or a device call failed before.
pub enum OpenCause {
    /// Memory ran out.
    Memory,
    /// A device call failed.
    Device,
    /// No copy of the header is valid: what is wrong at 0, and at the nearest place of a secondary.
    NoHeader {
        primary: BinFault,
        secondary: BinFault,
    },
    /// Both copies are valid and have this number, and at this byte they differ first.
    CopiesDiffer {
        seqid: u64,
        place: usize,
    },
    /// The header's text has this fault.
    Json(JsonFault),
    /// Its objects break this rule.
    Rule(RuleFault),
    /// A conversion is under way.
    InProgress,
    /// A key that was handed in isn't the one of its segment's digest: what PBKDF2 computes of it,
    /// which is nothing where there is no key, and may be nothing where it has no length for the
    /// segment's cipher, or the digest's length is none of a key's digest; and the digest that is
    /// stored.
    KeyDiffers {
        computed: Bytes,
        stored: Bytes,
    },
}

// By hand, so that a value that is dropped in place is one call to the prover.
impl Drop for OpenCause {
    fn drop(self) {
        match self {
            OpenCause::Memory | OpenCause::Device => (),
            OpenCause::NoHeader {
                primary: _,
                secondary: _,
            } => (),
            OpenCause::CopiesDiffer { seqid: _, place: _ } => (),
            OpenCause::Json(fault) => drop(fault),
            OpenCause::Rule(fault) => drop(fault),
            OpenCause::InProgress => (),
            OpenCause::KeyDiffers { computed, stored } => {
                drop(computed);
                drop(stored);
            }
        }
    }
}

/// A volume wasn't opened: the disks are handed back.
#[derive(Drop)]
pub struct OpenFault<D: Disk> {
    pub disk: JoinedDisk<D>,
    pub cause: OpenCause,
}

impl From<StoreFault> for OpenCause {
    ghost use Rattle.std.specs.Prelude.{◌≡◌};
    ghost use Rattle.reenc_recovery.specs.Causes.{cause_of};

    ghost from_gives = { λ fault e. e ≡ cause_of fault };

    fn from(fault: StoreFault) -> OpenCause {
        match fault {
            StoreFault::Memory => OpenCause::Memory,
            StoreFault::Device => OpenCause::Device,
            StoreFault::NoHeader { primary, secondary } => {
                OpenCause::NoHeader { primary, secondary }
            }
            StoreFault::CopiesDiffer { seqid, place } => OpenCause::CopiesDiffer { seqid, place },
            StoreFault::Json(fault) => OpenCause::Json(fault),
            StoreFault::Rule(fault) => OpenCause::Rule(fault),
        }
    }
}

impl From<AllocError> for OpenCause {
    ghost use Rattle.std.specs.Prelude.{◌≡◌};
    ghost use Rattle.reenc_recovery.specs.declared.fault.OpenCause.TheVariants.{Memory};

    ghost from_gives = { λ _ e. e ≡ Memory };

    fn from(_: AllocError) -> OpenCause {
        OpenCause::Memory
    }
}
