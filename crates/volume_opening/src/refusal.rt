// Why a disk's volume isn't opened by a passphrase.

use luks_slots::SlotFault;
use luks_store::StoreFault;
use reenc_recovery::OpenCause;
use sector_disk::Disk;

/// Why a disk's volume isn't opened by a passphrase, in the order in which it is tested.
pub enum Refusal {
    /// No header was read.
    Header(StoreFault),
    /// A conversion is under way.
    InProgress,
    /// The passphrase has so many bytes, which aren't 1 to 512. No keyslot was tried.
    Passphrase(usize),
    /// No keyslot gave a key.
    Slots(SlotFault),
    /// The header and the key opened no volume: memory was wanted, or a device call failed; or the
    /// disk, which doesn't tell what it holds, held another header by then.
    Opening(OpenCause),
}

// By hand, so that a value that is dropped in place is one call to the prover.
impl Drop for Refusal {
    fn drop(self) {
        match self {
            Refusal::Header(fault) => drop(fault),
            Refusal::InProgress => (),
            Refusal::Passphrase(_) => (),
            Refusal::Slots(fault) => drop(fault),
            Refusal::Opening(cause) => drop(cause),
        }
    }
}

/// No volume was opened. The disk is handed back, as the main one of disks that are joined: there
/// was none in front of it.
#[derive(Drop)]
pub struct Unopened<D: Disk> {
    pub header: Option<D>,
    pub disk: D,
    pub refusal: Refusal,
}
