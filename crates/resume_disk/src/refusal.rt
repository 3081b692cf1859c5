// Why a conversion isn't at its end.

use crate::midway::ConversionCause;
use luks_slots::SlotFault;
use luks_store::StoreFault;
use reenc_worker::WorkerEnd;
use sector_disk::Disk;
use segment_map::Side;

/// Why a conversion isn't led on, in the order in which it is tested.
pub enum Refusal {
    /// No header was read.
    Header(StoreFault),
    /// Nothing is being converted.
    Idle,
    /// The passphrase has so many bytes, which aren't 1 to 512. No keyslot was tried.
    Passphrase(usize),
    /// No keyslot gave the key of this side's segment: of the old one, which is tried first, or of
    /// the new one.
    Slots(Side, SlotFault),
    /// The volume goes to the end of the disk, and so many bytes that may be sectors of it lie there
    /// behind the last whole atom, which the conversion wouldn't reach.
    Tail(u64),
    /// The header and the keys opened no volume: memory was wanted, or a device call failed; blocks
    /// are shifted, or the header with the boundary moved over the open zone can't be made; or the
    /// disk, which doesn't tell what it holds, held another header by then.
    Unopened(ConversionCause),
}

// By hand, so that a value that is dropped in place is one call to the prover.
impl Drop for Refusal {
    fn drop(self) {
        match self {
            Refusal::Header(fault) => drop(fault),
            Refusal::Idle => (),
            Refusal::Passphrase(_) => (),
            Refusal::Slots(_, fault) => drop(fault),
            Refusal::Tail(_) => (),
            Refusal::Unopened(cause) => drop(cause),
        }
    }
}

/// A conversion is at its end, and the volume has so many blocks. The disk is handed back, as the
/// main one of disks that are joined: there was none in front of it.
#[derive(Drop)]
pub struct Finished<D: Disk> {
    pub header: Option<D>,
    pub disk: D,
    pub blocks: u64,
}

/// A conversion wasn't led on. The disk is handed back.
#[derive(Drop)]
pub struct Refused<D: Disk> {
    pub header: Option<D>,
    pub disk: D,
    pub refusal: Refusal,
}

/// A conversion was led on, and its worker ended so, neither by `Finished` nor by `Broken`. The disk
/// is handed back.
#[derive(Drop)]
pub struct Halted<D: Disk> {
    pub header: Option<D>,
    pub disk: D,
    pub end: WorkerEnd,
}

/// A conversion isn't at its end.
#[derive(Drop)]
pub enum Unfinished<D: Disk> {
    /// It wasn't led on.
    Refused(Refused<D>),
    /// It was led on, and stopped on the way.
    Halted(Halted<D>),
}
