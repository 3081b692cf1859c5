// Why no conversion is begun on a disk.

use crate::init_disk::making::MakeFault;
use json_members::Listed;
use luks_slots::SlotKind;
use sector_disk::Disk;

/// Why no conversion of a disk's volume is begun: the first of these that it has, unless memory was
/// wanted or a device call failed before.
#[derive(Drop)]
pub enum Refusal {
    /// The volume isn't opened by the passphrase: there is no header, a conversion is under way,
    /// the passphrase doesn't have 1 to 512 bytes, no keyslot gave a key, or what was found once
    /// more behind the sync is refused; or a call of the header's repair failed.
    Unopened(volume_opening::Refusal),
    /// The volume's segment isn't encrypted. It is tested before the passphrase is looked at.
    Linear,
    /// Memory was wanted to list the keyslots that hold the volume's key.
    Memory,
    /// More than one keyslot holds the volume's key, of which a conversion would keep none, and it
    /// isn't said that they may go: all that hold it, by number and kind. It is tested on the header
    /// by which the conversion would begin.
    Keyslots(Listed<(u64, SlotKind)>),
    /// The volume goes to the end of the disk, and so many bytes that may be sectors of it lie there
    /// behind the last whole atom, which a conversion wouldn't reach.
    Tail(u64),
    /// What is to be written can't be made.
    Unmade(MakeFault),
    /// A device call failed by which the new keyslot, or the header that names it, is written. The
    /// disk is as a stop may leave it.
    Writing,
}

/// A conversion was begun. The disk is handed back.
#[derive(Drop)]
pub struct Started<D: Disk> {
    pub disk: D,
}

/// None was begun. The disk is handed back.
#[derive(Drop)]
pub struct Unstarted<D: Disk> {
    pub disk: D,
    pub refusal: Refusal,
}
