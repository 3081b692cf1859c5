// The beginning of a conversion on a disk.

ghost use Rattle.std.specs.Prelude.{IfErr, IfOk};
ghost use Rattle.luks_init.specs.DiskInit.Answers.{IsStartedBy, IsUnstartedBy};
ghost use Rattle.luks_init.specs.Wishes.{IsWish};

use crate::Wish;
use crate::init_disk::refusal::{Started, Unstarted};
use crate::init_disk::starting::start;
use crate::init_disk::unlocking::unlock_volume;
use gates::Gate;
use reenc_recovery::SideKeys;
use sector_disk::Disk;
use std::alloc::Global;

/// Begins the conversion of the encrypted volume on a disk, so that it is to be encrypted anew under
/// a new key, which the same passphrase of 1 to 512 bytes opens; all that is random of it is
/// stretched from the 32 bytes of `seed`. The header is read, and the keyslots; then the disk is
/// synced, the header is read and checked once more, a copy of it that lacks or is older is written
/// anew, and the new keyslot's area is written, and both copies of the next header, each synced.
///
/// By the header that was read behind the sync nothing is to be lost. Unless the wish says that they
/// may go, none is begun where more than one keyslot holds the volume's key by it. None is begun
/// where bytes that may be sectors of the volume lie behind the disk's last whole atom.
///
/// Before anything is written the gate is told what changes besides the key, and which copy of the
/// header is written anew. Nothing is written before all checks have passed and all is made, and
/// memory is never wanted once something was written. No block of the volume is read or written.
///
/// # Errors
///
/// Why none is begun, with the disk. Unless a device call failed nothing was written.
pub fn begin_conversion<D: Disk, G: Gate>(
    alloc: Global,
    disk: D,
    wish: &Wish,
    pass: &[u8],
    seed: &[u8; 32],
    gate: &G,
) -> Result<Started<D>, Unstarted<D>>
    requires { IsWish wish.now (D.device disk).size }
    ensures started { IfOk result (λ started. IsStartedBy D.device disk wish.now pass.now seed.now
        started.disk) }
    ensures refused { IfErr result (λ unstarted. IsUnstartedBy D.device disk wish.now pass.now
        seed.now unstarted.refusal unstarted.disk) }
{
    let (disk, unlocked) = unlock_volume(alloc, disk, pass);
    let new = match unlocked {
        Ok(key) => key,
        Err(refusal) => return Err(Unstarted { disk, refusal }),
    };
    let keys = SideKeys { old: None, new };
    let (disk, begun) = start(alloc, disk, &keys, wish, pass, seed, gate);
    match begun {
        Ok(()) => Ok(Started { disk }),
        Err(refusal) => Err(Unstarted { disk, refusal }),
    }
}
