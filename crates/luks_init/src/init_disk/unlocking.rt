// The header of a disk and the key of its volume, before a conversion of it is begun.

ghost use Rattle.std.specs.Prelude.{◌≡◌, IfErr, IfOk};
ghost use Rattle.luks_init.specs.DiskInit.Unlocking.{IsLockedBy, IsUnlockedOn, linear_by};
ghost use Rattle.luks_rules.specs.Idles.{idle_of};

use crate::init_disk::refusal::Refusal;
use luks_rules::Valid;
use luks_slots::Key;
use sector_disk::Disk;
use std::alloc::Global;
use volume_opening::{find_key, read_header};

/// Whether nothing of the volume is being converted and its segment isn't encrypted.
fn is_linear(valid: &Valid) -> bool
    ensures { result ≡ linear_by (idle_of valid.now.meta valid.now.sizes) }
{
    match valid.idle() {
        Some(idle) => idle.segment.encryption.is_none(),
        None => false,
    }
}

/// Reads the header of a disk and tries its keyslots, by which nothing is written, and hands the
/// disk back, with the key that they gave to the passphrase.
///
/// # Errors
///
/// No header was read, a conversion is under way, the volume isn't encrypted, the passphrase doesn't
/// have 1 to 512 bytes, or no keyslot gave a key.
pub(crate) fn unlock_volume<D: Disk>(
    alloc: Global,
    disk: D,
    pass: &[u8],
) -> (D, Result<Option<Key>, Refusal>)
    ensures unlocked { IfOk result.1
        (λ key. IsUnlockedOn (D.device disk) pass.now key (D.device result.0)) }
    ensures locked { IfErr result.1
        (λ refusal. IsLockedBy D.device disk pass.now refusal result.0) }
{
    let (disk, loaded) = read_header(alloc, disk);
    let mut disk = disk;
    let loaded = match loaded {
        Ok(loaded) => loaded,
        Err(fault) => {
            let refusal = volume_opening::Refusal::Header(fault);
            return (disk, Err(Refusal::Unopened(refusal)));
        }
    };
    if is_linear(loaded.valid()) {
        return (disk, Err(Refusal::Linear));
    }
    match find_key(alloc, loaded.valid(), &mut disk, pass) {
        Ok(key) => (disk, Ok(key)),
        Err(refusal) => (disk, Err(Refusal::Unopened(refusal))),
    }
}
