// The keys of a volume that is being converted.

ghost use Rattle.std.specs.Prelude.{ℕ, IfErr, IfOk, IsSome};
ghost use Rattle.sector_disk.specs.JoinedDisks.Counts.{HasSizes};
ghost use Rattle.luks_meta.specs.declared.digest.Digest.{Digest as digest_type};
ghost use Rattle.luks_rules.specs.States.{IsUnder};
ghost use Rattle.luks_store.specs.Devices.{KeepsBytes};
ghost use Rattle.resume_disk.specs.Keys.{AreKeysFound, HasNoSideKey, IsNoKeysFound, IsSideKey};
ghost use Rattle.resume_disk.specs.Refusals.{IsLockedBy};
ghost use Rattle.resume_disk.specs.Resuming.{AreUnderKeys};

use crate::refusal::Refusal;
use gates::Gate;
use luks_rules::{Extent, Valid};
use luks_slots::{Key, SlotFault, unlock};
use reenc_recovery::SideKeys;
use sector_disk::Disk;
use segment_map::Side;
use std::alloc::Global;
use volume_opening::{note_repair, read_header};

/// The most bytes of a passphrase.
const MOST_BYTES: usize = 512;

/// The key of a whole segment that the keyslots of its digest give to a passphrase; none of one that
/// is linear. Nothing is written.
fn find_side_key<D: Disk>(
    alloc: Global,
    valid: &Valid,
    disk: &mut D,
    pass: &[u8],
    segment: &Extent,
) -> Result<Option<Key>, SlotFault>
    requires sizes { HasSizes valid.now.sizes (D.device disk.old) }
    requires digest { IsSome segment.now.encryption → (n : ℕ) × (d : digest_type)
        × IsUnder valid.now.meta segment.now n d }
    ensures read { KeepsBytes (D.device disk.old) (D.device disk.new) }
    ensures found { IfOk result (IsSideKey valid.now.meta pass.now (D.device disk.old).values
        segment.now) }
    ensures refused { IfErr result (HasNoSideKey valid.now.meta pass.now segment.now
        (D.device disk.old) (D.device disk.new)) }
{
    if segment.encryption.is_none() {
        return Ok(None);
    }
    let Some(digest) = segment.digest else {
        unreachable!()
    };
    match unlock(alloc, valid, disk, pass, digest) {
        Ok(key) => Ok(Some(key)),
        Err(fault) => Err(fault),
    }
}

/// The keys of both sides of the volume that is being converted by these metadata, as the keyslots
/// give them to a passphrase of 1 to 512 bytes: the old side's first, and then the new one's, each
/// from any keyslot of its segment's digest. A side whose segment is linear has none. Nothing is
/// written.
///
/// # Errors
///
/// Nothing is being converted, the passphrase has another length, or no keyslot gave a key: `Idle`,
/// `Passphrase` or `Slots`, and no other.
pub fn find_side_keys<D: Disk>(
    alloc: Global,
    valid: &Valid,
    disk: &mut D,
    pass: &[u8],
) -> Result<SideKeys, Refusal>
    requires { HasSizes valid.now.sizes (D.device disk.old) }
    ensures read { KeepsBytes (D.device disk.old) (D.device disk.new) }
    ensures found { IfOk result (AreKeysFound valid.now.meta valid.now.sizes pass.now
        (D.device disk.old).values) }
    ensures refused { IfErr result (IsNoKeysFound valid.now.meta valid.now.sizes pass.now
        (D.device disk.old) (D.device disk.new)) }
{
    valid.is_sound();
    let Some(progress) = valid.progress() else {
        return Err(Refusal::Idle);
    };
    if pass.is_empty() || MOST_BYTES < pass.len() {
        return Err(Refusal::Passphrase(pass.len()));
    }
    let old = match find_side_key(alloc, valid, disk, pass, &progress.old) {
        Ok(key) => key,
        Err(fault) => return Err(Refusal::Slots(Side::Old, fault)),
    };
    match find_side_key(alloc, valid, disk, pass, &progress.new) {
        Ok(new) => Ok(SideKeys { old, new }),
        Err(fault) => Err(Refusal::Slots(Side::New, fault)),
    }
}

/// Reads the header of a disk and tries its keyslots, by which nothing is written, and hands the
/// disk back, with the keys of both sides that they gave to the passphrase. The gate is told of a copy
/// of the header that is to be written anew.
///
/// # Errors
///
/// No header was read, nothing is being converted, the passphrase doesn't have 1 to 512 bytes, no
/// keyslot gave the key of a side, or bytes that may be sectors of the volume lie behind the disk's
/// last whole atom.
pub(crate) fn unlock_sides<D: Disk, G: Gate>(
    alloc: Global,
    disk: D,
    pass: &[u8],
    gate: &G,
) -> (D, Result<SideKeys, Refusal>)
    ensures unlocked { IfOk result.1
        (λ keys. AreUnderKeys (D.device disk) pass.now keys (D.device result.0)) }
    ensures locked { IfErr result.1
        (λ refusal. IsLockedBy (D.device disk) pass.now refusal (D.device result.0)) }
{
    let (disk, loaded) = read_header(alloc, disk);
    let mut disk = disk;
    let loaded = match loaded {
        Ok(loaded) => loaded,
        Err(fault) => return (disk, Err(Refusal::Header(fault))),
    };
    match find_side_keys(alloc, loaded.valid(), &mut disk, pass) {
        Ok(keys) => {
            let tail = disk.tail();
            if loaded.valid().has_tail(tail) {
                return (disk, Err(Refusal::Tail(tail)));
            }
            note_repair(alloc, gate, &loaded);
            (disk, Ok(keys))
        }
        Err(refusal) => (disk, Err(refusal)),
    }
}
