// The opening of a disk's volume by a passphrase.

ghost use Rattle.std.specs.Prelude.{◌<◌, IfErr, IfOk};
ghost use Rattle.header_report.specs.Examinations.{TellsFault};
ghost use Rattle.sector_disk.specs.JoinedDisks.Counts.{HasSizes};
ghost use Rattle.luks_store.specs.Devices.{KeepsBytes};
ghost use Rattle.luks_store.specs.Loads.{HasCause};
ghost use Rattle.volume_opening.specs.Openings.{IsFound, IsKeyFound, IsOpenedBy};
ghost use Rattle.volume_opening.specs.Refusals.{IsNoKeyFound, IsUnopenedBy};

use crate::notices::note_repair;
use crate::refusal::{Refusal, Unopened};
use cipher_laws::SectorCipher;
use gates::Gate;
use luks_rules::Valid;
use luks_slots::{Key, unlock};
use luks_store::{Loaded, StoreFault, load};
use reenc_recovery::{OpenFault, SideKeys, open_volume, opened_volumes_go_by_passphrases};
use sector_cipher::Context;
use sector_disk::{Disk, JoinedDisk};
use std::alloc::Global;
use volume_core::Volume;

/// The most bytes of a passphrase.
const MOST_BYTES: usize = 512;

/// Reads the header of a disk, by which nothing is written, and hands the disk back.
///
/// # Errors
///
/// No header was read.
pub fn read_header<D: Disk>(alloc: Global, disk: D) -> (D, Result<Loaded, StoreFault>)
    ensures read { KeepsBytes (D.device disk) (D.device result.0) }
    ensures found { IfOk result.1 (IsFound (D.device disk)) }
    ensures told { IfErr result.1 (TellsFault (D.device disk)) }
    ensures cause { IfErr result.1 (HasCause (D.device disk) (D.device result.0)) }
{
    let mut joined = JoinedDisk::alone(disk);
    let _sizes = joined.sizes();
    let loaded = load(alloc, &mut joined);
    let (head, disk) = joined.parts();
    let None = head else { unreachable!() };
    (disk, loaded)
}

/// The key of the volume's segment that the keyslots give to a passphrase of 1 to 512 bytes; none of
/// a segment that is linear. Nothing is written.
///
/// # Errors
///
/// A conversion is under way, the passphrase has another length, or no keyslot gave a key.
pub fn find_key<D: Disk>(
    alloc: Global,
    valid: &Valid,
    disk: &mut D,
    pass: &[u8],
) -> Result<Option<Key>, Refusal>
    requires { HasSizes valid.now.sizes (D.device disk.old) }
    ensures read { KeepsBytes (D.device disk.old) (D.device disk.new) }
    ensures found { IfOk result (IsKeyFound valid.now.meta valid.now.sizes pass.now
        (D.device disk.old).values) }
    ensures refused { IfErr result (IsNoKeyFound valid.now.meta valid.now.sizes pass.now
        (D.device disk.old) (D.device disk.new)) }
{
    valid.is_sound();
    let Some(idle) = valid.idle() else {
        return Err(Refusal::InProgress);
    };
    if pass.is_empty() || MOST_BYTES < pass.len() {
        return Err(Refusal::Passphrase(pass.len()));
    }
    if idle.segment.encryption.is_none() {
        return Ok(None);
    }
    let Some(digest) = idle.segment.digest else {
        unreachable!()
    };
    match unlock(alloc, valid, disk, pass, digest) {
        Ok(key) => Ok(Some(key)),
        Err(fault) => Err(Refusal::Slots(fault)),
    }
}

/// The volume on a disk, with so many lanes, under the header that the disk has and the key that
/// its keyslots give to a passphrase of 1 to 512 bytes. The header is read, and the keyslots; then
/// the disk is synced, the header is read and checked once more, and a copy of it that lacks or is
/// older is written anew, which the gate is told. Nothing is written before all checks have passed.
///
/// # Errors
///
/// Why no volume was opened, with the disk.
pub fn open_by_passphrase<D: Disk, G: Gate>(
    alloc: Global,
    disk: D,
    pass: &[u8],
    lanes: u32,
    gate: &G,
) -> Result<Volume<JoinedDisk<D>, Context>, Unopened<D>>
    requires { 0 < lanes }
    ensures opened { IfOk result (IsOpenedBy ⟦<Context as SectorCipher>⟧.sector
        ⟦<Context as SectorCipher>⟧.sealed ⟦<Context as SectorCipher>⟧.opened (D.device disk)
        pass.now lanes) }
    ensures refused { IfErr result (λ unopened. IsUnopenedBy D.device disk pass.now
        unopened.refusal unopened.header unopened.disk) }
{
    let (disk, loaded) = read_header(alloc, disk);
    let mut disk = disk;
    let header = match loaded {
        Ok(header) => header,
        Err(fault) => {
            return Err(Unopened {
                header: None,
                disk,
                refusal: Refusal::Header(fault),
            });
        }
    };
    let key = match find_key(alloc, header.valid(), &mut disk, pass) {
        Ok(key) => key,
        Err(refusal) => {
            return Err(Unopened {
                header: None,
                disk,
                refusal,
            });
        }
    };
    note_repair(alloc, gate, &header);
    let keys = SideKeys {
        old: None,
        new: key,
    };
    opened_volumes_go_by_passphrases::<Context>();
    let joined = JoinedDisk::alone(disk);
    let _sizes = joined.sizes();
    match open_volume(alloc, joined, &keys, lanes) {
        Ok(volume) => Ok(volume),
        Err(OpenFault { disk, cause }) => {
            let (header, disk) = disk.parts();
            Err(Unopened {
                header,
                disk,
                refusal: Refusal::Opening(cause),
            })
        }
    }
}
