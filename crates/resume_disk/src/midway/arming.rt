// A volume that is being converted, made of a disk and its header.

ghost use Rattle.std.specs.Prelude.{◌≡◌, IfErr, IfOk};
ghost use Rattle.resume_disk.specs.OpenedMidway.Openings.{armed_volume};
ghost use Rattle.resume_disk.specs.OpenedMidway.Runs.{FitsVolume};
ghost use Rattle.hotzone.specs.Workers.{MayGoOn};
ghost use Rattle.sector_disk.specs.JoinedDisks.Counts.{HasSizes};
ghost use Rattle.reenc_meta.specs.ConversionMaps.{IsMapOf};
ghost use Rattle.reenc_meta.specs.Placements.{all_atoms};
ghost use Rattle.sector_disk.specs.Geometry.{IsDisk};
ghost use Rattle.volume_core.specs.Zones.{IsReadBy};
ghost use Rattle.volume_laws.specs.Converting.{IsInOrder};
ghost use Rattle.volume_machine.specs.Sound.{IsSound};
ghost use Rattle.hotzone.specs.ZoneEvents.Readings.{reading_of};

use cipher_laws::SectorCipher;
use luks_store::Loaded;
use reenc_meta::Reenc;
use sector_disk::Disk;
use segment_map::Map;
use std::alloc::{AllocError, Global};
use volume_core::{Lanes, Volume};
use volume_machine::Keys;

/// Where the blocks of a volume lie that is being converted, of which no zone is open.
fn find_map(header: &Loaded) -> Map
    requires disk { IsDisk header.now.valid.sizes.atom (all_atoms header.now.valid.sizes) }
    requires may { MayGoOn header.now }
    ensures map { IsMapOf header.now.valid.meta header.now.valid.sizes result }
    ensures closed { result.zone ≡ 0 }
{
    match Reenc::of(header.valid()) {
        Some(reenc) => reenc.map(),
        None => unreachable!(),
    }
}

/// The volume of a disk by its header, of which a conversion is under way and no zone open, under the
/// keys of its sides. Where there is no memory for the buffer of the conversion the disk is handed
/// back, and the header is gone.
pub(crate) fn arm_volume<D: Disk, C: SectorCipher + Copy>(
    alloc: Global,
    disk: D,
    header: Loaded,
    keys: Keys<C>,
    lanes: Lanes,
) -> Result<Volume<D, C>, D>
    requires sizes { HasSizes header.valid.sizes (D.device disk) }
    requires may { MayGoOn header }
    requires fits { FitsVolume C.sector header keys }
    ensures map { IfOk result
        (λ volume. IsMapOf header.valid.meta header.valid.sizes volume.map) }
    ensures keys { IfOk result (λ volume. volume.keys ≡ keys) }
    ensures disk { IfOk result (λ volume. volume.disk ≡ D.device disk) }
    ensures armed { IfOk result (λ volume. volume ≡ armed_volume header lanes volume) }
    ensures read { IfOk result (IsReadBy header.valid.sizes) }
    ensures order { IfOk result (IsInOrder (reading_of header.valid.sizes)) }
    ensures sound { IfOk result IsSound }
    ensures refused { IfErr result (λ same. D.device same ≡ D.device disk) }
{
    let map = find_map(&header);
    let mut volume = Volume::opened(disk, map, keys, lanes);
    match volume.arm(alloc, header) {
        Ok(()) => {
            let _map = volume.map();
            Ok(volume)
        }
        Err(AllocError) => Err(volume.into_disk()),
    }
}
