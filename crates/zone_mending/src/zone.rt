// Where an open zone lies, and the header behind it.

ghost use Rattle.std.specs.Prelude.{◌≡◌, ◌≢◌, ◌<◌, ◌↔◌, ℕ, List, IfErr, IfOk, IsTrue};
ghost use Rattle.hotzone.specs.Sites.{IsSaved, guard_of};
ghost use Rattle.hotzone.specs.declared.worker.ZoneFault.TheVariants as faults;
ghost use Rattle.luks_store.specs.Copying.Held.{stage_in};
ghost use Rattle.luks_store.specs.declared.header_copies.commit.Stage.TheVariants.{Begun};
ghost use Rattle.reenc_meta.specs.Placements.{all_atoms};
ghost use Rattle.segment_map.specs.declared.map.Map.{Map as map_type};
ghost use Rattle.sector_disk.specs.Geometry.{IsDisk};
ghost use Rattle.zone_mending.specs.OpenZones.{HasZone, IsMoved, IsNotMade, IsOpenZone, as_zone};

use crate::mender::MendFault;
use hotzone::{Guard, NextHeader, Site, ZoneFault, next_site, turn_header};
use luks_meta::Resilience;
use luks_rules::Progress;
use luks_store::Loaded;
use reenc_meta::Reenc;
use std::alloc::Global;

/// Whether a zone is open that is guarded by a journal or by checksum.
fn is_open(progress: &Progress) -> bool
    ensures { IsTrue result ↔ ((0 < progress.now.plan.zone)
        × IsSaved progress.now.conversion.resilience) }
{
    match progress.conversion.resilience {
        Resilience::Journal | Resilience::Checksum(_) => 0 < progress.plan.zone,
        Resilience::Datashift(_) => false,
    }
}

/// Whether by a header a zone is open that is guarded by a journal or by checksum, so that it can be
/// written again.
pub fn has_zone(loaded: &Loaded) -> bool
    ensures { IsTrue result ↔ HasZone loaded.now }
{
    match loaded.valid().progress() {
        Some(progress) => is_open(&progress),
        None => false,
    }
}

/// What guards the zones of a conversion.
fn guard_by(resilience: Resilience) -> Guard
    requires saved { IsSaved resilience }
    ensures { result ≡ guard_of resilience }
{
    match resilience {
        Resilience::Journal => Guard::Journal,
        Resilience::Checksum(_) => Guard::Checksum,
        Resilience::Datashift(_) => unreachable!(),
    }
}

/// Where the zone lies that is open by a header.
pub(crate) fn find_zone(loaded: &Loaded) -> Site
    requires disk { IsDisk loaded.now.valid.sizes.atom (all_atoms loaded.now.valid.sizes) }
    requires zone { HasZone loaded.now }
    ensures { (map : map_type) × IsOpenZone loaded.now map result }
{
    loaded.valid().is_sound();
    match Reenc::of(loaded.valid()) {
        Some(reenc) => {
            let map = reenc.map();
            let conversion = &reenc.progress.conversion;
            let store = conversion.area.offset / map.atom as u64;
            next_site(&map, map.zone, store, guard_by(conversion.resilience))
        }
        None => unreachable!(),
    }
}

/// Why a header isn't made, as it is told here.
fn name_fault(fault: ZoneFault) -> MendFault
    requires device { fault ≢ faults.Device }
    requires clash { (block : ℕ) (digest : List ℕ) → fault ≢ faults.DigestClash block digest }
    ensures { as_zone result ≡ fault }
{
    match fault {
        ZoneFault::SeqEnd { left, wanted } => MendFault::SeqEnd { left, wanted },
        ZoneFault::JsonFull { length, limit } => MendFault::JsonFull { length, limit },
        ZoneFault::Memory => MendFault::Memory,
        ZoneFault::Device | ZoneFault::DigestClash { .. } => unreachable!(),
    }
}

/// The header with the boundary moved over the zone that is open by this one.
pub(crate) fn move_header(
    alloc: Global,
    loaded: &Loaded,
    site: &Site,
) -> Result<NextHeader, MendFault>
    requires disk { IsDisk loaded.now.valid.sizes.atom (all_atoms loaded.now.valid.sizes) }
    requires zone { (map : map_type) × IsOpenZone loaded.now map site.now }
    ensures moved { IfOk result (IsMoved loaded.now) }
    ensures begun { IfOk result (λ next. stage_in next.commit.copies ≡ Begun) }
    ensures unmade { IfErr result (IsNotMade loaded.now) }
{
    match turn_header(alloc, loaded, site.blocks.len()) {
        Ok(next) => Ok(next),
        Err(fault) => Err(name_fault(fault)),
    }
}
