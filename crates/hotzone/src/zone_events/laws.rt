// Laws of the steps of a zone, with nothing to run.

ghost use Rattle.hotzone.specs.ZoneEvents.Holding.{AtomsAgree, MapsFollow, SizesAreTold};
ghost use Rattle.hotzone.specs.ZoneEvents.Holding.{ZonesArePlanned, ZonesBeginInOrder};
ghost use Rattle.hotzone.specs.ZoneEvents.Promises.{StepsAreWorks, StepsKeepGround, StepsKeepParts};
ghost use Rattle.hotzone.specs.ZoneEvents.Promises.{StepsLeaveNew};
ghost use Rattle.hotzone.specs.ZoneEvents.Sides.{SidesAreTold};

use cipher_laws::SectorCipher;
use volume_laws::keys_seal_lawfully;

/// Each step of a zone is a step of the volume's worker, where the state of the volume's machine is
/// the one that the zone's state says. Its sizes, its seals and where its header's copies lie stay,
/// and the last step of a zone leaves its blocks new.
pub fn steps_are_works<C: SectorCipher>()
    ensures works { StepsAreWorks C.sector C.sealed C.opened }
    ensures parts { StepsKeepParts C.sector C.sealed C.opened }
    ensures ground { StepsKeepGround C.sector C.sealed C.opened }
    ensures leaves { StepsLeaveNew C.sector C.sealed C.opened }
{
    keys_seal_lawfully::<C>();
}

/// The zone that comes next is one that the volume's worker may plan.
pub fn zones_are_planned<C: SectorCipher>()
    ensures { ZonesArePlanned C.sector }
{}

/// The map that a zone shows between two steps is the one that the volume's machine has of it.
pub fn maps_follow<C: SectorCipher>()
    ensures { MapsFollow C.sector }
{}

/// A volume that takes a zone that begins with its header is in order.
pub fn zones_begin_in_order<C: SectorCipher>()
    ensures { ZonesBeginInOrder C.sector }
{}

/// Sizes of a volume's disk by which it is on its course are those of its zone's header, and its
/// blocks are the zone's atoms.
pub fn sizes_are_told<C: SectorCipher>()
    ensures sizes { SizesAreTold C.sector }
    ensures atoms { AtomsAgree C.sector }
{}

/// A header that tells of a side what one tells that breaks no rule breaks none either, and by itself
/// the side is by its metadata what it is by the other's: its segment lies at the same place and is
/// encrypted the same, its key has the same digest, and the same keyslots give it, in the same areas.
pub fn sides_are_told()
    ensures { SidesAreTold }
{}
