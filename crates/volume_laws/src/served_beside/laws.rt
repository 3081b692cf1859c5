// Laws of clients' operations beside a conversion's worker.

ghost use Rattle.std.specs.Prelude.{◌≡◌, ◌++◌, ◌∷◌, List, Some};
ghost use Rattle.volume_laws.specs.BesideLanes.Lanes.{BeginsBeside};
ghost use Rattle.sector_disk.specs.Steps.{Told};
ghost use Rattle.volume_laws.specs.BesideServing.Failing.{BreaksByFaults, FaultsRaise, GoesByDeeds};
ghost use Rattle.volume_laws.specs.BesideServing.Replies.{DeviceErrorsAreExact, PlacesAreExact};
ghost use Rattle.volume_laws.specs.BesideServing.Replies.{ServesWithoutFaults};
ghost use Rattle.volume_laws.specs.BesideServing.Stops.{DeedsStopAnywhere};
ghost use Rattle.volume_laws.specs.BesideServing.Tables.{TellsDeeds};
ghost use Rattle.volume_machine.specs.Deeds.{AreDeeds, Deed, state_after};
ghost use Rattle.volume_machine.specs.Readings.{Reading};
ghost use Rattle.volume_machine.specs.Seals.{AreLawful, Seals};
ghost use Rattle.volume_machine.specs.States.{State};
ghost use Rattle.volume_machine.specs.declared.keys.Keys.{Keys};

use crate::{conversions_stand_where_they_stop, every_conversion_is_served};
use cipher_laws::SectorCipher;

/// An operation on a lane of clients has failed exactly where one of its own events answered that the
/// device failed or the volume is broken, also where it was a step of the worker that broke it. The
/// volume is broken exactly where it was at the start, or a write or a sync of a client failed, or a
/// step of the worker whose zone wasn't given up. Keys, and the blocks' count and size, stay. This holds
/// behind each of the deeds, since any of them may be the last.
pub fn failures_go_by_deeds<C: SectorCipher>()
    ensures { (reading : Reading) (seals : Seals) (start : State (Keys C))
        (deeds : List (Deed (Keys C))) → BeginsBeside reading start →
        AreDeeds reading seals start deeds → GoesByDeeds start deeds }
{}

/// A read, a write or a flush that isn't wrong is answered 5 exactly where its admit found the volume
/// broken, or one of its edges, its pieces or its settle answered that the device failed or the volume
/// is broken, whoever broke it. The answer has a place exactly where it is a read's of which a piece
/// failed so: that of the first byte of its range in the piece.
pub fn device_errors_are_exact<C: SectorCipher>()
    ensures reply { (reading : Reading) (seals : Seals) (start : State (Keys C))
        (earlier later : List (Deed (Keys C))) (one : Deed (Keys C)) → BeginsBeside reading start →
        AreDeeds reading seals start (earlier ++ one ∷ later) →
        DeviceErrorsAreExact seals start earlier one }
    ensures place { (reading : Reading) (seals : Seals) (start : State (Keys C))
        (earlier later : List (Deed (Keys C))) (one : Deed (Keys C)) → BeginsBeside reading start →
        AreLawful start.map.atom seals → AreDeeds reading seals start (earlier ++ one ∷ later) →
        PlacesAreExact seals start earlier one }
{}

/// Where the count of faults stood, each operation got its content or is done, or was refused with its
/// number where it is wrong; and a volume breaks only where the count rose, which it did wherever a call
/// of a step of the worker failed. This holds for disks that tell nothing too.
pub fn deeds_fail_by_faults<C: SectorCipher>()
    ensures served { (reading : Reading) (seals : Seals) (start : State (Keys C))
        (deeds : List (Deed (Keys C))) → BeginsBeside reading start →
        AreLawful start.map.atom seals → AreDeeds reading seals start deeds →
        ServesWithoutFaults start seals deeds }
    ensures broken { (reading : Reading) (seals : Seals) (start : State (Keys C))
        (deeds : List (Deed (Keys C))) → AreDeeds reading seals start deeds →
        BreaksByFaults start deeds }
    ensures raised { (reading : Reading) (seals : Seals) (start : State (Keys C))
        (deeds : List (Deed (Keys C))) → AreDeeds reading seals start deeds →
        FaultsRaise start deeds }
{}

/// Deeds may stop behind each of them: the operations answered by then are a front of the history, and
/// where they began with a disk that held its bytes for certain each image that is taken of what the disk
/// may hold stands for a content that is allowed there.
pub fn deeds_stop_anywhere<C: SectorCipher>()
    ensures { (reading : Reading) (start : State (Keys C)) (seals : Seals) →
        DeedsStopAnywhere reading start seals }
{
    every_conversion_is_served::<C>();
    conversions_stand_where_they_stop::<C>();
}

/// Each table that a disk has had since the start of deeds is the one behind some of them.
pub fn tables_are_of_deeds<C: SectorCipher>()
    ensures { (reading : Reading) (seals : Seals) (start : State (Keys C))
        (deeds : List (Deed (Keys C))) (now : Told) → AreDeeds reading seals start deeds →
        (state_after start deeds).disk.told ≡ Some now → TellsDeeds start deeds now }
{}
