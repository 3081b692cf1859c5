// The law of what a stop leaves, with nothing to run.

ghost use Rattle.std.specs.Prelude.{◌≡◌, ℕ, List, Some};
ghost use Rattle.header_report.specs.Examinations.{sizes_alone};
ghost use Rattle.sector_disk.specs.Devices.{Device};
ghost use Rattle.volume_machine.specs.Runs.{Happening, IsRun};
ghost use Rattle.volume_machine.specs.Seals.{seals_of};
ghost use Rattle.volume_machine.specs.States.{State};
ghost use Rattle.volume_machine.specs.declared.keys.Keys.{Keys};
ghost use Rattle.volume_opening.specs.Openings.{IsOpenedBy};
ghost use Rattle.volume_opening.specs.Stops.{StandsAlong};

use cipher_laws::SectorCipher;
use luks_slots::keys_are_in_areas;
use luks_store::headers_stand_in_front;
use volume_laws::{failures_go_by_events, runs_leave_the_rest};

/// Wherever a run stops of a volume that a passphrase opened on a disk that told its bytes, each
/// image that the stop leaves stands by itself: by the header and the keyslots that it has, the
/// passphrase leads to a content in which each block has a value that is allowed there; and nothing
/// is being converted by that header.
pub fn opened_volumes_stand_along<C: SectorCipher>()
    ensures { (device : Device) (pass first : List ℕ) (lanes : ℕ) (volume : State (Keys C))
        (run : List (Happening (Keys C))) →
        IsOpenedBy C.sector C.sealed C.opened device pass lanes volume →
        device.values ≡ Some first → IsRun volume run →
        StandsAlong (sizes_alone device) pass volume
        (seals_of C.sealed C.opened volume.map.atom volume.keys) run }
{
    failures_go_by_events::<C>();
    runs_leave_the_rest::<C>();
    keys_are_in_areas();
    headers_stand_in_front();
}
