// Laws of the steps of a zone, with nothing to run.

ghost use Rattle.hotzone.specs.Promises.{StepBegins, StepEnds, StepGoes, StepKeeps};
ghost use Rattle.hotzone.specs.Promises.{StepStays, StepStops};

use cipher_laws::SectorCipher;
use crash_laws::{zones_go_by_calls, zones_stay};
use luks_store::header_copies::calls_are_seen;
use volume_laws::keys_seal_lawfully;

/// Each step of a zone is the device call of the laws of zones, on each disk that tells its tables:
/// it begins a zone whose old atoms are those that the disk holds; it leads from what is known to
/// what is known; the last one leaves the new atoms and the header with the boundary moved for
/// certain; and one that failed, or wasn't made, while a zone is at hand leaves what a stop may
/// leave. Calls of others beside the zone that were done between two steps leave what is known. From
/// the sync behind the last part that is saved the zone has what its guard needs so that each of its
/// blocks stands for the same whatever a stop leaves: its old atoms, or digests that tell each from
/// the new one.
pub fn steps_are_of_zones<C: SectorCipher>()
    ensures begins { StepBegins C.sector C.sealed C.opened }
    ensures goes { StepGoes C.sector C.sealed C.opened }
    ensures ends { StepEnds C.sector C.sealed C.opened }
    ensures stops { StepStops C.sector C.sealed C.opened }
    ensures stays { StepStays C }
    ensures keeps { StepKeeps C }
{
    calls_are_seen();
    keys_seal_lawfully::<C>();
    zones_go_by_calls();
    zones_stay();
}
