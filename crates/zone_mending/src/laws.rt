// Laws of a zone that is written again, with nothing to run.

ghost use Rattle.zone_mending.specs.Promises.{MendEnds, MendFails, MendGoes, MendResumes, MendStarts};
ghost use Rattle.zone_mending.specs.Promises.{MendStays};

use cipher_laws::SectorCipher;
use crash_laws::{zones_are_resumed, zones_go_by_calls, zones_stay};
use luks_store::commits_begin;
use luks_store::header_copies::calls_are_seen;
use volume_laws::keys_seal_lawfully;

/// Each step is the device call of the laws of zones, on each disk that tells its tables. It begins
/// on a disk that holds its bytes for certain, with both copies of the header by which the zone is
/// open: by journal whatever stands in the zone, by checksum where each atom there is the old one or
/// the new one. Each step leads from what is known to what is known, and changes nothing but the
/// zone's own atoms and the header's copies; the last one leaves the new atoms and the header with the
/// boundary moved for certain, and no atom in doubt; and one that failed leaves what a stop may leave.
/// What others do beside the zone between two steps leaves what is known.
pub fn mendings_are_of_zones<C: SectorCipher>()
    ensures resumes { MendResumes C.sector C.sealed C.opened }
    ensures starts { MendStarts C.sector C.sealed C.opened }
    ensures goes { MendGoes C.sector C.sealed C.opened }
    ensures ends { MendEnds C.sector C.sealed C.opened }
    ensures fails { MendFails C.sector C.sealed C.opened }
    ensures stays { MendStays C }
{
    calls_are_seen();
    commits_begin();
    keys_seal_lawfully::<C>();
    zones_are_resumed();
    zones_go_by_calls();
    zones_stay();
}
