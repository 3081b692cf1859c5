// Laws of volumes that clients use in the middle of their conversion, with nothing to run.

ghost use Rattle.recovery_laws.specs.Served.Serving.{ClientsLeaveWork, FoundKeysStand};
ghost use Rattle.recovery_laws.specs.Served.Serving.{PassphrasesGiveKeys};
ghost use Rattle.recovery_laws.specs.Served.Serving.{TakenVolumesKeepContent, TakenVolumesLieIdle};

use crate::resumed_volumes::{
    begun_conversions_start, openings_of_conversions_keep_content, resumed_conversions_keep_content,
};
use cipher_laws::SectorCipher;
use luks_store::headers_stand_in_front;
use volume_laws::{failures_go_by_events, runs_leave_the_rest, tables_are_of_events};

/// What clients' events executed of a volume they executed of it without what its conversion takes: none
/// of them asks for that, and none changes it. So what is said of a volume that converts nothing is said
/// of one whose conversion lies idle.
pub fn clients_leave_work_alone<C: SectorCipher>()
    ensures { ClientsLeaveWork C }
{}

/// Where a disk told its bytes, the content for which they stood under a passphrase is the one for which
/// they stood under the keys that were found there, by the passphrase, for the sides of its conversion.
pub fn passphrases_give_keys<C: SectorCipher>()
    ensures { PassphrasesGiveKeys C.sector C.sealed C.opened }
{}

/// So it is of keys that were found under the header of a disk, also where the opening behind them came
/// to nothing; and they are those that the keyslots in its bytes give to the passphrase.
pub fn found_keys_are_given()
    ensures { FoundKeysStand }
{}

/// A volume whose conversion was taken up is one that has just begun, without what its conversion takes.
/// Clients use it from there with nothing more converted: it stands for what its disk stood for when it was handed in: under the keys of its sides, where no zone
/// was open then, or the disk tells its tables. Runs of clients' events start from it as from the plain
/// disk that holds this content for certain; each image of each table since the first sync of the opening
/// stands for it; and wherever a run stops each image stands by itself, by the header that it has, for a
/// content in which each block has a value that is allowed there, and that header is the one by which the
/// volume was opened.
pub fn taken_volumes_keep_content<C: SectorCipher>()
    ensures idle { TakenVolumesLieIdle C.sector C.sealed C.opened }
    ensures keeps { TakenVolumesKeepContent C.sector C.sealed C.opened }
{
    openings_of_conversions_keep_content::<C>();
    resumed_conversions_keep_content::<C>();
    begun_conversions_start::<C>();
    failures_go_by_events::<C>();
    runs_leave_the_rest::<C>();
    tables_are_of_events::<C>();
    headers_stand_in_front();
}
