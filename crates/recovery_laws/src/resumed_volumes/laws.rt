// Laws of volumes whose conversion is taken up again, with nothing to run.

ghost use Rattle.recovery_laws.specs.Resumed.Chaining.{StopsStandAgain};
ghost use Rattle.recovery_laws.specs.Resumed.Openings.{OpeningsKeepContent, UnopenedKeepContent};
ghost use Rattle.recovery_laws.specs.Resumed.Repeating.{ResumedAnyNumberOfTimes};
ghost use Rattle.recovery_laws.specs.Resumed.Resuming.{ResumedConversionsKeepContent};
ghost use Rattle.recovery_laws.specs.Resumed.Resuming.{ResumedConversionsStand};
ghost use Rattle.recovery_laws.specs.Resumed.Resuming.{TakenUpConversionsBegin};
ghost use Rattle.recovery_laws.specs.Resumed.Runs.{ConversionsKeepContent, StopsKeepContent};
ghost use Rattle.recovery_laws.specs.Resumed.Starts.{BegunConversionsStart};

use cipher_laws::SectorCipher;
use crash_laws::{images_are_taken, zones_keep_contents};
use hotzone::sides_are_told;
use image_laws::{
    images_stand_for_one_content, mendings_stand, openings_keep_images, openings_mend_images,
};
use luks_bin::copies_are_spelt;
use luks_store::header_copies::{copies_are_read, copies_mean_what_they_share};
use luks_store::{headers_stand_in_front, metadata_go_by_meaning, used_copies_are_headers};
use volume_laws::{
    conversions_stand_where_they_stop, every_conversion_is_served, keys_seal_lawfully,
    works_leave_the_rest,
};
use zone_mending::mendings_are_of_zones;

/// While a volume is opened that is being converted each image of each table that its disks tell since
/// the first sync stands, under the keys that were handed in for its sides, for what their bytes stood
/// for when the opening began, as long as no torn copy of a header is valid: behind the reads and each
/// call of the repair of the header that was found, and behind each step by which an open zone is
/// written again, done or failed, of this header or of the one with the boundary moved. Behind an
/// opening that was done the disk holds for certain, in both copies and under their salts, the header
/// by which the volume is armed, and stands for the same by it; where a zone was open, if the disk
/// tells its tables. An opening that made no volume keeps the tables too, unless it ended before or
/// with its first sync.
pub fn openings_of_conversions_keep_content<C: SectorCipher>()
    ensures opened { OpeningsKeepContent C.sector C.sealed C.opened }
    ensures unopened { UnopenedKeepContent C.sector C.sealed C.opened }
{
    openings_keep_images();
    openings_mend_images();
    mendings_stand::<C>();
    mendings_are_of_zones::<C>();
    zones_keep_contents();
    images_are_taken();
    images_stand_for_one_content();
    copies_are_spelt();
    copies_are_read();
    copies_mean_what_they_share();
    used_copies_are_headers();
    metadata_go_by_meaning();
    headers_stand_in_front();
}

/// A volume that has what its conversion takes, with no operation and no zone under way, is one from
/// which runs start, where its disk holds for certain both copies of the header by which it is armed and
/// stands for a content under the keys of its sides: as the plain disk that holds this content for
/// certain. So the laws of `volume_laws` on conversions speak of its runs, with clients and without.
pub fn begun_conversions_start<C: SectorCipher>()
    ensures { BegunConversionsStart C.sector C.sealed C.opened }
{
    keys_seal_lawfully::<C>();
}

/// Where the worker alone leads a conversion that begins on a disk that stands for a content, each
/// image that is taken of what the disk may hold stands for that content, behind each of its steps,
/// whatever it ended with; and once it ended with `Finished` each block is on the new side and holds
/// its value in the content, by the header that the disk's bytes have, under the keys of the start.
pub fn conversions_keep_content<C: SectorCipher>()
    ensures finished { ConversionsKeepContent C }
    ensures stops { StopsKeepContent C }
{
    every_conversion_is_served::<C>();
    conversions_stand_where_they_stop::<C>();
}

/// What disks stood for, under the keys that were handed in for the sides of a conversion, before its
/// volume was opened is what the volume holds once its worker alone has led the conversion to its end;
/// and wherever the worker stops each image stands for it. The disks tell their bytes; at a stop, and
/// where a zone was open at all, they tell their tables. Behind the opening the disk holds for certain both copies of the header by
/// which the conversion goes on, and stands for the content by it, so that [`begun_conversions_start`]
/// speaks of the volume, whoever uses it.
pub fn resumed_conversions_keep_content<C: SectorCipher>()
    ensures begins { TakenUpConversionsBegin C.sector C.sealed C.opened }
    ensures finished { ResumedConversionsKeepContent C.sector C.sealed C.opened }
    ensures stops { ResumedConversionsStand C.sector C.sealed C.opened }
{
    copies_are_read();
    openings_of_conversions_keep_content::<C>();
    begun_conversions_start::<C>();
    conversions_keep_content::<C>();
}

/// Wherever the worker stops of a volume that goes on with a conversion guarded by a journal or by
/// checksum, on disks that stand for a content under the keys of its sides, with the header on the same
/// disk or on one of its own, each image of both as one in which no copy of a header is torn or hidden
/// stands for that content by the header that it has itself, under the same keys: with a zone open or not, or at the end, when nothing is converted any more. So the
/// next opening begins with it, as the one before did. An image holds of each atom a whole value that
/// the atom may have: by checksum no digest tells what a torn atom was.
pub fn stopped_conversions_may_be_resumed<C: SectorCipher>()
    ensures { StopsStandAgain C.sector C.sealed C.opened }
{
    begun_conversions_start::<C>();
    keys_seal_lawfully::<C>();
    conversions_keep_content::<C>();
    every_conversion_is_served::<C>();
    works_leave_the_rest::<C>();
    copies_are_read();
    images_are_taken();
    copies_are_spelt();
    used_copies_are_headers();
    sides_are_told();
}

/// A conversion may be taken up again and stopped any number of times, guarded by a journal or by
/// checksum, each time under the keys of its sides, and anywhere: behind the reads and the calls of the
/// repair, behind the steps by which an open zone is written again, also of an opening that came to
/// nothing, and behind the steps of the worker. Whatever is left, as long as no copy of a header is torn
/// or hidden, stands for the content for which the first bytes stood: the conversion goes on by its
/// header, or is at its end.
pub fn conversions_may_be_resumed_any_number_of_times<C: SectorCipher>()
    ensures { ResumedAnyNumberOfTimes C.sector C.sealed C.opened }
{
    openings_of_conversions_keep_content::<C>();
    resumed_conversions_keep_content::<C>();
    stopped_conversions_may_be_resumed::<C>();
}
