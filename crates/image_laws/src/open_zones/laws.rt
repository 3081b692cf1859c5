// Laws of images whose header may have a zone open, with nothing to run.

ghost use Rattle.image_laws.specs.Opened.Mending.{MendingsKeepImages};
ghost use Rattle.image_laws.specs.Opened.Promises.{DiskOpeningsKeepImages, DiskOpeningsMendImages};
ghost use Rattle.image_laws.specs.Opened.Promises.{DiskReadsKeepImages, FrontsKeepImages, OneFor, OneUnder};
ghost use Rattle.image_laws.specs.Opened.Promises.{OneWay, OpeningsKeepImages, OpeningsMendImages};
ghost use Rattle.image_laws.specs.Opened.Promises.{ReadsKeepImages, ZoneIsRun};

use crate::started_volumes::gaps_keep_contents;
use crash_laws::{images_are_taken, zones_keep_contents};
use luks_slots::keys_are_behind_headers;
use luks_store::header_copies::copies_are_read;
use luks_store::metadata_go_by_meaning;
use reenc_recovery::{images_stand_for_one, openings_keep_contents, openings_keep_headers};

/// An image of disks of some sizes stands for at most one content under the keys of its sides, and
/// for at most one under a passphrase, whether a zone of a conversion is open or not; which of both
/// is said by its header; and the blocks of an open zone are a run.
pub fn images_stand_for_one_content()
    ensures keys { OneUnder }
    ensures passphrase { OneFor }
    ensures way { OneWay }
    ensures run { ZoneIsRun }
{
    images_stand_for_one();
}

/// What is written in front of the keyslots' areas leaves what an image stands for, under the keys
/// of its sides and under a passphrase, as long as its header says the same: so it is with each call
/// of a repair, also where the header has a zone open.
pub fn fronts_keep_images()
    ensures { FrontsKeepImages }
{
    gaps_keep_contents();
    keys_are_behind_headers();
}

/// While a header is opened each image of each table that its disks tell, from that of the first
/// sync on, stands for what their bytes stood for when the opening began, as long as no torn copy
/// of the header is valid: behind the reads, and behind each call of a repair, done or failed,
/// whatever the header says of a conversion. So it is with disks that are joined, and with any one
/// disk.
pub fn openings_keep_images()
    ensures reads { ReadsKeepImages }
    ensures repairs { OpeningsKeepImages }
    ensures disk_reads { DiskReadsKeepImages }
    ensures disk_repairs { DiskOpeningsKeepImages }
{
    fronts_keep_images();
    gaps_keep_contents();
    openings_keep_contents();
    openings_keep_headers();
}

/// Once all calls of an opening were done, up to the last one of the repair, the disk holds for
/// certain the header that it held, of which both copies are good, and stands for what it stood for,
/// whatever the header says of a conversion: joined disks, and any one disk.
pub fn openings_mend_images()
    ensures joined { OpeningsMendImages }
    ensures disk { DiskOpeningsMendImages }
{
    fronts_keep_images();
    gaps_keep_contents();
    openings_keep_headers();
}

/// While a zone that a stop left open is written again, guarded by a journal or by checksum, and the
/// boundary moved over it, each image that a stop leaves stands for what the bytes stood for from which this began, by
/// the header that it has itself, as long as no torn copy of a header is valid: the zone open, or
/// the boundary moved.
pub fn mendings_keep_images()
    ensures { MendingsKeepImages }
{
    copies_are_read();
    images_are_taken();
    metadata_go_by_meaning();
    zones_keep_contents();
}
