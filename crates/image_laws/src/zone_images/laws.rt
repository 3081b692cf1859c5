// Laws of images while a zone is led, and while one is written again by its steps, with nothing to run.

ghost use Rattle.image_laws.specs.Led.Leading.{LeadingsKeepImages};
ghost use Rattle.image_laws.specs.Led.Promises.{MendingsStand, MendingsStandFor};

use crate::open_zones::images_stand_for_one_content;
use cipher_laws::SectorCipher;
use crash_laws::{images_are_taken, zones_keep_contents};
use luks_store::header_copies::copies_are_read;
use luks_store::{headers_stand_in_front, metadata_go_by_meaning, used_copies_are_headers};
use zone_mending::mendings_are_of_zones;

/// While a zone that a stop left open is written again by its steps, guarded by a journal or by
/// checksum, each image of each table that the disk tells since stands, under the keys of the volume's
/// sides, for what the bytes stood for from which this began, as long as no torn copy of a header is
/// valid; behind each step, done or failed. Once the last one was made the disk, where it tells its tables, holds for
/// certain the header with the boundary moved, and stands for the same by it. So it is under each
/// passphrase to which the keyslots give these keys.
pub fn mendings_stand<C: SectorCipher>()
    ensures keys { MendingsStand C.sector C.sealed C.opened }
    ensures passphrase { MendingsStandFor C.sector C.sealed C.opened }
{
    copies_are_read();
    images_are_taken();
    images_stand_for_one_content();
    headers_stand_in_front();
    used_copies_are_headers();
    metadata_go_by_meaning();
    zones_keep_contents();
    mendings_are_of_zones::<C>();
}

/// While a zone is saved, opened, written and moved over, each image that a stop leaves stands, under
/// the keys of the volume's sides, for what the bytes stood for from which the zone is led, by the
/// header that it has itself, as long as no torn copy of a header is valid: without an open zone,
/// with it, or with the boundary moved.
pub fn leadings_keep_images()
    ensures { LeadingsKeepImages }
{
    copies_are_read();
    images_are_taken();
    metadata_go_by_meaning();
    zones_keep_contents();
}
