// What volumes stand for under a passphrase whose conversion is taken up again: laws, with nothing to run.

ghost use Rattle.recovery_laws.specs.Resumed.Passphrases.{FinishedConversionsStandFor};
ghost use Rattle.recovery_laws.specs.Resumed.Passphrases.{ResumedAnyNumberOfTimesFor};
ghost use Rattle.recovery_laws.specs.Resumed.Passphrases.{StopsStandForPassphrases};
ghost use Rattle.recovery_laws.specs.Resumed.Passphrases.{TakenUpConversionsBeginFor};

use crate::resumed_volumes::laws::{
    begun_conversions_start, conversions_keep_content, resumed_conversions_keep_content,
};
use cipher_laws::SectorCipher;
use crash_laws::{images_are_taken, zones_keep_contents};
use hotzone::sides_are_told;
use image_laws::{
    images_stand_for_one_content, mendings_stand, openings_keep_images, openings_mend_images,
    sides_give_their_keys,
};
use luks_bin::copies_are_spelt;
use luks_slots::keys_are_behind_headers;
use luks_store::header_copies::{copies_are_read, copies_mean_what_they_share};
use luks_store::{headers_stand_in_front, metadata_go_by_meaning, used_copies_are_headers};
use volume_laws::{
    deeds_leave_the_rest, every_conversion_is_served, keys_seal_lawfully, works_leave_the_rest,
};
use zone_mending::mendings_are_of_zones;

/// Disks tell bytes that stand for a content under a passphrase, and the volume that is being converted
/// is opened under the keys that their keyslots give to it. Then the volume begins in bytes that stand for
/// the same under the same passphrase; and so does each image that a stop leaves in which no copy of a
/// header is torn or hidden, of the opening, also of one that came to nothing, and of the worker's steps, by
/// the header that it has itself: keyslots of a side stay where they are as long as the side is in use. So
/// it is any number of times. Once the worker has led the conversion to its end the bytes that the disk tells
/// stand for the same under the same passphrase, and nothing is converted any more.
pub fn conversions_go_on_under_their_passphrase<C: SectorCipher>()
    ensures begins { TakenUpConversionsBeginFor C.sector C.sealed C.opened }
    ensures stops { StopsStandForPassphrases C.sector C.sealed C.opened }
    ensures repeated { ResumedAnyNumberOfTimesFor C.sector C.sealed C.opened }
    ensures finished { FinishedConversionsStandFor C.sector C.sealed C.opened }
{
    openings_keep_images();
    openings_mend_images();
    mendings_stand::<C>();
    mendings_are_of_zones::<C>();
    zones_keep_contents();
    images_are_taken();
    images_stand_for_one_content();
    copies_are_spelt();
    copies_are_read();
    copies_mean_what_they_share();
    used_copies_are_headers();
    metadata_go_by_meaning();
    headers_stand_in_front();
    keys_are_behind_headers();
    begun_conversions_start::<C>();
    conversions_keep_content::<C>();
    resumed_conversions_keep_content::<C>();
    keys_seal_lawfully::<C>();
    every_conversion_is_served::<C>();
    works_leave_the_rest::<C>();
    deeds_leave_the_rest::<C>();
    sides_are_told();
    sides_give_their_keys();
}
