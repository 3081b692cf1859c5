// Laws of volumes whose conversion goes on beside their clients, with nothing to run.

ghost use Rattle.recovery_laws.specs.Served.Again.{DeedsStandAgain};
ghost use Rattle.recovery_laws.specs.Served.Ends.{EndsStandForNewest};
ghost use Rattle.recovery_laws.specs.Served.Passphrases.{DeedsStandAgainFor, UsedAnyNumberOfTimes};

use crate::resumed_volumes::{begun_conversions_start, conversions_go_on_under_their_passphrase};
use cipher_laws::SectorCipher;
use crash_laws::images_are_taken;
use hotzone::sides_are_told;
use image_laws::sides_give_their_keys;
use luks_bin::copies_are_spelt;
use luks_store::header_copies::copies_are_read;
use luks_store::{headers_stand_in_front, used_copies_are_headers};
use volume_laws::served_beside::tables_are_of_deeds;
use volume_laws::{
    conversions_end_beside_clients, conversions_stand_where_they_stop, deeds_leave_the_rest,
    every_conversion_is_served, keys_seal_lawfully,
};

/// A volume goes on with a conversion that is guarded by a journal or by checksum, on disks that stand
/// for a content under the keys of its sides, while clients use it. Behind any deeds, events of
/// clients and steps of the worker in any order, the operations answered by then are those of the plain
/// disk that held the content for certain; and each image in which no copy of a header is torn or
/// hidden stands, by the header that it has itself, under the same keys, for a content in which each
/// block has a value that these operations allow: with a zone open or not, or at the end, when nothing
/// is converted any more. So the next opening begins with it.
pub fn stops_beside_clients_stand_again<C: SectorCipher>()
    ensures { DeedsStandAgain C.sector C.sealed C.opened }
{
    begun_conversions_start::<C>();
    keys_seal_lawfully::<C>();
    every_conversion_is_served::<C>();
    conversions_stand_where_they_stop::<C>();
    deeds_leave_the_rest::<C>();
    copies_are_read();
    images_are_taken();
    copies_are_spelt();
    used_copies_are_headers();
    sides_are_told();
}

/// So it is under the passphrase: where the volume began under the keys that the keyslots give to a
/// passphrase, in bytes that stand for a content under it, each image stands for an allowed content under
/// the same passphrase. And so it is any number of times: a volume in the middle of its conversion is opened
/// by one passphrase, led on alone or used by clients, and stopped anywhere, time after time. What is left
/// stands under the passphrase for a content that comes from the first one by the operations of its clients,
/// until the conversion is at its end.
pub fn stops_beside_clients_stand_under_passphrases<C: SectorCipher>()
    ensures once { DeedsStandAgainFor C.sector C.sealed C.opened }
    ensures repeated { UsedAnyNumberOfTimes C.sector C.sealed C.opened }
{
    begun_conversions_start::<C>();
    keys_seal_lawfully::<C>();
    every_conversion_is_served::<C>();
    conversions_stand_where_they_stop::<C>();
    deeds_leave_the_rest::<C>();
    copies_are_read();
    images_are_taken();
    copies_are_spelt();
    used_copies_are_headers();
    headers_stand_in_front();
    sides_are_told();
    sides_give_their_keys();
    conversions_go_on_under_their_passphrase::<C>();
    tables_are_of_deeds::<C>();
}

/// A volume whose conversion is guarded by a journal or by checksum began under the keys that the keyslots
/// give to a passphrase, on disks whose bytes stood for a content under it, and deeds of clients and of
/// the worker led its conversion to the end. As long as no write or sync failed, and no operation is under
/// way, the operations are those of the plain disk that held that content for certain, and the bytes that
/// the disk tells stand, under the same passphrase, for the newest values that these operations leave: the
/// header that they have converts nothing.
pub fn ends_beside_clients_stand_under_passphrases<C: SectorCipher>()
    ensures { EndsStandForNewest C.sector C.sealed C.opened }
{
    begun_conversions_start::<C>();
    keys_seal_lawfully::<C>();
    every_conversion_is_served::<C>();
    conversions_stand_where_they_stop::<C>();
    deeds_leave_the_rest::<C>();
    copies_are_read();
    images_are_taken();
    copies_are_spelt();
    used_copies_are_headers();
    headers_stand_in_front();
    sides_are_told();
    sides_give_their_keys();
    conversions_end_beside_clients::<C>();
}
