// What a stop leaves while a conversion is begun: a law, with nothing to run.

ghost use Rattle.luks_init.specs.DiskInit.Laws.{SlotsKeepContents};

use crate::begun_conversions_may_start;
use image_laws::{gaps_keep_contents, started_volumes_stand};
use luks_bin::copies_are_spelt;
use luks_store::{headers_stand_in_front, slot_commits_keep_headers};
use reenc_recovery::openings_mend_headers;

/// Behind the calls of an opening that were all done, each image that a stop leaves of the calls by
/// which a new keyslot is written, and the header by which the conversion begins, stands for what
/// the disk held before the opening, under the same passphrase, as long as no torn copy of a header
/// is valid and none stands in front of the second one. Where all of them were done, a conversion is
/// under way of which nothing is new yet.
pub fn slots_keep_contents()
    ensures { SlotsKeepContents }
{
    copies_are_spelt();
    headers_stand_in_front();
    openings_mend_headers();
    slot_commits_keep_headers();
    begun_conversions_may_start();
    gaps_keep_contents();
    started_volumes_stand();
}
