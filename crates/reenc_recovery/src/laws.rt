// Laws of images and of opened volumes, with nothing to run.

ghost use Rattle.std.specs.Prelude.{◌≡◌, ◌*◌, ℕ, List, Option, Some, length};
ghost use Rattle.cipher_laws.specs.Bytes.{AreBytes};
ghost use Rattle.base_terms.specs.declared.disk_sizes.Sizes.{Sizes};
ghost use Rattle.luks_store.specs.declared.loaded.Stored.{Stored};
ghost use Rattle.reenc_recovery.specs.Headers.{AnyDiskOpeningsMend, AnyOpeningsMend};
ghost use Rattle.reenc_recovery.specs.Headers.{DiskOpeningsKeepHeaders, OpeningsKeepHeaders};
ghost use Rattle.reenc_recovery.specs.Images.{StandsFor, StandsUnder};
ghost use Rattle.reenc_recovery.specs.Mended.{DiskOpeningsMend, OpeningsMend};
ghost use Rattle.reenc_recovery.specs.Openings.{IsOpened, StartsAsImage};
ghost use Rattle.reenc_recovery.specs.Promises.{ContentsStay, ContentsStayFor};
ghost use Rattle.reenc_recovery.specs.Promises.{RepairsBegin, RepairsGoOn, RepairsHoldOn};
ghost use Rattle.reenc_recovery.specs.Tables.{DiskOpeningsKeepContents, DiskReadsKeepContents};
ghost use Rattle.reenc_recovery.specs.Tables.{OpeningsKeepContents, ReadsKeepContents};
ghost use Rattle.reenc_recovery.specs.Volumes.{AreUnlocked, IsVolumeOf};
ghost use Rattle.volume_machine.specs.Beginnings.{IsFresh};
ghost use Rattle.volume_machine.specs.Sound.{IsSound};
ghost use Rattle.volume_machine.specs.States.{State};
ghost use Rattle.volume_machine.specs.declared.keys.Keys.{Keys};

use cipher_laws::SectorCipher;
use crash_laws::{images_are_taken, repairs_keep_headers};
use luks_slots::keys_are_behind_headers;
use luks_store::header_copies::{calls_are_seen, copies_are_read, copies_mean_what_they_share};
use luks_store::{metadata_go_by_meaning, used_copies_are_headers};
use reenc_meta::placements_are_one;
use volume_laws::{keys_seal_lawfully, volumes_start};

/// An image of disks of some sizes stands for at most one content under the keys of its sides, and
/// for at most one under a passphrase; also while its volume is being converted.
pub fn images_stand_for_one()
    ensures keys { (sizes : Sizes) (old new image : List ℕ) (one other : List (List ℕ)) →
        StandsUnder sizes old new image one → StandsUnder sizes old new image other → one ≡ other }
    ensures passphrase { (sizes : Sizes) (pass image : List ℕ) (one other : List (List ℕ)) →
        StandsFor sizes pass image one → StandsFor sizes pass image other → one ≡ other }
{
    placements_are_one();
}

/// What is written in front of the keyslots' areas leaves what an image stands for, under the keys
/// of its sides and under a passphrase, as long as its header says the same, by which nothing is
/// being converted: so it is with each call of a repair.
pub fn contents_stay_behind_headers()
    ensures keys { ContentsStay }
    ensures passphrase { ContentsStayFor }
{
    placements_are_one();
    keys_are_behind_headers();
}

/// Each image that a stop leaves of a repair holds the metadata that the disk's bytes held before
/// it, and behind both copies what these had there, as long as no torn copy of the header is valid;
/// so it stands for the same, [`contents_stay_behind_headers`], where the header breaks no rule and
/// places a volume of which nothing is being converted. And the repair's calls lead from what is
/// known of the disk to what is known of it.
pub fn repairs_keep_contents()
    ensures begins { RepairsBegin }
    ensures each { RepairsHoldOn }
    ensures goes_on { RepairsGoOn }
{
    copies_are_read();
    images_are_taken();
    repairs_keep_headers();
    metadata_go_by_meaning();
}

/// While a header is opened, whatever it says of a conversion, each image of each table that its
/// disks tell stands for what their bytes stood for when the opening began, behind each call of a
/// repair, done or failed, where what is written in front of the keyslots' areas leaves that; and
/// once all calls were done the disk holds the header for certain, of which both copies are good. So
/// it is with joined disks, and with any one disk.
pub fn openings_keep_headers()
    ensures joined { OpeningsKeepHeaders }
    ensures disk { DiskOpeningsKeepHeaders }
    ensures joined_mended { AnyOpeningsMend }
    ensures disk_mended { AnyDiskOpeningsMend }
{
    calls_are_seen();
    copies_are_read();
    copies_mean_what_they_share();
    used_copies_are_headers();
    metadata_go_by_meaning();
    repairs_keep_contents();
}

/// While a volume is opened each image of each table that its disks tell, from that of the first
/// sync on, stands for what their bytes stood for when the opening began, under the same keys and
/// the same passphrase, as long as no torn copy of the header is valid: behind the reads, and
/// behind each call of a repair, done or failed. So it is with disks that are joined, and with the
/// same calls of any one disk.
pub fn openings_keep_contents()
    ensures reads { ReadsKeepContents }
    ensures repairs { OpeningsKeepContents }
    ensures disk_reads { DiskReadsKeepContents }
    ensures disk_repairs { DiskOpeningsKeepContents }
{
    contents_stay_behind_headers();
    openings_keep_headers();
}

/// Once all calls of an opening were done, up to the last one of the repair, the disk holds for
/// certain the header that it held, of which both copies are good, and stands for what it stood for:
/// joined disks, and any one disk.
pub fn openings_mend_headers()
    ensures joined { OpeningsMend }
    ensures disk { DiskOpeningsMend }
{
    contents_stay_behind_headers();
    openings_keep_headers();
}

/// A volume that was opened by the header and a key of disks that hold some bytes is one from which
/// runs start, as from the plain disk that holds for certain the content that these bytes stand for
/// under this key.
pub fn opened_volumes_start<C: SectorCipher>()
    ensures { (sizes : Sizes) (key : Option (List ℕ)) (all : List ℕ) (volume : State (Keys C)) →
        IsOpened C.sector C.sealed C.opened sizes key all volume → IsSound volume → IsFresh volume →
        volume.disk.values ≡ Some all → length all ≡ volume.disk.atoms * volume.map.atom →
        AreBytes all → StartsAsImage C.sealed C.opened sizes key all volume }
{
    keys_seal_lawfully::<C>();
    volumes_start::<C>();
}

/// The content from which runs of a volume start that was opened is what its disks stood for under
/// a passphrase, where the key that was handed in is the one that their keyslots gave to it then.
/// With what they stand for under it while the volume is opened, [`openings_keep_contents`], this
/// is one content from the first sync on.
pub fn opened_volumes_go_by_passphrases<C: SectorCipher>()
    ensures { (sizes : Sizes) (key : Option (List ℕ)) (header : Stored) (first : List ℕ)
        (volume : State (Keys C)) →
        (is : IsVolumeOf C.sector C.sealed C.opened sizes key header first volume) →
        (pass : List ℕ) → AreUnlocked sizes header.valid.meta first pass key →
        StandsFor sizes pass first is.starts.content }
{
    placements_are_one();
}
