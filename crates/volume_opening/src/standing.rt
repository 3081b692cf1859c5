// The law of volumes that stand, with nothing to run.

ghost use Rattle.std.specs.Prelude.{◌≡◌, ℕ, List, Option, Some};
ghost use Rattle.header_report.specs.Examinations.{sizes_alone};
ghost use Rattle.reenc_recovery.specs.Images.{StandsFor};
ghost use Rattle.reenc_recovery.specs.Placings.{RestsIn};
ghost use Rattle.volume_opening.specs.Openings.{IsTried};
ghost use Rattle.volume_opening.specs.Refusals.{IsUnopenedBy};
ghost use Rattle.volume_opening.specs.Shorts.{IsShortOf};
ghost use Rattle.volume_opening.specs.declared.refusal.Refusal.{Refusal};

use sector_disk::Disk;

/// A volume that stands and rests is opened: where a disk tells its bytes, these stand for a content
/// under a passphrase of 1 to 512 bytes, and nothing is being converted by their header,
/// [`crate::open_by_passphrase`] refuses it only where memory was wanted or a device call failed.
pub fn standing_volumes_are_opened<D: Disk>()
    ensures { (disk back : D) (pass first : List ℕ) (content : List (List ℕ)) (refusal : Refusal)
        (header : Option D) → (D.device disk).values ≡ Some first → IsTried pass →
        StandsFor (sizes_alone (D.device disk)) pass first content →
        RestsIn (sizes_alone (D.device disk)) first →
        IsUnopenedBy D.device disk pass refusal header back → IsShortOf refusal }
{}
