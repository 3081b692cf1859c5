// What each disk has by the laws of its trait: a law, with nothing to run.

ghost use Rattle.std.specs.Prelude.{◌≡◌, ◌*◌, ℕ, List, Some, length, replicate};
ghost use Rattle.base_terms.specs.Blocks.{lengths};
ghost use Rattle.cipher_laws.specs.Bytes.{AreBytes};
ghost use Rattle.reenc_recovery.specs.Calls.{TellsSized};
ghost use Rattle.sector_disk.specs.Cells.{content, currents};
ghost use Rattle.sector_disk.specs.Steps.{Told};

use sector_disk::Disk;

/// The table of a disk that tells it is that of its bytes, in atoms, and each candidate has an
/// atom's bytes.
pub fn disks_tell_lawfully<D: Disk>(_disk: &D)
    ensures agrees { (told : Told) → (D.device _disk.now).told ≡ Some told →
        (D.device _disk.now).values ≡ Some (content told.now) }
    ensures even { (told : Told) → (D.device _disk.now).told ≡ Some told →
        lengths (currents told.now)
        ≡ replicate (D.device _disk.now).atoms (D.device _disk.now).size }
    ensures sized { TellsSized (D.device _disk.now) }
    ensures whole { (all : List ℕ) → (D.device _disk.now).values ≡ Some all →
        length all ≡ (D.device _disk.now).atoms * (D.device _disk.now).size }
    ensures bytes { (all : List ℕ) → (D.device _disk.now).values ≡ Some all → AreBytes all }
{}
