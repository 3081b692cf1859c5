// Laws of conversions that are led beside clients.

ghost use Rattle.std.specs.Prelude.{◌≡◌, ◌++◌, ◌∷◌, [], List, ℕ};
ghost use Rattle.volume_laws.specs.BesideConversions.Ends.{IsConvertedBeside, MayConvertBeside};
ghost use Rattle.crash_laws.specs.HeaderAreas.Headers.{Header, Layout};
ghost use Rattle.volume_laws.specs.BesideLanes.Lanes.{works_over};
ghost use Rattle.volume_machine.specs.Deeds.{AreDeeds, Deed, state_after};
ghost use Rattle.volume_machine.specs.Readings.{Reading};
ghost use Rattle.volume_machine.specs.Seals.{Seals};
ghost use Rattle.volume_machine.specs.States.{State};
ghost use Rattle.volume_machine.specs.WorkSteps.{Worked, finished};
ghost use Rattle.volume_machine.specs.declared.keys.Keys.{Keys};

use cipher_laws::SectorCipher;

/// Where the last step of the worker among deeds was answered that no step is left, every block is
/// new, and by the volume's header, whose copies lie where they did, nothing is converted. It says of
/// the new side how that is sealed as the first header did. So it is after all deeds, also where
/// clients broke the volume since.
///
/// It speaks of a volume in order of which blocks are to be converted by its header and no zone is at
/// hand; lanes of clients may have operations under way.
pub fn conversions_end_beside<C: SectorCipher>()
    ensures { (reading : Reading) (seals : Seals) (layout : Layout) (header : Header (List ℕ))
        (start : State (Keys C)) (deeds : List (Deed (Keys C))) (earlier : List Worked) →
        MayConvertBeside reading layout header start → AreDeeds reading seals start deeds →
        works_over deeds ≡ earlier ++ finished ∷ [] →
        IsConvertedBeside reading layout header start (state_after start deeds) }
{}
