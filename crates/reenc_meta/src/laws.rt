// Laws of placements, with nothing to run.

ghost use Rattle.base_terms.specs.declared.disk_sizes.Sizes.{Sizes};
ghost use Rattle.luks_meta.specs.declared.meta.Parts.{Parts};
ghost use Rattle.reenc_meta.specs.Placements.{IsPlacementOf};
ghost use Rattle.reenc_meta.specs.Places.{AreOne};
ghost use Rattle.reenc_meta.specs.declared.placement.Placement.{Placement as placement};

/// A header says one thing of a volume: each block is on one side, at one place, and each side has
/// one segment.
pub fn placements_are_one()
    ensures { (m : Parts) (sizes : Sizes) (p q : placement) → IsPlacementOf m sizes p →
        IsPlacementOf m sizes q → AreOne p q }
{}
