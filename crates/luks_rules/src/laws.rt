// What the tests of the rules mean, in plain words: laws, with nothing to run.

ghost use Rattle.std.specs.Prelude.{◌≡◌, ◌↔◌, ◌<◌, ℕ, Bool, false, true, List, length, is_some};
ghost use Rattle.std.specs.Prelude.{Some, None};
ghost use Rattle.base_terms.specs.declared.disk_sizes.Sizes.{Sizes as sizes_type};
ghost use Rattle.luks_meta.specs.declared.meta.Parts.{Parts as parts_type};
ghost use Rattle.luks_rules.specs.Areas.{breaks_bounds};
ghost use Rattle.luks_rules.specs.Multiples.{breaks_multiples, breaks_sectors, breaks_tweaks};
ghost use Rattle.luks_rules.specs.Plain.{AreReferred, HaveNumbers, HaveWholeAtoms};
ghost use Rattle.luks_rules.specs.Plain.{HaveWholeSectors, HoldVolume, LieWithin};
ghost use Rattle.luks_rules.specs.References.{breaks_references};
ghost use Rattle.luks_rules.specs.Rules.{first_fault};
ghost use Rattle.luks_rules.specs.Segments.{holds_none, in_progress};
ghost use Rattle.luks_rules.specs.Shapes.{progress_by, progress_of};
ghost use Rattle.luks_rules.specs.States.{IsShaped, IsSound, IsState};
ghost use Rattle.luks_rules.specs.declared.conversions.Conversion.{Conversion as conversion_type};
ghost use Rattle.luks_rules.specs.declared.extents.Extent.{Extent as extent_type};
ghost use Rattle.luks_rules.specs.declared.plan.Plan.{Plan as plan_type};
ghost use Rattle.luks_rules.specs.declared.shape.Progress.{Progress as progress_type};

/// The rules of every header, apart from shared bytes: where areas lie, what digests list, where
/// segments lie, and whole sectors and atoms.
pub fn rules_are_plain()
    ensures bounds { (m : parts_type) (sizes : sizes_type)
        → (breaks_bounds m sizes ≡ false) ↔ LieWithin m sizes }
    ensures references { (m : parts_type) → (breaks_references m ≡ false) ↔ AreReferred m }
    ensures segments { (progress : Bool) (m : parts_type) (sizes : sizes_type)
        → (holds_none progress sizes m.segments ≡ false) ↔ HoldVolume progress m sizes }
    ensures sectors { (m : parts_type) (sizes : sizes_type)
        → (breaks_sectors m sizes ≡ false) ↔ HaveWholeSectors m sizes }
    ensures atoms { (m : parts_type) (sizes : sizes_type)
        → (breaks_multiples m sizes ≡ false) ↔ HaveWholeAtoms m sizes }
    ensures numbers { (m : parts_type) (sizes : sizes_type)
        → (breaks_tweaks m sizes ≡ false) ↔ HaveNumbers m sizes }
{}

/// Segments are those of a conversion exactly where some choice of boundary and zone makes them
/// so: the few that are tried are all that can. No two choices do.
pub fn shapes_are_choices()
    ensures found { (atom : ℕ) (c : conversion_type) (live : List extent_type) (old : extent_type)
        (new : extent_type) → 0 < atom → 0 < length live
        → (is_some (progress_by atom c live old new) ≡ true)
        ↔ ((plan : plan_type) × IsState atom c live old new plan) }
    ensures one { (atom : ℕ) (c : conversion_type) (live : List extent_type) (old : extent_type)
        (new : extent_type) (plan : plan_type) (other : plan_type) → 0 < atom → 0 < length live
        → IsState atom c live old new plan → IsState atom c live old new other → plan ≡ other }
{}

/// Objects are those of a conversion that is so far exactly where they are cut so: one keyslot of a
/// conversion, which no digest lists, live segments, and the two whole ones.
pub fn conversions_are_shaped()
    ensures { (m : parts_type) (sizes : sizes_type) (p : progress_type) → 0 < sizes.atom
        → in_progress m.config ≡ true
        → (progress_of m sizes ≡ Some p)
        ↔ ((live : List extent_type) × IsShaped m sizes.atom p live) }
{}

/// Metadata that are sound break no rule: with `Valid::is_sound`, they are valid exactly where they
/// are sound.
pub fn sound_metadata_are_valid()
    ensures { (m : parts_type) (sizes : sizes_type) → IsSound m sizes → first_fault m sizes ≡ None }
{}
