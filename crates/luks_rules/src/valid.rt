ghost use Rattle.std.specs.Prelude.{◌≡◌, ◌<◌, MatchResult, None, IfSome, option_map};
ghost use Rattle.luks_meta.specs.Digests.{IsDigest};
ghost use Rattle.luks_rules.specs.Idles.{idle_of};
ghost use Rattle.luks_rules.specs.References.{value_at};
ghost use Rattle.luks_rules.specs.Rules.{IsCause, first_fault};
ghost use Rattle.luks_rules.specs.Segments.{has_tail};
ghost use Rattle.luks_rules.specs.Shapes.{progress_of};

use crate::fault::CheckError;
use crate::idle::{Idle, find_idle};
use crate::rules::judge;
use crate::segments::{SMALLEST_SECTOR, any_goes_to_end};
use crate::shape::Progress;
use base_terms::Sizes;
use luks_meta::{Digest, Meta};
use std::alloc::Global;
use std::marker::Model;

/// Metadata, and the sizes of the disks that they speak of.
pub struct Checked {
    pub meta: Meta,
    pub sizes: Sizes,
}

// By hand, so that a value that is dropped in place is one call to the prover.
impl Drop for Checked {
    fn drop(self) {
        let Checked { meta, sizes: _ } = self;
        drop(meta);
    }
}

/// Metadata that break no rule, with the sizes of their disks.
pub struct Valid {
    checked: Checked,
    progress: Option<Progress>,
}

impl Drop for Valid {
    fn drop(self) {
        let Valid {
            checked,
            progress: _,
        } = self;
        drop(checked);
    }
}

impl Model for Valid {
    ghost use Rattle.luks_rules.specs.declared.valid.Checked.{Checked};

    ghost Value = { Checked };

    ghost use Rattle.luks_rules.specs.contracts.valid.Checked as checked_type;

    ghost coded = { checked_type.the_row.coded };

    ghost use Rattle.luks_rules.specs.Rules.{IsJudged};

    ghost view = { λ valid. valid.checked };

    ghost invariant = { λ valid. IsJudged valid.checked.meta valid.checked.sizes valid.progress };
}

/// The metadata as they are, where they break no rule for disks of these sizes, or the first rule
/// that they break: whose header it is, its areas, what digests list, its segments, and what a
/// conversion asks of them.
pub fn check(alloc: Global, meta: Meta, sizes: Sizes) -> Result<Valid, CheckError>
    requires { 0 < sizes.atom }
    ensures { MatchResult result
        (λ valid. (valid ≡ record { meta = meta; sizes = sizes }) × (first_fault meta sizes ≡ None))
        (λ e. IsCause e (first_fault meta sizes)) }
{
    match judge(alloc, meta.parts(), &sizes) {
        Ok(progress) => Ok(Valid {
            checked: Checked { meta, sizes },
            progress,
        }),
        Err(e) => Err(e),
    }
}

fn find_digest(digests: &[(u64, Digest)], number: u64) -> Option<&Digest>
    ensures { option_map (λ digest. digest.now) result ≡ value_at digests.now number }
{
    digests
        .iter()
        .find(|digest| digest.0 == number)
        .map(|digest| &digest.1)
}

impl Valid {
    ghost use Rattle.std.specs.Prelude.{◌<◌, None};
    ghost use Rattle.luks_rules.specs.Rules.{first_fault};
    ghost use Rattle.luks_rules.specs.States.{IsSound};

    /// What the rules mean, all of them: a law, with nothing to run.
    pub fn is_sound(&self)
        ensures { IsSound self.now.meta self.now.sizes }
    {
        let _parts = self.checked.meta.parts();
    }

    /// The metadata.
    pub fn meta(&self) -> &Meta
        ensures { result.now ≡ self.now.meta }
    {
        &self.checked.meta
    }

    /// The sizes of the disks.
    pub fn sizes(&self) -> Sizes
        ensures sizes { result ≡ self.now.sizes }
        ensures some { 0 < result.atom }
    {
        self.checked.sizes
    }

    /// The metadata and the sizes again.
    pub fn into_checked(self) -> Checked
        ensures same { result ≡ self }
        ensures valid { first_fault result.meta result.sizes ≡ None }
    {
        let Valid {
            checked,
            progress: _,
        } = self;
        checked
    }

    /// The digest of a number, if there is one.
    pub fn digest(&self, number: u64) -> Option<&Digest>
        ensures there { option_map (λ digest. digest.now) result
            ≡ value_at self.now.meta.digests number }
        ensures right { IfSome result (λ digest. IsDigest digest.now) }
    {
        find_digest(self.checked.meta.parts().digests.as_slice(), number)
    }

    /// Whether bytes that may be sectors of the volume lie behind the last whole atom of a main disk
    /// that has so many there: it goes to the disk's end, and they are at least one sector of 512.
    pub fn has_tail(&self, tail: u64) -> bool
        ensures { result ≡ has_tail self.now.meta.segments tail }
    {
        any_goes_to_end(self.checked.meta.parts().segments.as_slice()) && SMALLEST_SECTOR <= tail
    }

    /// The volume, where nothing of it is being converted.
    pub fn idle(&self) -> Option<Idle>
        ensures { result ≡ idle_of self.now.meta self.now.sizes }
    {
        find_idle(self.checked.meta.parts(), &self.checked.sizes)
    }

    /// How far the conversion is; none where none is under way.
    pub fn progress(&self) -> Option<Progress>
        ensures { result ≡ progress_of self.now.meta self.now.sizes }
    {
        self.progress
    }
}
