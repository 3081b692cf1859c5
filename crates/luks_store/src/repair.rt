// The repair of a header whose copies aren't both good.

ghost use Rattle.std.specs.Prelude.{◌≡◌, ◌↔◌, IfOk, IsTrue, IfSome, MatchOption};
ghost use Rattle.luks_store.specs.Commits.{AreGood, FitsDisks, Repairs};
ghost use Rattle.luks_store.specs.declared.copies.CopyState.TheVariants.{Good};

use crate::copies::{CopyPlace, CopyState};
use crate::header_copies::Repair;
use crate::loaded::Loaded;
use luks_bin::copies_are_spelt;
use std::alloc::{AllocError, Global};

impl CopyPlace {
    /// Whether the header that is used stands here.
    pub fn is_good(&self) -> bool
        ensures { IsTrue result ↔ (self.now.state ≡ Good) }
    {
        self.state == CopyState::Good
    }
}

impl Loaded {
    /// The repair that the header asks for: the copy that is older or lacks is written with the
    /// bytes of the one that is used, as they stand, under its own salt; none where both are good.
    /// The copies on the disk must be those that were loaded at its first step. It has room on each
    /// disk of the sizes for which the header was judged.
    pub fn repair(&self, alloc: Global) -> Result<Option<Repair>, AllocError>
        ensures is { IfOk result (λ repair. MatchOption repair
            (AreGood self.now.copies) (Repairs self.now.copies)) }
        ensures fits { IfOk result (λ repair. IfSome repair (FitsDisks self.now.valid.sizes)) }
    {
        copies_are_spelt();
        self.is_stored();
        let copies = &self.stored.copies;
        let used = copies.used.bytes.as_slice();
        if !copies.primary.is_good() {
            let repair = Repair::new(alloc, used, 0, &copies.primary.salt)?;
            return Ok(Some(repair));
        }
        if !copies.secondary.is_good() {
            let place = copies.used.header.hdr_size;
            let repair = Repair::new(alloc, used, place, &copies.secondary.salt)?;
            return Ok(Some(repair));
        }
        Ok(None)
    }
}
