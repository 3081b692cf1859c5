ghost use Rattle.std.specs.Prelude.{◌≡◌, IfOk};

use crate::listed::Listed;
use std::alloc::{AllocError, Global};

/// What a map by numbers holds.
pub trait Entry: Drop {
    /// The same again.
    fn copy(&self, alloc: Global) -> Result<Self, AllocError>
        ensures { IfOk result (λ x. x ≡ self.now) };
}

/// The same entries again.
pub fn copy_entries<E: Entry>(
    alloc: Global,
    entries: &[(u64, E)],
) -> Result<Listed<(u64, E)>, AllocError>
    ensures { IfOk result (λ l. l ≡ entries.now) }
{
    let mut copies = Vec::new(alloc);
    for i in 0..entries.len() {
        let entry = &entries[i];
        copies.push((entry.0, entry.1.copy(alloc)?))?;
    }
    Ok(Listed::new(copies))
}
