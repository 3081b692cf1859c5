// How many iterations PBKDF2 has.

ghost use Rattle.json_members.specs.Fields.{Gives, counted_in};
ghost use Rattle.luks_meta.specs.Names.{iterations_of};

use json_members::{JsonFaultKind, Object, ReadError, fault_at, number_at};
use std::alloc::Global;

/// The iterations of PBKDF2, 1 to 268435456: as `number_at`, and `Number` where there are others.
#[tactic(auto, unfolding(json_members::specs::Fields::counted_in))]
pub(crate) fn iterations_at(
    alloc: Global,
    path: &str,
    object: &Object,
    name: &str,
) -> Result<u64, ReadError>
    ensures { Gives (λ n. n) result (counted_in iterations_of path.now name.now object.now) }
{
    let n = number_at(alloc, path, object, name)?;
    if 1 <= n && n <= 268435456 {
        Ok(n)
    } else {
        Err(fault_at(alloc, JsonFaultKind::Number, path, name))
    }
}
