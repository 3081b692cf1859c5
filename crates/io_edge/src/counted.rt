ghost use Rattle.std.specs.Prelude.{◌≡◌, Ok, is_ok, IsErr, MatchResult};
ghost use Rattle.base_terms.specs.Causes.{HasCause};
ghost use Rattle.io_edge.specs.Faults.{Counts};

use base_terms::Failed;

/// A stream or a device of the system, with the count of its calls that failed.
#[derive(Drop)]
pub struct Counted<T: Drop> {
    pub(crate) inner: T,
    pub(crate) faults: u64,
}

impl<T: Drop> Counted<T> {
    /// Nothing was called yet.
    pub fn new(inner: T) -> Counted<T>
        ensures inner { result.inner ≡ inner }
        ensures faults { result.faults ≡ 0 }
    {
        Counted { inner, faults: 0 }
    }
}

/// What the system answered, of which a failure is counted, up to the last value of the count.
pub fn answered<T, E: Drop>(done: Result<T, E>, faults: &mut u64) -> Result<T, Failed>
    ensures same { is_ok result ≡ is_ok done }
    ensures value { MatchResult done (λ value. result ≡ Ok value) (λ _. IsErr result) }
    ensures cause { HasCause faults.old faults.new result }
    ensures counts { Counts faults.old faults.new result }
{
    match done {
        Ok(value) => Ok(value),
        Err(_) => {
            *faults = faults.saturating_add(1);
            Err(Failed)
        }
    }
}
