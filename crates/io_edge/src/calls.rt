ghost use Rattle.std.specs.Prelude.{◌≡◌, ◌↔◌, IsTrue, MatchResult, Ok, Err, is_ok};
ghost use Rattle.std.specs.IoError.{error_kind};
ghost use Rattle.io_edge.specs.Calls.{IsInterrupted};

use std::io::{self, ErrorKind};

/// Whether a signal interrupted the call.
pub fn is_interrupted<T>(answer: &io::Result<T>) -> bool
    ensures { IsTrue result ↔ IsInterrupted answer.now }
{
    match answer {
        Ok(_) => false,
        Err(error) => error.kind() == ErrorKind::Interrupted,
    }
}

/// The answer, of whose error the kind alone is kept.
pub fn kind_of<T>(answer: io::Result<T>) -> Result<T, ErrorKind>
    ensures done { is_ok result ≡ is_ok answer }
    ensures kind { MatchResult answer (λ value. result ≡ Ok value)
        (λ error. result ≡ Err (error_kind error)) }
{
    match answer {
        Ok(value) => Ok(value),
        Err(error) => Err(error.kind()),
    }
}
