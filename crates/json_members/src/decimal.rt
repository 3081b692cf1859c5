ghost use Rattle.std.specs.Prelude.{◌≡◌, IfOk, decimal, string_bytes};
ghost use Rattle.json_members.specs.Decimals.{number_of};

use itoa::Buffer;
use std::alloc::{AllocError, Global};

/// The number of which the text is the decimal form.
pub fn decimal_number(text: &str) -> Option<u64>
    ensures { result ≡ number_of text.now }
{
    let Ok(number) = text.parse::<u64>() else {
        return None;
    };
    if Buffer::new().format(number) == text {
        Some(number)
    } else {
        None
    }
}

/// The decimal form of a number.
pub fn decimal_text(alloc: Global, number: u64) -> Result<String, AllocError>
    ensures { IfOk result (λ text. string_bytes text ≡ decimal number) }
{
    String::from_str(alloc, Buffer::new().format(number))
}
