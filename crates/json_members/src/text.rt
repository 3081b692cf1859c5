ghost use Rattle.std.specs.Prelude.{◌≡◌, IfOk};

use crate::listed::Listed;
use base_terms::Bytes;
use std::alloc::{AllocError, Global};
use std::marker::Model;

/// A text of its own, which contracts see as the list of its bytes in UTF-8.
#[derive(Debug, Drop)]
pub struct Text {
    string: String,
}

impl Model for Text {
    ghost use Rattle.std.specs.Prelude.{ℕ, List};
    ghost use Rattle.std.specs.String.{string_bytes};

    ghost Value = { List ℕ };

    ghost view = { λ text. string_bytes text.string };
}

impl Text {
    ghost use Rattle.std.specs.String.{string_bytes};

    /// The text of a string.
    pub fn new(string: String) -> Text
        ensures { result ≡ string_bytes string }
    {
        Text { string }
    }

    /// All of the text.
    pub fn as_str(&self) -> &str
        ensures { result.now ≡ self.now }
    {
        self.string.as_str()
    }

    /// The same text again.
    pub fn copy(&self, alloc: Global) -> Result<Text, AllocError>
        ensures { IfOk result (λ t. t ≡ self.now) }
    {
        Ok(Text::new(String::from_str(alloc, self.string.as_str())?))
    }
}

/// The same texts again.
pub fn copy_texts(alloc: Global, texts: &[Text]) -> Result<Listed<Text>, AllocError>
    ensures { IfOk result (λ l. l ≡ texts.now) }
{
    let mut copies = Vec::new(alloc);
    for text in texts {
        copies.push(text.copy(alloc)?)?;
    }
    Ok(Listed::new(copies))
}

/// The same numbers again.
pub fn copy_numbers(alloc: Global, numbers: &[u64]) -> Result<Listed<u64>, AllocError>
    ensures { IfOk result (λ l. l ≡ numbers.now) }
{
    Ok(Listed::new(Vec::from_slice(alloc, numbers)?))
}

/// The same bytes again.
pub fn copy_bytes(alloc: Global, bytes: &[u8]) -> Result<Bytes, AllocError>
    ensures { IfOk result (λ b. b ≡ bytes.now) }
{
    Ok(Bytes::new(Vec::from_slice(alloc, bytes)?))
}
