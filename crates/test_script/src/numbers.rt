// Numbers in lines.

use anyhow::{Result, anyhow};
use std::alloc::Global;

/// The number of a word.
///
/// # Errors
///
/// It is none of 64 bits.
pub fn number(word: &str) -> Result<u64> {
    match word.parse() {
        Ok(number) => Ok(number),
        Err(_) => Err(anyhow!("{word} is no number")),
    }
}

/// The number of a word, of 32 bits.
///
/// # Errors
///
/// It is none such.
pub fn small_number(word: &str) -> Result<u32> {
    match word.parse() {
        Ok(number) => Ok(number),
        Err(_) => Err(anyhow!("no number of 32 bits")),
    }
}

/// A number below 256.
pub(crate) fn byte(word: &str) -> Result<u8> {
    match u8::try_from(number(word)?) {
        Ok(byte) => Ok(byte),
        Err(_) => Err(anyhow!("{word} is no byte")),
    }
}

/// The numbers of words, each with so much added.
pub(crate) fn numbers(alloc: Global, words: &str, more: u64) -> Result<Vec<u64>> {
    let mut list = Vec::new(alloc);
    for word in words.split(' ') {
        if !word.is_empty() {
            list.push(number(word)?.saturating_add(more))?;
        }
    }
    Ok(list)
}

/// The first word of a line, and the rest of it.
pub(crate) fn pair(words: &str) -> (&str, &str) {
    words.split_once(' ').unwrap_or((words, ""))
}
