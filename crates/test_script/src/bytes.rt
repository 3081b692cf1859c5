// Bytes that a script has named, and how it spells others.

use crate::numbers::number;
use anyhow::{Result, anyhow};
use std::alloc::Global;

/// The bytes that a script has named; of two with one name the later ones.
#[derive(Drop)]
pub(crate) struct Lexicon {
    entries: Vec<(String, Vec<u8>)>,
}

impl Lexicon {
    pub(crate) fn new(alloc: Global) -> Lexicon {
        Lexicon {
            entries: Vec::new(alloc),
        }
    }

    /// Names bytes.
    pub(crate) fn name(&mut self, alloc: Global, name: &str, bytes: Vec<u8>) -> Result<()> {
        let name = String::from_str(alloc, name)?;
        self.entries.push((name, bytes))?;
        Ok(())
    }

    /// The bytes of a name, where it has some.
    pub(crate) fn named(&self, name: &str) -> Option<&[u8]> {
        let mut found = None;
        for (entry, bytes) in self.entries.as_slice().iter() {
            if entry.as_str() == name {
                found = Some(bytes.as_slice());
            }
        }
        found
    }

    /// The text of a name.
    pub(crate) fn text(&self, name: &str) -> Result<&str> {
        match self.named(name) {
            Some(bytes) => match str::from_utf8(bytes) {
                Ok(text) => Ok(text),
                Err(_) => Err(anyhow!("{name} is no text")),
            },
            None => Err(anyhow!("nothing is named {name}")),
        }
    }

    /// Adds the bytes of a word: a name, or hexadecimal digits.
    fn add_word(&self, alloc: Global, word: &str, bytes: &mut Vec<u8>) -> Result<()> {
        match self.named(word) {
            Some(named) => bytes.extend_from_slice(named)?,
            None => match hex::decode(alloc, word) {
                Ok(spelled) => bytes.extend_from_slice(spelled.as_slice())?,
                Err(_) => return Err(anyhow!("{word} is neither a name nor digits")),
            },
        }
        Ok(())
    }

    /// The bytes of words in turn, `WORD*N` being a word N times.
    pub(crate) fn spelled(&self, alloc: Global, spelling: &str) -> Result<Vec<u8>> {
        let mut bytes = Vec::new(alloc);
        for word in spelling.split(' ') {
            let (word, times) = word.split_once('*').unwrap_or((word, "1"));
            if !word.is_empty() {
                for _ in 0..number(times)? {
                    self.add_word(alloc, word, &mut bytes)?;
                }
            }
        }
        Ok(bytes)
    }
}

/// So many bytes that rise by one from the first one on, and begin with 0 again at the modulus.
pub(crate) fn rising(alloc: Global, length: u64, first: u64, modulus: u64) -> Result<Vec<u8>> {
    if modulus == 0 || modulus > 256 || first > 256 || length > 1 << 30 {
        return Err(anyhow!("bytes below {modulus}"));
    }
    let mut bytes = Vec::new(alloc);
    for place in 0..length {
        bytes.push(((first + place) % modulus % 256) as u8)?;
    }
    Ok(bytes)
}
