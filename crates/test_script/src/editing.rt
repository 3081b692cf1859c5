// Texts in which others are replaced.

use crate::bytes::Lexicon;
use anyhow::{Result, anyhow};
use std::alloc::Global;

/// The text of a name, in which each text of a pair is replaced by the other; tabs stand between
/// them.
pub(crate) fn edited(alloc: Global, lexicon: &Lexicon, rest: &str) -> Result<Vec<u8>> {
    let columns: Vec<&str> = rest.split('\t').collect(alloc)?;
    let Some((base, pairs)) = columns.as_slice().split_first() else {
        return Err(anyhow!("a text without a name"));
    };
    let mut text = String::from_str(alloc, lexicon.text(base)?.trim_end())?;
    for pair in pairs.chunks(2) {
        let [from, to] = pair else {
            return Err(anyhow!("a text that is replaced by none"));
        };
        if !text.as_str().contains(*from) {
            return Err(anyhow!("{from} isn't in {base}"));
        }
        text = text.as_str().replace(alloc, from, to)?;
    }
    Ok(text.into_bytes())
}
