// What rows come to.

ghost use Rattle.std.specs.Prelude.{◌≡◌, IfOk};
ghost use Rattle.reenc_meta.specs.Placements.{all_atoms};
ghost use Rattle.sector_disk.specs.Geometry.{IsDisk};

use crate::bytes::Lexicon;
use crate::metadata::stands::{Stand, sizes_of, valid_of};
use crate::metadata::steps::{go_on, start_with, start_without};
use crate::metadata::wishes::wish_in;
use crate::numbers::number;
use crate::program::Program;
use anyhow::{Result, anyhow};
use luks_json::JsonText;
use luks_meta::Meta;
use luks_rules::Valid;
use reenc_meta::Reenc;
use std::alloc::Global;

/// A header, or what stands in the way of it.
pub(crate) type Found = Result<Stand, String>;

/// The text of metadata.
///
/// # Errors
///
/// Memory was wanted.
pub fn text_of(alloc: Global, meta: &Meta) -> Result<String> {
    match String::from_utf8(meta.write(alloc)?.into_vec()) {
        Ok(text) => Ok(text),
        Err(_) => Err(anyhow!("a text that isn't in UTF-8")),
    }
}

/// A row that takes a header, of a text or of the name of one.
fn header(alloc: Global, lexicon: &Lexicon, words: &[&str]) -> Result<Stand> {
    let [size, atom, header, main, text] = words else {
        return Err(anyhow!("a header of so many columns"));
    };
    let sizes = sizes_of(atom, header, main)?;
    let size = number(size)?;
    let text = if text.starts_with('{') {
        *text
    } else {
        lexicon.text(text)?
    };
    let text = String::from_str(alloc, text)?;
    Ok(Stand { sizes, size, text })
}

/// A row with a disk that has no header.
fn bare(alloc: Global, words: &[&str]) -> Result<Stand> {
    let [size, atom, header, main, wish, key] = words else {
        return Err(anyhow!("a disk of so many columns"));
    };
    let sizes = sizes_of(atom, header, main)?;
    let size = number(size)?;
    let wish = wish_in(alloc, size, wish, key)?;
    let next = start_without(alloc, sizes, &wish)?;
    let text = text_of(alloc, &next)?;
    Ok(Stand { sizes, size, text })
}

/// A row that begins a conversion as it is wished.
fn start(alloc: Global, stand: &Stand, words: &[&str]) -> Result<Stand> {
    let [size, wish, key] = words else {
        return Err(anyhow!("a wish of so many columns"));
    };
    let size = number(size)?;
    let wish = wish_in(alloc, size, wish, key)?;
    let valid = valid_of(alloc, stand)?;
    let next = start_with(alloc, &valid, &wish)?;
    let text = text_of(alloc, &next)?;
    Ok(Stand {
        sizes: stand.sizes,
        size,
        text,
    })
}

/// The header of the same disks with a text that was made.
fn next(stand: &Stand, text: String) -> Stand {
    Stand {
        sizes: stand.sizes,
        size: stand.size,
        text,
    }
}

/// A row that begins a conversion with a new key.
fn begin(alloc: Global, program: &impl Program, stand: &Stand, words: &[&str]) -> Result<Found> {
    let valid = valid_of(alloc, stand)?;
    match program.begin(&valid, words)? {
        Ok(text) => Ok(Ok(next(stand, text))),
        Err(why) => Ok(Err(why)),
    }
}

/// The next metadata of a conversion, where there may be these.
fn gone_on(alloc: Global, valid: &Valid, words: &[&str]) -> Result<Option<Box<Meta>>>
    requires { IsDisk valid.now.sizes.atom (all_atoms valid.now.sizes) }
{
    let [what, blocks] = words else {
        return Err(anyhow!("a row of so many columns"));
    };
    let blocks = number(blocks)?;
    match Reenc::of(valid) {
        Some(reenc) => Ok(go_on(alloc, &reenc, what, blocks)?),
        None => Err(anyhow!("no conversion is under way")),
    }
}

/// A row that goes on with a conversion.
fn step(alloc: Global, stand: &Stand, words: &[&str]) -> Result<Found> {
    let valid = valid_of(alloc, stand)?;
    match gone_on(alloc, &valid, words)? {
        Some(meta) => Ok(Ok(next(stand, text_of(alloc, &meta)?))),
        None => Ok(Err(String::from_str(alloc, "may not")?)),
    }
}

/// What a row comes to, from the header that the rows before it have come to.
pub(crate) fn come_to(
    alloc: Global,
    program: &impl Program,
    lexicon: &Lexicon,
    stand: &Stand,
    words: &[&str],
) -> Result<Found> {
    match words {
        ["header", words @ ..] => Ok(Ok(header(alloc, lexicon, words)?)),
        ["bare", words @ ..] => Ok(Ok(bare(alloc, words)?)),
        ["start", words @ ..] => Ok(Ok(start(alloc, stand, words)?)),
        ["begin", words @ ..] => begin(alloc, program, stand, words),
        words => step(alloc, stand, words),
    }
}
