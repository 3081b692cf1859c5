// Headers of conversions, step by step, also of those that no command begins yet.

mod coming;
mod stands;
mod steps;
mod wishes;

use crate::bytes::Lexicon;
use crate::program::Program;
use anyhow::Result;
use base_terms::Sizes;
use coming::come_to;
pub use coming::text_of;
pub(crate) use stands::Stand;
use stands::told;
use std::alloc::Global;

/// Disks of nothing, before the first header.
pub(crate) fn nothing(alloc: Global) -> Stand {
    let sizes = Sizes {
        atom: 512,
        header_atoms: 0,
        main_atoms: 0,
        detached: false,
    };
    Stand {
        sizes,
        size: 0,
        text: String::new(alloc),
    }
}

/// Shows what the header of a line is, or which rule it breaks, and its text where the line has made
/// it; whether it breaks no rule.
fn show_stand(rt: &HostRuntime, stand: &Stand, is_made: bool) -> Result<bool> {
    let (told, is_valid) = told(rt.alloc(), stand)?;
    println!(rt; "  {told}")?;
    if is_made {
        println!(rt; "  {}", stand.text)?;
    }
    Ok(is_valid)
}

/// Goes on by the columns of a line; shows what it comes to.
pub(crate) fn show_metadata(
    rt: &HostRuntime,
    program: &impl Program,
    lexicon: &Lexicon,
    stand: &mut Stand,
    columns: &str,
) -> Result<()> {
    let words: Vec<&str> = columns.split('\t').collect(rt.alloc())?;
    match come_to(rt.alloc(), program, lexicon, stand, words.as_slice())? {
        Ok(next) => {
            if show_stand(rt, &next, !columns.starts_with("header"))? {
                *stand = next;
            }
        }
        Err(why) => println!(rt; "  {why}")?,
    }
    Ok(())
}
