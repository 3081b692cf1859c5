// The steps of a conversion.

ghost use Rattle.std.specs.Prelude.{◌≡◌, ◌<◌};
ghost use Rattle.test_script.specs.Wishes.{HasText};
ghost use Rattle.reenc_meta.specs.Placements.{all_atoms};
ghost use Rattle.sector_disk.specs.Geometry.{IsDisk};

use crate::metadata::wishes::has_offset;
use anyhow::{Result, anyhow};
use base_terms::Sizes;
use luks_meta::Meta;
use luks_rules::Valid;
use reenc_meta::{Reenc, Wish};
use std::alloc::{AllocError, Global};

/// The next metadata of a conversion; none where there may be none such.
type Next = Result<Option<Box<Meta>>, AllocError>;

/// Begins a conversion of a header's volume.
#[tactic(auto, using(crate::proofs::WishLemmas::wish_of_header))]
pub(crate) fn start_with(alloc: Global, valid: &Valid, wish: &Wish) -> Result<Box<Meta>>
    requires disk { IsDisk valid.now.sizes.atom (all_atoms valid.now.sizes) }
    requires text { HasText wish.now }
{
    let Some(idle) = valid.idle() else {
        return Err(anyhow!("a conversion is under way"));
    };
    if !has_offset(wish, idle.segment.offset) {
        return Err(anyhow!("a shift that is out of bounds"));
    }
    let next = Reenc::start(alloc, Some(valid), valid.sizes(), wish)?;
    Ok(Box::new(alloc, next)?)
}

/// Begins a conversion of a whole disk, which has no header.
#[tactic(auto, using(crate::proofs::WishLemmas::wish_of_disk))]
pub(crate) fn start_without(alloc: Global, sizes: Sizes, wish: &Wish) -> Result<Box<Meta>>
    requires disk { IsDisk sizes.atom (all_atoms sizes) }
    requires text { HasText wish.now }
{
    if !has_offset(wish, 0) {
        return Err(anyhow!("a shift that is out of bounds"));
    }
    let next = Reenc::start(alloc, None, sizes, wish)?;
    Ok(Box::new(alloc, next)?)
}

/// Opens a zone of so many blocks.
fn open(alloc: Global, reenc: &Reenc<'_>, blocks: u64) -> Next {
    if !reenc.may_open(blocks) {
        return Ok(None);
    }
    Ok(Some(Box::new(alloc, reenc.open_zone(alloc, blocks)?)?))
}

/// Moves the boundary by so many blocks.
fn move_on(alloc: Global, reenc: &Reenc<'_>, blocks: u64) -> Next {
    if !reenc.may_move(blocks) {
        return Ok(None);
    }
    Ok(Some(Box::new(alloc, reenc.move_boundary(alloc, blocks)?)?))
}

/// Ends a conversion.
fn finish(alloc: Global, reenc: &Reenc<'_>) -> Next {
    if !reenc.may_finish() {
        return Ok(None);
    }
    Ok(Some(Box::new(alloc, reenc.finish(alloc)?)?))
}

/// Opens a zone of so many blocks, moves the boundary by so many, or ends a conversion, where that
/// may be done.
pub(crate) fn go_on(alloc: Global, reenc: &Reenc<'_>, what: &str, blocks: u64) -> Next {
    match what {
        "open" => open(alloc, reenc, blocks),
        "move" => move_on(alloc, reenc, blocks),
        "finish" => finish(alloc, reenc),
        _ => Ok(None),
    }
}
