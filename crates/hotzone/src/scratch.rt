// Where a part is sealed anew before it is written, and where its digests are laid.

ghost use Rattle.std.specs.Prelude.{◌≡◌, IfOk, false};
ghost use Rattle.hotzone.specs.Workers.{HasRoom};
ghost use Rattle.hotzone.specs.declared.site.Guard.TheVariants as guards;
ghost use Rattle.sector_disk.specs.Geometry.{IsAtom};

use crate::beside::is_sliced;
use crate::site::{Guard, Site};
use base_terms::{Buffer, zeros};
use std::alloc::{AllocError, Global};

/// What a zone needs beside the part at hand: where that is sealed anew, and, where digests are
/// compared, where they are laid. Of a zone that a journal guards a part that is sealed in slices is
/// laid here; where it isn't, there is no memory.
#[derive(Drop)]
pub struct Scratch {
    /// A part that is sealed anew.
    pub sealed: Buffer,
    /// Whether it is the zone's first part, and that is the one at hand.
    pub is_first: bool,
    /// Whether it is that part, of which so far only the first blocks are sealed anew.
    pub begun: bool,
    /// How many of its blocks are.
    pub ready: u64,
    /// What is saved of it.
    pub digests: Buffer,
}

/// Room for the first part of a zone, and so for each.
pub(crate) fn new_scratch(alloc: Global, site: &Site) -> Result<Scratch, AllocError>
    requires atom { IsAtom site.now.atom }
    ensures room { IfOk result (HasRoom site.now) }
    ensures none { IfOk result (λ scratch. scratch.is_first ≡ false) }
    ensures begun { IfOk result (λ scratch. scratch.begun ≡ false) }
{
    match site.guard {
        Guard::Journal => Ok(Scratch {
            sealed: journal_room(alloc, site)?,
            is_first: false,
            begun: false,
            ready: 0,
            digests: Buffer::empty(alloc),
        }),
        Guard::Checksum => digest_scratch(alloc, site),
    }
}

/// Room for a part that is sealed in slices; for another none is taken.
fn journal_room(alloc: Global, site: &Site) -> Result<Buffer, AllocError>
    requires atom { IsAtom site.now.atom }
{
    if !is_sliced(site) {
        return Ok(Buffer::empty(alloc));
    }
    Ok(Buffer::new(zeros(alloc, site.bytes(0))?))
}

/// So where digests are compared.
fn digest_scratch(alloc: Global, site: &Site) -> Result<Scratch, AllocError>
    requires atom { IsAtom site.now.atom }
    requires guard { site.now.guard ≡ guards.Checksum }
    ensures room { IfOk result (HasRoom site.now) }
    ensures none { IfOk result (λ scratch. scratch.is_first ≡ false) }
    ensures begun { IfOk result (λ scratch. scratch.begun ≡ false) }
{
    let sealed = zeros(alloc, site.bytes(0))?;
    let digests = zeros(alloc, site.digest_bytes(0))?;
    Ok(Scratch {
        sealed: Buffer::new(sealed),
        is_first: false,
        begun: false,
        ready: 0,
        digests: Buffer::new(digests),
    })
}
