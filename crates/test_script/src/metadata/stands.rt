// The headers of rows, and what they are read as.

ghost use Rattle.std.specs.Prelude.{IfOk};
ghost use Rattle.reenc_meta.specs.Placements.{all_atoms};
ghost use Rattle.sector_disk.specs.Geometry.{IsDisk};

use crate::numbers::{number, small_number};
use anyhow::{Result, anyhow};
use base_terms::Sizes;
use luks_json::JsonText;
use luks_meta::Meta;
use luks_rules::{CheckError, Valid, check};
use reenc_meta::{Reenc, place_idle};
use segment_map::{Direction, Map};
use std::alloc::{AllocError, Global};

/// The most atoms of a disk.
const MOST_ATOMS: u64 = 1_099_511_627_776;

/// Disks, and on them a header of copies of so many bytes.
#[derive(Drop)]
pub(crate) struct Stand {
    pub(crate) sizes: Sizes,
    pub(crate) size: u64,
    /// The text of its metadata.
    pub(crate) text: String,
}

/// The sizes, of disks that there may be.
fn known(sizes: Sizes) -> Result<Sizes>
    ensures { IfOk result (λ known. IsDisk known.atom (all_atoms known)) }
{
    if sizes.atom != 512 && sizes.atom != 4096 {
        return Err(anyhow!("no atom"));
    }
    if MOST_ATOMS < sizes.main_atoms || MOST_ATOMS < sizes.header_atoms {
        return Err(anyhow!("disks of so many atoms"));
    }
    Ok(sizes)
}

/// The sizes of a row's disks.
pub(crate) fn sizes_of(atom: &str, header: &str, main: &str) -> Result<Sizes>
    ensures { IfOk result (λ sizes. IsDisk sizes.atom (all_atoms sizes)) }
{
    let atom = small_number(atom)?;
    let main_atoms = number(main)?;
    let detached = header != "attached";
    let header_atoms = number(if detached { header } else { main })?;
    known(Sizes {
        atom,
        header_atoms,
        main_atoms,
        detached,
    })
}

/// The metadata that a text is, in a copy of so many bytes.
pub(crate) fn read(alloc: Global, text: &str, size: u64) -> Result<Box<Meta>> {
    match Meta::read(alloc, text.as_bytes(), size) {
        Ok(meta) => Ok(Box::new(alloc, meta)?),
        Err(e) => Err(anyhow!("{e}")),
    }
}

/// The metadata, or the rule that they break.
fn checked(alloc: Global, meta: Box<Meta>, sizes: Sizes) -> Result<Box<Valid>, CheckError>
    requires { IsDisk sizes.atom (all_atoms sizes) }
    ensures { IfOk result (λ valid. IsDisk valid.value.sizes.atom (all_atoms valid.value.sizes)) }
{
    match check(alloc, Box::into_inner(meta), sizes) {
        Ok(valid) => match Box::new(alloc, valid) {
            Ok(valid) => Ok(valid),
            Err(e) => Err(AllocError::from(e).into()),
        },
        Err(e) => Err(e),
    }
}

/// The metadata of a header, or the rule that they break.
fn judge(alloc: Global, stand: &Stand) -> Result<Result<Box<Valid>, CheckError>>
    ensures { IfOk result (λ judged. IfOk judged
        (λ valid. IsDisk valid.value.sizes.atom (all_atoms valid.value.sizes))) }
{
    let meta = read(alloc, stand.text.as_str(), stand.size)?;
    Ok(checked(alloc, meta, known(stand.sizes)?))
}

/// The metadata of a header that breaks no rule.
pub(crate) fn valid_of(alloc: Global, stand: &Stand) -> Result<Box<Valid>>
    ensures { IfOk result (λ valid. IsDisk valid.value.sizes.atom (all_atoms valid.value.sizes)) }
{
    match judge(alloc, stand)? {
        Ok(valid) => Ok(valid),
        Err(fault) => Err(anyhow!("{fault}")),
    }
}

/// Where the blocks of a volume lie.
fn map_of(valid: &Valid) -> Result<Map>
    requires { IsDisk valid.now.sizes.atom (all_atoms valid.now.sizes) }
{
    if let Some(reenc) = Reenc::of(valid) {
        return Ok(reenc.map());
    }
    match place_idle(valid) {
        Some(placement) => Ok(placement.map),
        None => Err(anyhow!("no volume")),
    }
}

/// Where the blocks of a volume lie, in words.
fn map_text(alloc: Global, valid: &Valid) -> Result<String>
    requires { IsDisk valid.now.sizes.atom (all_atoms valid.now.sizes) }
{
    let Map {
        atom,
        blocks,
        boundary,
        direction,
        zone,
        old_place,
        new_place,
    } = map_of(valid)?;
    let way = match direction {
        Direction::Forward => "Forward",
        Direction::Backward => "Backward",
    };
    let converted = format!(in alloc; "boundary: {boundary}, direction: {way}, zone: {zone}")?;
    Ok(format!(in alloc;
        "Map {{ atom: {atom}, blocks: {blocks}, {converted}, old_place: {old_place}, new_place: {new_place} }}"
    )?)
}

/// Which rule metadata break, in words.
fn fault_text(alloc: Global, fault: &CheckError) -> Result<String> {
    match fault {
        CheckError::Fault(fault) => Ok(format!(in alloc; "{fault:?}")?),
        CheckError::Memory => Err(anyhow!("out of memory")),
    }
}

/// Where the blocks of a header's volume lie, or the rule that it breaks; and whether it breaks
/// none.
pub(crate) fn told(alloc: Global, stand: &Stand) -> Result<(String, bool)> {
    match judge(alloc, stand)? {
        Ok(valid) => Ok((map_text(alloc, &valid)?, true)),
        Err(fault) => Ok((fault_text(alloc, &fault)?, false)),
    }
}
