ghost use Rattle.std.specs.Prelude.{◌≡◌, ◌+◌, ◌*◌, ◌/◌, ◌<◌, length, map, OnOk, IfOk};
ghost use Rattle.base_terms.specs.Blocks.{blocks_of, changed, joined};
ghost use Rattle.memory_disks.specs.Calls.{changed_by};
ghost use Rattle.sector_disk.specs.Cells.{sures, synced};
ghost use Rattle.memory_disks.specs.Images.{IsChoice, added, image_of};

use crate::Choice;
use crate::atom_values::AtomValues;
use crate::call_record::Kind;
use crate::images::place_in;
use std::alloc::{AllocError, Global};

/// The atoms of a disk that holds this content for certain.
pub(crate) fn atoms_of_content(
    alloc: Global,
    atom: usize,
    atoms: usize,
    content: &[u8],
) -> Result<Vec<AtomValues>, AllocError>
    requires { length content.now ≡ atoms * atom }
    ensures { IfOk result (λ cells. cells.items ≡ sures (blocks_of atom atoms content.now)) }
{
    let mut cells = Vec::with_capacity(alloc, atoms)?;
    let mut rest = content;
    let mut left = atoms;
    while left > 0 {
        let (value, behind) = rest.split_at(atom);
        cells.push(AtomValues::new(alloc, value)?)?;
        rest = behind;
        left -= 1;
    }
    Ok(cells)
}

/// Makes a device call anew on atoms in memory.
pub(crate) fn apply(
    alloc: Global,
    cells: &mut [AtomValues],
    atom: usize,
    kind: Kind,
    at: usize,
    body: &[u8],
) -> Result<(), AllocError>
    requires { 0 < atom }
    ensures { OnOk result (cells.new
        ≡ changed_by kind cells.old at (blocks_of atom (length body.now / atom) body.now)) }
{
    match kind {
        Kind::Read => Ok(()),
        Kind::Write => add_values(alloc, cells, atom, at, body, true),
        Kind::FailedWrite => add_values(alloc, cells, atom, at, body, false),
        Kind::Sync => settle_all(alloc, cells),
    }
}

/// Adds to each of the atoms from number `at` on the next of the values, as far as both reach.
fn add_values(
    alloc: Global,
    cells: &mut [AtomValues],
    atom: usize,
    at: usize,
    body: &[u8],
    is_current: bool,
) -> Result<(), AllocError>
    requires { 0 < atom }
    ensures { OnOk result (cells.new ≡ changed (added is_current) cells.old at
        (blocks_of atom (length body.now / atom) body.now)) }
{
    let mut left = body.len() / atom;
    let mut rest = body;
    let mut place = at;
    while left > 0 && place < cells.len() {
        let (value, behind) = rest.split_at(atom);
        cells[place].add(alloc, value, is_current)?;
        rest = behind;
        left -= 1;
        place += 1;
    }
    Ok(())
}

/// Leaves of each atom the current value as the only candidate.
fn settle_all(alloc: Global, cells: &mut [AtomValues]) -> Result<(), AllocError>
    ensures { OnOk result (cells.new ≡ map synced cells.old) }
{
    for cell in cells.iter_mut() {
        cell.settle(alloc)?;
    }
    Ok(())
}

/// The image that a choice takes, as one text.
pub(crate) fn image_bytes(
    alloc: Global,
    choice: &Choice,
    cells: &[AtomValues],
) -> Result<Vec<u8>, AllocError>
    requires { IsChoice choice.now }
    ensures { IfOk result (λ bytes. bytes.items ≡ joined (image_of choice.now cells.now)) }
{
    let mut bytes = Vec::new(alloc);
    for (i, cell) in cells.iter().enumerate() {
        let place = place_in(choice, i, cell.count());
        bytes.extend_from_slice(cell.candidate(place))?;
    }
    Ok(bytes)
}
