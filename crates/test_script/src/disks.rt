// The disks of a script, and what is left of them.

ghost use Rattle.std.specs.Prelude.{IfOk};
ghost use Rattle.memory_disks.specs.Images.{IsChoice};

use crate::numbers::number;
use anyhow::{Result, anyhow};
use base_terms::zeros;
use memory_disks::{Choice, MemDisk};
use sector_disk::Disk;
use std::alloc::Global;

/// The device calls that put a disk's bytes there before a command.
const CALLS: u64 = 2;

/// How often a disk is read behind a command until it gives its bytes.
const TRIES: u64 = 16;

/// The most atoms of a disk.
const MOST_ATOMS: u64 = 8192;

/// A disk between two commands: each of its atoms has one value.
#[derive(Drop)]
pub(crate) struct Shelf {
    pub(crate) name: String,
    pub(crate) atom: u64,
    /// How many bytes it has behind its last whole atom.
    pub(crate) tail: u64,
    pub(crate) bytes: Vec<u8>,
}

/// Which device calls of a command fail, by their numbers.
#[derive(Clone, Copy)]
pub(crate) enum Limit<'a> {
    /// These.
    Fail(&'a [u64]),
    /// Each from this one on.
    Stop(u64),
}

/// A disk of so many atoms, all of whose bytes are this one.
pub(crate) fn new_shelf(
    alloc: Global,
    name: &str,
    atom: u64,
    atoms: u64,
    byte: u8,
) -> Result<Shelf> {
    if (atom != 512 && atom != 4096) || atoms > MOST_ATOMS {
        return Err(anyhow!("a disk of {atoms} atoms of {atom} bytes"));
    }
    let mut bytes = zeros(alloc, atoms as usize * atom as usize)?;
    bytes.fill(byte);
    Ok(Shelf {
        name: String::from_str(alloc, name)?,
        atom,
        tail: 0,
        bytes,
    })
}

/// The numbers of a disk's calls that fail, counted from those that fill it.
fn fails_of(alloc: Global, limit: Limit<'_>) -> Result<Vec<u64>> {
    let mut fails = Vec::new(alloc);
    if let Limit::Fail(numbers) = limit {
        for number in numbers {
            fails.push(number.saturating_add(CALLS))?;
        }
    }
    Ok(fails)
}

/// A disk of these bytes, of which each atom has the one value that it has here.
fn disk_with(alloc: Global, atom: u64, bytes: &[u8], limit: Limit<'_>) -> Result<MemDisk> {
    if atom != 512 && atom != 4096 {
        return Err(anyhow!("atoms of {atom} bytes"));
    }
    let atoms = bytes.len() as u64 / atom;
    if atoms > MOST_ATOMS || bytes.len() as u64 != atoms * atom {
        return Err(anyhow!("a disk of {atoms} atoms of {atom} bytes"));
    }
    let fails = fails_of(alloc, limit)?;
    let room = 4 * atoms + 4096;
    let mut disk = MemDisk::new(alloc, atom as u32, atoms, room, fails.as_slice())?;
    if disk.write(0, bytes).is_err() || disk.sync().is_err() {
        return Err(anyhow!("a disk can't be filled"));
    }
    if let Limit::Stop(calls) = limit {
        disk.stop_after(calls.saturating_add(CALLS));
    }
    Ok(disk)
}

impl Shelf {
    /// The disk with these bytes, whose calls fail so, under its name.
    pub(crate) fn disk(
        &self,
        alloc: Global,
        bytes: &[u8],
        limit: Limit<'_>,
    ) -> Result<(String, MemDisk)> {
        let mut disk = disk_with(alloc, self.atom, bytes, limit)?;
        disk.set_tail(self.tail);
        Ok((self.name.clone()?, disk))
    }
}

/// How many device calls a command made.
pub(crate) fn calls_of(disk: &MemDisk) -> u64 {
    disk.calls().saturating_sub(CALLS)
}

/// What is taken of what may be left: a word, or the numbers of candidates.
fn choice_of(alloc: Global, left: &str) -> Result<Choice>
    ensures { IfOk result IsChoice }
{
    match left {
        "oldest" => Ok(Choice::Oldest),
        "newest" => Ok(Choice::Newest),
        _ => {
            let mut picked = Vec::new(alloc);
            for word in left.split(',') {
                picked.push(number(word)?)?;
            }
            if picked.is_empty() {
                return Err(anyhow!("{left} isn't what is left"));
            }
            Ok(Choice::Pick(picked))
        }
    }
}

/// Reads all bytes of a disk into these, which are as many; whether that didn't fail.
fn read_once(disk: &mut MemDisk, bytes: &mut [u8]) -> bool {
    let size = disk.atoms() as usize * disk.atom() as usize;
    bytes.len() == size && disk.read(0, bytes).is_ok()
}

/// Reads them until a read doesn't fail; whether one didn't.
fn read_often(disk: &mut MemDisk, bytes: &mut [u8]) -> bool {
    for _ in 0..TRIES {
        if read_once(disk, bytes) {
            return true;
        }
    }
    false
}

/// The bytes that a disk has, of which some calls that come may be to fail.
fn bytes_on(alloc: Global, disk: MemDisk) -> Result<Vec<u8>> {
    let mut disk = disk;
    let mut bytes = zeros(alloc, disk.atoms() as usize * disk.atom() as usize)?;
    if !read_often(&mut disk, bytes.as_mut_slice()) {
        return Err(anyhow!("a disk can't be read"));
    }
    Ok(bytes)
}

/// The bytes that a disk has (`held`), or those of an image that a stop may leave.
pub(crate) fn left_on(alloc: Global, disk: MemDisk, left: &str) -> Result<Vec<u8>> {
    if left == "held" {
        // a stop would keep it from being read
        let calls = disk.calls();
        let mut disk = disk;
        disk.stop_after(calls.saturating_add(TRIES));
        return bytes_on(alloc, disk);
    }
    let choice = choice_of(alloc, left)?;
    match disk.restart(alloc, choice) {
        Ok(disk) => bytes_on(alloc, disk),
        Err(_) => Err(anyhow!("no memory for an image")),
    }
}
