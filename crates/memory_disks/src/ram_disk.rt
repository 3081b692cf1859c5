ghost use Rattle.std.specs.Prelude.{◌≡◌, ◌*◌, ◌^◌, ◌<◌, ℕ, length, replicate, slice_index, Some};
ghost use Rattle.std.specs.Prelude.{None, IfOk, IsTrue};
ghost use Rattle.sector_disk.specs.Geometry.{is_atom, IsDisk};

use base_terms::{Failed, bytes_are_below_256, paste, zeros};
use sector_disk::Disk;
use std::alloc::{AllocError, Global};

/// A disk in memory that never fails. It tells its current bytes alone.
#[derive(Drop)]
pub struct RamDisk {
    atom: u32,
    atoms: u64,
    bytes: Vec<u8>,
    ghost known: { IsTrue (is_atom atom) },
    ghost fits: { atoms * atom < 2 ^ 63 },
    ghost whole: { length bytes.items ≡ atoms * atom },
    ghost are_bytes: { (k : ℕ) → slice_index bytes.items k < 256 },
}

impl RamDisk {
    /// A disk of so many atoms of so many bytes, all zero.
    pub fn new(alloc: Global, atom: u32, atoms: u64) -> Result<RamDisk, AllocError>
        requires { IsDisk atom atoms }
        ensures atom { IfOk result (λ disk. (⟦<RamDisk as Disk>⟧.device disk).size ≡ atom) }
        ensures atoms { IfOk result (λ disk. (⟦<RamDisk as Disk>⟧.device disk).atoms ≡ atoms) }
        ensures zeros { IfOk result (λ disk. (⟦<RamDisk as Disk>⟧.device disk).values
            ≡ Some (replicate (atoms * atom) 0)) }
    {
        let len = atoms as usize * atom as usize;
        let bytes = zeros(alloc, len)?;
        bytes_are_below_256(&bytes);
        Ok(RamDisk { atom, atoms, bytes })
    }
}

impl Disk for RamDisk {
    ghost use Rattle.std.specs.Prelude.{Some, None};
    ghost use Rattle.memory_disks.specs.RamLaws.{ram_geometry, ram_whole, ram_bytes};

    ghost device = { λ d. record {
      size = d.atom;
      atoms = d.atoms;
      tail = 0;
      values = Some d.bytes.items;
      told = None;
      faults = 0;
    } };

    ghost geometry = { ram_geometry };

    ghost whole = { ram_whole };

    ghost bytes = { ram_bytes };

    ghost agrees = { λ d t is. Prim.cc };

    ghost even = { λ d t is. Prim.cc };

    ghost held = { λ d t is. Prim.cc };

    ghost sized = { λ d t is. Prim.cc };

    fn atom(&self) -> u32 {
        self.atom
    }

    fn atoms(&self) -> u64 {
        self.atoms
    }

    fn tail(&self) -> u64 {
        0
    }

    fn read(&mut self, at: u64, buf: &mut [u8]) -> Result<(), Failed> {
        let from = at as usize * self.atom as usize;
        buf.copy_from_slice(&self.bytes[from..from + buf.len()]);
        Ok(())
    }

    fn write(&mut self, at: u64, bytes: &[u8]) -> Result<(), Failed> {
        let from = at as usize * self.atom as usize;
        paste(&mut self.bytes, from, bytes);
        Ok(())
    }

    fn sync(&mut self) -> Result<(), Failed> {
        Ok(())
    }

    fn mark(&mut self, _number: u64) {}

    fn faults(&self) -> u64 {
        0
    }
}
