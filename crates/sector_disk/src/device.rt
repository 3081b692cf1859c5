ghost use Rattle.std.specs.Prelude.{◌≡◌, ℕ, ◌*◌, ◌^◌, ◌<◌, List, length, replicate, slice_index};
ghost use Rattle.std.specs.Prelude.{Option, Some};
ghost use Rattle.base_terms.specs.Blocks.{lengths};
ghost use Rattle.sector_disk.specs.Cells.{content, currents, AreHeld, AreSized};
ghost use Rattle.sector_disk.specs.Devices.{Device, ReadCall, WriteCall, SyncCall, marked};
ghost use Rattle.sector_disk.specs.Geometry.{IsAtom, IsDisk, IsInDisk};
ghost use Rattle.sector_disk.specs.Steps.{Told};

use base_terms::Failed;

/// A disk of atoms, which are read and written whole. Its device calls are `read`, `write` and
/// `sync`. What it holds is told where it can be: a disk of a real file tells nothing.
pub trait Disk {
    /// What it shows: how many bytes an atom has, how many atoms there are, and how many bytes lie
    /// behind the last whole one; the current bytes and the tables after each device call, where
    /// they are told; and how many calls failed.
    ghost device: { Self → Device };

    /// How many bytes an atom has, 512 or 4096.
    fn atom(&self) -> u32
        ensures is { result ≡ (device self.now).size }
        ensures known { IsAtom result };

    /// How many atoms there are.
    fn atoms(&self) -> u64
        ensures is { result ≡ (device self.now).atoms }
        ensures fits { result * (device self.now).size < 2 ^ 63 };

    /// How many bytes lie behind the last whole atom. No call reaches them.
    fn tail(&self) -> u64
        ensures is { result ≡ (device self.now).tail };

    /// Reads whole atoms from atom `at` on. After a failure the buffer's content isn't to be used.
    fn read(&mut self, at: u64, buf: &mut [u8]) -> Result<(), Failed>
        requires { IsInDisk (device self.old).size (device self.old).atoms at (length buf.old) }
        ensures call { ReadCall (device self.old).size at buf.new
            (device self.old) (device self.new) result };

    /// Writes whole atoms from atom `at` on. After a failure each of them may hold the old value or
    /// the new one.
    fn write(&mut self, at: u64, bytes: &[u8]) -> Result<(), Failed>
        requires { IsInDisk (device self.old).size (device self.old).atoms at (length bytes.now) }
        ensures call { WriteCall (device self.old).size at bytes.now
            (device self.old) (device self.new) result };

    /// Waits until every write so far is certain to be kept.
    fn sync(&mut self) -> Result<(), Failed>
        ensures call { SyncCall (device self.old) (device self.new) result };

    /// Marks the device calls from here on with a number. It is no device call, takes no memory and
    /// never fails; on a disk that keeps no marks it does nothing.
    fn mark(&mut self, number: u64)
        ensures marked { device self.new ≡ marked (device self.old) number };

    /// How many device calls failed.
    fn faults(&self) -> u64
        ensures { result ≡ (device self.now).faults };

    // What holds of each disk.

    /// Its sizes are those of a disk.
    ghost geometry: { (d : Self) → IsDisk (device d).size (device d).atoms };

    /// It holds so many bytes.
    ghost whole: { (d : Self) (bytes : List ℕ) → (device d).values ≡ Some bytes →
        length bytes ≡ (device d).atoms * (device d).size };

    /// Each of the current bytes is below 256.
    ghost bytes: { (d : Self) (bytes : List ℕ) → (device d).values ≡ Some bytes →
        (k : ℕ) → slice_index bytes k < 256 };

    /// The current bytes are those of the current table.
    ghost agrees: { (d : Self) (t : Told) → (device d).told ≡ Some t
        → (device d).values ≡ Some (content t.now) };

    /// Each current value has an atom's bytes.
    ghost even: { (d : Self) (t : Told) → (device d).told ≡ Some t →
        lengths (currents t.now) ≡ replicate (device d).atoms (device d).size };

    /// Each current value is one of its atom's candidates.
    ghost held: { (d : Self) (t : Told) → (device d).told ≡ Some t → AreHeld t.now };

    /// Each candidate has an atom's bytes, so that an image is one of whole atoms.
    ghost sized: { (d : Self) (t : Told) → (device d).told ≡ Some t →
        AreSized (device d).size t.now };
}
