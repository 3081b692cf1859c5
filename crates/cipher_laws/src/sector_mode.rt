// A mode of a block cipher: a sector under its number, and sectors in a row.

ghost use Rattle.std.specs.Prelude.{◌≡◌, ℕ, ◌+◌, ◌/◌, ◌%◌, ◌^◌, ◌<◌, List, length};
ghost use Rattle.cipher_laws.specs.Laws.{KeepsLengths, GivesBytes, UndoesSectors};
ghost use Rattle.cipher_laws.specs.Sectors.{by_sectors};

/// A mode of a block cipher, with its keys: it works on a sector of whole blocks, under the
/// sector's number, and on sectors in a row.
pub trait SectorMode {
    // what the bytes of the sector with this number become when they are sealed, and unsealed
    ghost sealed: { Self → ℕ → List ℕ → List ℕ };

    ghost opened: { Self → ℕ → List ℕ → List ℕ };

    /// Encrypts the sector where it lies. Its length is a multiple of 16 bytes. What works on disks
    /// calls `seal_sectors`; this is for a sector of another length, as published vectors have.
    fn seal_sector(&self, number: u64, sector: &mut [u8])
        requires { length sector.old % 16 ≡ 0 }
        ensures { sector.new ≡ sealed self.now number sector.old };

    /// Decrypts the sector where it lies. Its length is a multiple of 16 bytes.
    fn unseal_sector(&self, number: u64, sector: &mut [u8])
        requires { length sector.old % 16 ≡ 0 }
        ensures { sector.new ≡ opened self.now number sector.old };

    /// Encrypts sectors of `size` bytes in a row where they lie. The first has the number `first`,
    /// and every 512 bytes raise the number by one. `first` and the units of 512 bytes together
    /// don't pass the largest `u64`.
    fn seal_sectors(&self, size: usize, first: u64, bytes: &mut [u8])
        requires some { 0 < size }
        requires units { size % 512 ≡ 0 }
        requires whole { length bytes.old % size ≡ 0 }
        requires in_range { first + length bytes.old / 512 < 2 ^ 64 }
        ensures { bytes.new ≡ by_sectors (sealed self.now) size first bytes.old };

    /// Decrypts sectors in a row where they lie, under the same conditions.
    fn unseal_sectors(&self, size: usize, first: u64, bytes: &mut [u8])
        requires some { 0 < size }
        requires units { size % 512 ≡ 0 }
        requires whole { length bytes.old % size ≡ 0 }
        requires in_range { first + length bytes.old / 512 < 2 ^ 64 }
        ensures { bytes.new ≡ by_sectors (opened self.now) size first bytes.old };

    ghost sealed_length: { (m : Self) → KeepsLengths 16 (sealed m) };

    ghost opened_length: { (m : Self) → KeepsLengths 16 (opened m) };

    ghost sealed_bytes: { (m : Self) → GivesBytes 16 (sealed m) };

    ghost opened_bytes: { (m : Self) → GivesBytes 16 (opened m) };

    ghost unseal_undoes_seal: { (m : Self) → UndoesSectors 16 (opened m) (sealed m) };

    ghost seal_undoes_unseal: { (m : Self) → UndoesSectors 16 (sealed m) (opened m) };
}
