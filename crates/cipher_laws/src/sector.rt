// A cipher of runs of sectors, as a disk holds them.

ghost use Rattle.std.specs.Prelude.{◌≡◌, ℕ, ◌+◌, ◌/◌, ◌%◌, ◌^◌, ◌<◌, List, length};
ghost use Rattle.cipher_laws.specs.Laws.{KeepsLengths, GivesBytes, UndoesSectors, JoinsSectors};

/// A cipher of sectors with its keys: it works on whole sectors in a row, whose first 512 bytes
/// have the IV number `first`. Each further 512 bytes raise the number by one, whatever the size
/// of a sector.
pub trait SectorCipher {
    // bytes of a sector, a multiple of 512
    ghost sector: { Self → ℕ };

    // what bytes become when they are sealed, and unsealed, under the IV number of their first 512
    ghost sealed: { Self → ℕ → List ℕ → List ℕ };

    ghost opened: { Self → ℕ → List ℕ → List ℕ };

    /// Encrypts whole sectors where they lie. `first` and the bytes' units of 512 together don't
    /// pass the largest `u64`.
    fn seal_atom(&self, first: u64, bytes: &mut [u8])
        requires whole { length bytes.old % sector self.now ≡ 0 }
        requires in_range { first + length bytes.old / 512 < 2 ^ 64 }
        ensures { bytes.new ≡ sealed self.now first bytes.old };

    /// Decrypts whole sectors where they lie, under the same conditions.
    fn unseal_atom(&self, first: u64, bytes: &mut [u8])
        requires whole { length bytes.old % sector self.now ≡ 0 }
        requires in_range { first + length bytes.old / 512 < 2 ^ 64 }
        ensures { bytes.new ≡ opened self.now first bytes.old };

    ghost some_sector: { (c : Self) → 0 < sector c };

    ghost sector_units: { (c : Self) → sector c % 512 ≡ 0 };

    ghost sealed_length: { (c : Self) → KeepsLengths (sector c) (sealed c) };

    ghost opened_length: { (c : Self) → KeepsLengths (sector c) (opened c) };

    ghost sealed_bytes: { (c : Self) → GivesBytes (sector c) (sealed c) };

    ghost opened_bytes: { (c : Self) → GivesBytes (sector c) (opened c) };

    ghost unseal_undoes_seal: { (c : Self) → UndoesSectors (sector c) (opened c) (sealed c) };

    ghost seal_undoes_unseal: { (c : Self) → UndoesSectors (sector c) (sealed c) (opened c) };

    ghost sealed_joined: { (c : Self) → JoinsSectors (sector c) (sealed c) };

    ghost opened_joined: { (c : Self) → JoinsSectors (sector c) (opened c) };
}
