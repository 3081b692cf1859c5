ghost use Rattle.std.specs.Prelude.{◌≡◌, ◌↔◌, ◌≤◌, ℕ, List, take, length, Ok};
ghost use Rattle.luks_bin.specs.Copies.{copy_of, size_of, BeginsWithCopy};
ghost use Rattle.luks_bin.specs.declared.header.BinHeader.{BinHeader};

/// A law, with nothing to run: which bytes are a copy, in plain words.
pub fn copies_are_spelt()
    ensures { (place : ℕ) (bytes : List ℕ) (h : BinHeader)
        → (copy_of place bytes ≡ Ok h) ↔ BeginsWithCopy place bytes h }
{}

/// A law, with nothing to run: the size of a copy is told by its first 4096 bytes.
pub fn sizes_are_told_by_heads()
    ensures { (place there : ℕ) (bytes : List ℕ)
        → size_of place there (take 4096 bytes) ≡ size_of place there bytes }
{}

/// A law, with nothing to run: bytes that have a copy's size begin with a copy exactly where as
/// many of them do.
pub fn copies_are_their_fronts()
    ensures { (place size : ℕ) (bytes : List ℕ) → size_of place (length bytes) bytes ≡ Ok size
        → copy_of place (take size bytes) ≡ copy_of place bytes }
{}
