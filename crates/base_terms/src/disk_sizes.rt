// The sizes of the disks that a header speaks of, as they are told by the disk that is read and
// asked for by the rules that a header is judged by. It stands below both, so that neither needs
// the other.

/// The sizes of the disks that a header speaks of.
#[derive(Clone, Copy, Debug, PartialEq, Eq)]
pub struct Sizes {
    /// Bytes of an atom, the least that the disks read or write at once.
    pub atom: u32,
    /// Whole atoms of the disk that holds the header.
    pub header_atoms: u64,
    /// Whole atoms of the disk that holds the segments; the same disk unless the header is
    /// detached.
    pub main_atoms: u64,
    /// Whether the header lies on a disk of its own.
    pub detached: bool,
}
