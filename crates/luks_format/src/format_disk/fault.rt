// Why no volume is made.

/// What doesn't fit, the first in this order; or memory was wanted, which may come before any.
#[derive(Clone, Copy, PartialEq, Eq)]
pub enum FormatFault {
    Memory,
    /// The keyslot's area has more bytes than the keyslots area; or the copies of the header and
    /// the keyslots area have more than the header's disk, where that is one of its own.
    Area { wanted: u64, gap: u64 },
    /// The header's text is longer than its area less one byte.
    Json { len: u64, limit: u64 },
    /// The passphrase doesn't have 1 to 512 bytes, but so many.
    Passphrase { len: u64 },
    /// The disk of the data has no block behind the data's offset.
    Blocks,
}
