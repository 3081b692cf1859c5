ghost use Rattle.std.specs.Prelude.{◌≡◌};
ghost use Rattle.luks_bin.specs.Fields.{is_size};

/// The sizes that a copy may have in bytes, its JSON area included, the least first. They are also
/// the places at which a secondary copy may stand (section 2.1, "Binary header").
pub const HEADER_SIZES: [u64; 9] = [
    16384, 32768, 65536, 131072, 262144, 524288, 1048576, 2097152, 4194304,
];

/// The binary header of one copy (section 2.1, the table of `luks2_hdr_disk`): all but what is the
/// same in each copy, and the checksum. Texts end at their first NUL.
#[derive(Clone, Copy, Debug, PartialEq, Eq)]
pub struct BinHeader {
    /// The bytes of the copy, its JSON area included: one of [`HEADER_SIZES`].
    pub hdr_size: u64,
    /// The number of the last commit: the copy of the higher one is used.
    pub seqid: u64,
    /// The volume's label.
    pub label: [u8; 48],
    /// Random bytes of this copy, which make its checksum differ from the other's.
    pub salt: [u8; 64],
    /// The volume's identifier, as text.
    pub uuid: [u8; 40],
    /// A second label, which udev's rules may use.
    pub subsystem: [u8; 48],
    /// The byte of the disk at which the copy stands: 0 for the primary, `hdr_size` for the
    /// secondary.
    pub hdr_offset: u64,
}

/// Why bytes don't begin with a copy of their place, in the order in which it is tested.
#[derive(Clone, Copy, Debug, PartialEq, Eq)]
pub enum BinFault {
    /// The first six bytes aren't the magic of a copy at that place.
    Magic,
    /// The version isn't 2.
    Version(u16),
    /// Either the size stated isn't one of [`HEADER_SIZES`], and then it is this number, or this is
    /// the number of bytes that are there, too few for the copy. Where there are fewer than the
    /// binary header's 4096 bytes this is tested first of all.
    Size(u64),
    /// The place stated, this number, isn't where the copy stands, or a secondary of another size
    /// than its place.
    Place(u64),
    /// The checksum's algorithm isn't SHA-256.
    Algorithm,
    /// The checksum's field doesn't hold the SHA-256 of the copy, with that field as zeros, and
    /// zeros behind it.
    Checksum {
        /// The whole field.
        stored: [u8; 64],
        /// The sum that belongs there.
        computed: [u8; 32],
    },
    /// The text at this byte of the copy has no NUL: label at 24, uuid at 168, subsystem at 208.
    Text(u64),
}

/// Whether a copy may have so many bytes, its JSON area included.
#[tactic(auto, unfolding(crate::specs::Fields::is_size))]
pub fn is_header_size(size: u64) -> bool
    ensures { result ≡ is_size size }
{
    HEADER_SIZES.iter().any(|s| *s == size)
}
