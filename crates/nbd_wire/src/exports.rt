ghost use Rattle.std.specs.Prelude.{◌≡◌, ◌++◌, replicate, IfSome, Some};
ghost use Rattle.std.specs.Int.RustNames.{bit_or};
ghost use Rattle.nbd_wire.specs.Exports.{IsExport, IsBlockSizes, export_text, export_info_text};
ghost use Rattle.nbd_wire.specs.Exports.{block_size_text};

use crate::fields::{u16_at, u32_at, u64_at};

/// The information type of an export ("NBD_INFO_EXPORT").
const INFO_EXPORT: u16 = 0;

/// That of the sizes of its blocks ("NBD_INFO_BLOCK_SIZE").
const INFO_BLOCK_SIZE: u16 = 3;

/// The set of an export's flags ("Transmission flags").
#[derive(Clone, Copy, Debug, PartialEq, Eq)]
pub struct TransmissionFlags {
    pub bits: u16,
}

impl TransmissionFlags {
    /// There are flags, which every server says.
    pub const HAS_FLAGS: TransmissionFlags = TransmissionFlags { bits: 1 };

    /// Writes are refused.
    pub const READ_ONLY: TransmissionFlags = TransmissionFlags { bits: 2 };

    /// The command FLUSH is served.
    pub const SEND_FLUSH: TransmissionFlags = TransmissionFlags { bits: 4 };

    /// The command flag FUA is served.
    pub const SEND_FUA: TransmissionFlags = TransmissionFlags { bits: 8 };

    /// The command TRIM is served.
    pub const SEND_TRIM: TransmissionFlags = TransmissionFlags { bits: 32 };

    /// The command WRITE_ZEROES is served.
    pub const SEND_WRITE_ZEROES: TransmissionFlags = TransmissionFlags { bits: 64 };

    /// The command flag DF ("don't fragment") is served.
    pub const SEND_DF: TransmissionFlags = TransmissionFlags { bits: 128 };

    /// A flush on one connection covers the writes that were answered on every other.
    pub const CAN_MULTI_CONN: TransmissionFlags = TransmissionFlags { bits: 256 };

    /// The flags of both sets.
    pub fn union(self, other: TransmissionFlags) -> TransmissionFlags
        ensures { result.bits ≡ bit_or self.bits other.bits }
    {
        TransmissionFlags {
            bits: self.bits | other.bits,
        }
    }
}

/// An export: its size in bytes and its flags.
#[derive(Clone, Copy, Debug, PartialEq, Eq)]
pub struct ExportData {
    pub size: u64,
    pub flags: TransmissionFlags,
}

impl ExportData {
    /// The export that the answer to EXPORT_NAME spells, the zeros left out; each ten bytes spell
    /// one.
    pub fn read(bytes: &[u8; 10]) -> ExportData
        ensures taken { IsExport result }
        ensures text { export_text result ≡ bytes.now }
    {
        ExportData {
            size: u64_at(bytes, 0),
            flags: TransmissionFlags {
                bits: u16_at(bytes, 8),
            },
        }
    }

    /// The answer to EXPORT_NAME where both sides agreed to leave out the zeros.
    #[tactic(auto, unfolding(crate::specs::Exports::export_text, crate::specs::Fields::u16_text, crate::specs::Fields::u64_text))]
    pub fn write(self) -> [u8; 10]
        ensures { result ≡ export_text self }
    {
        let s = self.size.to_be_bytes();
        let f = self.flags.bits.to_be_bytes();
        [s[0], s[1], s[2], s[3], s[4], s[5], s[6], s[7], f[0], f[1]]
    }

    /// The answer to EXPORT_NAME with its 124 zeros.
    pub fn write_with_zeroes(self) -> [u8; 134]
        ensures { result ≡ export_text self ++ replicate 124 0 }
    {
        let mut bytes = [0; 134];
        bytes[..10].copy_from_slice(&self.write());
        bytes
    }

    /// The export that the data of an INFO reply spells. None where it is of another type.
    pub fn read_info(bytes: &[u8; 12]) -> Option<ExportData>
        ensures taken { IfSome result
            (λ export. IsExport export × (export_info_text export ≡ bytes.now)) }
        ensures only { (export : ExportData) → IsExport export → export_info_text export ≡ bytes.now
            → result ≡ Some export }
    {
        if u16_at(bytes, 0) != INFO_EXPORT {
            return None;
        }
        Some(ExportData {
            size: u64_at(bytes, 2),
            flags: TransmissionFlags {
                bits: u16_at(bytes, 10),
            },
        })
    }

    /// The data of an INFO reply that says the same ("NBD_INFO_EXPORT").
    #[tactic(auto, unfolding(crate::specs::Exports::export_info_text, crate::specs::Fields::u16_text, crate::specs::Fields::u64_text))]
    pub fn write_info(self) -> [u8; 12]
        ensures { result ≡ export_info_text self }
    {
        let s = self.size.to_be_bytes();
        let f = self.flags.bits.to_be_bytes();
        [
            0, 0, s[0], s[1], s[2], s[3], s[4], s[5], s[6], s[7], f[0], f[1],
        ]
    }
}

/// The sizes in bytes of the blocks that a client is to ask for: the least, which every offset and
/// length is a multiple of, the preferred, and the most that one request may have.
#[derive(Clone, Copy, Debug, PartialEq, Eq)]
pub struct BlockSizes {
    pub minimum: u32,
    pub preferred: u32,
    pub maximum: u32,
}

impl BlockSizes {
    /// The sizes that the data of an INFO reply spells. None where it is of another type.
    pub fn read_info(bytes: &[u8; 14]) -> Option<BlockSizes>
        ensures taken { IfSome result
            (λ blocks. IsBlockSizes blocks × (block_size_text blocks ≡ bytes.now)) }
        ensures only { (blocks : BlockSizes) → IsBlockSizes blocks
            → block_size_text blocks ≡ bytes.now → result ≡ Some blocks }
    {
        if u16_at(bytes, 0) != INFO_BLOCK_SIZE {
            return None;
        }
        Some(BlockSizes {
            minimum: u32_at(bytes, 2),
            preferred: u32_at(bytes, 6),
            maximum: u32_at(bytes, 10),
        })
    }

    /// The data of an INFO reply that says them ("NBD_INFO_BLOCK_SIZE").
    #[tactic(auto, unfolding(crate::specs::Exports::block_size_text, crate::specs::Fields::u16_text, crate::specs::Fields::u32_text))]
    pub fn write_info(self) -> [u8; 14]
        ensures { result ≡ block_size_text self }
    {
        let l = self.minimum.to_be_bytes();
        let p = self.preferred.to_be_bytes();
        let m = self.maximum.to_be_bytes();
        [
            0, 3, l[0], l[1], l[2], l[3], p[0], p[1], p[2], p[3], m[0], m[1], m[2], m[3],
        ]
    }
}
