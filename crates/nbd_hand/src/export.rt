ghost use Rattle.std.specs.Prelude.{◌≡◌};
ghost use Rattle.nbd_hand.specs.Exports.{export_data, block_sizes};

use nbd_wire::{BlockSizes, ExportData, TransmissionFlags};
use plain_disk::MAX_READ;

/// The block that a client is to prefer, in bytes.
const PREFERRED_BLOCK: u32 = 4096;

/// What a session serves: the session's number, and the volume's bytes in blocks of `atom` bytes.
#[derive(Clone, Copy)]
pub struct Export {
    pub number: u64,
    pub size: u64,
    pub atom: u32,
}

impl Export {
    /// The size and the flags: flushes, forced writes and zeroes are served, on any number of
    /// connections, and reads in one chunk where structured replies were agreed on.
    pub fn data(&self, structured: bool) -> ExportData
        ensures { result ≡ export_data self.now structured }
    {
        let flags = TransmissionFlags::HAS_FLAGS
            .union(TransmissionFlags::SEND_FLUSH)
            .union(TransmissionFlags::SEND_FUA)
            .union(TransmissionFlags::SEND_WRITE_ZEROES)
            .union(TransmissionFlags::CAN_MULTI_CONN);
        ExportData {
            size: self.size,
            flags: if structured {
                flags.union(TransmissionFlags::SEND_DF)
            } else {
                flags
            },
        }
    }

    /// The sizes of blocks.
    pub fn blocks(&self) -> BlockSizes
        ensures { result ≡ block_sizes self.now }
    {
        BlockSizes {
            minimum: self.atom,
            preferred: PREFERRED_BLOCK,
            maximum: MAX_READ,
        }
    }
}
