//! What the header of a volume becomes when its conversion begins (LUKS2 On-Disk Format
//! Specification 1.1, section 3): a function of the header, of what is wished, of a passphrase and
//! of bytes that were drawn. Nothing is drawn here.
//!
//! The layer above may rely on [`begin`]: of a header of which nothing is being converted, and
//! whose segment is encrypted, it makes the metadata of a conversion of which nothing is done. The
//! keyslot of the new key, which the passphrase opens, has its area at the lowest place in the
//! keyslots area with room, and the area that guards zones the lowest one besides it. The metadata
//! break no rule, and their text fits the copies of the header. Else it says what stands in the
//! way, the first in the order of [`InitFault`]. The law beneath is
//! [`begun_conversions_may_start`]: areas at the lowest places leave the volume with room for its
//! conversion.
//!
//! `init_disk` begins the conversion on a disk: it reads, tries the keyslots, checks, and writes.
#![tactic(auto)]

mod beginning;
mod fault;
mod init_disk;
mod laws;
mod places;
mod wish;

pub use beginning::{Begun, begin};
pub use fault::InitFault;
pub use init_disk::{
    MakeFault, Refusal, Started, Unstarted, begin_conversion, slots_keep_contents,
};
pub use laws::begun_conversions_may_start;
pub use places::Places;
pub use wish::{Guard, Wish};
