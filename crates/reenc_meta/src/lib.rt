//! What a LUKS2 header says of a volume: where its blocks lie on the disk, and how they are
//! sealed there (LUKS2 On-Disk Format Specification 1.1, sections 3.3 and 3.4); and how that goes
//! on while the volume is converted from an old segment into a new one. A volume lies on the main
//! disk; where its header has a disk of its own, that one comes in front of it, and places are
//! counted over both.
//!
//! The layer above may rely on `IsPlacementOf`: the map of the volume's blocks, and the segment of
//! each of its sides. [`place_idle`] answers it from a header that breaks no rule and of which
//! nothing is being converted, and with it all that a volume asks of its map: the map fits the
//! disk, no two blocks have one place, none lies on the header or on the keyslots' areas, and
//! sectors and their numbers fit the blocks. So nothing above looks into the objects of a header
//! for these.
//!
//! Of a conversion it may rely on [`Reenc`]: the metadata with which one begins (`started`), those
//! with a zone opened or the boundary moved on (`laid_out_by`), and those with which it ends
//! (`finished`). Each call says what its metadata are, that they break no rule, and that they are
//! read as what comes next; [`Reenc::map`] says where each block lies meanwhile, as the live
//! segments have it.
//!
//! The calls that make metadata take memory, the others none.
#![tactic(auto)]

mod finishing;
mod laws;
mod layout;
mod placement;
mod reenc;
mod runs;
mod starting;
mod token;
mod wish;

pub use laws::placements_are_one;
pub use placement::{Placement, base_atom, place_idle};
pub use reenc::Reenc;
pub use wish::Wish;
