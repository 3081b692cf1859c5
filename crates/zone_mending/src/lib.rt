//! A zone of a conversion that a stop left open is written again (LUKS2 On-Disk Format Specification
//! 1.1, section 3.4). By a header a zone is open, guarded by a journal or by checksum; both copies on
//! the disk are this header, and no atom is in doubt, as after checks, a repair and a sync. What was
//! saved of the zone's blocks is read, part by part of at most 1 MiB. By journal these are the old
//! atoms, whatever stands in the zone; by checksum they are digests, and the part is read as it stands:
//! an atom whose digest was saved is an old one, any other is new. Each old atom is opened under the
//! old one of the keys handed in and sealed anew under the new one, each new one stays, and the part is
//! written where the zone has it, in rising order; a sync follows, and then the commit that moves the
//! boundary over the zone. It may be stopped anywhere and begun again: until the boundary is moved what
//! was saved stays as it is.
//!
//! The layer above may rely on [`Mending`]: the header to come and the buffer are made before
//! anything is written, and [`Mending::step`] makes exactly the device call that the state names,
//! with the bytes that it names. [`mendings_are_of_zones`] says what a disk shows of the zone behind
//! each.
#![tactic(auto)]

mod laws;
mod mender;
mod mending;
mod parts;
mod steps;
mod zone;

pub use laws::mendings_are_of_zones;
pub use mender::{MendCall, MendFault, Mender};
pub use mending::Mending;
pub use zone::has_zone;
