//! What a LUKS2 header says, for people: its identifier, its number, the volume or the conversion
//! that is under way, and its keyslots, line by line. The layer above may rely on one definition of
//! the text, `report_of` of a header that was loaded; and on [`examine`], which reads a disk's
//! header, tells it or why there is none, and writes nothing. [`copy_notice`] says of a copy that it
//! isn't as the other one.
#![tactic(auto)]

mod copies;
mod fault_text;
mod lines;
mod reading;
mod text;

pub use copies::copy_notice;
pub use fault_text::FaultText;
pub use reading::{Examined, examine};
pub use text::report;
