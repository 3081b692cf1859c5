//! How the messages of a session of the NBD protocol are taken from its client and put to it, and
//! how a session may end. A message is taken by its head and then its data, however the source
//! gives its bytes in pieces, and counted; one is put in one piece or more, counted where they went
//! whole, and let out.
//!
//! The layer above may rely on what went between two moments of a session (`Moments`): these bytes
//! were taken from the source, from the front of what was left, and these went to the sink. What
//! was wanted comes whole, or short only by the end of the input or by a fault of the source, whose
//! count then rose; a text goes whole, or a front of it where the sink's count rose. No call takes
//! memory but `take_data`, which grows the buffer that it is lent.
#![tactic(auto)]

mod ending;
mod filling;
mod putting;
mod taking;
mod tally;

pub use ending::Ending;
pub use filling::Filled;
pub use putting::{put_message, put_piece};
pub use taking::{Data, take_data, take_head, take_past};
pub use tally::Tally;
