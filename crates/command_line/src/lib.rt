//! The words of the program's command line, read by `clap`: which command they ask for, with every
//! value that it has, or that they ask for nothing. The layer above may rely on one definition of
//! what words ask for, `asked`: where `clap` takes them, the values that it finds, each of its form
//! and in its range, and the defaults of those that aren't given. Words that ask for nothing are
//! explained to a person by the texts of `clap`, without guesses at other words; so are those that
//! ask for help or for the version. Plain words are never refused: what they ask for
//! is what they say, by [`plain_words_are_taken`].
#![tactic(auto)]

mod command;
mod demonstrating;
mod explaining;
mod formatting;
mod item;
mod laws;
mod product;
mod resuming;
mod segment;
mod starting;
mod values;

pub use command::{Command, Refusal, Serve, Status, read_words};
pub use demonstrating::Demo;
pub use explaining::{asked_help, explain_words};
pub use formatting::Format;
pub use laws::plain_words_are_taken;
pub use resuming::Resume;
pub use segment::NewSegment;
pub use starting::{Guard, Init};
