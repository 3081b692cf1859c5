//! The messages of the NBD protocol, each with a reader and a writer over bytes: the greeting and
//! the client's flags, the heads of an option and of its reply, what LIST, INFO and GO ask and are
//! told, the heads of a request, of a simple reply and of a chunk of a structured reply, and the
//! errors in chunks (the NBD protocol document, "Fixed newstyle negotiation" and "Transmission").
//! No call takes memory or fails, except that a reader refuses a message of another magic, and says
//! which number stood there, and data of another form. A command, an option, the type of a reply or
//! of a chunk, or a flag that has no name here is still a value, with its number: the layer above
//! answers it. That layer may rely on one definition a message, its text: a writer gives the text,
//! and a reader takes exactly the texts, each for the one message that it spells.
//!
//! `read_replies` has the reply to a READ as chunks ("Structured replies"), and what they spell.
#![tactic(auto)]

mod chunks;
mod exports;
mod fields;
mod handshake;
mod info_data;
mod info_replies;
mod list_replies;
mod magic;
mod option_replies;
mod options;
mod parts;
mod read_replies;
mod replies;
mod requests;
mod spelling;

pub use chunks::{
    ChunkFlags, ChunkHead, ChunkType, ErrorAt, error_data, error_number, offset_and_content,
};
pub use exports::{BlockSizes, ExportData, TransmissionFlags};
pub use handshake::{ClientFlags, Greeting, HandshakeFlags};
pub use info_data::InfoData;
pub use info_replies::InfoReplies;
pub use list_replies::{ListReplies, listed_name};
pub use magic::{
    BadMagic, CHUNK_MAGIC, GREETING_MAGIC, OPTION_MAGIC, OPTION_REPLY_MAGIC, REQUEST_MAGIC,
    SIMPLE_REPLY_MAGIC,
};
pub use option_replies::{OptionReplyHead, ReplyType};
pub use options::{OptionHead, OptionType};
pub use read_replies::{
    Chunk, Front, Outcome, Payload, ReadChunks, ReadReply, chunks_spell_the_reply,
    replies_are_told_apart,
};
pub use replies::SimpleReplyHead;
pub use requests::{CommandFlags, CommandType, RequestHead};
pub use spelling::texts_are_unique;
