// The reply to a READ under structured replies (the NBD protocol document, "Structured replies"):
// chunks, each with a head, and the last one with "done" on it. The bytes of a range come in
// chunks of a MiB and one for what is behind, or in one where the client asks for that; a READ of
// no bytes is answered by a chunk that holds nothing, and one that failed by the number of its
// error, which isn't 0, with the offset where it came, if that is known. All offsets count from
// the start of the export. No call takes memory or fails.
//
// The layer above may rely on one definition, what the chunks of a reply spell: bytes from its
// offset on, in order, each once, or an error. `ReadChunks` gives the chunks of a reply one after
// the other; these chunks spell that reply, and no chunks spell two. The text of a chunk is its
// front and, behind it, its bytes of the export, which stay where they are.

mod chunk;
mod front;
mod reply;
mod spelling;

pub use chunk::{Chunk, Payload};
pub use front::Front;
pub use reply::{Outcome, ReadChunks, ReadReply};
pub use spelling::{chunks_spell_the_reply, replies_are_told_apart};
