ghost use Rattle.nbd_session.specs.Spelling.{LanesAreSpelt, ReadsAreSpelt};

use nbd_wire::{chunks_spell_the_reply, replies_are_told_apart};

/// A law, with nothing to run: the chunks by which a session answers a READ spell what the READ
/// came to, from its own offset on and with "done" on the last alone: the content that the port
/// gave, of as many bytes as the READ asked for, or its error, or the error with which the session
/// itself answered. It is one chunk where the READ asked for that. A client that takes chunks from
/// there which spell an answer reads this one, and comes to the bytes behind it; the session's own
/// are such chunks. So it is with one request in flight (`sessions`) and in each lane with several
/// (`lanes`).
pub fn reads_are_spelt()
    ensures sessions { ReadsAreSpelt }
    ensures lanes { LanesAreSpelt }
{
    chunks_spell_the_reply();
    replies_are_told_apart();
}
