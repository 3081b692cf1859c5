ghost use Rattle.nbd_wire.specs.Chunks.{IsChunkHead, chunk_head_text};
ghost use Rattle.nbd_wire.specs.Handshake.{IsGreeting, greeting_text};
ghost use Rattle.nbd_wire.specs.OptionReplies.{IsOptionReplyHead, option_reply_text};
ghost use Rattle.nbd_wire.specs.Options.{IsOptionHead, option_text};
ghost use Rattle.nbd_wire.specs.Replies.{IsSimpleReplyHead, simple_reply_text};
ghost use Rattle.nbd_wire.specs.Requests.{IsRequestHead, request_text};
ghost use Rattle.nbd_wire.specs.Spelling.{IsSpelling};

/// A law, with nothing to run: all texts of one kind have the same length, and each is that of one
/// message. So messages that stand one behind the other are told apart in one way alone.
pub fn texts_are_unique()
    ensures greetings { IsSpelling IsGreeting greeting_text 18 }
    ensures option_heads { IsSpelling IsOptionHead option_text 16 }
    ensures option_reply_heads { IsSpelling IsOptionReplyHead option_reply_text 20 }
    ensures request_heads { IsSpelling IsRequestHead request_text 28 }
    ensures simple_reply_heads { IsSpelling IsSimpleReplyHead simple_reply_text 16 }
    ensures chunk_heads { IsSpelling IsChunkHead chunk_head_text 20 }
{}
