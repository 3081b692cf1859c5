// What a client was put, read as the client reads it.

ghost use Rattle.std.specs.Prelude.{◌≡◌, ◌≤◌, ◌++◌, ℕ, List, IfOk, MatchBool, MatchOption};
ghost use Rattle.demo_clients.specs.Operations.{operations_on};
ghost use Rattle.demo_clients.specs.Replies.{AreFirstReplies, IsFirstReply, IsReadBack};

use crate::contents::BLOCK;
use nbd_wire::SimpleReplyHead;
use std::alloc::AllocError;

/// How many bytes a client is put before its first reply: the greeting, and the answer to GO.
const HAND: usize = 104;

/// The data of the reply that stands first, of so many bytes and without error, and what is behind
/// it; None where no such reply stands there.
fn first_reply(text: &[u8], size: usize) -> Option<(&[u8], &[u8])>
    ensures { MatchOption result
        ((own behind : List ℕ) → IsFirstReply size text.now own behind → ⊥)
        (λ parts. IsFirstReply size text.now parts.0.now parts.1.now) }
{
    let Some((head, rest)) = text.split_first_chunk::<16>() else {
        return None;
    };
    let Ok(head) = SimpleReplyHead::read(head) else {
        return None;
    };
    if head.error != 0 {
        return None;
    }
    if rest.len() < size {
        return None;
    }
    Some(rest.split_at(size))
}

/// Puts the data of so many first replies, each of so many bytes and without error, behind the
/// content, and gives what is behind them; None where there are no such replies.
fn take_replies<'a>(
    text: &'a [u8],
    count: u32,
    size: usize,
    content: &mut Vec<u8>,
) -> Result<Option<&'a [u8]>, AllocError>
    ensures { IfOk result (λ found. MatchOption found
        ((own behind : List ℕ) → AreFirstReplies count size text.now own behind → ⊥)
        (λ behind. (own : List ℕ) × (content.new.items ≡ content.old.items ++ own)
        × AreFirstReplies count size text.now own behind.now)) }
{
    let mut rest = text;
    'replies: for _ in 0..count {
        let Some((own, behind)) = first_reply(rest, size) else {
            return Ok(None);
        };
        content.extend_from_slice(own)?;
        rest = behind;
    }
    Ok(Some(rest))
}

/// Puts what the reads of a client with so many blocks were answered behind the content, by all that
/// the client was put; false where that isn't whole, or a reply among it is an error.
pub(crate) fn add_session(
    had: &[u8],
    blocks: u32,
    content: &mut Vec<u8>,
) -> Result<bool, AllocError>
    requires { blocks ≤ 16384 }
    ensures { (seed first : ℕ) → IfOk result (λ is_whole. MatchBool is_whole
        ((own : List ℕ) × (content.new.items ≡ content.old.items ++ own)
        × IsReadBack (operations_on seed first blocks) had.now own)
        ((own : List ℕ) → IsReadBack (operations_on seed first blocks) had.now own → ⊥)) }
{
    if had.len() < HAND {
        return Ok(false);
    }
    let Some(reads) = take_replies(&had[HAND..], blocks + 1, 0, content)? else {
        return Ok(false);
    };
    let Some(rest) = take_replies(reads, blocks, BLOCK as usize, content)? else {
        return Ok(false);
    };
    Ok(rest.is_empty())
}
