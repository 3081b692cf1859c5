ghost use Rattle.std.specs.Prelude.{◌≡◌, ◌≤◌, ◌++◌, ◌∷◌, [], ℕ, List, length, IfOk, IfNone, IfSome};
ghost use Rattle.std.specs.Prelude.{MatchBool, MatchOption};
ghost use Rattle.io_edge.specs.Memory.{Input, Output};
ghost use Rattle.demo_clients.specs.Operations.{operations_on};
ghost use Rattle.demo_clients.specs.Replies.{AreReadBack, IsLinkReadBack};

use crate::ClientLink;
use crate::contents::share_at;
use crate::replies::add_session;
use std::alloc::{AllocError, Global};

/// All that the client of a link was put, whose only connection was handed back; None of a link that
/// wasn't handed back just one.
fn output_of(link: &ClientLink) -> Option<&[u8]>
    ensures { MatchOption result
        ((connection : Input × Output) → link.now.handed ≡ connection ∷ [] → ⊥)
        (λ had. (connection : Input × Output) × (link.now.handed ≡ connection ∷ [])
        × (had.now ≡ connection.1.had)) }
{
    let [connection] = link.handed() else {
        return None;
    };
    Some(connection.1.as_slice())
}

/// Puts what the reads of a link's client, which has so many blocks, were answered behind the
/// content; false where that isn't whole, or a reply among it is an error.
fn add_link(link: &ClientLink, blocks: u32, content: &mut Vec<u8>) -> Result<bool, AllocError>
    requires { blocks ≤ 16384 }
    ensures { (seed first : ℕ) → IfOk result (λ is_whole. MatchBool is_whole
        ((own : List ℕ) × (content.new.items ≡ content.old.items ++ own)
        × IsLinkReadBack (operations_on seed first blocks) link.now own)
        ((own : List ℕ) → IsLinkReadBack (operations_on seed first blocks) link.now own → ⊥)) }
{
    let Some(had) = output_of(link) else {
        return Ok(false);
    };
    add_session(had, blocks, content)
}

/// What the reads of all clients were answered, in order of the blocks, by all that the links were
/// handed back: link `i` of so many has the connection of session `i`. None where a link wasn't
/// handed back just one connection, where its client wasn't put a reply to each request, or where
/// one of these is an error.
pub fn read_back(
    alloc: Global,
    links: &[ClientLink],
    blocks: u32,
) -> Result<Option<Vec<u8>>, AllocError>
    requires blocks { blocks ≤ 16384 }
    requires links { length links.now ≤ 16 }
    ensures read { (seed : ℕ) → IfOk result (λ found. IfSome found (λ content.
        AreReadBack seed blocks (length links.now) 0 links.now content.items)) }
    ensures unread { (seed : ℕ) → IfOk result (λ found. IfNone found ((content : List ℕ) →
        AreReadBack seed blocks (length links.now) 0 links.now content → ⊥)) }
{
    let workers = links.len() as u32;
    let mut content = Vec::new(alloc);
    'links: for session in 0..workers {
        let share = share_at(session, blocks, workers);
        if !add_link(&links[session as usize], share.count, &mut content)? {
            return Ok(None);
        }
    }
    Ok(Some(content))
}
