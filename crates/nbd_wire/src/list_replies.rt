ghost use Rattle.std.specs.Prelude.{◌≡◌, ◌+◌, ◌<◌, ◌^◌, ℕ, List, length, IfSome, MatchOption};
ghost use Rattle.nbd_wire.specs.InfoReplies.{reply_head};
ghost use Rattle.nbd_wire.specs.ListReplies.{list_replies_text, name_text};
ghost use Rattle.nbd_wire.specs.OptionReplies.{option_reply_text};

use crate::fields::u32_at;
use crate::parts::put;
use crate::{OptionReplyHead, OptionType, ReplyType};

/// The answer to LIST where there is one export ("NBD_OPT_LIST"): a reply that names it, and the
/// acknowledgement.
#[derive(Clone, Copy)]
pub struct ListReplies<'a> {
    /// The name of the export.
    pub name: &'a [u8],
}

impl<'a> ListReplies<'a> {
    /// Writes the two replies over a buffer of just their length, 44 bytes beside the name.
    #[tactic(auto, unfolding(crate::specs::ListReplies::list_replies_text))]
    pub fn write(&self, bytes: &mut [u8])
        requires name { 4 + length self.now.name.now < 2 ^ 32 }
        requires room { length bytes.old ≡ 44 + length self.now.name.now }
        ensures { bytes.new ≡ list_replies_text self.now.name.now }
    {
        let length = self.name.len();
        put(bytes, 0, &head(ReplyType::Server, 4 + length as u32));
        put(bytes, 20, &(length as u32).to_be_bytes());
        put(bytes, 24, self.name);
        put(bytes, 24 + length, &head(ReplyType::Ack, 0));
    }
}

/// The head of a reply to LIST.
fn head(reply: ReplyType, length: u32) -> [u8; 20]
    ensures { result ≡ option_reply_text (reply_head OptionType.List reply length) }
{
    OptionReplyHead {
        option: OptionType::List,
        reply,
        length,
    }
    .write()
}

/// The name that the data of a reply to LIST spells ("NBD_REP_SERVER"): a u32 length, and the name.
/// None where the data isn't exactly this.
pub fn listed_name(bytes: &[u8]) -> Option<&[u8]>
    ensures taken { IfSome result
        (λ name. (length name.now < 2 ^ 32) × (name_text name.now ≡ bytes.now)) }
    ensures only { (name : List ℕ) → length name < 2 ^ 32 → name_text name ≡ bytes.now
        → MatchOption result ⊥ (λ found. found.now ≡ name) }
{
    if bytes.len() < 4 {
        return None;
    }
    let length = u32_at(bytes, 0) as usize;
    if bytes.len() != 4 + length {
        return None;
    }
    Some(&bytes[4..])
}
