ghost use Rattle.std.specs.Prelude.{◌≡◌, ◌≢◌, ◌<◌, ◌^◌, IfOk, IfErr, take};
ghost use Rattle.nbd_wire.specs.Fields.{u32_text};
ghost use Rattle.nbd_wire.specs.Replies.{IsSimpleReplyHead, simple_reply_text};
ghost use Rattle.nbd_wire.specs.Magic.{simple_reply_magic};

use crate::fields::{u32_at, u64_at};
use crate::parts::put;
use crate::{BadMagic, SIMPLE_REPLY_MAGIC};

/// The head of a simple reply ("Simple reply message"): the number of an error ("Error values"), 0
/// of none, and the cookie of the request. Behind the head of a read without error come its data.
#[derive(Clone, Copy, Debug, PartialEq, Eq)]
pub struct SimpleReplyHead {
    pub error: u32,
    pub cookie: u64,
}

impl SimpleReplyHead {
    /// The head that these bytes spell. Fails only where they don't begin with
    /// `SIMPLE_REPLY_MAGIC`.
    pub fn read(bytes: &[u8; 16]) -> Result<SimpleReplyHead, BadMagic>
        ensures taken { IfOk result
            (λ head. IsSimpleReplyHead head × (simple_reply_text head ≡ bytes.now)) }
        ensures only { (head : SimpleReplyHead) → IsSimpleReplyHead head
            → simple_reply_text head ≡ bytes.now → result ≡ Ok head }
        ensures refused { IfErr result
            (λ bad. (u32_text bad.number ≡ take 4 bytes.now) × (bad.number ≢ simple_reply_magic)) }
        ensures fits { IfErr result (λ bad. bad.number < 2 ^ 32) }
    {
        let magic = u32_at(bytes, 0);
        if magic != SIMPLE_REPLY_MAGIC {
            return Err(BadMagic {
                number: u64::from(magic),
            });
        }
        Ok(SimpleReplyHead {
            error: u32_at(bytes, 4),
            cookie: u64_at(bytes, 8),
        })
    }

    /// The bytes of the head.
    #[tactic(auto, unfolding(crate::specs::Replies::simple_reply_text, crate::specs::Fields::u32_text, crate::specs::Fields::u64_text))]
    pub fn write(self) -> [u8; 16]
        ensures { result ≡ simple_reply_text self }
    {
        // whole fields, which take fewer instructions than their bytes
        let mut bytes = [0; 16];
        put(&mut bytes, 0, &SIMPLE_REPLY_MAGIC.to_be_bytes());
        put(&mut bytes, 4, &self.error.to_be_bytes());
        put(&mut bytes, 8, &self.cookie.to_be_bytes());
        bytes
    }
}
