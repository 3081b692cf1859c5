ghost use Rattle.std.specs.Prelude.{◌≡◌, ◌≢◌, IfOk, IfErr, take};
ghost use Rattle.nbd_wire.specs.Fields.{u64_text};
ghost use Rattle.nbd_wire.specs.OptionReplies.{IsOptionReplyHead, reply_type_number, reply_type_of};
ghost use Rattle.nbd_wire.specs.OptionReplies.{option_reply_text};
ghost use Rattle.nbd_wire.specs.Magic.{option_reply_magic};

use crate::fields::{u32_at, u64_at};
use crate::{BadMagic, OPTION_REPLY_MAGIC, OptionType};

/// What an option is answered ("Option reply types"). A type without a name here is `Other`, with
/// its number; those from 2^31 on are errors.
#[derive(Clone, Copy, Debug, PartialEq, Eq)]
pub enum ReplyType {
    Ack,
    Server,
    Info,
    /// The server doesn't know the option.
    Unsup,
    /// The server doesn't allow the option.
    Policy,
    /// The option's data is malformed.
    Invalid,
    /// There is no such export.
    Unknown,
    /// The option's data is too long.
    TooBig,
    Other(u32),
}

impl ReplyType {
    /// The reply type of a number.
    pub fn from_number(number: u32) -> ReplyType
        ensures is { result ≡ reply_type_of number }
        ensures back { reply_type_number result ≡ number }
    {
        match number {
            1 => ReplyType::Ack,
            2 => ReplyType::Server,
            3 => ReplyType::Info,
            0x8000_0001 => ReplyType::Unsup,
            0x8000_0002 => ReplyType::Policy,
            0x8000_0003 => ReplyType::Invalid,
            0x8000_0006 => ReplyType::Unknown,
            0x8000_0009 => ReplyType::TooBig,
            _ => ReplyType::Other(number),
        }
    }

    /// The number of a reply type.
    pub fn number(self) -> u32
        ensures { result ≡ reply_type_number self }
    {
        match self {
            ReplyType::Ack => 1,
            ReplyType::Server => 2,
            ReplyType::Info => 3,
            ReplyType::Unsup => 0x8000_0001,
            ReplyType::Policy => 0x8000_0002,
            ReplyType::Invalid => 0x8000_0003,
            ReplyType::Unknown => 0x8000_0006,
            ReplyType::TooBig => 0x8000_0009,
            ReplyType::Other(number) => number,
        }
    }
}

/// The head of the reply to an option, which it repeats: behind the head come `length` bytes of
/// data.
#[derive(Clone, Copy, Debug, PartialEq, Eq)]
pub struct OptionReplyHead {
    pub option: OptionType,
    pub reply: ReplyType,
    pub length: u32,
}

impl OptionReplyHead {
    /// The head that these bytes spell. Fails only where they don't begin with
    /// `OPTION_REPLY_MAGIC`.
    pub fn read(bytes: &[u8; 20]) -> Result<OptionReplyHead, BadMagic>
        ensures taken { IfOk result
            (λ head. IsOptionReplyHead head × (option_reply_text head ≡ bytes.now)) }
        ensures only { (head : OptionReplyHead) → IsOptionReplyHead head
            → option_reply_text head ≡ bytes.now → result ≡ Ok head }
        ensures refused { IfErr result
            (λ bad. (u64_text bad.number ≡ take 8 bytes.now) × (bad.number ≢ option_reply_magic)) }
    {
        let magic = u64_at(bytes, 0);
        if magic != OPTION_REPLY_MAGIC {
            return Err(BadMagic { number: magic });
        }
        Ok(OptionReplyHead {
            option: OptionType::from_number(u32_at(bytes, 8)),
            reply: ReplyType::from_number(u32_at(bytes, 12)),
            length: u32_at(bytes, 16),
        })
    }

    /// The bytes of the head.
    #[tactic(auto, unfolding(crate::specs::OptionReplies::option_reply_text, crate::specs::Fields::u32_text, crate::specs::Fields::u64_text))]
    pub fn write(self) -> [u8; 20]
        ensures { result ≡ option_reply_text self }
    {
        let m = OPTION_REPLY_MAGIC.to_be_bytes();
        let o = self.option.number().to_be_bytes();
        let r = self.reply.number().to_be_bytes();
        let l = self.length.to_be_bytes();
        [
            m[0], m[1], m[2], m[3], m[4], m[5], m[6], m[7], o[0], o[1], o[2], o[3], r[0], r[1],
            r[2], r[3], l[0], l[1], l[2], l[3],
        ]
    }
}
