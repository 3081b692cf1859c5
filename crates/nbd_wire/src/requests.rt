ghost use Rattle.std.specs.Prelude.{◌≡◌, ◌≢◌, ◌↔◌, ◌<◌, ◌^◌, IsTrue, IfOk, IfErr, take};
ghost use Rattle.std.specs.Int.{IsBitSet};
ghost use Rattle.nbd_wire.specs.Fields.{u32_text};
ghost use Rattle.nbd_wire.specs.Requests.{IsRequestHead, command_number, command_of, request_text};
ghost use Rattle.nbd_wire.specs.Requests.{are_allowed};
ghost use Rattle.nbd_wire.specs.Magic.{request_magic};

use crate::fields::{u16_at, u32_at, u64_at};
use crate::{BadMagic, REQUEST_MAGIC};

/// What a client asks ("Request types"). A type without a name here is `Other`, with its number.
#[derive(Clone, Copy, Debug, PartialEq, Eq)]
pub enum CommandType {
    Read,
    Write,
    /// To disconnect, without a reply.
    Disc,
    Flush,
    Trim,
    WriteZeroes,
    Other(u16),
}

impl CommandType {
    /// The type of a number.
    pub fn from_number(number: u16) -> CommandType
        ensures is { result ≡ command_of number }
        ensures back { command_number result ≡ number }
    {
        match number {
            0 => CommandType::Read,
            1 => CommandType::Write,
            2 => CommandType::Disc,
            3 => CommandType::Flush,
            4 => CommandType::Trim,
            6 => CommandType::WriteZeroes,
            _ => CommandType::Other(number),
        }
    }

    /// The number of a type.
    pub fn number(self) -> u16
        ensures { result ≡ command_number self }
    {
        match self {
            CommandType::Read => 0,
            CommandType::Write => 1,
            CommandType::Disc => 2,
            CommandType::Flush => 3,
            CommandType::Trim => 4,
            CommandType::WriteZeroes => 6,
            CommandType::Other(number) => number,
        }
    }
}

/// The set of a request's flags ("Command flags").
#[derive(Clone, Copy, Debug, PartialEq, Eq)]
pub struct CommandFlags {
    pub bits: u16,
}

impl CommandFlags {
    /// "Force unit access".
    pub const FUA: CommandFlags = CommandFlags { bits: 1 };

    /// "No hole": zeroes are to be written without making one.
    pub const NO_HOLE: CommandFlags = CommandFlags { bits: 2 };

    /// "Don't fragment".
    pub const DF: CommandFlags = CommandFlags { bits: 4 };

    /// "Force unit access": what is written is to be kept before the reply.
    pub fn has_fua(self) -> bool
        ensures { IsTrue result ↔ IsBitSet self.bits 0 }
    {
        self.bits & 1 != 0
    }

    /// What is read is to come in one chunk.
    pub fn has_df(self) -> bool
        ensures { IsTrue result ↔ IsBitSet self.bits 2 }
    {
        self.bits & 4 != 0
    }

    /// Whether a request of this type may have these flags: FUA with every type, NO_HOLE with a
    /// WRITE_ZEROES alone, and DF with a READ alone, where structured replies were agreed on.
    pub fn are_allowed(self, command: CommandType, structured: bool) -> bool
        ensures { result ≡ are_allowed structured command self.bits }
    {
        match command {
            CommandType::Read if structured => matches!(self.bits, 0 | 1 | 4 | 5),
            CommandType::WriteZeroes => self.bits < 4,
            _ => self.bits < 2,
        }
    }
}

/// The head of a request ("Request message"). Offset and length are in bytes; behind the head of a
/// write come `length` bytes of data.
#[derive(Clone, Copy, Debug, PartialEq, Eq)]
pub struct RequestHead {
    pub flags: CommandFlags,
    pub command: CommandType,
    /// The client's own number of the request, which its reply repeats.
    pub cookie: u64,
    pub offset: u64,
    pub length: u32,
}

impl RequestHead {
    /// The head that these bytes spell. Fails only where they don't begin with `REQUEST_MAGIC`.
    pub fn read(bytes: &[u8; 28]) -> Result<RequestHead, BadMagic>
        ensures taken { IfOk result (λ head. IsRequestHead head × (request_text head ≡ bytes.now)) }
        ensures only { (head : RequestHead) → IsRequestHead head → request_text head ≡ bytes.now
            → result ≡ Ok head }
        ensures refused { IfErr result
            (λ bad. (u32_text bad.number ≡ take 4 bytes.now) × (bad.number ≢ request_magic)) }
        ensures fits { IfErr result (λ bad. bad.number < 2 ^ 32) }
    {
        let magic = u32_at(bytes, 0);
        if magic != REQUEST_MAGIC {
            return Err(BadMagic {
                number: u64::from(magic),
            });
        }
        Ok(RequestHead {
            flags: CommandFlags {
                bits: u16_at(bytes, 4),
            },
            command: CommandType::from_number(u16_at(bytes, 6)),
            cookie: u64_at(bytes, 8),
            offset: u64_at(bytes, 16),
            length: u32_at(bytes, 24),
        })
    }

    /// The bytes of the head.
    #[tactic(auto, unfolding(crate::specs::Requests::request_text, crate::specs::Fields::u16_text, crate::specs::Fields::u32_text, crate::specs::Fields::u64_text))]
    pub fn write(self) -> [u8; 28]
        ensures { result ≡ request_text self }
    {
        let m = REQUEST_MAGIC.to_be_bytes();
        let f = self.flags.bits.to_be_bytes();
        let t = self.command.number().to_be_bytes();
        let c = self.cookie.to_be_bytes();
        let o = self.offset.to_be_bytes();
        let l = self.length.to_be_bytes();
        [
            m[0], m[1], m[2], m[3], f[0], f[1], t[0], t[1], c[0], c[1], c[2], c[3], c[4], c[5],
            c[6], c[7], o[0], o[1], o[2], o[3], o[4], o[5], o[6], o[7], l[0], l[1], l[2], l[3],
        ]
    }
}
