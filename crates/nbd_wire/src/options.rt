ghost use Rattle.std.specs.Prelude.{◌≡◌, ◌≢◌, ◌<◌, ◌^◌, IfOk, IfErr, take};
ghost use Rattle.nbd_wire.specs.Fields.{u64_text};
ghost use Rattle.nbd_wire.specs.Options.{IsOptionHead, option_number, option_of, option_text};
ghost use Rattle.nbd_wire.specs.Magic.{option_magic};

use crate::fields::{u32_at, u64_at};
use crate::{BadMagic, OPTION_MAGIC};

/// What a client wants to agree on ("Option types"). An option without a name here is `Other`, with
/// its number.
#[derive(Clone, Copy, Debug, PartialEq, Eq)]
pub enum OptionType {
    ExportName,
    Abort,
    List,
    StartTls,
    Info,
    Go,
    StructuredReply,
    Other(u32),
}

impl OptionType {
    /// The option of a number.
    pub fn from_number(number: u32) -> OptionType
        ensures is { result ≡ option_of number }
        ensures back { option_number result ≡ number }
    {
        match number {
            1 => OptionType::ExportName,
            2 => OptionType::Abort,
            3 => OptionType::List,
            5 => OptionType::StartTls,
            6 => OptionType::Info,
            7 => OptionType::Go,
            8 => OptionType::StructuredReply,
            _ => OptionType::Other(number),
        }
    }

    /// The number of an option.
    pub fn number(self) -> u32
        ensures { result ≡ option_number self }
    {
        match self {
            OptionType::ExportName => 1,
            OptionType::Abort => 2,
            OptionType::List => 3,
            OptionType::StartTls => 5,
            OptionType::Info => 6,
            OptionType::Go => 7,
            OptionType::StructuredReply => 8,
            OptionType::Other(number) => number,
        }
    }
}

/// The head of an option: behind it come `length` bytes of data.
#[derive(Clone, Copy, Debug, PartialEq, Eq)]
pub struct OptionHead {
    pub option: OptionType,
    pub length: u32,
}

impl OptionHead {
    /// The head that these bytes spell. Fails only where they don't begin with `OPTION_MAGIC`.
    pub fn read(bytes: &[u8; 16]) -> Result<OptionHead, BadMagic>
        ensures taken { IfOk result (λ head. IsOptionHead head × (option_text head ≡ bytes.now)) }
        ensures only { (head : OptionHead) → IsOptionHead head → option_text head ≡ bytes.now
            → result ≡ Ok head }
        ensures refused { IfErr result
            (λ bad. (u64_text bad.number ≡ take 8 bytes.now) × (bad.number ≢ option_magic)) }
        ensures fits { IfErr result (λ bad. bad.number < 2 ^ 64) }
    {
        let magic = u64_at(bytes, 0);
        if magic != OPTION_MAGIC {
            return Err(BadMagic { number: magic });
        }
        Ok(OptionHead {
            option: OptionType::from_number(u32_at(bytes, 8)),
            length: u32_at(bytes, 12),
        })
    }

    /// The bytes of the head.
    #[tactic(auto, unfolding(crate::specs::Options::option_text, crate::specs::Fields::u32_text, crate::specs::Fields::u64_text))]
    pub fn write(self) -> [u8; 16]
        ensures { result ≡ option_text self }
    {
        let m = OPTION_MAGIC.to_be_bytes();
        let o = self.option.number().to_be_bytes();
        let l = self.length.to_be_bytes();
        [
            m[0], m[1], m[2], m[3], m[4], m[5], m[6], m[7], o[0], o[1], o[2], o[3], l[0], l[1],
            l[2], l[3],
        ]
    }
}
