ghost use Rattle.std.specs.Prelude.{◌≡◌, ◌↔◌, ◌≤◌, IsTrue, IfOk, IfErr};
ghost use Rattle.std.specs.Int.{IsBitSet};
ghost use Rattle.std.specs.Int.RustNames.{bit_or};
ghost use Rattle.nbd_wire.specs.Fields.{u32_text};
ghost use Rattle.nbd_wire.specs.Handshake.{IsGreeting, IsNotGreeting, greeting_text};

use crate::fields::{u16_at, u32_at, u64_at};
use crate::{BadMagic, GREETING_MAGIC, OPTION_MAGIC};

/// The set of the greeting's flags ("Handshake flags").
#[derive(Clone, Copy, Debug, PartialEq, Eq)]
pub struct HandshakeFlags {
    pub bits: u16,
}

impl HandshakeFlags {
    /// The server speaks the fixed newstyle protocol.
    pub const FIXED_NEWSTYLE: HandshakeFlags = HandshakeFlags { bits: 1 };

    /// The server can leave out the zeros of its answer to EXPORT_NAME.
    pub const NO_ZEROES: HandshakeFlags = HandshakeFlags { bits: 2 };

    /// The flags of both sets.
    pub fn union(self, other: HandshakeFlags) -> HandshakeFlags
        ensures { result.bits ≡ bit_or self.bits other.bits }
    {
        HandshakeFlags {
            bits: self.bits | other.bits,
        }
    }
}

/// The server's greeting.
#[derive(Clone, Copy, Debug, PartialEq, Eq)]
pub struct Greeting {
    pub flags: HandshakeFlags,
}

impl Greeting {
    /// The greeting that these bytes spell. Fails only where one of the two magic numbers is
    /// another, with the first such number.
    pub fn read(bytes: &[u8; 18]) -> Result<Greeting, BadMagic>
        ensures taken { IfOk result
            (λ greeting. IsGreeting greeting × (greeting_text greeting ≡ bytes.now)) }
        ensures only { (greeting : Greeting) → IsGreeting greeting
            → greeting_text greeting ≡ bytes.now → result ≡ Ok greeting }
        ensures refused { IfErr result (λ bad. IsNotGreeting bytes.now bad.number) }
    {
        let magic = u64_at(bytes, 0);
        if magic != GREETING_MAGIC {
            return Err(BadMagic { number: magic });
        }
        let option_magic = u64_at(bytes, 8);
        if option_magic != OPTION_MAGIC {
            return Err(BadMagic {
                number: option_magic,
            });
        }
        Ok(Greeting {
            flags: HandshakeFlags {
                bits: u16_at(bytes, 16),
            },
        })
    }

    /// The bytes of the greeting.
    #[tactic(auto, unfolding(crate::specs::Handshake::greeting_text, crate::specs::Fields::u16_text, crate::specs::Fields::u64_text))]
    pub fn write(self) -> [u8; 18]
        ensures { result ≡ greeting_text self }
    {
        let m = GREETING_MAGIC.to_be_bytes();
        let o = OPTION_MAGIC.to_be_bytes();
        let f = self.flags.bits.to_be_bytes();
        [
            m[0], m[1], m[2], m[3], m[4], m[5], m[6], m[7], o[0], o[1], o[2], o[3], o[4], o[5],
            o[6], o[7], f[0], f[1],
        ]
    }
}

/// The set of the flags with which a client answers the greeting ("Client flags").
#[derive(Clone, Copy, PartialEq, Eq)]
pub struct ClientFlags {
    pub bits: u32,
}

impl ClientFlags {
    /// The client speaks the fixed newstyle protocol.
    pub fn has_fixed_newstyle(self) -> bool
        ensures { IsTrue result ↔ IsBitSet self.bits 0 }
    {
        self.bits & 1 != 0
    }

    /// The server is to leave out the zeros of its answer to EXPORT_NAME.
    pub fn has_no_zeroes(self) -> bool
        ensures { IsTrue result ↔ IsBitSet self.bits 1 }
    {
        self.bits & 2 != 0
    }

    /// Whether there is a flag other than these two.
    pub fn has_other(self) -> bool
        ensures { IsTrue result ↔ (4 ≤ self.bits) }
    {
        self.bits >= 4
    }

    /// The flags that these bytes spell; each four bytes spell some.
    pub fn read(bytes: &[u8; 4]) -> ClientFlags
        ensures { u32_text result.bits ≡ bytes.now }
    {
        ClientFlags {
            bits: u32_at(bytes, 0),
        }
    }

    /// The bytes of the flags.
    #[tactic(auto, unfolding(crate::specs::Fields::u32_text))]
    pub fn write(self) -> [u8; 4]
        ensures { result ≡ u32_text self.bits }
    {
        self.bits.to_be_bytes()
    }
}
