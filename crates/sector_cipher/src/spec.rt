// The ciphers by name.

ghost use Rattle.std.specs.Prelude.{◌≡◌, ◌≢◌, ◌↔◌, IsTrue, IfOk, OnErr};

use thiserror::Error;

/// A cipher of LUKS2 segments.
#[derive(Clone, Copy, PartialEq, Eq)]
pub enum Spec {
    /// AES in XTS mode, `aes-xts-plain64`: the IV is the sector's number.
    AesXtsPlain64,
    /// AES in CBC mode, `aes-cbc-essiv:sha256`: the IV is the sector's number, encrypted under the
    /// key's SHA-256.
    AesCbcEssivSha256,
}

/// The text names no cipher that is known here.
#[derive(Clone, Copy, Debug, PartialEq, Eq, Error)]
#[error("the cipher is not known")]
pub struct UnknownCipher;

impl Spec {
    ghost use Rattle.sector_cipher.specs.Names.{name, IsKeyLength};

    /// The cipher that the text names, letter by letter.
    pub fn read(text: &[u8]) -> Result<Spec, UnknownCipher>
        ensures known { IfOk result (λ spec. text.now ≡ name spec) }
        ensures unknown { OnErr result ((spec : Spec) → text.now ≢ name spec) }
    {
        if text == b"aes-xts-plain64".as_slice() {
            Ok(Spec::AesXtsPlain64)
        } else if text == b"aes-cbc-essiv:sha256".as_slice() {
            Ok(Spec::AesCbcEssivSha256)
        } else {
            Err(UnknownCipher)
        }
    }

    /// Whether the cipher has keys of so many bytes: 32 or 64 for XTS, 16 or 32 for CBC.
    pub fn has_key_length(self, bytes: usize) -> bool
        ensures { IsTrue result ↔ IsKeyLength self bytes }
    {
        match self {
            Spec::AesXtsPlain64 => bytes == 32 || bytes == 64,
            Spec::AesCbcEssivSha256 => bytes == 16 || bytes == 32,
        }
    }
}
