// The names of ciphers and hashes.

ghost use Rattle.std.specs.Prelude.{◌≡◌};
ghost use Rattle.luks_meta.specs.Names.{cipher_named, cipher_name, hash_named, hash_name};

/// A cipher of segments and of keyslots' areas.
#[derive(Clone, Copy, PartialEq, Eq)]
pub enum Cipher {
    /// `aes-xts-plain64`
    AesXtsPlain64,
    /// `aes-cbc-essiv:sha256`
    AesCbcEssivSha256,
}

/// A hash by which keys are derived.
#[derive(Clone, Copy, PartialEq, Eq)]
pub enum Hash {
    /// `sha256`
    Sha256,
    /// `sha512`
    Sha512,
}

impl Cipher {
    /// The cipher of a name, if it is one that is known.
    pub fn of_name(name: &str) -> Option<Cipher>
        ensures { result ≡ cipher_named name.now }
    {
        if name == "aes-xts-plain64" {
            Some(Cipher::AesXtsPlain64)
        } else if name == "aes-cbc-essiv:sha256" {
            Some(Cipher::AesCbcEssivSha256)
        } else {
            None
        }
    }

    /// The cipher's name.
    pub fn name(self) -> &'static str
        ensures { result.now ≡ cipher_name self }
    {
        match self {
            Cipher::AesXtsPlain64 => "aes-xts-plain64",
            Cipher::AesCbcEssivSha256 => "aes-cbc-essiv:sha256",
        }
    }
}

impl Hash {
    /// The hash of a name, if it is one that is known.
    pub fn of_name(name: &str) -> Option<Hash>
        ensures { result ≡ hash_named name.now }
    {
        if name == "sha256" {
            Some(Hash::Sha256)
        } else if name == "sha512" {
            Some(Hash::Sha512)
        } else {
            None
        }
    }

    /// The hash's name.
    pub fn name(self) -> &'static str
        ensures { result.now ≡ hash_name self }
    {
        match self {
            Hash::Sha256 => "sha256",
            Hash::Sha512 => "sha512",
        }
    }
}
