// The modes under a key.

ghost use Rattle.std.specs.Prelude.{◌≡◌, ◌↔◌, length, IsOk, IfOk, IfErr};
ghost use Rattle.sector_cipher.specs.Names.{IsKeyLength};
ghost use Rattle.sector_cipher.specs.Keys.{IsXtsUnder, IsCbcEssivUnder};

use crate::spec::Spec;
use aes_core::{Aes, KeyLength};
use cbc_essiv::CbcEssiv;
use cipher_laws::BlockCipher;
use sha2::{Digest, Sha256};
use xts_mode::Xts;

// XTS under the two keys in a key.
pub(crate) fn xts_under(key: &[u8]) -> Result<Xts<Aes>, KeyLength>
    ensures accepted { IsOk result ↔ IsKeyLength Spec.AesXtsPlain64 (length key.now) }
    ensures refused { IfErr result (λ e. e.0 ≡ length key.now) }
    ensures ok { IfOk result (IsXtsUnder
        ⟦<Aes as BlockCipher>⟧.sealed ⟦<Aes as BlockCipher>⟧.opened key.now) }
{
    if key.len() != 32 && key.len() != 64 {
        return Err(KeyLength(key.len()));
    }
    let half = key.len() / 2;
    let (Ok(body), Ok(tweak)) = (Aes::new(&key[..half]), Aes::new(&key[half..])) else {
        unreachable!()
    };
    Ok(Xts::new(body, tweak))
}

// CBC under a key, with the IV's cipher under the key's SHA-256.
pub(crate) fn cbc_essiv_under(key: &[u8]) -> Result<CbcEssiv<Aes>, KeyLength>
    ensures accepted { IsOk result ↔ IsKeyLength Spec.AesCbcEssivSha256 (length key.now) }
    ensures refused { IfErr result (λ e. e.0 ≡ length key.now) }
    ensures ok { IfOk result (IsCbcEssivUnder
        ⟦<Aes as BlockCipher>⟧.sealed ⟦<Aes as BlockCipher>⟧.opened key.now) }
{
    let body = Aes::new(key)?;
    let Ok(iv) = Aes::new(&Sha256::digest(key)) else {
        unreachable!()
    };
    Ok(CbcEssiv::new(body, iv))
}
