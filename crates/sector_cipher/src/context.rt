// The ciphers of LUKS2 segments, over AES.

ghost use Rattle.std.specs.Prelude.{◌≡◌, ℕ, List, ◌<◌, ◌%◌, ◌↔◌, length, IsOk, IfOk, IfErr};
ghost use Rattle.std.specs.Prelude.{IsTrue};
ghost use Rattle.sector_cipher.specs.Names.{IsKeyLength};
ghost use Rattle.sector_cipher.specs.Context.{sealed_under, opened_under};

use crate::disk::{DiskCipher, Mode};
use crate::keys::{cbc_essiv_under, xts_under};
use crate::spec::Spec;
use aes_core::{Aes, KeyLength};
use cipher_laws::SectorCipher;

/// A cipher of sectors with its keys, over AES. The keys are expanded once, when it is made.
pub type Context = DiskCipher<Aes>;

impl DiskCipher<Aes> {
    /// The cipher under the key, over sectors of `sector_size` bytes, which is a multiple of 512
    /// (LUKS2 has 512, 1024, 2048 and 4096).
    ///
    /// A key of XTS has 32 or 64 bytes: the data's key, and then the tweak's. One of CBC has 16 or
    /// 32. At any other length the answer is `KeyLength` of it.
    pub fn new(spec: Spec, key: &[u8], sector_size: u32) -> Result<Context, KeyLength>
        requires some { 0 < sector_size }
        requires units { sector_size % 512 ≡ 0 }
        ensures accepted { IsOk result ↔ IsKeyLength spec (length key.now) }
        ensures refused { IfErr result (λ e. e.0 ≡ length key.now) }
        ensures sector { IfOk result (λ c. ⟦<Context as SectorCipher>⟧.sector c ≡ sector_size) }
        ensures seals { IfOk result (λ c. (first : ℕ) (bytes : List ℕ) →
            ⟦<Context as SectorCipher>⟧.sealed c first bytes
            ≡ sealed_under spec key.now sector_size first bytes) }
        ensures opens { IfOk result (λ c. (first : ℕ) (bytes : List ℕ) →
            ⟦<Context as SectorCipher>⟧.opened c first bytes
            ≡ opened_under spec key.now sector_size first bytes) }
    {
        let sector = sector_size as usize;
        match spec {
            Spec::AesXtsPlain64 => {
                let mode = Mode::Xts(xts_under(key)?);
                Ok(DiskCipher { mode, sector })
            }
            Spec::AesCbcEssivSha256 => {
                let mode = Mode::CbcEssiv(cbc_essiv_under(key)?);
                Ok(DiskCipher { mode, sector })
            }
        }
    }

    /// The cipher that changes nothing, over sectors of 512 bytes.
    #[tactic(auto, unfolding(crate::specs::Disk::sealed_in, crate::specs::Disk::opened_in, crate::specs::Disk::sealed_by, crate::specs::Disk::opened_by))]
    pub fn linear() -> Context
        ensures sector { ⟦<Context as SectorCipher>⟧.sector result ≡ 512 }
        ensures seals { (first : ℕ) (bytes : List ℕ) →
            ⟦<Context as SectorCipher>⟧.sealed result first bytes ≡ bytes }
        ensures opens { (first : ℕ) (bytes : List ℕ) →
            ⟦<Context as SectorCipher>⟧.opened result first bytes ≡ bytes }
    {
        DiskCipher {
            mode: Mode::Linear,
            sector: 512,
        }
    }

    /// Whether it is known to change nothing.
    #[tactic(auto, unfolding(crate::specs::Disk::sealed_in, crate::specs::Disk::opened_in, crate::specs::Disk::sealed_by, crate::specs::Disk::opened_by))]
    pub fn is_linear(&self) -> bool
        ensures seals { IsTrue result → (first : ℕ) (bytes : List ℕ) →
            ⟦<Context as SectorCipher>⟧.sealed self.now first bytes ≡ bytes }
        ensures opens { IsTrue result → (first : ℕ) (bytes : List ℕ) →
            ⟦<Context as SectorCipher>⟧.opened self.now first bytes ≡ bytes }
    {
        match &self.mode {
            Mode::Linear => true,
            Mode::Xts(_) | Mode::CbcEssiv(_) => false,
        }
    }

    /// The bytes of a sector.
    pub fn sector_size(&self) -> usize
        ensures { result ≡ ⟦<Context as SectorCipher>⟧.sector self.now }
    {
        self.sector
    }
}
