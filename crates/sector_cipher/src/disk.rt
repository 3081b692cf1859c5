// A cipher of sectors over any block cipher.

ghost use Rattle.std.specs.Prelude.{◌≡◌, ◌<◌, ◌%◌, ⊤};

use cbc_essiv::CbcEssiv;
use cipher_laws::{BlockCipher, SectorCipher, SectorMode};
use std::alloc::AllocError;
use xts_mode::Xts;

/// A cipher of sectors with its keys, over a block cipher.
pub struct DiskCipher<B> {
    pub(crate) mode: Mode<B>,
    pub(crate) sector: usize,
    ghost some: { 0 < sector },
    ghost units: { sector % 512 ≡ 0 },
}

#[derive(Clone, Copy)]
pub(crate) enum Mode<B> {
    Linear,
    Xts(Xts<B>),
    CbcEssiv(CbcEssiv<B>),
}

impl<B: Copy> Clone for DiskCipher<B> {
    ghost is_clone = { λ x y. y ≡ x };

    ghost is_infallible = { λ _. ⊤ };

    fn clone(&self) -> Result<DiskCipher<B>, AllocError> {
        Ok(*self)
    }
}

impl<B: Copy> Copy for DiskCipher<B> {}

#[tactic(auto, unfolding(crate::specs::Disk::sealed_in, crate::specs::Disk::opened_in, crate::specs::Disk::sealed_by, crate::specs::Disk::opened_by))]
impl<B: BlockCipher> SectorCipher for DiskCipher<B> {
    ghost use Rattle.sector_cipher.specs.Disk.{sealed_in, opened_in};
    ghost use Rattle.sector_cipher.specs.DiskLaws.{disk_seals, disk_opens};

    ghost sector = { λ d. d.sector };

    ghost sealed = { sealed_in B.sealed };

    ghost opened = { opened_in B.sealed B.opened };

    fn seal_atom(&self, first: u64, bytes: &mut [u8]) {
        match &self.mode {
            Mode::Linear => {}
            Mode::Xts(mode) => mode.seal_sectors(self.sector, first, bytes),
            Mode::CbcEssiv(mode) => mode.seal_sectors(self.sector, first, bytes),
        }
    }

    fn unseal_atom(&self, first: u64, bytes: &mut [u8]) {
        match &self.mode {
            Mode::Linear => {}
            Mode::Xts(mode) => mode.unseal_sectors(self.sector, first, bytes),
            Mode::CbcEssiv(mode) => mode.unseal_sectors(self.sector, first, bytes),
        }
    }

    ghost some_sector = { λ d. d.some };

    ghost sector_units = { λ d. d.units };

    ghost sealed_length = { λ d.
        (disk_seals B.sealed B.opened B.sealed_block B.unseal_undoes_seal d).lengths };

    ghost opened_length = { λ d. (disk_opens B.sealed B.opened
        B.sealed_block B.opened_block B.seal_undoes_unseal d).lengths };

    ghost sealed_bytes = { λ d.
        (disk_seals B.sealed B.opened B.sealed_block B.unseal_undoes_seal d).bytes };

    ghost opened_bytes = { λ d. (disk_opens B.sealed B.opened
        B.sealed_block B.opened_block B.seal_undoes_unseal d).bytes };

    ghost unseal_undoes_seal = { λ d.
        (disk_seals B.sealed B.opened B.sealed_block B.unseal_undoes_seal d).undone };

    ghost seal_undoes_unseal = { λ d. (disk_opens B.sealed B.opened
        B.sealed_block B.opened_block B.seal_undoes_unseal d).undone };

    ghost sealed_joined = { λ d.
        (disk_seals B.sealed B.opened B.sealed_block B.unseal_undoes_seal d).joined };

    ghost opened_joined = { λ d. (disk_opens B.sealed B.opened
        B.sealed_block B.opened_block B.seal_undoes_unseal d).joined };
}
