// The checks of an opening, which come before anything is written.

ghost use Rattle.std.specs.Prelude.{◌≡◌, true, IfErr, IfOk};
ghost use Rattle.luks_rules.specs.States.{IsSound};
ghost use Rattle.reenc_meta.specs.Placements.{all_atoms};
ghost use Rattle.reenc_recovery.specs.Causes.{IsRefusedVolume};
ghost use Rattle.reenc_recovery.specs.Keys.{tweak_by};
ghost use Rattle.reenc_recovery.specs.Openings.{IsOpening};
ghost use Rattle.sector_disk.specs.Geometry.{IsDisk};

use crate::fault::OpenCause;
use crate::keys::{SideKeys, segment_cipher};
use cipher_laws::SectorCipher;
use luks_rules::{Extent, Valid};
use reenc_meta::{Placement, place_idle};
use sector_cipher::Context;
use std::alloc::Global;
use volume_machine::Keys;

/// A volume whose header and keys passed all checks.
#[derive(Drop)]
pub struct Opening {
    /// Where it lies.
    pub placement: Placement,
    /// The ciphers of its sides.
    pub keys: Keys<Context>,
}

/// The IV number of a segment's first 512 bytes; 0 of a linear one.
pub fn first_number(segment: &Extent) -> u64
    ensures { result ≡ tweak_by segment.now.encryption }
{
    match &segment.encryption {
        Some(encryption) => encryption.iv_tweak,
        None => 0,
    }
}

/// The volume of a header that breaks no rule, under the keys that were handed in for it.
pub(crate) fn judge_volume(
    alloc: Global,
    valid: &Valid,
    keys: &SideKeys,
) -> Result<Opening, OpenCause>
    requires { IsDisk valid.now.sizes.atom (all_atoms valid.now.sizes) }
    ensures opens { IfOk result (λ o. IsOpening ⟦<Context as SectorCipher>⟧.sector
        ⟦<Context as SectorCipher>⟧.sealed ⟦<Context as SectorCipher>⟧.opened
        valid.now.meta valid.now.sizes keys.now.new o.placement o.keys) }
    ensures closed { IfOk result (λ o. o.placement.map.zone ≡ 0) }
    ensures sound { IfOk result (λ _. IsSound valid.now.meta valid.now.sizes) }
    ensures refused { IfErr result
        (IsRefusedVolume valid.now.meta valid.now.sizes keys.now.new) }
{
    valid.is_sound();
    let Some(placement) = place_idle(valid) else {
        return Err(OpenCause::InProgress);
    };
    match segment_cipher(alloc, valid, &placement.new, &keys.new) {
        Ok(cipher) => {
            let tweak = first_number(&placement.new);
            Ok(Opening {
                placement,
                keys: Keys {
                    old: cipher,
                    old_tweak: tweak,
                    new: cipher,
                    new_tweak: tweak,
                },
            })
        }
        Err(cause) => Err(cause),
    }
}
