// The keys of the sides of a volume that is being converted.

ghost use Rattle.std.specs.Prelude.{◌≡◌, ◌↔◌, Some, IfErr, IfOk, IsTrue};
ghost use Rattle.resume_disk.specs.OpenedMidway.Causes.{IsNotLed};
ghost use Rattle.resume_disk.specs.OpenedMidway.Sides.{AreSides, IsConversion, IsNoSide};
ghost use Rattle.hotzone.specs.Sites.{IsSaved};
ghost use Rattle.luks_rules.specs.Shapes.{progress_of};
ghost use Rattle.luks_rules.specs.States.{IsSound};

use crate::midway::fault::ConversionCause;
use cipher_laws::SectorCipher;
use luks_meta::Resilience;
use luks_rules::{Progress, Valid};
use reenc_recovery::{OpenCause, SideKeys, first_number, segment_cipher};
use sector_cipher::Context;
use std::alloc::Global;
use volume_machine::Keys;

/// The ciphers of a conversion's whole segments under the keys that were handed in for its sides,
/// each of which must be the one of its segment's digest. A linear segment has the cipher that
/// changes nothing, and no key.
///
/// # Errors
///
/// A key isn't the one of its segment's digest, or there is none: `KeyDiffers`, of the old side or
/// else of the new one; or memory was wanted.
pub fn find_sides(
    alloc: Global,
    valid: &Valid,
    progress: &Progress,
    keys: &SideKeys,
) -> Result<Keys<Context>, OpenCause>
    requires { progress_of valid.now.meta valid.now.sizes ≡ Some progress.now }
    ensures sides { IfOk result (AreSides ⟦<Context as SectorCipher>⟧.sector
        ⟦<Context as SectorCipher>⟧.sealed ⟦<Context as SectorCipher>⟧.opened
        valid.now.meta progress.now keys.now) }
    ensures refused { IfErr result (IsNoSide valid.now.meta progress.now keys.now) }
{
    valid.is_sound();
    let _parts = valid.meta().parts();
    let old = match segment_cipher(alloc, valid, &progress.old, &keys.old) {
        Ok(cipher) => cipher,
        Err(cause) => return Err(cause),
    };
    match segment_cipher(alloc, valid, &progress.new, &keys.new) {
        Ok(new) => Ok(Keys {
            old,
            old_tweak: first_number(&progress.old),
            new,
            new_tweak: first_number(&progress.new),
        }),
        Err(cause) => Err(cause),
    }
}

/// Whether a conversion may be led on: something is saved of the blocks of its zones.
fn may_be_led(progress: &Progress) -> bool
    ensures { IsTrue result ↔ IsSaved progress.now.conversion.resilience }
{
    match progress.conversion.resilience {
        Resilience::Journal | Resilience::Checksum(_) => true,
        Resilience::Datashift(_) => false,
    }
}

/// The keys of the sides of a conversion that metadata say is under way, and that may be led on.
pub(crate) fn judge_conversion(
    alloc: Global,
    valid: &Valid,
    keys: &SideKeys,
) -> Result<Keys<Context>, ConversionCause>
    ensures conversion { IfOk result (IsConversion ⟦<Context as SectorCipher>⟧.sector
        ⟦<Context as SectorCipher>⟧.sealed ⟦<Context as SectorCipher>⟧.opened
        valid.now.meta valid.now.sizes keys.now) }
    ensures sound { IfOk result (λ _. IsSound valid.now.meta valid.now.sizes) }
    ensures refused { IfErr result (IsNotLed valid.now.meta valid.now.sizes keys.now) }
{
    valid.is_sound();
    let Some(progress) = valid.progress() else {
        return Err(ConversionCause::Idle);
    };
    if !may_be_led(&progress) {
        return Err(ConversionCause::NotBuilt);
    }
    match find_sides(alloc, valid, &progress, keys) {
        Ok(keys) => Ok(keys),
        Err(cause) => Err(ConversionCause::Opening(cause)),
    }
}
