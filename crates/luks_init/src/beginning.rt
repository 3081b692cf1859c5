// The header with which a conversion begins.

ghost use Rattle.std.specs.Prelude.{◌≡◌, ◌+◌, ◌^◌, ◌<◌, IfOk, MatchResult};
ghost use Rattle.luks_init.specs.Begins.{IsBegun, MayBegin, unready_by};
ghost use Rattle.luks_init.specs.Metadata.{HasBegun, wish_with};
ghost use Rattle.luks_init.specs.Places.{AreLowest};
ghost use Rattle.luks_init.specs.Faults.{IsUnbegun};
ghost use Rattle.luks_init.specs.Metadata.{keyslot_for};
ghost use Rattle.luks_meta.specs.Keyslots.{IsLuks2};
ghost use Rattle.sector_disk.specs.Geometry.{IsAtom};
ghost use Rattle.luks_init.specs.Wishes.{IsWish};
ghost use Rattle.luks_slots.specs.KeyMaking.Drawings.{AreDrawn, draw};
ghost use Rattle.luks_slots.specs.KeyMaking.Digests.{digest_for};
ghost use Rattle.luks_rules.specs.Idles.{idle_of};
ghost use Rattle.luks_slots.specs.NewSlots.{IsSlotAt};
ghost use Rattle.reenc_meta.specs.Placements.{all_atoms};
ghost use Rattle.sector_disk.specs.Geometry.{IsDisk};

use crate::fault::InitFault;
use crate::laws::begun_conversions_may_start;
use crate::places::{Places, find_places};
use crate::wish::Wish;
use json_members::Object;
use luks_json::JsonText;
use luks_meta::{Digest, Luks2, Meta, Mode, ReencryptArea};
use luks_rules::{Idle, Valid};
use luks_slots::{Drawn, Key, NewSlot, make_digest, slot_at};
use reenc_meta::Reenc;
use std::alloc::{AllocError, Global};

/// The most bytes of a passphrase.
const MOST_PASSPHRASE: usize = 512;

/// What a conversion begins with.
#[derive(Drop)]
pub struct Begun {
    /// The next metadata of the header.
    pub meta: Meta,
    /// The keyslot of the new key, and the bytes of its area.
    pub slot: NewSlot,
    /// Where that area begins, and the one that guards zones.
    pub places: Places,
}

/// Why no conversion can begin, whatever room there is.
#[tactic(auto, unfolding(crate::specs::Begins::unready_by))]
fn find_unready(idle: Option<Idle>, pass: &[u8]) -> Option<InitFault>
    ensures { result ≡ unready_by idle pass.now }
{
    let Some(idle) = idle else {
        return Some(InitFault::InProgress);
    };
    if idle.segment.encryption.is_none() {
        return Some(InitFault::Linear);
    }
    if pass.is_empty() || MOST_PASSPHRASE < pass.len() {
        let len = pass.len() as u64;
        return Some(InitFault::Passphrase { len });
    }
    None
}

/// What is wished of the metadata, with the new keyslot, its digest and the places of the areas.
#[tactic(auto, unfolding(crate::specs::Metadata::wish_with))]
fn make_wish(
    alloc: Global,
    valid: &Valid,
    wish: &Wish,
    places: Places,
    key: (Luks2, Digest),
) -> reenc_meta::Wish
    requires wish { IsWish wish.now valid.now.sizes.atom }
    requires atom { IsAtom valid.now.sizes.atom }
    requires header { valid.now.meta.config.json_size + 4096 < 2 ^ 64 }
    ensures { result ≡ wish_with valid.now.meta.config valid.now.sizes.atom wish.now places key }
{
    let config = &valid.meta().parts().config;
    let atom = valid.sizes().atom;
    reenc_meta::Wish {
        mode: Mode::Reencrypt,
        direction: wish.direction,
        area: ReencryptArea {
            resilience: wish.header_resilience(atom),
            offset: places.guard,
            size: wish.guard_size(atom),
            rest: Object::empty(alloc),
        },
        encryption: wish.cipher,
        sector_size: wish.sector_size,
        key: Some(key),
        header_size: config.json_size + 4096,
        keyslots_size: config.keyslots_size,
    }
}

/// The metadata with which the conversion begins, for the keyslot of the new key.
fn make_meta(
    alloc: Global,
    valid: &Valid,
    wish: &Wish,
    places: Places,
    drawn: &Drawn<'_>,
    keyslot: &Luks2,
) -> Result<Meta, AllocError>
    requires disk { IsDisk valid.now.sizes.atom (all_atoms valid.now.sizes) }
    requires wish { IsWish wish.now valid.now.sizes.atom }
    requires idle { MayBegin (idle_of valid.now.meta valid.now.sizes) }
    requires places { AreLowest valid.now.meta valid.now.sizes.atom wish.now places }
    requires slot { keyslot.now ≡ keyslot_for wish.now (draw drawn.now) places.key }
    requires has_text { IsLuks2 keyslot.now }
    ensures { IfOk result (HasBegun valid.now.meta valid.now.sizes wish.now (draw drawn.now)
        places) }
{
    valid.is_sound();
    begun_conversions_may_start();
    let digest = make_digest(alloc, &[], &[], drawn.key, drawn.digest_salt)?;
    let slot = keyslot.copy(alloc)?;
    let told = make_wish(alloc, valid, wish, places, (slot, digest));
    Reenc::start(alloc, Some(valid), valid.sizes(), &told)
}

/// The header of a volume as its conversion begins, for a passphrase of 1 to 512 bytes that opens
/// the new key. Whether it opens the old one isn't tried; the volume stands from then on for what
/// it stood for under passphrases that open both.
///
/// # Errors
///
/// What stands in the way, the first in the order of [`InitFault`], exactly where it does; or
/// `Memory`.
pub fn begin(
    alloc: Global,
    valid: &Valid,
    wish: &Wish,
    pass: &[u8],
    drawn: Drawn<'_>,
) -> Result<Begun, InitFault>
    requires disk { IsDisk valid.now.sizes.atom (all_atoms valid.now.sizes) }
    requires wish { IsWish wish.now valid.now.sizes.atom }
    requires drawn { AreDrawn wish.now.key_size (draw drawn) }
    ensures { MatchResult result
        (λ begun. IsBegun valid.now.meta valid.now.sizes wish.now pass.now (draw drawn.entry) begun)
        (λ e. IsUnbegun valid.now.meta valid.now.sizes wish.now pass.now (draw drawn.entry) e) }
{
    if let Some(fault) = find_unready(valid.idle(), pass) {
        return Err(fault);
    }
    let places = match find_places(alloc, valid, wish) {
        Ok(places) => places,
        Err(fault) => return Err(fault),
    };
    let key = Key::new(drawn.key);
    let atom = valid.sizes().atom;
    let slot = slot_at(
        alloc,
        places.key,
        atom,
        pass,
        wish.iterations,
        &key,
        drawn.slot,
    )?;
    let meta = make_meta(alloc, valid, wish, places, &drawn, &slot.keyslot)?;
    let len = meta.write(alloc)?.len() as u64;
    let limit = valid.meta().parts().config.json_size.saturating_sub(1);
    if limit < len {
        return Err(InitFault::Json { len, limit });
    }
    Ok(Begun { meta, slot, places })
}
