// The metadata of a new volume.

ghost use Rattle.std.specs.Prelude.{◌≡◌, [], ◌∷◌, IfOk};
ghost use Rattle.luks_format.specs.Drawings.{AreDrawn, draw};
ghost use Rattle.luks_format.specs.Metadata.{config_for, keyslot_for, parts_for};
ghost use Rattle.luks_format.specs.Metadata.{parts_with, segment_for};
ghost use Rattle.luks_format.specs.Wishes.{IsWish};
ghost use Rattle.luks_meta.specs.Keyslots.{IsLuks2};

use crate::drawn::Drawn;
use crate::wish::Wish;
use json_members::{Listed, Object};
use luks_meta::{Config, Digest, Encryption, Keyslot, Luks2, Meta, Parts, Segment, SegmentSize};
use luks_slots::{make_digest, slot_object};
use std::alloc::{AllocError, Global};

/// The bytes of a keyslot's salt.
const SALT: usize = 32;

/// A list with one object, of the number 0.
fn first<T: Drop>(alloc: Global, object: T) -> Result<Listed<(u64, T)>, AllocError>
    ensures { IfOk result (λ objects. objects ≡ (0, object) ∷ []) }
{
    let mut objects = Vec::new(alloc);
    objects.push((0, object))?;
    Ok(Listed::new(objects))
}

/// The segment of the volume's data.
#[tactic(auto, unfolding(crate::specs::Metadata::segment_for))]
fn make_segment(alloc: Global, wish: &Wish) -> Segment
    ensures { result ≡ segment_for wish.now }
{
    Segment {
        offset: wish.data_offset,
        size: SegmentSize::Dynamic,
        encryption: Some(Encryption {
            iv_tweak: 0,
            cipher: wish.cipher,
            sector_size: wish.sector_size as u64,
        }),
        flags: None,
        rest: Object::empty(alloc),
    }
}

/// The keyslot, whose area is the first one behind the copies of the header.
fn make_slot(alloc: Global, wish: &Wish, drawn: &Drawn<'_>) -> Result<Luks2, AllocError>
    requires wish { IsWish wish.now }
    requires drawn { AreDrawn wish.now (draw drawn.now) }
    ensures is { IfOk result (λ slot. slot ≡ keyslot_for wish.now (draw drawn.now)) }
    ensures has_text { IfOk result IsLuks2 }
{
    let (salt, _) = drawn.slot.split_at(SALT);
    let offset = wish.area_offset();
    let slot = slot_object(alloc, offset, wish.key_size as usize, wish.iterations, salt)?;
    Ok(slot)
}

/// The sizes of the header's text and of its keyslots area.
#[tactic(auto, unfolding(crate::specs::Metadata::config_for))]
fn make_config(alloc: Global, wish: &Wish) -> Config
    requires { IsWish wish.now }
    ensures { result ≡ config_for wish.now }
{
    Config {
        json_size: wish.metadata_size - 4096,
        keyslots_size: wish.keyslots_size(),
        requirements: None,
        rest: Object::empty(alloc),
    }
}

/// The metadata with a keyslot and a digest.
#[tactic(auto, unfolding(crate::specs::Metadata::parts_with))]
fn make_parts(
    alloc: Global,
    wish: &Wish,
    keyslot: Luks2,
    digest: Digest,
) -> Result<Parts, AllocError>
    requires { IsWish wish.now }
    ensures { IfOk result (λ parts. parts ≡ parts_with wish.now keyslot digest) }
{
    Ok(Parts {
        keyslots: first(alloc, Keyslot::Luks2(keyslot))?,
        tokens: Listed::new(Vec::new(alloc)),
        segments: first(alloc, make_segment(alloc, wish))?,
        digests: first(alloc, digest)?,
        config: make_config(alloc, wish),
        rest: Object::empty(alloc),
    })
}

/// The metadata of a new volume.
///
/// # Errors
///
/// Memory was wanted.
pub fn make_meta(alloc: Global, wish: &Wish, drawn: &Drawn<'_>) -> Result<Meta, AllocError>
    requires wish { IsWish wish.now }
    requires drawn { AreDrawn wish.now (draw drawn.now) }
    ensures { IfOk result (λ meta. meta ≡ parts_for wish.now (draw drawn.now)) }
{
    let keyslot = make_slot(alloc, wish, drawn)?;
    let digest = make_digest(alloc, &[0], &[0], drawn.key, drawn.digest_salt)?;
    let parts = make_parts(alloc, wish, keyslot, digest)?;
    Ok(Meta::new(parts))
}
