// What rows wish for.

ghost use Rattle.std.specs.Prelude.{◌≡◌, IfOk, IfSome, IsTrue, true};
ghost use Rattle.test_script.specs.Wishes.{HasText};
ghost use Rattle.luks_meta.specs.Digests.{IsDigest};
ghost use Rattle.luks_meta.specs.Keyslots.{IsLuks2};
ghost use Rattle.luks_meta.specs.Metas.{IsMeta};
ghost use Rattle.luks_meta.specs.Reencrypts.{IsArea, IsReencrypt};
ghost use Rattle.luks_meta.specs.Segments.{is_sector_size};
ghost use Rattle.reenc_meta.specs.Wishes.{HasOffset};

use crate::metadata::stands::read;
use anyhow::{Result, anyhow};
use json_members::Entry;
use luks_meta::{
    Config, Digest, Direction, Encryption, Keyslot, Luks2, Parts, Reencrypt, ReencryptArea,
    Resilience,
};
use reenc_meta::Wish;
use std::alloc::Global;

/// The bytes of a copy of the metadata that have a key.
const KEY_SIZE: u64 = 16384;

/// The conversion, which the first keyslot says.
fn conversion_of(alloc: Global, parts: &Parts) -> Result<Box<Reencrypt>>
    requires { IsMeta parts.now }
    ensures { IfOk result (λ conversion. IsReencrypt conversion.value) }
{
    match parts.keyslots.as_slice() {
        [(_, Keyslot::Reencrypt(slot)), ..] => Ok(Box::new(alloc, slot.copy(alloc)?)?),
        _ => Err(anyhow!("a wish for no conversion")),
    }
}

/// The keyslot of the new key, which is the first.
fn slot_of(alloc: Global, parts: &Parts) -> Result<Box<Luks2>>
    requires { IsMeta parts.now }
    ensures { IfOk result (λ slot. IsLuks2 slot.value) }
{
    match parts.keyslots.as_slice() {
        [(_, Keyslot::Luks2(slot)), ..] => Ok(Box::new(alloc, slot.copy(alloc)?)?),
        _ => Err(anyhow!("no keyslot of a key")),
    }
}

/// Its digest, which is the first.
fn digest_of(alloc: Global, parts: &Parts) -> Result<Digest>
    requires { IsMeta parts.now }
    ensures { IfOk result IsDigest }
{
    match parts.digests.as_slice() {
        [(_, digest), ..] => Ok(digest.copy(alloc)?),
        _ => Err(anyhow!("no digest of a key")),
    }
}

/// The encryption of the first segment.
fn encryption_of(parts: &Parts) -> Result<Encryption>
    requires { IsMeta parts.now }
    ensures { IfOk result (λ e. is_sector_size e.sector_size ≡ true) }
{
    match parts.segments.as_slice() {
        [(_, segment)] => match segment.encryption {
            Some(encryption) => Ok(encryption),
            None => Err(anyhow!("a wish for no cipher")),
        },
        _ => Err(anyhow!("a wish for no segment")),
    }
}

/// The keyslot and the digest of the new key, by the text of metadata that have it; none for `-`.
fn key_in(alloc: Global, text: &str) -> Result<Option<(Luks2, Digest)>>
    ensures { IfOk result (λ key. IfSome key (λ key. IsLuks2 key.0 × IsDigest key.1)) }
{
    if text == "-" {
        return Ok(None);
    }
    let meta = read(alloc, text, KEY_SIZE)?;
    let slot = slot_of(alloc, meta.parts())?;
    let digest = digest_of(alloc, meta.parts())?;
    Ok(Some((Box::into_inner(slot), digest)))
}

/// The same area of a conversion again.
fn area_of(alloc: Global, conversion: &Reencrypt) -> Result<ReencryptArea>
    requires { IsReencrypt conversion.now }
    ensures { IfOk result IsArea }
{
    let area = &conversion.area;
    Ok(ReencryptArea {
        resilience: area.resilience,
        offset: area.offset,
        size: area.size,
        rest: area.rest.copy(alloc)?,
    })
}

/// The wish for a conversion under an encryption, with the sizes of a config.
fn wish_with(
    alloc: Global,
    conversion: &Reencrypt,
    encryption: Encryption,
    config: &Config,
    key: Option<(Luks2, Digest)>,
) -> Result<Wish>
    requires conversion { IsReencrypt conversion.now }
    requires sectors { is_sector_size encryption.sector_size ≡ true }
    requires key { IfSome key (λ key. IsLuks2 key.0 × IsDigest key.1) }
    ensures { IfOk result HasText }
{
    Ok(Wish {
        mode: conversion.mode,
        direction: conversion.direction,
        area: area_of(alloc, conversion)?,
        encryption: encryption.cipher,
        sector_size: encryption.sector_size as u32,
        key,
        header_size: config.json_size.saturating_add(4096),
        keyslots_size: config.keyslots_size,
    })
}

/// What a text of metadata wishes for, in a copy of so many bytes, with the key of another.
pub(crate) fn wish_in(alloc: Global, size: u64, text: &str, key: &str) -> Result<Box<Wish>>
    ensures { IfOk result (λ wish. HasText wish.value) }
{
    let meta = read(alloc, text, size)?;
    let parts = meta.parts();
    let encryption = encryption_of(parts)?;
    let conversion = conversion_of(alloc, parts)?;
    let key = key_in(alloc, key)?;
    let wish = wish_with(alloc, &conversion, encryption, &parts.config, key)?;
    Ok(Box::new(alloc, wish)?)
}

/// Whether the new segment of a volume that begins there has a place of 64 bits.
pub(crate) fn has_offset(wish: &Wish, offset: u64) -> bool
    ensures { IsTrue result → HasOffset wish.now.direction wish.now.area.resilience offset }
{
    match (wish.area.resilience, wish.direction) {
        (Resilience::Datashift(shift), Direction::Forward) => shift <= offset,
        (Resilience::Datashift(shift), Direction::Backward) => shift <= u64::MAX - offset,
        (Resilience::Journal | Resilience::Checksum(_), _) => true,
    }
}
