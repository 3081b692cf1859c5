// The conversions that are begun with a new key.

ghost use Rattle.std.specs.Prelude.{◌≡◌, IfOk, IsTrue};
ghost use Rattle.luks_init.specs.Wishes.{IsWish};
ghost use Rattle.reenc_meta.specs.Placements.{all_atoms};
ghost use Rattle.sector_disk.specs.Geometry.{IsAtom, IsDisk};

use anyhow::{Result, anyhow};
use luks_init::{Begun, Guard, InitFault, Wish, begin};
use luks_meta::{Cipher, Direction};
use luks_rules::Valid;
use luks_slots::{drawn_len, split_drawn};
use std::alloc::{AllocError, Global};
use test_script::{number, small_number};

/// Whether a wish is one for a disk of such atoms.
fn is_wish(wish: &Wish, atom: u32) -> bool
    requires { IsAtom atom }
    ensures { IsTrue result → IsWish wish.now atom }
{
    let sector = wish.sector_size;
    wish.cipher == Cipher::AesXtsPlain64
        && (wish.key_size == 32 || wish.key_size == 64)
        && (sector == 512 || sector == 4096)
        && atom % sector == 0
        && wish.iterations == 1000
        && wish.hotzone_size % atom as u64 == 0
        && 0 < wish.hotzone_size
        && wish.hotzone_size <= 67_108_864
}

fn direction_of(word: &str) -> Direction {
    if word == "forward" {
        Direction::Forward
    } else {
        Direction::Backward
    }
}

fn guard_of(word: &str) -> Guard {
    if word == "journal" {
        Guard::Journal
    } else {
        Guard::Checksum
    }
}

/// What a row wishes for: the bytes of the key and of a sector, the direction, what guards zones,
/// and the bytes of the largest zone.
fn wish_of(words: [&str; 5]) -> Result<Wish> {
    let [key, sector, direction, guard, zone] = words;
    let key_size = small_number(key)?;
    let sector_size = small_number(sector)?;
    let hotzone_size = number(zone)?;
    Ok(Wish {
        cipher: Cipher::AesXtsPlain64,
        key_size,
        sector_size,
        iterations: 1000,
        direction: direction_of(direction),
        resilience: guard_of(guard),
        hotzone_size,
        drop_keyslots: false,
    })
}

/// What is drawn: byte i is i modulo 251.
fn drawn_bytes(alloc: Global, size: usize) -> Result<Vec<u8>> {
    Ok((0..size).map(|i| (i % 251) as u8).collect(alloc)?)
}

/// A conversion that was begun, in a place of its own.
fn boxed(alloc: Global, begun: Result<Begun, InitFault>) -> Result<Box<Begun>, InitFault> {
    match begun {
        Ok(begun) => match Box::new(alloc, begun) {
            Ok(begun) => Ok(begun),
            Err(e) => Err(AllocError::from(e).into()),
        },
        Err(fault) => Err(fault),
    }
}

/// Begins a conversion as it is wished, if nothing stands in the way.
fn begun_as(
    alloc: Global,
    valid: &Valid,
    pass: &[u8],
    wish: &Wish,
) -> Result<Result<Box<Begun>, InitFault>>
    requires disk { IsDisk valid.now.sizes.atom (all_atoms valid.now.sizes) }
    requires wish { IsWish wish.now valid.now.sizes.atom }
{
    let len = drawn_len(wish.key_size as usize);
    let bytes = drawn_bytes(alloc, len)?;
    if bytes.len() != len {
        return Err(anyhow!("too few bytes"));
    }
    let (drawn, _) = split_drawn(wish.key_size as usize, bytes.as_slice());
    Ok(boxed(alloc, begin(alloc, valid, wish, pass, drawn)))
}

/// Begins a conversion with a new key under a row's passphrase, if nothing stands in the way.
pub(crate) fn begun(
    alloc: Global,
    valid: &Valid,
    words: &[&str],
) -> Result<Result<Box<Begun>, InitFault>>
    requires { IsDisk valid.now.sizes.atom (all_atoms valid.now.sizes) }
{
    let [pass, key, sector, direction, guard, zone] = words else {
        return Err(anyhow!("a wish of so many columns"));
    };
    let wish = wish_of([*key, *sector, *direction, *guard, *zone])?;
    if !is_wish(&wish, valid.sizes().atom) {
        return Err(anyhow!("a wish that is out of bounds"));
    }
    begun_as(alloc, valid, pass.as_bytes(), &wish)
}
