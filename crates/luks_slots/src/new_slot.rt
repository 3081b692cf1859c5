// A new keyslot.

ghost use Rattle.std.specs.Prelude.{◌≡◌, ◌++◌, ◌*◌, ◌%◌, ◌≤◌, length, take, drop, IfOk};
ghost use Rattle.std.specs.Prelude.{MatchResult};
ghost use Rattle.af_split.specs.Af.{merged, split_of};
ghost use Rattle.luks_meta.specs.Keyslots.{IsLuks2};
ghost use Rattle.luks_slots.specs.NewSlots.{area_bytes, area_key_of, area_len, drawn_len, salt_len};
ghost use Rattle.luks_slots.specs.NewSlots.{IsAdded, IsAddFault, IsSlotAt, slot_for};
ghost use Rattle.luks_slots.specs.Stripes.{rounded, sectors_len, split_len};
ghost use Rattle.pbkdf2_hmac.specs.Pbkdf2.{derived_key};
ghost use Rattle.pbkdf2_hmac.specs.declared.Hash.TheVariants.{Sha256};
ghost use Rattle.sector_cipher.specs.Context.{opened_under, sealed_under};
ghost use Rattle.sector_cipher.specs.declared.spec.Spec.TheVariants.{AesXtsPlain64};
ghost use Rattle.sector_disk.specs.Geometry.{IsAtom};

use crate::fault::SlotFault;
use crate::gap::find_gap;
use crate::key::{Key, MOST_BYTES};
use crate::slots::STRIPES;
use crate::stripes::SECTOR;
use af_split::split;
use base_terms::{Bytes, bytes_are_below_256, zeros};
use cipher_laws::SectorCipher;
use json_members::{Object, Text, copy_bytes};
use luks_meta::{Derivation, Kdf, Luks2, Pbkdf2, SlotArea, Splitter};
use luks_rules::Valid;
use pbkdf2_hmac::{Hash, MOST_ROUNDS, derive};
use sector_cipher::{Context, Spec};
use std::alloc::{AllocError, Global};

/// The bytes of a salt.
const SALT: usize = 32;

/// The bytes of a page, in which an area is measured.
const PAGE: usize = 4096;

/// A keyslot that is to be made: its object, and the bytes that are to stand at its area's offset,
/// in whole atoms.
#[derive(Drop)]
pub struct NewSlot {
    pub keyslot: Luks2,
    pub area: Bytes,
}

/// The bytes of the area of a keyslot for a key of so many bytes, at most 64: whole pages.
pub fn area_size(key_size: usize) -> u64
    requires { key_size ≤ 64 }
    ensures { result ≡ area_len key_size }
{
    ((key_size * STRIPES).div_ceil(PAGE) * PAGE) as u64
}

fn text(alloc: Global, text: &str) -> Result<Text, AllocError>
    ensures { IfOk result (λ t. t ≡ text.now) }
{
    Ok(Text::new(String::from_str(alloc, text)?))
}

/// By which derivation a passphrase becomes the key of the area.
#[tactic(auto, unfolding(crate::specs::NewSlots::slot_for))]
fn make_kdf(alloc: Global, rounds: u32, salt: &[u8]) -> Result<Kdf, AllocError>
    ensures { IfOk result (λ kdf. kdf ≡ (slot_for 0 0 rounds salt.now).kdf) }
{
    Ok(Kdf {
        derivation: Derivation::Pbkdf2(Pbkdf2 {
            hash: text(alloc, "sha256")?,
            iterations: rounds as u64,
            salt: copy_bytes(alloc, salt)?,
        }),
        rest: Object::empty(alloc),
    })
}

/// The object of the keyslot of a key of so many bytes, at most 64, whose area lies at an offset,
/// in bytes: PBKDF2 with SHA-256 in so many rounds, 1 to `MOST_ROUNDS`, under the salt that is
/// handed in, 4000 stripes, and `aes-xts-plain64`. Of a key of no byte the area has none, and
/// nothing opens the keyslot.
///
/// # Errors
///
/// Memory was wanted.
#[tactic(auto, unfolding(crate::specs::NewSlots::slot_for))]
pub fn slot_object(
    alloc: Global,
    offset: u64,
    key_size: usize,
    rounds: u32,
    salt: &[u8],
) -> Result<Luks2, AllocError>
    requires key_size { key_size ≤ 64 }
    requires some_rounds { 1 ≤ rounds }
    requires most_rounds { rounds ≤ MOST_ROUNDS }
    ensures is { IfOk result (λ slot. slot ≡ slot_for offset key_size rounds salt.now) }
    ensures has_text { IfOk result IsLuks2 }
{
    bytes_are_below_256(salt);
    Ok(Luks2 {
        key_size: key_size as u64,
        area: SlotArea {
            encryption: text(alloc, "aes-xts-plain64")?,
            key_size: MOST_BYTES as u64,
            offset,
            size: area_size(key_size),
            rest: Object::empty(alloc),
        },
        kdf: make_kdf(alloc, rounds, salt)?,
        af: Splitter {
            stripes: STRIPES as u64,
            hash: text(alloc, "sha256")?,
            rest: Object::empty(alloc),
        },
        priority: None,
        rest: Object::empty(alloc),
    })
}

/// Seals sectors where they lie, numbered from 0: what the same cipher unseals again.
fn seal_with<C: SectorCipher>(cipher: &C, sectors: &mut [u8])
    requires sector { C.sector cipher.now ≡ 512 }
    requires whole { length sectors.old % 512 ≡ 0 }
    ensures length { length sectors.new ≡ length sectors.old }
    ensures sealed { sectors.new ≡ C.sealed cipher.now 0 sectors.old }
    ensures undone { C.opened cipher.now 0 sectors.new ≡ sectors.old }
{
    bytes_are_below_256(sectors);
    cipher.seal_atom(0, sectors);
}

/// Seals sectors where they lie, under the key that a passphrase derives.
fn seal_sectors(pass: &[u8], salt: &[u8], rounds: u32, sectors: &mut [u8])
    requires some { 1 ≤ rounds }
    requires most { rounds ≤ MOST_ROUNDS }
    requires whole { length sectors.old % 512 ≡ 0 }
    ensures length { length sectors.new ≡ length sectors.old }
    ensures sealed { sectors.new ≡ sealed_under AesXtsPlain64
        (derived_key Sha256 pass.now salt.now rounds 64) 512 0 sectors.old }
    ensures undone { opened_under AesXtsPlain64
        (derived_key Sha256 pass.now salt.now rounds 64) 512 0 sectors.new ≡ sectors.old }
{
    let mut key = [0; MOST_BYTES];
    derive(Hash::Sha256, pass, salt, rounds, &mut key);
    let Ok(cipher) = Context::new(Spec::AesXtsPlain64, &key, SECTOR) else {
        unreachable!()
    };
    seal_with(&cipher, sectors);
}

/// Puts the stripes of a key, whose last is made of those that were drawn, at the front of an area.
fn put_stripes(key: &[u8], drawn: &[u8], area: &mut [u8])
    requires some { 1 ≤ length key.now }
    requires most { length key.now ≤ 64 }
    requires drawn { length drawn.now ≡ 3999 * length key.now }
    requires room { split_len (length key.now) ≤ length area.old }
    ensures length { length area.new ≡ length area.old }
    ensures size { length (split_of Sha256 key.now 4000 drawn.now) ≡ split_len (length key.now) }
    ensures stripes { area.new ≡ split_of Sha256 key.now 4000 drawn.now
        ++ drop (split_len (length key.now)) area.old }
    ensures undone { merged Sha256 (length key.now) 4000
        (take (split_len (length key.now)) area.new) ≡ key.now }
{
    area[..drawn.len()].copy_from_slice(drawn);
    let stripes = &mut area[..key.len() * STRIPES];
    split(key, Hash::Sha256, STRIPES, stripes);
}

/// Fills an area: the split of the key in its sectors, sealed; what is behind stays.
#[tactic(auto, unfolding(crate::specs::NewSlots::area_key_of))]
fn fill_area(pass: &[u8], rounds: u32, key: &[u8], drawn: &[u8], area: &mut [u8])
    requires some_rounds { 1 ≤ rounds }
    requires most_rounds { rounds ≤ MOST_ROUNDS }
    requires some { 1 ≤ length key.now }
    requires most { length key.now ≤ 64 }
    requires drawn { length drawn.now ≡ drawn_len (length key.now) }
    requires room { sectors_len (length key.now) ≤ length area.old }
    ensures length { length area.new ≡ length area.old }
    ensures size { length (split_of Sha256 key.now 4000 (drop salt_len drawn.now))
        ≡ split_len (length key.now) }
    ensures bytes { area.new ≡ sealed_under AesXtsPlain64
        (area_key_of pass.now drawn.now rounds) 512 0
        (take (sectors_len (length key.now)) (split_of Sha256 key.now 4000 (drop salt_len drawn.now)
        ++ drop (split_len (length key.now)) area.old))
        ++ drop (sectors_len (length key.now)) area.old }
    ensures undone { merged Sha256 (length key.now) 4000 (take (split_len (length key.now))
        (opened_under AesXtsPlain64 (area_key_of pass.now drawn.now rounds) 512 0
        (take (sectors_len (length key.now)) area.new))) ≡ key.now }
{
    let (salt, stripes) = drawn.split_at(SALT);
    put_stripes(key, stripes, area);
    let sectors = (key.len() * STRIPES).div_ceil(SECTOR as usize) * SECTOR as usize;
    seal_sectors(pass, salt, rounds, &mut area[..sectors]);
}

/// The bytes of an area: the split of the key in its sectors, sealed, and zeros up to a whole atom.
#[tactic(auto, unfolding(crate::specs::NewSlots::area_bytes))]
fn make_area(
    alloc: Global,
    atom: u32,
    pass: &[u8],
    rounds: u32,
    key: &[u8],
    drawn: &[u8],
) -> Result<Vec<u8>, AllocError>
    requires atom { IsAtom atom }
    requires some_rounds { 1 ≤ rounds }
    requires most_rounds { rounds ≤ MOST_ROUNDS }
    requires some { 1 ≤ length key.now }
    requires most { length key.now ≤ 64 }
    requires drawn { length drawn.now ≡ drawn_len (length key.now) }
    ensures bytes { IfOk result
        (λ area. area.items ≡ area_bytes atom pass.now rounds key.now drawn.now) }
    ensures size { IfOk result
        (λ area. length area.items ≡ rounded (sectors_len (length key.now)) atom) }
    ensures undone { IfOk result (λ area. merged Sha256 (length key.now) 4000
        (take (split_len (length key.now)) (opened_under AesXtsPlain64
        (area_key_of pass.now drawn.now rounds) 512 0
        (take (sectors_len (length key.now)) area.items))) ≡ key.now) }
{
    let sectors = (key.len() * STRIPES).div_ceil(SECTOR as usize) * SECTOR as usize;
    let mut area = zeros(alloc, sectors.div_ceil(atom as usize) * atom as usize)?;
    fill_area(pass, rounds, key, drawn, area.as_mut_slice());
    Ok(area)
}

/// A keyslot that a passphrase opens to a key, as [`add`] makes it of the same rounds and `drawn`,
/// whose area lies at an offset, in bytes, on a disk of atoms of so many bytes. That no other area
/// has a byte of it is the caller's to see to.
///
/// # Errors
///
/// Memory was wanted.
pub fn slot_at(
    alloc: Global,
    offset: u64,
    atom: u32,
    pass: &[u8],
    rounds: u32,
    key: &Key,
    drawn: &[u8],
) -> Result<NewSlot, AllocError>
    requires some_rounds { 1 ≤ rounds }
    requires most_rounds { rounds ≤ MOST_ROUNDS }
    requires drawn { length drawn.now ≡ drawn_len (length key.now) }
    requires atom { IsAtom atom }
    ensures { IfOk result (λ new. IsSlotAt offset atom pass.now rounds key.now drawn.now new) }
{
    let (salt, _) = drawn.split_at(SALT);
    let bytes = key.as_slice();
    let keyslot = slot_object(alloc, offset, bytes.len(), rounds, salt)?;
    let area = make_area(alloc, atom, pass, rounds, bytes, drawn)?;
    Ok(NewSlot {
        keyslot,
        area: Bytes::new(area),
    })
}

/// A keyslot that a passphrase opens to a key, by PBKDF2 with SHA-256 in so many rounds, 1 to
/// `MOST_ROUNDS`; its area, under `aes-xts-plain64`, takes the lowest place that has room. `drawn`
/// are random bytes: 32 of a salt, and then those of 3999 stripes of the key's length. Where the
/// keyslots area has no room `NoRoom` tells the bytes of the area, and the most that are free at
/// one place. Nothing is written, and no number is chosen.
pub fn add(
    alloc: Global,
    valid: &Valid,
    pass: &[u8],
    rounds: u32,
    key: &Key,
    drawn: &[u8],
) -> Result<NewSlot, SlotFault>
    requires some_rounds { 1 ≤ rounds }
    requires most_rounds { rounds ≤ MOST_ROUNDS }
    requires drawn { length drawn.now ≡ drawn_len (length key.now) }
    requires atom { IsAtom valid.now.sizes.atom }
    ensures { MatchResult result
        (λ new. IsAdded valid.now.meta valid.now.sizes.atom pass.now rounds key.now drawn.now new)
        (λ e. IsAddFault valid.now.meta valid.now.sizes.atom (length key.now) e) }
{
    let size = area_size(key.as_slice().len());
    let offset = match find_gap(alloc, valid, &[], size) {
        Ok(offset) => offset,
        Err(fault) => return Err(fault),
    };
    match slot_at(alloc, offset, valid.sizes().atom, pass, rounds, key, drawn) {
        Ok(new) => Ok(new),
        Err(_) => Err(SlotFault::Memory),
    }
}
