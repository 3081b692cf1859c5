// The key that the stripes in a keyslot's area hold.

ghost use Rattle.std.specs.Prelude.{◌≡◌, ◌≤◌, ◌+◌, ◌*◌, ◌%◌, ℕ, List, length, take, drop, true};
ghost use Rattle.std.specs.Prelude.{Some, IfOk, OnOk, IsErr};
ghost use Rattle.af_split.specs.Af.{merged};
ghost use Rattle.base_terms.specs.Causes.{Rose};
ghost use Rattle.luks_meta.specs.Names.{is_iterations};
ghost use Rattle.luks_slots.specs.Devices.{IsUnwritten};
ghost use Rattle.luks_slots.specs.Functions.{has_key_length};
ghost use Rattle.luks_slots.specs.Slots.{HasSizes, LiesOn};
ghost use Rattle.luks_slots.specs.Stripes.{split_len, stored_key};
ghost use Rattle.pbkdf2_hmac.specs.Pbkdf2.{derived_key};
ghost use Rattle.sector_cipher.specs.Context.{opened_under};

use crate::functions::Functions;
use crate::key::{Key, MOST_BYTES};
use crate::slots::STRIPES;
use af_split::merge;
use base_terms::Failed;
use cipher_laws::SectorCipher;
use luks_meta::{Luks2, Pbkdf2};
use pbkdf2_hmac::derive;
use sector_cipher::Context;
use sector_disk::Disk;

/// The bytes of a sector of an area.
pub(crate) const SECTOR: u32 = 512;

/// The bytes of the longest key's stripes, in whole pages.
pub(crate) const MOST_STRIPES: usize = 258_048;

/// Reads whole atoms from a byte on, at which one begins.
fn read_area<D: Disk>(disk: &mut D, offset: u64, area: &mut [u8]) -> Result<(), Failed>
    requires offset { offset % (D.device disk.old).size ≡ 0 }
    requires whole { length area.old % (D.device disk.old).size ≡ 0 }
    requires within { offset + length area.old
        ≤ (D.device disk.old).atoms * (D.device disk.old).size }
    ensures length { length area.new ≡ length area.old }
    ensures bytes { (image : List ℕ) → (D.device disk.old).values ≡ Some image →
        OnOk result (area.new ≡ take (length area.old) (drop offset image)) }
    ensures unwritten { IsUnwritten (D.device disk.old) (D.device disk.new) }
    ensures cause { IsErr result → Rose (D.device disk.old).faults (D.device disk.new).faults }
{
    let atom = disk.atom() as u64;
    disk.read(offset / atom, area)
}

/// Unseals sectors where they lie, under the key that a passphrase derives.
fn unseal_sectors(
    pass: &[u8],
    kdf: &Pbkdf2,
    functions: Functions,
    key_size: usize,
    sectors: &mut [u8],
)
    requires rounds { is_iterations kdf.now.iterations ≡ true }
    requires key { has_key_length functions.cipher key_size ≡ true }
    requires whole { length sectors.old % 512 ≡ 0 }
    ensures { sectors.new ≡ opened_under functions.cipher
        (derived_key functions.kdf pass.now kdf.now.salt kdf.now.iterations key_size) 512 0
        sectors.old }
{
    let mut key = [0; MOST_BYTES];
    let key = &mut key[..key_size];
    let salt = kdf.salt.as_slice();
    derive(functions.kdf, pass, salt, kdf.iterations as u32, key);
    let Ok(cipher) = Context::new(functions.cipher, key, SECTOR) else {
        unreachable!()
    };
    cipher.unseal_atom(0, sectors);
}

/// The key that stripes are merged to.
fn merge_key(functions: Functions, key_size: usize, stripes: &[u8]) -> Key
    requires some { 1 ≤ key_size }
    requires most { key_size ≤ 64 }
    requires stripes { length stripes.now ≡ 4000 * key_size }
    ensures key { result ≡ merged functions.af key_size 4000 stripes.now }
    ensures length { length result ≡ key_size }
{
    let mut key = [0; MOST_BYTES];
    let key = &mut key[..key_size];
    merge(functions.af, STRIPES, stripes, key);
    Key::new(key)
}

/// The key that a keyslot's stripes hold for a passphrase. They are read into the buffer, and
/// unsealed there.
#[tactic(auto, unfolding(crate::specs::Stripes::stored_key, crate::specs::Stripes::stripes_in, crate::specs::Stripes::area_key))]
pub(crate) fn unseal_key<D: Disk>(
    disk: &mut D,
    buffer: &mut [u8],
    pass: &[u8],
    kdf: &Pbkdf2,
    functions: Functions,
    slot: &Luks2,
) -> Result<Key, Failed>
    requires rounds { is_iterations kdf.now.iterations ≡ true }
    requires key { has_key_length functions.cipher slot.now.area.key_size ≡ true }
    requires some { 1 ≤ slot.now.key_size }
    requires most { slot.now.key_size ≤ 64 }
    requires room { split_len slot.now.key_size ≤ slot.now.area.size }
    requires lies { LiesOn (D.device disk.old).size (D.device disk.old).atoms slot.now }
    requires buffer { length buffer.old ≡ MOST_STRIPES }
    ensures buffer { length buffer.new ≡ length buffer.old }
    ensures key { (image : List ℕ) → (D.device disk.old).values ≡ Some image →
        IfOk result (λ key. key ≡ stored_key image pass.now kdf.now functions slot.now) }
    ensures length { IfOk result (λ key. length key ≡ slot.now.key_size) }
    ensures unwritten { IsUnwritten (D.device disk.old) (D.device disk.new) }
    ensures cause { IsErr result → Rose (D.device disk.old).faults (D.device disk.new).faults }
{
    let key_size = slot.key_size as usize;
    let split = key_size * STRIPES;
    let sectors = split.div_ceil(SECTOR as usize) * SECTOR as usize;
    let atom = disk.atom() as usize;
    let whole = sectors.div_ceil(atom) * atom;
    match read_area(disk, slot.area.offset, &mut buffer[..whole]) {
        Ok(()) => {}
        Err(failed) => return Err(failed),
    }
    let area_key_size = slot.area.key_size as usize;
    unseal_sectors(pass, kdf, functions, area_key_size, &mut buffer[..sectors]);
    Ok(merge_key(functions, key_size, &buffer[..split]))
}
