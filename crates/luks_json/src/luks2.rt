// Reading and writing a keyslot that a passphrase opens.

ghost use Rattle.std.specs.Prelude.{◌≡◌, IfOk, OnOk, codes, option_map};
ghost use Rattle.serde_json.specs.Data.{number, unsigned};
ghost use Rattle.json_members.specs.Fields.{Gives, counted_in, optional};
ghost use Rattle.json_members.specs.Members.{put_all, put_optional};
ghost use Rattle.luks_json.specs.Keyslots.{
  slot_area_of,
  slot_area_members,
  pbkdf2_in,
  kdf_of,
  kdf_fields,
  kdf_members,
  splitter_of,
  splitter_members,
  priority_of,
  luks2_of,
  luks2_members,
};
ghost use Rattle.luks_meta.specs.Keyslots.{priority_number};

use crate::iterations::iterations_at;
use json_members::{
    JsonFaultKind, Object, ReadError, bytes_at, decimal_at, fault_at, number_at, object_at,
    own_text_at, path_of, put_bytes, put_decimal, put_number, put_object, put_text, word_at,
};
use luks_meta::{Derivation, Kdf, Luks2, Pbkdf2, Priority, SlotArea, Splitter};
use std::alloc::{AllocError, Global};

#[tactic(auto, unfolding(crate::specs::Keyslots::slot_area_of))]
fn read_slot_area(alloc: Global, path: &str, object: Object) -> Result<SlotArea, ReadError>
    ensures { Gives (λ a. a) result (slot_area_of path.now object) }
{
    let mut object = object;
    word_at(alloc, path, &object, "type", "raw")?;
    let encryption = own_text_at(alloc, path, &object, "encryption")?;
    let key_size = number_at(alloc, path, &object, "key_size")?;
    let offset = decimal_at(alloc, path, &object, "offset")?;
    let size = decimal_at(alloc, path, &object, "size")?;
    object.drop_member("type");
    object.drop_member("encryption");
    object.drop_member("key_size");
    object.drop_member("offset");
    object.drop_member("size");
    Ok(SlotArea {
        encryption,
        key_size,
        offset,
        size,
        rest: object,
    })
}

#[tactic(auto, unfolding(crate::specs::Keyslots::pbkdf2_in))]
fn pbkdf2_at(alloc: Global, path: &str, object: &Object) -> Result<Pbkdf2, ReadError>
    ensures { Gives (λ k. k) result (pbkdf2_in path.now object.now) }
{
    let hash = own_text_at(alloc, path, object, "hash")?;
    let iterations = iterations_at(alloc, path, object, "iterations")?;
    let salt = bytes_at(alloc, path, object, "salt")?;
    Ok(Pbkdf2 {
        hash,
        iterations,
        salt,
    })
}

#[tactic(auto, unfolding(crate::specs::Keyslots::kdf_of))]
fn read_kdf(alloc: Global, path: &str, object: Object) -> Result<Kdf, ReadError>
    ensures { Gives (λ k. k) result (kdf_of path.now object) }
{
    let mut object = object;
    let kind = own_text_at(alloc, path, &object, "type")?;
    if kind.as_str() == "pbkdf2" {
        let derivation = Derivation::Pbkdf2(pbkdf2_at(alloc, path, &object)?);
        object.drop_member("type");
        object.drop_member("hash");
        object.drop_member("iterations");
        object.drop_member("salt");
        Ok(Kdf {
            derivation,
            rest: object,
        })
    } else {
        object.drop_member("type");
        Ok(Kdf {
            derivation: Derivation::Unknown(kind),
            rest: object,
        })
    }
}

#[tactic(auto, unfolding(crate::specs::Keyslots::splitter_of))]
fn read_splitter(alloc: Global, path: &str, object: Object) -> Result<Splitter, ReadError>
    ensures { Gives (λ s. s) result (splitter_of path.now object) }
{
    let mut object = object;
    word_at(alloc, path, &object, "type", "luks1")?;
    let stripes = number_at(alloc, path, &object, "stripes")?;
    let hash = own_text_at(alloc, path, &object, "hash")?;
    object.drop_member("type");
    object.drop_member("stripes");
    object.drop_member("hash");
    Ok(Splitter {
        stripes,
        hash,
        rest: object,
    })
}

#[tactic(auto, unfolding(json_members::specs::Fields::counted_in))]
fn priority_at(alloc: Global, path: &str, object: &Object) -> Result<Priority, ReadError>
    ensures { Gives (λ p. p) result
        (counted_in priority_of path.now (codes "priority") object.now) }
{
    let n = number_at(alloc, path, object, "priority")?;
    if n == 0 {
        Ok(Priority::Ignore)
    } else if n == 1 {
        Ok(Priority::Normal)
    } else if n == 2 {
        Ok(Priority::High)
    } else {
        Err(fault_at(alloc, JsonFaultKind::Number, path, "priority"))
    }
}

fn optional_priority_at(
    alloc: Global,
    path: &str,
    object: &Object,
) -> Result<Option<Priority>, ReadError>
    ensures { Gives (λ p. p) result
        (optional (codes "priority") object.now
        (counted_in priority_of path.now (codes "priority") object.now)) }
{
    let Some(_) = object.get("priority") else {
        return Ok(None);
    };
    let priority = priority_at(alloc, path, object)?;
    Ok(Some(priority))
}

/// The keyslot that an object of the type `luks2` is.
#[tactic(auto, unfolding(crate::specs::Keyslots::luks2_of))]
pub(crate) fn read_luks2(alloc: Global, path: &str, object: Object) -> Result<Luks2, ReadError>
    ensures { Gives (λ s. s) result (luks2_of path.now object) }
{
    let mut object = object;
    let key_size = number_at(alloc, path, &object, "key_size")?;
    let inner = object_at(alloc, path, &object, "area")?;
    let place = path_of(alloc, path, "area")?;
    let area = read_slot_area(alloc, place.as_str(), inner)?;
    let inner = object_at(alloc, path, &object, "kdf")?;
    let place = path_of(alloc, path, "kdf")?;
    let kdf = read_kdf(alloc, place.as_str(), inner)?;
    let inner = object_at(alloc, path, &object, "af")?;
    let place = path_of(alloc, path, "af")?;
    let af = read_splitter(alloc, place.as_str(), inner)?;
    let priority = optional_priority_at(alloc, path, &object)?;
    object.drop_member("type");
    object.drop_member("key_size");
    object.drop_member("area");
    object.drop_member("kdf");
    object.drop_member("af");
    object.drop_member("priority");
    Ok(Luks2 {
        key_size,
        area,
        kdf,
        af,
        priority,
        rest: object,
    })
}

#[tactic(auto, unfolding(crate::specs::Keyslots::slot_area_members))]
fn write_slot_area(alloc: Global, area: &SlotArea) -> Result<Object, AllocError>
    ensures { IfOk result (λ o. o ≡ slot_area_members area.now) }
{
    let mut object = area.rest.copy(alloc)?;
    put_text(alloc, &mut object, "type", "raw")?;
    put_text(alloc, &mut object, "encryption", area.encryption.as_str())?;
    put_number(alloc, &mut object, "key_size", area.key_size)?;
    put_decimal(alloc, &mut object, "offset", area.offset)?;
    put_decimal(alloc, &mut object, "size", area.size)?;
    Ok(object)
}

fn put_derivation(
    alloc: Global,
    object: &mut Object,
    derivation: &Derivation,
) -> Result<(), AllocError>
    ensures { OnOk result (object.new ≡ put_all (kdf_fields derivation.now) object.old) }
{
    match derivation {
        Derivation::Pbkdf2(pbkdf2) => {
            put_text(alloc, object, "type", "pbkdf2")?;
            put_text(alloc, object, "hash", pbkdf2.hash.as_str())?;
            put_number(alloc, object, "iterations", pbkdf2.iterations)?;
            put_bytes(alloc, object, "salt", pbkdf2.salt.as_slice())
        }
        Derivation::Unknown(kind) => put_text(alloc, object, "type", kind.as_str()),
    }
}

#[tactic(auto, unfolding(crate::specs::Keyslots::kdf_members))]
fn write_kdf(alloc: Global, kdf: &Kdf) -> Result<Object, AllocError>
    ensures { IfOk result (λ o. o ≡ kdf_members kdf.now) }
{
    let mut object = kdf.rest.copy(alloc)?;
    put_derivation(alloc, &mut object, &kdf.derivation)?;
    Ok(object)
}

#[tactic(auto, unfolding(crate::specs::Keyslots::splitter_members))]
fn write_splitter(alloc: Global, af: &Splitter) -> Result<Object, AllocError>
    ensures { IfOk result (λ o. o ≡ splitter_members af.now) }
{
    let mut object = af.rest.copy(alloc)?;
    put_text(alloc, &mut object, "type", "luks1")?;
    put_number(alloc, &mut object, "stripes", af.stripes)?;
    put_text(alloc, &mut object, "hash", af.hash.as_str())?;
    Ok(object)
}

fn put_priority(
    alloc: Global,
    object: &mut Object,
    priority: Option<Priority>,
) -> Result<(), AllocError>
    ensures { OnOk result
        (object.new
        ≡ put_optional (codes "priority")
        (option_map (λ p. number (unsigned (priority_number p))) priority) object.old) }
{
    match priority {
        Some(priority) => put_number(alloc, object, "priority", priority.number()),
        None => Ok(()),
    }
}

/// The members of a keyslot of the type `luks2`.
#[tactic(auto, unfolding(crate::specs::Keyslots::luks2_members))]
pub(crate) fn write_luks2(alloc: Global, slot: &Luks2) -> Result<Object, AllocError>
    ensures { IfOk result (λ o. o ≡ luks2_members slot.now) }
{
    let mut object = slot.rest.copy(alloc)?;
    put_priority(alloc, &mut object, slot.priority)?;
    put_text(alloc, &mut object, "type", "luks2")?;
    put_number(alloc, &mut object, "key_size", slot.key_size)?;
    let area = write_slot_area(alloc, &slot.area)?;
    put_object(alloc, &mut object, "area", area)?;
    let kdf = write_kdf(alloc, &slot.kdf)?;
    put_object(alloc, &mut object, "kdf", kdf)?;
    let af = write_splitter(alloc, &slot.af)?;
    put_object(alloc, &mut object, "af", af)?;
    Ok(object)
}
