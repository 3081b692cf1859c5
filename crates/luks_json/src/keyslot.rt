// Keyslots that a passphrase opens, and those of other types.

ghost use Rattle.std.specs.Prelude.{◌≡◌, IfOk, OnOk, codes, option_map};
ghost use Rattle.serde_json.specs.Data.{object as object_data};
ghost use Rattle.json_members.specs.Fields.{Gives, optional};
ghost use Rattle.json_members.specs.Members.{put_optional};
ghost use Rattle.luks_json.specs.Keyslots.{
  other_area_of,
  other_area_in,
  other_area_members,
  other_of,
  other_members,
  keyslot_of,
  keyslot_members,
};

use crate::entries::EntryText;
use crate::luks2::{read_luks2, write_luks2};
use crate::reencrypt::{read_reencrypt, write_reencrypt};
use json_members::{
    Object, ReadError, Text, decimal_at, object_at, own_text_at, path_of, put_decimal, put_object,
    put_text,
};
use luks_meta::{Keyslot, Origin, OtherArea, OtherSlot, SlotType};
use std::alloc::{AllocError, Global};

#[tactic(auto, unfolding(crate::specs::Keyslots::other_area_of))]
fn read_other_area(alloc: Global, path: &str, object: Object) -> Result<OtherArea, ReadError>
    ensures { Gives (λ a. a) result (other_area_of path.now object) }
{
    let mut object = object;
    let offset = decimal_at(alloc, path, &object, "offset")?;
    let size = decimal_at(alloc, path, &object, "size")?;
    object.drop_member("offset");
    object.drop_member("size");
    Ok(OtherArea {
        offset,
        size,
        rest: object,
    })
}

#[tactic(auto, unfolding(crate::specs::Keyslots::other_area_in))]
fn other_area_at(alloc: Global, path: &str, object: &Object) -> Result<OtherArea, ReadError>
    ensures { Gives (λ a. a) result (other_area_in path.now object.now) }
{
    let inner = object_at(alloc, path, object, "area")?;
    let place = path_of(alloc, path, "area")?;
    read_other_area(alloc, place.as_str(), inner)
}

fn optional_area_at(
    alloc: Global,
    path: &str,
    object: &Object,
) -> Result<Option<OtherArea>, ReadError>
    ensures { Gives (λ a. a) result
        (optional (codes "area") object.now (other_area_in path.now object.now)) }
{
    let Some(_) = object.get("area") else {
        return Ok(None);
    };
    let area = other_area_at(alloc, path, object)?;
    Ok(Some(area))
}

#[tactic(auto, unfolding(crate::specs::Keyslots::other_of))]
fn read_other(alloc: Global, kind: Text, path: &str, object: Object) -> Result<OtherSlot, ReadError>
    ensures { Gives (λ s. s) result (other_of kind path.now object) }
{
    let mut object = object;
    let area = optional_area_at(alloc, path, &object)?;
    object.drop_member("type");
    object.drop_member("area");
    Ok(OtherSlot {
        kind,
        area,
        rest: object,
    })
}

#[tactic(auto, unfolding(crate::specs::Keyslots::keyslot_of))]
fn read_keyslot(
    alloc: Global,
    origin: Origin,
    path: &str,
    object: Object,
) -> Result<Keyslot, ReadError>
    ensures { Gives (λ s. s) result (keyslot_of origin path.now object) }
{
    let kind = own_text_at(alloc, path, &object, "type")?;
    match SlotType::of_name(origin, kind.as_str()) {
        SlotType::Luks2 => Ok(Keyslot::Luks2(read_luks2(alloc, path, object)?)),
        SlotType::Reencrypt => Ok(Keyslot::Reencrypt(read_reencrypt(alloc, path, object)?)),
        SlotType::Unknown => Ok(Keyslot::Unknown(read_other(alloc, kind, path, object)?)),
    }
}

#[tactic(auto, unfolding(crate::specs::Keyslots::other_area_members))]
fn write_other_area(alloc: Global, area: &OtherArea) -> Result<Object, AllocError>
    ensures { IfOk result (λ o. o ≡ other_area_members area.now) }
{
    let mut object = area.rest.copy(alloc)?;
    put_decimal(alloc, &mut object, "offset", area.offset)?;
    put_decimal(alloc, &mut object, "size", area.size)?;
    Ok(object)
}

fn put_other_area(
    alloc: Global,
    object: &mut Object,
    area: &Option<OtherArea>,
) -> Result<(), AllocError>
    ensures { OnOk result
        (object.new
        ≡ put_optional (codes "area")
        (option_map (λ a. object_data (other_area_members a)) area.now) object.old) }
{
    match area {
        Some(area) => {
            let inner = write_other_area(alloc, area)?;
            put_object(alloc, object, "area", inner)
        }
        None => Ok(()),
    }
}

#[tactic(auto, unfolding(crate::specs::Keyslots::other_members))]
fn write_other(alloc: Global, slot: &OtherSlot) -> Result<Object, AllocError>
    ensures { IfOk result (λ o. o ≡ other_members slot.now) }
{
    let mut object = slot.rest.copy(alloc)?;
    put_other_area(alloc, &mut object, &slot.area)?;
    put_text(alloc, &mut object, "type", slot.kind.as_str())?;
    Ok(object)
}

#[tactic(auto, unfolding(crate::specs::Keyslots::keyslot_members))]
fn write_keyslot(alloc: Global, slot: &Keyslot) -> Result<Object, AllocError>
    ensures { IfOk result (λ o. o ≡ keyslot_members slot.now) }
{
    match slot {
        Keyslot::Luks2(slot) => write_luks2(alloc, slot),
        Keyslot::Reencrypt(slot) => write_reencrypt(alloc, slot),
        Keyslot::Unknown(slot) => write_other(alloc, slot),
    }
}

impl EntryText for Keyslot {
    ghost use Rattle.luks_json.specs.Keyslots.{keyslot_of, keyslot_members};

    type Terms = Origin;

    ghost of = { keyslot_of };

    ghost members = { keyslot_members };

    fn read(
        alloc: Global,
        terms: &Origin,
        path: &str,
        object: Object,
    ) -> Result<Keyslot, ReadError> {
        read_keyslot(alloc, *terms, path, object)
    }

    fn write(&self, alloc: Global) -> Result<Object, AllocError> {
        write_keyslot(alloc, self)
    }
}
