// The keyslot that says how a conversion goes on.

ghost use Rattle.std.specs.Prelude.{◌≡◌, IfOk, OnOk, codes};
ghost use Rattle.json_members.specs.declared.faults.JsonFaultKind.TheVariants.{Unsupported};
ghost use Rattle.json_members.specs.Fields.{Gives, meant_in, counted_in};
ghost use Rattle.json_members.specs.Members.{put_all};
ghost use Rattle.luks_meta.specs.Reencrypts.{mode_named, direction_named};
ghost use Rattle.luks_json.specs.Reencrypts.{
  area_type_named,
  only_one,
  checksum_in,
  resilience_by,
  area_of,
  placed_fields,
  area_fields,
  area_members,
  reencrypt_of,
  reencrypt_members,
};

use json_members::{
    JsonFaultKind, Object, ReadError, decimal_at, fault_at, number_at, object_at, path_of,
    put_decimal, put_number, put_object, put_text, text_at, word_at,
};
use luks_meta::{Direction, Mode, Reencrypt, ReencryptArea, Resilience};
use std::alloc::{AllocError, Global};

/// The type of a conversion's area.
#[derive(Clone, Copy, PartialEq, Eq)]
pub enum AreaType {
    Journal,
    Checksum,
    Datashift,
}

impl AreaType {
    fn of_name(name: &str) -> Option<AreaType>
        ensures { result ≡ area_type_named name.now }
    {
        if name == "journal" {
            Some(AreaType::Journal)
        } else if name == "checksum" {
            Some(AreaType::Checksum)
        } else if name == "datashift" {
            Some(AreaType::Datashift)
        } else {
            None
        }
    }
}

#[tactic(auto, unfolding(json_members::specs::Fields::meant_in))]
fn mode_at(alloc: Global, path: &str, object: &Object) -> Result<Mode, ReadError>
    ensures { Gives (λ m. m) result
        (meant_in Unsupported mode_named path.now (codes "mode") object.now) }
{
    let name = text_at(alloc, path, object, "mode")?;
    let Some(mode) = Mode::of_name(name) else {
        return Err(fault_at(alloc, JsonFaultKind::Unsupported, path, "mode"));
    };
    Ok(mode)
}

#[tactic(auto, unfolding(json_members::specs::Fields::meant_in))]
fn direction_at(alloc: Global, path: &str, object: &Object) -> Result<Direction, ReadError>
    ensures { Gives (λ d. d) result
        (meant_in Unsupported direction_named path.now (codes "direction") object.now) }
{
    let name = text_at(alloc, path, object, "direction")?;
    let Some(direction) = Direction::of_name(name) else {
        return Err(fault_at(alloc, JsonFaultKind::Unsupported, path, "direction"));
    };
    Ok(direction)
}

#[tactic(auto, unfolding(json_members::specs::Fields::meant_in))]
fn area_type_at(alloc: Global, path: &str, object: &Object) -> Result<AreaType, ReadError>
    ensures { Gives (λ t. t) result
        (meant_in Unsupported area_type_named path.now (codes "type") object.now) }
{
    let name = text_at(alloc, path, object, "type")?;
    let Some(kind) = AreaType::of_name(name) else {
        return Err(fault_at(alloc, JsonFaultKind::Unsupported, path, "type"));
    };
    Ok(kind)
}

#[tactic(auto, unfolding(crate::specs::Reencrypts::checksum_in))]
fn checksum_at(alloc: Global, path: &str, object: &Object) -> Result<u64, ReadError>
    ensures { Gives (λ n. n) result (checksum_in path.now object.now) }
{
    word_at(alloc, path, object, "hash", "sha256")?;
    number_at(alloc, path, object, "sector_size")
}

fn resilience_at(
    alloc: Global,
    kind: AreaType,
    path: &str,
    object: &Object,
) -> Result<Resilience, ReadError>
    ensures { Gives (λ r. r) result (resilience_by kind path.now object.now) }
{
    match kind {
        AreaType::Journal => Ok(Resilience::Journal),
        AreaType::Checksum => {
            let sector_size = checksum_at(alloc, path, object)?;
            Ok(Resilience::Checksum(sector_size))
        }
        AreaType::Datashift => {
            let shift_size = decimal_at(alloc, path, object, "shift_size")?;
            Ok(Resilience::Datashift(shift_size))
        }
    }
}

#[tactic(auto, unfolding(crate::specs::Reencrypts::area_of))]
fn read_area(alloc: Global, path: &str, object: Object) -> Result<ReencryptArea, ReadError>
    ensures { Gives (λ a. a) result (area_of path.now object) }
{
    let mut object = object;
    let kind = area_type_at(alloc, path, &object)?;
    let offset = decimal_at(alloc, path, &object, "offset")?;
    let size = decimal_at(alloc, path, &object, "size")?;
    let resilience = resilience_at(alloc, kind, path, &object)?;
    object.drop_member("type");
    object.drop_member("offset");
    object.drop_member("size");
    match resilience {
        Resilience::Journal => {}
        Resilience::Checksum(_) => {
            object.drop_member("hash");
            object.drop_member("sector_size");
        }
        Resilience::Datashift(_) => object.drop_member("shift_size"),
    }
    Ok(ReencryptArea {
        resilience,
        offset,
        size,
        rest: object,
    })
}

#[tactic(auto, unfolding(json_members::specs::Fields::counted_in))]
fn key_size_at(alloc: Global, path: &str, object: &Object) -> Result<(), ReadError>
    ensures { Gives (λ u. u) result (counted_in only_one path.now (codes "key_size") object.now) }
{
    let n = number_at(alloc, path, object, "key_size")?;
    if n == 1 {
        Ok(())
    } else {
        Err(fault_at(alloc, JsonFaultKind::Number, path, "key_size"))
    }
}

/// The keyslot that an object of the type `reencrypt` is.
#[tactic(auto, unfolding(crate::specs::Reencrypts::reencrypt_of))]
pub(crate) fn read_reencrypt(
    alloc: Global,
    path: &str,
    object: Object,
) -> Result<Reencrypt, ReadError>
    ensures { Gives (λ s. s) result (reencrypt_of path.now object) }
{
    let mut object = object;
    key_size_at(alloc, path, &object)?;
    let mode = mode_at(alloc, path, &object)?;
    let direction = direction_at(alloc, path, &object)?;
    let inner = object_at(alloc, path, &object, "area")?;
    let place = path_of(alloc, path, "area")?;
    let area = read_area(alloc, place.as_str(), inner)?;
    object.drop_member("type");
    object.drop_member("key_size");
    object.drop_member("mode");
    object.drop_member("direction");
    object.drop_member("area");
    Ok(Reencrypt {
        mode,
        direction,
        area,
        rest: object,
    })
}

fn put_area_type(
    alloc: Global,
    object: &mut Object,
    kind: &str,
    offset: u64,
    size: u64,
) -> Result<(), AllocError>
    ensures { OnOk result (object.new ≡ put_all (placed_fields kind.now offset size) object.old) }
{
    put_text(alloc, object, "type", kind)?;
    put_decimal(alloc, object, "offset", offset)?;
    put_decimal(alloc, object, "size", size)
}

fn put_area(alloc: Global, object: &mut Object, area: &ReencryptArea) -> Result<(), AllocError>
    ensures { OnOk result
        (object.new
        ≡ put_all (area_fields area.now.resilience area.now.offset area.now.size) object.old) }
{
    match area.resilience {
        Resilience::Journal => put_area_type(alloc, object, "journal", area.offset, area.size),
        Resilience::Checksum(sector_size) => {
            put_area_type(alloc, object, "checksum", area.offset, area.size)?;
            put_text(alloc, object, "hash", "sha256")?;
            put_number(alloc, object, "sector_size", sector_size)
        }
        Resilience::Datashift(shift_size) => {
            put_area_type(alloc, object, "datashift", area.offset, area.size)?;
            put_decimal(alloc, object, "shift_size", shift_size)
        }
    }
}

#[tactic(auto, unfolding(crate::specs::Reencrypts::area_members))]
fn write_area(alloc: Global, area: &ReencryptArea) -> Result<Object, AllocError>
    ensures { IfOk result (λ o. o ≡ area_members area.now) }
{
    let mut object = area.rest.copy(alloc)?;
    put_area(alloc, &mut object, area)?;
    Ok(object)
}

/// The members of a keyslot of the type `reencrypt`.
#[tactic(auto, unfolding(crate::specs::Reencrypts::reencrypt_members))]
pub(crate) fn write_reencrypt(alloc: Global, slot: &Reencrypt) -> Result<Object, AllocError>
    ensures { IfOk result (λ o. o ≡ reencrypt_members slot.now) }
{
    let mut object = slot.rest.copy(alloc)?;
    put_text(alloc, &mut object, "type", "reencrypt")?;
    put_number(alloc, &mut object, "key_size", 1)?;
    put_text(alloc, &mut object, "mode", slot.mode.name())?;
    put_text(alloc, &mut object, "direction", slot.direction.name())?;
    let area = write_area(alloc, &slot.area)?;
    put_object(alloc, &mut object, "area", area)?;
    Ok(object)
}
