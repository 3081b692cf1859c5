// The sizes of the header's areas, and what a reader of the header must know.

ghost use Rattle.std.specs.Prelude.{◌≡◌, IfOk, OnOk, codes, option_map};
ghost use Rattle.serde_json.specs.Data.{object as object_data};
ghost use Rattle.serde_json.specs.View.{view, items_view};
ghost use Rattle.json_members.specs.declared.faults.JsonFaultKind.TheVariants.{Number};
ghost use Rattle.json_members.specs.Fields.{Gives, meant_in, optional};
ghost use Rattle.json_members.specs.Members.{put_optional};
ghost use Rattle.luks_json.specs.Configs.{
  requirements_of,
  requirements_in,
  requirements_members,
  json_size_named,
  config_of,
  config_members,
  is_foreign_item,
  any_foreign_item,
  mandatory_in,
  origin_in,
};

use json_members::{
    JsonFaultKind, Object, ReadError, decimal_at, decimal_number, fault_at, object_at, path_of,
    put_decimal, put_object, put_texts, text_at, texts_at,
};
use luks_meta::{Config, Origin, PROFILE, Requirements};
use serde_json::Value;
use std::alloc::{AllocError, Global};

#[tactic(auto, unfolding(crate::specs::Configs::requirements_of))]
fn read_requirements(alloc: Global, path: &str, object: Object) -> Result<Requirements, ReadError>
    ensures { Gives (λ r. r) result (requirements_of path.now object) }
{
    let mut object = object;
    let mandatory = texts_at(alloc, path, &object, "mandatory")?;
    object.drop_member("mandatory");
    Ok(Requirements {
        mandatory,
        rest: object,
    })
}

#[tactic(auto, unfolding(crate::specs::Configs::requirements_in))]
fn requirements_at(alloc: Global, path: &str, object: &Object) -> Result<Requirements, ReadError>
    ensures { Gives (λ r. r) result (requirements_in path.now object.now) }
{
    let inner = object_at(alloc, path, object, "requirements")?;
    let place = path_of(alloc, path, "requirements")?;
    read_requirements(alloc, place.as_str(), inner)
}

fn optional_requirements_at(
    alloc: Global,
    path: &str,
    object: &Object,
) -> Result<Option<Requirements>, ReadError>
    ensures { Gives (λ r. r) result
        (optional (codes "requirements") object.now (requirements_in path.now object.now)) }
{
    let Some(_) = object.get("requirements") else {
        return Ok(None);
    };
    let requirements = requirements_at(alloc, path, object)?;
    Ok(Some(requirements))
}

// The size of a JSON area that a text is, if it is that of a copy of so many bytes.
fn json_size_of(hdr_size: u64, text: &str) -> Option<u64>
    ensures { result ≡ json_size_named hdr_size text.now }
{
    let Some(size) = decimal_number(text) else {
        return None;
    };
    if size == hdr_size.saturating_sub(4096) {
        Some(size)
    } else {
        None
    }
}

#[tactic(auto, unfolding(json_members::specs::Fields::meant_in))]
fn json_size_at(alloc: Global, hdr_size: u64, path: &str, object: &Object) -> Result<u64, ReadError>
    ensures { Gives (λ n. n) result
        (meant_in Number (json_size_named hdr_size) path.now (codes "json_size") object.now) }
{
    let text = text_at(alloc, path, object, "json_size")?;
    let Some(size) = json_size_of(hdr_size, text) else {
        return Err(fault_at(alloc, JsonFaultKind::Number, path, "json_size"));
    };
    Ok(size)
}

/// The sizes and requirements that an object is in a copy of so many bytes.
#[tactic(auto, unfolding(crate::specs::Configs::config_of))]
pub(crate) fn read_config(
    alloc: Global,
    hdr_size: u64,
    path: &str,
    object: Object,
) -> Result<Config, ReadError>
    ensures { Gives (λ c. c) result (config_of hdr_size path.now object) }
{
    let mut object = object;
    let json_size = json_size_at(alloc, hdr_size, path, &object)?;
    let keyslots_size = decimal_at(alloc, path, &object, "keyslots_size")?;
    let requirements = optional_requirements_at(alloc, path, &object)?;
    object.drop_member("json_size");
    object.drop_member("keyslots_size");
    object.drop_member("requirements");
    Ok(Config {
        json_size,
        keyslots_size,
        requirements,
        rest: object,
    })
}

#[tactic(auto, unfolding(crate::specs::Configs::requirements_members))]
fn write_requirements(alloc: Global, requirements: &Requirements) -> Result<Object, AllocError>
    ensures { IfOk result (λ o. o ≡ requirements_members requirements.now) }
{
    let mut object = requirements.rest.copy(alloc)?;
    put_texts(
        alloc,
        &mut object,
        "mandatory",
        requirements.mandatory.as_slice(),
    )?;
    Ok(object)
}

fn put_requirements(
    alloc: Global,
    object: &mut Object,
    requirements: &Option<Requirements>,
) -> Result<(), AllocError>
    ensures { OnOk result
        (object.new
        ≡ put_optional (codes "requirements")
        (option_map (λ r. object_data (requirements_members r)) requirements.now) object.old) }
{
    match requirements {
        Some(requirements) => {
            let inner = write_requirements(alloc, requirements)?;
            put_object(alloc, object, "requirements", inner)
        }
        None => Ok(()),
    }
}

/// The members of the sizes and requirements.
#[tactic(auto, unfolding(crate::specs::Configs::config_members))]
pub(crate) fn write_config(alloc: Global, config: &Config) -> Result<Object, AllocError>
    ensures { IfOk result (λ o. o ≡ config_members config.now) }
{
    let mut object = config.rest.copy(alloc)?;
    put_requirements(alloc, &mut object, &config.requirements)?;
    put_decimal(alloc, &mut object, "json_size", config.json_size)?;
    put_decimal(alloc, &mut object, "keyslots_size", config.keyslots_size)?;
    Ok(object)
}

fn asks_for_something_else(value: &Value) -> bool
    ensures { result ≡ is_foreign_item (view value.now) }
{
    match value {
        Value::String(text) => text.as_str() != PROFILE,
        Value::Null | Value::Bool(_) | Value::Number(_) | Value::Array(_) | Value::Object(_) =>
            false,
    }
}

fn any_asks_for_something_else(values: &[Value]) -> bool
    ensures { result ≡ any_foreign_item (items_view values.now) }
{
    for value in values {
        if asks_for_something_else(value) {
            return true;
        }
    }
    false
}

#[tactic(auto, unfolding(crate::specs::Configs::mandatory_in))]
fn mandatory_values(object: &Object) -> Option<&[Value]>
    ensures { option_map (λ v. items_view v.now) result ≡ mandatory_in object.now }
{
    let config = object.get("config")?;
    let requirements = config.get("requirements")?;
    let mandatory = requirements.get("mandatory")?;
    let values = mandatory.as_array()?;
    Some(values.as_slice())
}

/// Whose header it is, by the requirements among the top members, whatever the others are.
#[tactic(auto, unfolding(crate::specs::Configs::origin_in))]
pub(crate) fn origin_at(object: &Object) -> Origin
    ensures { result ≡ origin_in object.now }
{
    let Some(values) = mandatory_values(object) else {
        return Origin::Own;
    };
    if any_asks_for_something_else(values) {
        Origin::Foreign
    } else {
        Origin::Own
    }
}
