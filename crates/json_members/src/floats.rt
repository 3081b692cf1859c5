ghost use Rattle.std.specs.Prelude.{◌≡◌, [], false, IfOk, IsOk, option_map, string_bytes};
ghost use Rattle.serde_json.specs.Written.{has_float, items_have_float, members_have_float};
ghost use Rattle.json_members.specs.Floats.{float_in, float_in_items, float_in_members};
ghost use Rattle.serde_json.specs.View.{view, items_view, members_view};

use crate::decimal::decimal_text;
use crate::faults::path_of;
use serde_json::{Map, Value};
use std::alloc::{AllocError, Global};

/// Whether a number anywhere in the value isn't whole within 64 bits.
#[cycle(any_float)]
pub fn any_float(value: &Value) -> bool
    ensures { result ≡ has_float (view value.now) }
{
    match value {
        Value::Null | Value::Bool(_) | Value::String(_) => false,
        Value::Number(_) => value.is_f64(),
        Value::Array(items) => any_float_in_items(items),
        Value::Object(members) => any_float_in_members(members),
    }
}

#[cycle(any_float)]
fn any_float_in_items(items: &Vec<Value>) -> bool
    ensures { result ≡ items_have_float (items_view items.now.items) }
{
    for item in items {
        if any_float(item) {
            return true;
        }
    }
    false
}

#[cycle(any_float)]
fn any_float_in_members(members: &Map<String, Value>) -> bool
    ensures { result ≡ members_have_float (members_view members.now.entries) }
{
    for (_, member) in members.iter() {
        if any_float(member) {
            return true;
        }
    }
    false
}

/// The path of the first number of a value at a path that isn't whole within 64 bits.
#[cycle(float_path)]
#[tactic(auto, unfolding(crate::specs::Floats::float_in, crate::specs::Floats::float_in_items, crate::specs::Floats::float_in_members))]
fn float_path(alloc: Global, path: &str, value: &Value) -> Result<Option<String>, AllocError>
    ensures { IfOk result (λ o. option_map string_bytes o ≡ float_in path.now (view value.now)) }
{
    match value {
        Value::Null | Value::Bool(_) | Value::String(_) => Ok(None),
        Value::Number(_) => {
            if value.is_f64() {
                return Ok(Some(String::from_str(alloc, path)?));
            }
            Ok(None)
        }
        Value::Array(items) => float_path_in_items(alloc, path, items),
        Value::Object(members) => float_path_in_members(alloc, path, members),
    }
}

#[cycle(float_path)]
#[tactic(auto, unfolding(crate::specs::Floats::float_in_items))]
fn float_path_in_items(
    alloc: Global,
    path: &str,
    items: &Vec<Value>,
) -> Result<Option<String>, AllocError>
    ensures { IfOk result
        (λ o. option_map string_bytes o ≡ float_in_items path.now 0 (items_view items.now.items)) }
{
    for i in 0..items.len() {
        if any_float(&items[i]) {
            let name = decimal_text(alloc, i as u64)?;
            let place = path_of(alloc, path, name.as_str())?;
            return float_path(alloc, place.as_str(), &items[i]);
        }
    }
    Ok(None)
}

#[cycle(float_path)]
#[tactic(auto, unfolding(crate::specs::Floats::float_in_members), using(crate::proofs::FloatLemmas::passed_member, crate::proofs::FloatLemmas::found_member))]
fn float_path_in_members(
    alloc: Global,
    path: &str,
    members: &Map<String, Value>,
) -> Result<Option<String>, AllocError>
    ensures { IfOk result
        (λ o. option_map string_bytes o
        ≡ float_in_members path.now (members_view members.now.entries)) }
{
    for (key, member) in members.iter() {
        if any_float(member) {
            let place = path_of(alloc, path, key.as_str())?;
            return float_path(alloc, place.as_str(), member);
        }
    }
    Ok(None)
}

/// The path of the first number of a value that isn't whole within 64 bits. Where there is none it
/// takes no memory.
#[tactic(auto, using(crate::proofs::FloatLemmas::no_float))]
pub fn first_float(alloc: Global, value: &Value) -> Result<Option<String>, AllocError>
    ensures first { IfOk result (λ o. option_map string_bytes o ≡ float_in [] (view value.now)) }
    ensures none { has_float (view value.now) ≡ false → IsOk result }
{
    if any_float(value) {
        float_path(alloc, "", value)
    } else {
        Ok(None)
    }
}
