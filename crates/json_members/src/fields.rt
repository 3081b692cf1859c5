ghost use Rattle.std.specs.Prelude.{◌≡◌, IfOk, option_map, decimal};
ghost use Rattle.serde_json.specs.Find.{get_member};
ghost use Rattle.serde_json.specs.View.{view, items_view};
ghost use Rattle.json_members.specs.declared.faults.JsonFaultKind.TheVariants.{Missing};
ghost use Rattle.json_members.specs.Fields.{Gives, required, IsFaultAt, items_in, text_in, word_in};
ghost use Rattle.json_members.specs.Fields.{number_in, decimal_in, object_in, texts_in};
ghost use Rattle.json_members.specs.Fields.{decimals_in, each_item, text_item, decimal_item};
ghost use Rattle.json_members.specs.Fields.{bytes_in, bytes_of};
ghost use Rattle.json_members.specs.Members.{without};

use crate::decimal::{decimal_number, decimal_text};
use crate::faults::{JsonFaultKind, ReadError, fault_at, path_of};
use crate::listed::Listed;
use crate::object::{Object, copy_members};
use crate::text::Text;
use base_terms::Bytes;
use base64::DecodeAllocError;
use base64::engine::general_purpose::STANDARD;
use serde_json::Value;
use std::alloc::{AllocError, Global};

/// The member of a name: `Missing` where there is none.
fn member_at<'a>(
    alloc: Global,
    path: &str,
    object: &'a Object,
    name: &str,
) -> Result<&'a Value, ReadError>
    ensures { Gives (λ v. view v.now) result
        (required Missing path.now name.now (get_member name.now object.now)) }
{
    let Some(value) = object.get(name) else {
        return Err(fault_at(alloc, JsonFaultKind::Missing, path, name));
    };
    Ok(value)
}

/// The text of the member of a name: `Missing` where there is none, `Kind` where it is no text.
#[tactic(auto, unfolding(crate::specs::Fields::text_in))]
pub fn text_at<'a>(
    alloc: Global,
    path: &str,
    object: &'a Object,
    name: &str,
) -> Result<&'a str, ReadError>
    ensures { Gives (λ text. text.now) result (text_in path.now name.now object.now) }
{
    let value = member_at(alloc, path, object, name)?;
    let Some(text) = value.as_str() else {
        return Err(fault_at(alloc, JsonFaultKind::Kind, path, name));
    };
    Ok(text)
}

/// As `text_at`, in memory of its own.
pub fn own_text_at(
    alloc: Global,
    path: &str,
    object: &Object,
    name: &str,
) -> Result<Text, ReadError>
    ensures { Gives (λ text. text) result (text_in path.now name.now object.now) }
{
    let text = text_at(alloc, path, object, name)?;
    Ok(Text::new(String::from_str(alloc, text)?))
}

/// Looks whether a member is this very text: as `text_at`, and `Unsupported` where it is another.
#[tactic(auto, unfolding(crate::specs::Fields::word_in))]
pub fn word_at(
    alloc: Global,
    path: &str,
    object: &Object,
    name: &str,
    word: &str,
) -> Result<(), ReadError>
    ensures { Gives (λ u. u) result (word_in word.now path.now name.now object.now) }
{
    let text = text_at(alloc, path, object, name)?;
    if text == word {
        Ok(())
    } else {
        Err(fault_at(alloc, JsonFaultKind::Unsupported, path, name))
    }
}

/// The number of the member of a name, from 0 up within 64 bits: `Missing` where there is none,
/// `Kind` where it is no number, `Number` where it is another number.
#[tactic(auto, unfolding(crate::specs::Fields::number_in))]
pub fn number_at(alloc: Global, path: &str, object: &Object, name: &str) -> Result<u64, ReadError>
    ensures { Gives (λ n. n) result (number_in path.now name.now object.now) }
{
    let value = member_at(alloc, path, object, name)?;
    let Some(number) = value.as_number() else {
        return Err(fault_at(alloc, JsonFaultKind::Kind, path, name));
    };
    let Some(number) = number.as_u64() else {
        return Err(fault_at(alloc, JsonFaultKind::Number, path, name));
    };
    Ok(number)
}

/// The number whose decimal digits are the text of a member: as `text_at`, and `Number` where the
/// text is another one than the digits of a number within 64 bits.
#[tactic(auto, unfolding(crate::specs::Fields::decimal_in))]
pub fn decimal_at(alloc: Global, path: &str, object: &Object, name: &str) -> Result<u64, ReadError>
    ensures { Gives (λ n. n) result (decimal_in path.now name.now object.now) }
{
    let text = text_at(alloc, path, object, name)?;
    let Some(number) = decimal_number(text) else {
        return Err(fault_at(alloc, JsonFaultKind::Number, path, name));
    };
    Ok(number)
}

/// The bytes that a text is in standard base64 with padding.
#[tactic(auto, using(crate::proofs::BytesLemmas::decoded_text, crate::proofs::BytesLemmas::refused_text))]
fn bytes_from(alloc: Global, text: &str) -> Result<Option<Vec<u8>>, AllocError>
    ensures { IfOk result (λ o. option_map (λ v. v.items) o ≡ bytes_of text.now) }
{
    match STANDARD.decode(alloc, text.as_bytes()) {
        Ok(bytes) => Ok(Some(bytes)),
        Err(DecodeAllocError::OutOfMemory) => Err(AllocError),
        Err(DecodeAllocError::DecodeError(_)) => Ok(None),
    }
}

/// The bytes of a member in base64: as `text_at`, and `Base64` where the text encodes no bytes.
#[tactic(auto, unfolding(crate::specs::Fields::bytes_in))]
pub fn bytes_at(alloc: Global, path: &str, object: &Object, name: &str) -> Result<Bytes, ReadError>
    ensures { Gives (λ b. b) result (bytes_in path.now name.now object.now) }
{
    let text = text_at(alloc, path, object, name)?;
    let Some(bytes) = bytes_from(alloc, text)? else {
        return Err(fault_at(alloc, JsonFaultKind::Base64, path, name));
    };
    Ok(Bytes::new(bytes))
}

/// The object of a member, copied: `Missing` where there is none, `Kind` where it is no object.
#[tactic(auto, unfolding(crate::specs::Fields::object_in))]
pub fn object_at(
    alloc: Global,
    path: &str,
    object: &Object,
    name: &str,
) -> Result<Object, ReadError>
    ensures { Gives (λ o. o) result (object_in path.now name.now object.now) }
{
    let value = member_at(alloc, path, object, name)?;
    let Some(map) = value.as_object() else {
        return Err(fault_at(alloc, JsonFaultKind::Kind, path, name));
    };
    Ok(Object::new(copy_members(alloc, map)?))
}

/// As `object_at`, but taken out, with no copy made. The other members are left, also where there
/// is a fault.
#[tactic(auto, unfolding(crate::specs::Fields::object_in))]
pub fn take_object(
    alloc: Global,
    path: &str,
    object: &mut Object,
    name: &str,
) -> Result<Object, ReadError>
    ensures is { Gives (λ o. o) result (object_in path.now name.now object.old) }
    ensures rest { object.new ≡ without name.now object.old }
{
    match object.take(name) {
        Some(Value::Object(map)) => Ok(Object::new(map)),
        Some(_) => Err(fault_at(alloc, JsonFaultKind::Kind, path, name)),
        None => Err(fault_at(alloc, JsonFaultKind::Missing, path, name)),
    }
}

/// The fault of the item of a number in the list at a path, or `Memory`.
fn item_fault(alloc: Global, kind: JsonFaultKind, path: &str, i: usize) -> ReadError
    ensures { IsFaultAt kind path.now (decimal i) result }
{
    match decimal_text(alloc, i as u64) {
        Ok(name) => fault_at(alloc, kind, path, name.as_str()),
        Err(_) => ReadError::Memory,
    }
}

#[tactic(auto, unfolding(crate::specs::Fields::text_item))]
fn text_of(alloc: Global, path: &str, i: usize, value: &Value) -> Result<Text, ReadError>
    ensures { Gives (λ t. t) result (text_item path.now i (view value.now)) }
{
    let Some(text) = value.as_str() else {
        return Err(item_fault(alloc, JsonFaultKind::Kind, path, i));
    };
    Ok(Text::new(String::from_str(alloc, text)?))
}

#[tactic(auto, unfolding(crate::specs::Fields::text_item, crate::specs::Fields::decimal_item))]
fn decimal_of(alloc: Global, path: &str, i: usize, value: &Value) -> Result<u64, ReadError>
    ensures { Gives (λ n. n) result (decimal_item path.now i (view value.now)) }
{
    let Some(text) = value.as_str() else {
        return Err(item_fault(alloc, JsonFaultKind::Kind, path, i));
    };
    let Some(number) = decimal_number(text) else {
        return Err(item_fault(alloc, JsonFaultKind::Number, path, i));
    };
    Ok(number)
}

fn texts(alloc: Global, path: &str, values: &[Value]) -> Result<Vec<Text>, ReadError>
    ensures { Gives (λ v. v.items) result (each_item text_item path.now 0 (items_view values.now)) }
{
    let mut found = Vec::new(alloc);
    for i in 0..values.len() {
        match text_of(alloc, path, i, &values[i]) {
            Ok(text) => found.push(text)?,
            Err(e) => return Err(e),
        }
    }
    Ok(found)
}

fn decimals(alloc: Global, path: &str, values: &[Value]) -> Result<Vec<u64>, ReadError>
    ensures { Gives (λ v. v.items) result
        (each_item decimal_item path.now 0 (items_view values.now)) }
{
    let mut found = Vec::new(alloc);
    for i in 0..values.len() {
        match decimal_of(alloc, path, i, &values[i]) {
            Ok(number) => found.push(number)?,
            Err(e) => return Err(e),
        }
    }
    Ok(found)
}

#[tactic(auto, unfolding(crate::specs::Fields::items_in))]
fn items_at<'a>(
    alloc: Global,
    path: &str,
    object: &'a Object,
    name: &str,
) -> Result<&'a [Value], ReadError>
    ensures { Gives (λ v. items_view v.now) result (items_in path.now name.now object.now) }
{
    let value = member_at(alloc, path, object, name)?;
    let Some(values) = value.as_array() else {
        return Err(fault_at(alloc, JsonFaultKind::Kind, path, name));
    };
    Ok(values.as_slice())
}

/// The texts of a member that is a list of them: `Missing` where there is none, `Kind` where it is
/// no list, and `Kind` at the first item that is no text.
#[tactic(auto, unfolding(crate::specs::Fields::texts_in))]
pub fn texts_at(
    alloc: Global,
    path: &str,
    object: &Object,
    name: &str,
) -> Result<Listed<Text>, ReadError>
    ensures { Gives (λ t. t) result (texts_in path.now name.now object.now) }
{
    let values = items_at(alloc, path, object, name)?;
    let place = path_of(alloc, path, name)?;
    Ok(Listed::new(texts(alloc, place.as_str(), values)?))
}

/// The numbers of a member that is a list of decimal texts: as `texts_at`, and `Number` at the
/// first item that is the decimal text of no number within 64 bits.
#[tactic(auto, unfolding(crate::specs::Fields::decimals_in))]
pub fn decimals_at(
    alloc: Global,
    path: &str,
    object: &Object,
    name: &str,
) -> Result<Listed<u64>, ReadError>
    ensures { Gives (λ t. t) result (decimals_in path.now name.now object.now) }
{
    let values = items_at(alloc, path, object, name)?;
    let place = path_of(alloc, path, name)?;
    Ok(Listed::new(decimals(alloc, place.as_str(), values)?))
}
