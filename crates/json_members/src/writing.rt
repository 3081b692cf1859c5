// Members that are set. Where memory runs out the object is as it was.

ghost use Rattle.std.specs.Prelude.{◌≡◌, OnOk, OnErr, IfOk, decimal};
ghost use Rattle.base64.specs.GeneralPurpose.{encode_of};
ghost use Rattle.base64.specs.Engines.{standard};
ghost use Rattle.serde_json.specs.Data.{put as with_member, string, number, unsigned, array};
ghost use Rattle.serde_json.specs.Data.{object as object_data};
ghost use Rattle.serde_json.specs.View.{items_view};
ghost use Rattle.json_members.specs.Fields.{texts_data, decimals_data};

use crate::decimal::decimal_text;
use crate::object::Object;
use crate::text::Text;
use base64::engine::general_purpose::STANDARD;
use serde_json::Value;
use std::alloc::{AllocError, Global};

/// Sets a member to a text.
pub fn put_text(
    alloc: Global,
    object: &mut Object,
    name: &str,
    text: &str,
) -> Result<(), AllocError>
    ensures ok { OnOk result (object.new ≡ with_member name.now (string text.now) object.old) }
    ensures err { OnErr result (object.new ≡ object.old) }
{
    let value = Value::String(String::from_str(alloc, text)?);
    object.put(alloc, name, value)
}

/// Sets a member to the decimal text of a number.
pub fn put_decimal(alloc: Global, object: &mut Object, name: &str, n: u64) -> Result<(), AllocError>
    ensures ok { OnOk result (object.new ≡ with_member name.now (string (decimal n)) object.old) }
    ensures err { OnErr result (object.new ≡ object.old) }
{
    let value = Value::String(decimal_text(alloc, n)?);
    object.put(alloc, name, value)
}

/// Sets a member to a number.
pub fn put_number(alloc: Global, object: &mut Object, name: &str, n: u64) -> Result<(), AllocError>
    ensures ok { OnOk result (object.new ≡ with_member name.now (number (unsigned n)) object.old) }
    ensures err { OnErr result (object.new ≡ object.old) }
{
    object.put(alloc, name, Value::from(n))
}

/// Sets a member to bytes in standard base64.
pub fn put_bytes(
    alloc: Global,
    object: &mut Object,
    name: &str,
    bytes: &[u8],
) -> Result<(), AllocError>
    ensures ok { OnOk result
        (object.new ≡ with_member name.now (string (encode_of standard bytes.now)) object.old) }
    ensures err { OnErr result (object.new ≡ object.old) }
{
    let value = Value::String(STANDARD.encode(alloc, bytes)?);
    object.put(alloc, name, value)
}

/// Sets a member to an object.
pub fn put_object(
    alloc: Global,
    object: &mut Object,
    name: &str,
    inner: Object,
) -> Result<(), AllocError>
    ensures ok { OnOk result (object.new ≡ with_member name.now (object_data inner) object.old) }
    ensures err { OnErr result (object.new ≡ object.old) }
{
    object.put(alloc, name, Value::Object(inner.into_map()))
}

fn values_of(alloc: Global, texts: &[Text]) -> Result<Vec<Value>, AllocError>
    ensures { IfOk result (λ v. items_view v.items ≡ texts_data texts.now) }
{
    let mut values = Vec::new(alloc);
    for text in texts {
        values.push(Value::String(String::from_str(alloc, text.as_str())?))?;
    }
    Ok(values)
}

/// Sets a member to a list of texts.
pub fn put_texts(
    alloc: Global,
    object: &mut Object,
    name: &str,
    texts: &[Text],
) -> Result<(), AllocError>
    ensures ok { OnOk result
        (object.new ≡ with_member name.now (array (texts_data texts.now)) object.old) }
    ensures err { OnErr result (object.new ≡ object.old) }
{
    let value = Value::Array(values_of(alloc, texts)?);
    object.put(alloc, name, value)
}

fn decimal_values(alloc: Global, numbers: &[u64]) -> Result<Vec<Value>, AllocError>
    ensures { IfOk result (λ v. items_view v.items ≡ decimals_data numbers.now) }
{
    let mut values = Vec::new(alloc);
    for number in numbers {
        values.push(Value::String(decimal_text(alloc, *number)?))?;
    }
    Ok(values)
}

/// Sets a member to a list of the decimal texts of numbers.
pub fn put_decimals(
    alloc: Global,
    object: &mut Object,
    name: &str,
    numbers: &[u64],
) -> Result<(), AllocError>
    ensures ok { OnOk result
        (object.new ≡ with_member name.now (array (decimals_data numbers.now)) object.old) }
    ensures err { OnErr result (object.new ≡ object.old) }
{
    let value = Value::Array(decimal_values(alloc, numbers)?);
    object.put(alloc, name, value)
}
