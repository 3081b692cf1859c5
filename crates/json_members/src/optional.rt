ghost use Rattle.json_members.specs.Fields.{Gives, optional, texts_in, object_in};

use crate::faults::ReadError;
use crate::fields::{object_at, texts_at};
use crate::listed::Listed;
use crate::object::Object;
use crate::text::Text;
use std::alloc::Global;

/// As `texts_at`, where there is such a member.
pub fn optional_texts_at(
    alloc: Global,
    path: &str,
    object: &Object,
    name: &str,
) -> Result<Option<Listed<Text>>, ReadError>
    ensures { Gives (λ t. t) result
        (optional name.now object.now (texts_in path.now name.now object.now)) }
{
    let Some(_) = object.get(name) else {
        return Ok(None);
    };
    let texts = texts_at(alloc, path, object, name)?;
    Ok(Some(texts))
}

/// As `object_at`, where there is such a member.
pub fn optional_object_at(
    alloc: Global,
    path: &str,
    object: &Object,
    name: &str,
) -> Result<Option<Object>, ReadError>
    ensures { Gives (λ o. o) result
        (optional name.now object.now (object_in path.now name.now object.now)) }
{
    let Some(_) = object.get(name) else {
        return Ok(None);
    };
    let inner = object_at(alloc, path, object, name)?;
    Ok(Some(inner))
}
