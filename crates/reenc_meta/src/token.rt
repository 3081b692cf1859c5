// The keyslots that a token names.

ghost use Rattle.std.specs.Prelude.{◌≡◌, IfOk, codes, option_and_then, option_map};
ghost use Rattle.serde_json.specs.Find.{as_array, get_member};
ghost use Rattle.serde_json.specs.View.{items_view, view};
ghost use Rattle.reenc_meta.specs.Finishes.{is_dropped, items_kept, names_dropped, token_kept};

use crate::finishing::is_dropped_slot;
use json_members::{Object, decimal_number};
use luks_meta::{Digest, Token};
use luks_rules::Progress;
use serde_json::Value;
use std::alloc::{AllocError, Global};

/// Whether a value is the decimal text of a keyslot that goes.
fn names_dropped_slot(progress: &Progress, digests: &[(u64, Digest)], value: &Value) -> bool
    ensures { result ≡ names_dropped (is_dropped progress.now digests.now) (view value.now) }
{
    match value {
        Value::String(text) => match decimal_number(text.as_str()) {
            Some(number) => is_dropped_slot(progress, digests, number),
            None => false,
        },
        Value::Null | Value::Bool(_) | Value::Number(_) | Value::Array(_) | Value::Object(_) =>
            false,
    }
}

/// The values that don't name a keyslot that goes.
fn keep_values(
    alloc: Global,
    progress: &Progress,
    digests: &[(u64, Digest)],
    values: &[Value],
) -> Result<Vec<Value>, AllocError>
    ensures { IfOk result (λ kept. items_view kept.items
        ≡ items_kept (is_dropped progress.now digests.now) (items_view values.now)) }
{
    let mut kept = Vec::new(alloc);
    for value in values {
        if !names_dropped_slot(progress, digests, value) {
            kept.push(value.clone()?)?;
        }
    }
    Ok(kept)
}

/// The list of keyslots of a token, where it has one.
fn keyslots_of(members: &Object) -> Option<&[Value]>
    ensures { option_map (λ values. items_view values.now) result
        ≡ option_and_then as_array (get_member (codes "keyslots") members.now) }
{
    let value = members.get("keyslots")?;
    let values = value.as_array()?;
    Some(values.as_slice())
}

/// A token without the keyslots that go.
#[tactic(auto, unfolding(crate::specs::Finishes::token_kept))]
pub(crate) fn keep_token(
    alloc: Global,
    progress: &Progress,
    digests: &[(u64, Digest)],
    token: &Token,
) -> Result<Token, AllocError>
    ensures { IfOk result (λ kept. kept
        ≡ token_kept (is_dropped progress.now digests.now) token.now) }
{
    let mut members = token.members.copy(alloc)?;
    match keyslots_of(&token.members) {
        Some(values) => {
            let kept = keep_values(alloc, progress, digests, values)?;
            members.put(alloc, "keyslots", Value::Array(kept))?;
        }
        None => {}
    }
    Ok(Token { members })
}
