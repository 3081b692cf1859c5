// The metadata of a header.

ghost use Rattle.std.specs.Prelude.{◌≡◌, ◌+◌, codes, IfOk, Ok};
ghost use Rattle.serde_json.specs.View.{view};
ghost use Rattle.serde_json.specs.Written.{compact_text};
ghost use Rattle.json_members.specs.Fields.{Gives};
ghost use Rattle.json_members.specs.Members.{without};
ghost use Rattle.luks_meta.specs.Metas.{meta_names};
ghost use Rattle.luks_json.specs.Metas.{there_in, all_there, list_in, config_in};
ghost use Rattle.luks_json.specs.Metas.{parts_of, whole_of, meta_of, meta_from, meta_members};
ghost use Rattle.luks_json.specs.Metas.{data_of};

use crate::config::{origin_at, read_config, write_config};
use crate::entries::{EntryText, read_entries, write_entries};
use base_terms::Bytes;
use json_members::{
    JsonFault, JsonFaultKind, Listed, Object, ReadError, Text, fault_at, first_float, put_object,
    take_object,
};
use luks_meta::{Config, Digest, Keyslot, Meta, Parts, Segment, Token};
use serde_json::Value;
use std::alloc::{AllocError, Global};

// Looks whether a top member is there.
#[tactic(auto, unfolding(crate::specs::Metas::there_in))]
fn look_for(alloc: Global, object: &Object, name: &str) -> Result<(), ReadError>
    ensures { Gives (λ u. u) result (there_in name.now object.now) }
{
    let Some(_) = object.get(name) else {
        return Err(fault_at(alloc, JsonFaultKind::Missing, "", name));
    };
    Ok(())
}

// Looks whether the five top members are there.
fn look_for_all(alloc: Global, object: &Object) -> Result<(), ReadError>
    ensures { Gives (λ u. u) result (all_there meta_names object.now) }
{
    look_for(alloc, object, "keyslots")?;
    look_for(alloc, object, "tokens")?;
    look_for(alloc, object, "segments")?;
    look_for(alloc, object, "digests")?;
    look_for(alloc, object, "config")?;
    Ok(())
}

// The objects of a top member, which is taken out: its tree goes while they are made.
#[tactic(auto, unfolding(crate::specs::Metas::list_in))]
fn take_list<E: EntryText>(
    alloc: Global,
    terms: &E::Terms,
    object: &mut Object,
    name: &str,
) -> Result<Listed<(u64, E)>, ReadError>
    ensures is { Gives (λ l. l) result (list_in (E.of terms.now) name.now object.old) }
    ensures rest { object.new ≡ without name.now object.old }
{
    let inner = take_object(alloc, "", object, name)?;
    read_entries(alloc, terms, name, inner)
}

#[tactic(auto, unfolding(crate::specs::Metas::config_in))]
fn take_config(alloc: Global, hdr_size: u64, object: &mut Object) -> Result<Config, ReadError>
    ensures is { Gives (λ c. c) result (config_in hdr_size object.old) }
    ensures rest { object.new ≡ without (codes "config") object.old }
{
    let inner = take_object(alloc, "", object, "config")?;
    read_config(alloc, hdr_size, "config", inner)
}

#[tactic(auto, unfolding(crate::specs::Metas::parts_of))]
fn read_parts(alloc: Global, hdr_size: u64, object: Object) -> Result<Parts, ReadError>
    ensures { Gives (λ m. m) result (parts_of hdr_size object) }
{
    let mut object = object;
    look_for_all(alloc, &object)?;
    let origin = origin_at(&object);
    let keyslots = take_list::<Keyslot>(alloc, &origin, &mut object, "keyslots")?;
    let tokens = take_list::<Token>(alloc, &(), &mut object, "tokens")?;
    let segments = take_list::<Segment>(alloc, &(), &mut object, "segments")?;
    let digests = take_list::<Digest>(alloc, &(), &mut object, "digests")?;
    let config = take_config(alloc, hdr_size, &mut object)?;
    Ok(Parts {
        keyslots,
        tokens,
        segments,
        digests,
        config,
        rest: object,
    })
}

fn read_whole(alloc: Global, hdr_size: u64, value: Value) -> Result<Parts, ReadError>
    ensures { Gives (λ m. m) result (whole_of hdr_size (view value)) }
{
    let Value::Object(map) = value else {
        return Err(fault_at(alloc, JsonFaultKind::Kind, "", ""));
    };
    read_parts(alloc, hdr_size, Object::new(map))
}

#[tactic(auto, unfolding(crate::specs::Metas::meta_of))]
fn read_value(alloc: Global, hdr_size: u64, value: Value) -> Result<Parts, ReadError>
    ensures { Gives (λ m. m) result (meta_of hdr_size (view value)) }
{
    if let Some(path) = first_float(alloc, &value)? {
        return Err(ReadError::Fault(JsonFault {
            kind: JsonFaultKind::Number,
            path: Text::new(path),
        }));
    }
    read_whole(alloc, hdr_size, value)
}

fn read_text(alloc: Global, hdr_size: u64, text: &[u8]) -> Result<Parts, ReadError>
    ensures { Gives (λ m. m) result (meta_from hdr_size text.now) }
{
    match Value::from_slice(alloc, text) {
        Ok(value) => read_value(alloc, hdr_size, value),
        Err(e) => {
            if e.is_memory() {
                return Err(ReadError::Memory);
            }
            Err(ReadError::Fault(JsonFault {
                kind: JsonFaultKind::NotJson,
                path: Text::new(String::new(alloc)),
            }))
        }
    }
}

#[tactic(auto, unfolding(crate::specs::Metas::meta_members))]
fn write_parts(alloc: Global, parts: &Parts) -> Result<Object, AllocError>
    ensures { IfOk result (λ o. o ≡ meta_members parts.now) }
{
    let mut object = parts.rest.copy(alloc)?;
    let keyslots = write_entries(alloc, parts.keyslots.as_slice())?;
    put_object(alloc, &mut object, "keyslots", keyslots)?;
    let tokens = write_entries(alloc, parts.tokens.as_slice())?;
    put_object(alloc, &mut object, "tokens", tokens)?;
    let segments = write_entries(alloc, parts.segments.as_slice())?;
    put_object(alloc, &mut object, "segments", segments)?;
    let digests = write_entries(alloc, parts.digests.as_slice())?;
    put_object(alloc, &mut object, "digests", digests)?;
    let config = write_config(alloc, &parts.config)?;
    put_object(alloc, &mut object, "config", config)?;
    Ok(object)
}

#[tactic(auto, unfolding(crate::specs::Metas::data_of))]
fn value_of(alloc: Global, parts: &Parts) -> Result<Value, AllocError>
    ensures { IfOk result (λ v. view v ≡ data_of parts.now) }
{
    let object = write_parts(alloc, parts)?;
    Ok(Value::Object(object.into_map()))
}

/// Metadata as a text.
pub trait JsonText: Drop {
    /// The metadata that a text is, of a copy of `hdr_size` bytes: binary header and JSON area. A
    /// fault is the first in this order: the text is no JSON; a number is not whole within 64 bits;
    /// a top member is missing; then those of the keyslots, tokens, segments, digests and the
    /// config, the bad keys of each first, and then its objects by rising number.
    fn read(alloc: Global, text: &[u8], hdr_size: u64) -> Result<Self, ReadError>;

    /// The text of the metadata: compact, with the keys of each object in byte order. In a copy of
    /// the size that the config says it is read as these very metadata.
    fn write(&self, alloc: Global) -> Result<Bytes, AllocError>;
}

impl JsonText for Meta {
    fn read(alloc: Global, text: &[u8], hdr_size: u64) -> Result<Meta, ReadError>
        ensures { Gives (λ m. m) result (meta_from hdr_size text.now) }
    {
        match read_text(alloc, hdr_size, text) {
            Ok(parts) => Ok(Meta::new(parts)),
            Err(e) => Err(e),
        }
    }

    fn write(&self, alloc: Global) -> Result<Bytes, AllocError>
        ensures text { IfOk result (λ text. text ≡ compact_text (data_of self.now)) }
        ensures back { IfOk result
            (λ text. meta_from (self.now.config.json_size + 4096) text ≡ Ok self.now) }
    {
        let value = value_of(alloc, self.parts())?;
        Ok(Bytes::new(value.to_vec(alloc)?))
    }
}
