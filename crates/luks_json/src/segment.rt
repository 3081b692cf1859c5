// Segments: the runs of the main disk that hold the volume's data.

ghost use Rattle.std.specs.Prelude.{◌≡◌, IfOk, OnOk, codes};
ghost use Rattle.serde_json.specs.Data.{string, put as with_member};
ghost use Rattle.json_members.specs.declared.faults.JsonFaultKind.TheVariants.{Number, Unsupported};
ghost use Rattle.json_members.specs.Fields.{Gives, meant_in, counted_in, absent};
ghost use Rattle.json_members.specs.Members.{put_optional, without_all};
ghost use Rattle.luks_meta.specs.Names.{cipher_named};
ghost use Rattle.luks_json.specs.Segments.{
  type_named,
  size_named,
  sector_size_of,
  encryption_in,
  encryption_by,
  segment_of,
  size_text,
  flags_data,
  put_encryption as with_encryption,
  segment_members,
};
ghost use Rattle.luks_meta.specs.Segments.{segment_names};

use crate::entries::EntryText;
use json_members::{
    JsonFaultKind, Listed, Object, ReadError, Text, decimal_at, decimal_number, fault_at,
    number_at, optional_texts_at, put_decimal, put_number, put_text, put_texts, text_at,
};
use luks_meta::{Cipher, Encryption, Segment, SegmentSize};
use std::alloc::{AllocError, Global};

/// The type of a segment.
#[derive(Clone, Copy, PartialEq, Eq)]
pub enum SegmentType {
    /// `crypt`
    Crypt,
    /// `linear`
    Linear,
}

impl SegmentType {
    fn of_name(name: &str) -> Option<SegmentType>
        ensures { result ≡ type_named name.now }
    {
        if name == "crypt" {
            Some(SegmentType::Crypt)
        } else if name == "linear" {
            Some(SegmentType::Linear)
        } else {
            None
        }
    }
}

// How long a segment is whose size is a text.
fn size_of_text(text: &str) -> Option<SegmentSize>
    ensures { result ≡ size_named text.now }
{
    if text == "dynamic" {
        return Some(SegmentSize::Dynamic);
    }
    match decimal_number(text) {
        Some(bytes) => Some(SegmentSize::Sized(bytes)),
        None => None,
    }
}

#[tactic(auto, unfolding(json_members::specs::Fields::meant_in))]
fn type_at(alloc: Global, path: &str, object: &Object) -> Result<SegmentType, ReadError>
    ensures { Gives (λ t. t) result
        (meant_in Unsupported type_named path.now (codes "type") object.now) }
{
    let name = text_at(alloc, path, object, "type")?;
    let Some(kind) = SegmentType::of_name(name) else {
        return Err(fault_at(alloc, JsonFaultKind::Unsupported, path, "type"));
    };
    Ok(kind)
}

#[tactic(auto, unfolding(json_members::specs::Fields::meant_in))]
fn size_at(alloc: Global, path: &str, object: &Object) -> Result<SegmentSize, ReadError>
    ensures { Gives (λ t. t) result
        (meant_in Number size_named path.now (codes "size") object.now) }
{
    let text = text_at(alloc, path, object, "size")?;
    let Some(size) = size_of_text(text) else {
        return Err(fault_at(alloc, JsonFaultKind::Number, path, "size"));
    };
    Ok(size)
}

#[tactic(auto, unfolding(json_members::specs::Fields::meant_in))]
fn cipher_at(alloc: Global, path: &str, object: &Object) -> Result<Cipher, ReadError>
    ensures { Gives (λ t. t) result
        (meant_in Unsupported cipher_named path.now (codes "encryption") object.now) }
{
    let name = text_at(alloc, path, object, "encryption")?;
    let Some(cipher) = Cipher::of_name(name) else {
        return Err(fault_at(alloc, JsonFaultKind::Unsupported, path, "encryption"));
    };
    Ok(cipher)
}

#[tactic(auto, unfolding(json_members::specs::Fields::counted_in))]
fn sector_size_at(alloc: Global, path: &str, object: &Object) -> Result<u64, ReadError>
    ensures { Gives (λ n. n) result
        (counted_in sector_size_of path.now (codes "sector_size") object.now) }
{
    let size = number_at(alloc, path, object, "sector_size")?;
    if size == 512 || size == 1024 || size == 2048 || size == 4096 {
        Ok(size)
    } else {
        Err(fault_at(alloc, JsonFaultKind::Number, path, "sector_size"))
    }
}

#[tactic(auto, unfolding(crate::specs::Segments::encryption_in))]
fn encryption_at(alloc: Global, path: &str, object: &Object) -> Result<Encryption, ReadError>
    ensures { Gives (λ e. e) result (encryption_in path.now object.now) }
{
    let iv_tweak = decimal_at(alloc, path, object, "iv_tweak")?;
    let cipher = cipher_at(alloc, path, object)?;
    let sector_size = sector_size_at(alloc, path, object)?;
    Ok(Encryption {
        iv_tweak,
        cipher,
        sector_size,
    })
}

fn optional_encryption_at(
    alloc: Global,
    kind: SegmentType,
    path: &str,
    object: &Object,
) -> Result<Option<Encryption>, ReadError>
    ensures { Gives (λ e. e) result (encryption_by kind path.now object.now) }
{
    match kind {
        SegmentType::Crypt => {
            let encryption = encryption_at(alloc, path, object)?;
            Ok(Some(encryption))
        }
        SegmentType::Linear => Ok(None),
    }
}

// Takes the members with a name away.
fn drop_named(object: &mut Object, encryption: Option<Encryption>)
    ensures { object.new ≡ without_all (segment_names encryption) object.old }
{
    object.drop_member("type");
    object.drop_member("offset");
    object.drop_member("size");
    object.drop_member("flags");
    match encryption {
        Some(_) => {
            object.drop_member("iv_tweak");
            object.drop_member("encryption");
            object.drop_member("sector_size");
        }
        None => {}
    }
}

// A segment with integrity protection isn't read, whatever its other members are.
fn refuse_integrity(alloc: Global, path: &str, object: &Object) -> Result<(), ReadError>
    ensures { Gives (λ u. u) result (absent Unsupported path.now (codes "integrity") object.now) }
{
    match object.get("integrity") {
        Some(_) => Err(fault_at(alloc, JsonFaultKind::Unsupported, path, "integrity")),
        None => Ok(()),
    }
}

#[tactic(auto, unfolding(crate::specs::Segments::segment_of))]
fn read_segment(alloc: Global, path: &str, object: Object) -> Result<Segment, ReadError>
    ensures { Gives (λ s. s) result (segment_of path.now object) }
{
    let mut object = object;
    refuse_integrity(alloc, path, &object)?;
    let kind = type_at(alloc, path, &object)?;
    let offset = decimal_at(alloc, path, &object, "offset")?;
    let size = size_at(alloc, path, &object)?;
    let encryption = optional_encryption_at(alloc, kind, path, &object)?;
    let flags = optional_texts_at(alloc, path, &object, "flags")?;
    drop_named(&mut object, encryption);
    Ok(Segment {
        offset,
        size,
        encryption,
        flags,
        rest: object,
    })
}

fn put_size(alloc: Global, object: &mut Object, size: SegmentSize) -> Result<(), AllocError>
    ensures { OnOk result
        (object.new ≡ with_member (codes "size") (string (size_text size)) object.old) }
{
    match size {
        SegmentSize::Dynamic => put_text(alloc, object, "size", "dynamic"),
        SegmentSize::Sized(bytes) => put_decimal(alloc, object, "size", bytes),
    }
}

fn put_flags(
    alloc: Global,
    object: &mut Object,
    flags: &Option<Listed<Text>>,
) -> Result<(), AllocError>
    ensures { OnOk result
        (object.new ≡ put_optional (codes "flags") (flags_data flags.now) object.old) }
{
    match flags {
        Some(flags) => put_texts(alloc, object, "flags", flags.as_slice()),
        None => Ok(()),
    }
}

fn put_encryption(
    alloc: Global,
    object: &mut Object,
    encryption: Option<Encryption>,
) -> Result<(), AllocError>
    ensures { OnOk result (object.new ≡ with_encryption encryption object.old) }
{
    let Some(encryption) = encryption else {
        return Ok(());
    };
    put_decimal(alloc, object, "iv_tweak", encryption.iv_tweak)?;
    put_text(alloc, object, "encryption", encryption.cipher.name())?;
    put_number(alloc, object, "sector_size", encryption.sector_size)
}

#[tactic(auto, unfolding(crate::specs::Segments::segment_members))]
fn write_segment(alloc: Global, segment: &Segment) -> Result<Object, AllocError>
    ensures { IfOk result (λ o. o ≡ segment_members segment.now) }
{
    let mut object = segment.rest.copy(alloc)?;
    put_flags(alloc, &mut object, &segment.flags)?;
    let name = match segment.encryption {
        Some(_) => "crypt",
        None => "linear",
    };
    put_text(alloc, &mut object, "type", name)?;
    put_decimal(alloc, &mut object, "offset", segment.offset)?;
    put_size(alloc, &mut object, segment.size)?;
    put_encryption(alloc, &mut object, segment.encryption)?;
    Ok(object)
}

impl EntryText for Segment {
    ghost use Rattle.luks_json.specs.Segments.{segment_of, segment_members};

    type Terms = ();

    ghost of = { λ terms. segment_of };

    ghost members = { segment_members };

    fn read(alloc: Global, _terms: &(), path: &str, object: Object) -> Result<Segment, ReadError> {
        read_segment(alloc, path, object)
    }

    fn write(&self, alloc: Global) -> Result<Object, AllocError> {
        write_segment(alloc, self)
    }
}
