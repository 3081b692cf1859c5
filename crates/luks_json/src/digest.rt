// Digests, by which keys are told to be right.

ghost use Rattle.std.specs.Prelude.{◌≡◌, IfOk, codes};
ghost use Rattle.json_members.specs.declared.faults.JsonFaultKind.TheVariants.{Unsupported};
ghost use Rattle.json_members.specs.Fields.{Gives, meant_in};
ghost use Rattle.luks_meta.specs.Names.{hash_named};
ghost use Rattle.luks_json.specs.Digests.{digest_of, digest_members};

use crate::entries::EntryText;
use crate::iterations::iterations_at;
use json_members::{
    JsonFaultKind, Object, ReadError, bytes_at, decimals_at, fault_at, put_bytes, put_decimals,
    put_number, put_text, text_at, word_at,
};
use luks_meta::{Digest, Hash};
use std::alloc::{AllocError, Global};

#[tactic(auto, unfolding(json_members::specs::Fields::meant_in))]
fn hash_at(alloc: Global, path: &str, object: &Object) -> Result<Hash, ReadError>
    ensures { Gives (λ h. h) result
        (meant_in Unsupported hash_named path.now (codes "hash") object.now) }
{
    let name = text_at(alloc, path, object, "hash")?;
    let Some(hash) = Hash::of_name(name) else {
        return Err(fault_at(alloc, JsonFaultKind::Unsupported, path, "hash"));
    };
    Ok(hash)
}

#[tactic(auto, unfolding(crate::specs::Digests::digest_of))]
fn read_digest(alloc: Global, path: &str, object: Object) -> Result<Digest, ReadError>
    ensures { Gives (λ d. d) result (digest_of path.now object) }
{
    let mut object = object;
    word_at(alloc, path, &object, "type", "pbkdf2")?;
    let keyslots = decimals_at(alloc, path, &object, "keyslots")?;
    let segments = decimals_at(alloc, path, &object, "segments")?;
    let hash = hash_at(alloc, path, &object)?;
    let iterations = iterations_at(alloc, path, &object, "iterations")?;
    let salt = bytes_at(alloc, path, &object, "salt")?;
    let digest = bytes_at(alloc, path, &object, "digest")?;
    object.drop_member("type");
    object.drop_member("keyslots");
    object.drop_member("segments");
    object.drop_member("hash");
    object.drop_member("iterations");
    object.drop_member("salt");
    object.drop_member("digest");
    Ok(Digest {
        keyslots,
        segments,
        hash,
        iterations,
        salt,
        digest,
        rest: object,
    })
}

#[tactic(auto, unfolding(crate::specs::Digests::digest_members))]
fn write_digest(alloc: Global, digest: &Digest) -> Result<Object, AllocError>
    ensures { IfOk result (λ o. o ≡ digest_members digest.now) }
{
    let mut object = digest.rest.copy(alloc)?;
    put_text(alloc, &mut object, "type", "pbkdf2")?;
    put_decimals(alloc, &mut object, "keyslots", digest.keyslots.as_slice())?;
    put_decimals(alloc, &mut object, "segments", digest.segments.as_slice())?;
    put_text(alloc, &mut object, "hash", digest.hash.name())?;
    put_number(alloc, &mut object, "iterations", digest.iterations)?;
    put_bytes(alloc, &mut object, "salt", digest.salt.as_slice())?;
    put_bytes(alloc, &mut object, "digest", digest.digest.as_slice())?;
    Ok(object)
}

impl EntryText for Digest {
    ghost use Rattle.luks_json.specs.Digests.{digest_of, digest_members};

    type Terms = ();

    ghost of = { λ terms. digest_of };

    ghost members = { digest_members };

    fn read(alloc: Global, _terms: &(), path: &str, object: Object) -> Result<Digest, ReadError> {
        read_digest(alloc, path, object)
    }

    fn write(&self, alloc: Global) -> Result<Object, AllocError> {
        write_digest(alloc, self)
    }
}
