// Ciphers of sectors, hashes, derived keys and the anti-forensic split, which standards have vectors
// of.

use crate::bytes::Lexicon;
use crate::digests::put_text;
use crate::numbers::{number, pair};
use aes_core::Aes;
use af_split::{merge, split};
use anyhow::{Result, anyhow};
use cbc_essiv::CbcEssiv;
use cipher_laws::{SectorCipher, SectorMode};
use pbkdf2_hmac::{Hash, derive, hmac};
use sector_cipher::{Context, Spec};
use std::alloc::Global;
use xts_mode::Xts;

/// The cipher of a name under a key, by sectors of so many bytes.
fn cipher_of(name: &str, key: &[u8], sector: u64) -> Result<Context> {
    let Ok(spec) = Spec::read(name.as_bytes()) else {
        return Err(anyhow!("{name} is no cipher"));
    };
    if sector == 0 || sector % 512 != 0 || sector > 4096 {
        return Err(anyhow!("a sector of {sector} bytes"));
    }
    Ok(Context::new(spec, key, sector as u32)?)
}

/// Bytes sealed by sectors, the first of which has this number: words are the cipher, the key, the
/// bytes of a sector, the number, and the bytes.
fn sealed(alloc: Global, lexicon: &Lexicon, words: &str) -> Result<Vec<u8>> {
    let (name, words) = pair(words);
    let (key, words) = pair(words);
    let (sector, words) = pair(words);
    let (first, bytes) = pair(words);
    let key = lexicon.spelled(alloc, key)?;
    let context = cipher_of(name, key.as_slice(), number(sector)?)?;
    let mut bytes = lexicon.spelled(alloc, bytes)?;
    let (sector, first) = (context.sector_size(), number(first)?);
    if sector == 0 || bytes.len() % sector != 0 || first > 1 << 60 {
        return Err(anyhow!("no whole sectors"));
    }
    context.seal_atom(first, bytes.as_mut_slice());
    Ok(bytes)
}

/// AES under a key.
fn aes_of(alloc: Global, lexicon: &Lexicon, key: &str) -> Result<Aes> {
    Ok(Aes::new(lexicon.spelled(alloc, key)?.as_slice())?)
}

/// Bytes sealed as one sector of this number: words are the key of the body, the one of the tweak or
/// of the initialization vector, the number, and the bytes.
fn sealed_as_one(alloc: Global, lexicon: &Lexicon, mode: &str, words: &str) -> Result<Vec<u8>> {
    let (body, words) = pair(words);
    let (tweak, words) = pair(words);
    let (first, bytes) = pair(words);
    let body = aes_of(alloc, lexicon, body)?;
    let tweak = aes_of(alloc, lexicon, tweak)?;
    let first = number(first)?;
    let mut bytes = lexicon.spelled(alloc, bytes)?;
    if bytes.len() % 16 != 0 {
        return Err(anyhow!("no whole blocks"));
    }
    if mode == "xts" {
        Xts::new(body, tweak).seal_sector(first, bytes.as_mut_slice());
    } else {
        CbcEssiv::new(body, tweak).seal_sector(first, bytes.as_mut_slice());
    }
    Ok(bytes)
}

fn hash_of(name: &str) -> Result<Hash> {
    match name {
        "sha256" => Ok(Hash::Sha256),
        "sha512" => Ok(Hash::Sha512),
        _ => Err(anyhow!("{name} is no hash")),
    }
}

/// The tag of a text under a key.
fn tag_of(alloc: Global, hash: Hash, key: &[u8], text: &[u8]) -> Result<Vec<u8>> {
    let mut tag = vec![in alloc; 0u8; hash.digest_len()]?;
    hmac(hash, key, text, tag.as_mut_slice());
    Ok(tag)
}

/// The key of so many bytes that a password and a salt give in so many rounds.
fn key_derived(
    alloc: Global,
    hash: Hash,
    password: &[u8],
    salt: &[u8],
    rounds: u64,
    length: u64,
) -> Result<Vec<u8>> {
    if rounds == 0 || rounds > 4096 || length == 0 || length > 512 {
        return Err(anyhow!("no key of {rounds} rounds and {length} bytes"));
    }
    let mut key = vec![in alloc; 0u8; length as usize]?;
    derive(hash, password, salt, rounds as u32, key.as_mut_slice());
    Ok(key)
}

/// The last of so many stripes of a key, where the others are drawn; they are merged to the key.
fn last_stripe(
    alloc: Global,
    hash: Hash,
    key: &[u8],
    drawn: &[u8],
    stripes: u64,
) -> Result<Vec<u8>> {
    let (bytes, stripes) = (key.len(), stripes as usize);
    if bytes == 0 || bytes > 64 || stripes == 0 || stripes > 4000 {
        return Err(anyhow!("no key of {bytes} bytes in {stripes} stripes"));
    }
    let mut parts = drawn.to_vec(alloc)?;
    if parts.len() != stripes * bytes {
        return Err(anyhow!("stripes of another length"));
    }
    split(key, hash, stripes, parts.as_mut_slice());
    let mut merged = vec![in alloc; 0u8; bytes]?;
    merge(hash, stripes, parts.as_slice(), merged.as_mut_slice());
    if merged.as_slice() != key {
        return Err(anyhow!("stripes of another key"));
    }
    Ok(parts.as_slice()[(stripes - 1) * bytes..].to_vec(alloc)?)
}

/// What a hash makes of two texts and the numbers of the last words.
fn derived(alloc: Global, lexicon: &Lexicon, what: &str, words: &str) -> Result<Vec<u8>> {
    let (hash, words) = pair(words);
    let (one, words) = pair(words);
    let (other, words) = pair(words);
    let hash = hash_of(hash)?;
    let one = lexicon.spelled(alloc, one)?;
    let other = lexicon.spelled(alloc, other)?;
    let (one, other) = (one.as_slice(), other.as_slice());
    let (first, second) = pair(words);
    match what {
        "hmac" => tag_of(alloc, hash, one, other),
        "derive" => key_derived(alloc, hash, one, other, number(first)?, number(second)?),
        "split" => last_stripe(alloc, hash, one, other, number(first)?),
        _ => Err(anyhow!("no value {what}")),
    }
}

/// What a calculation gives.
pub(crate) fn value_of(alloc: Global, lexicon: &Lexicon, words: &str) -> Result<String> {
    let (what, words) = pair(words);
    let bytes = match what {
        "seal" => sealed(alloc, lexicon, words)?,
        "xts" | "cbc" => sealed_as_one(alloc, lexicon, what, words)?,
        _ => derived(alloc, lexicon, what, words)?,
    };
    put_text(alloc, bytes.as_slice())
}
