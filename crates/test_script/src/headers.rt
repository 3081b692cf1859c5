// Copies of headers, as another program may leave them (LUKS2 On-Disk Format, section 2.1).

ghost use Rattle.std.specs.Prelude.{◌≡◌, length};

use crate::bytes::Lexicon;
use crate::disks::Shelf;
use crate::lines::Change;
use anyhow::{Result, anyhow};
use sha2::{Digest, Sha256};
use std::alloc::Global;

/// The bytes of a copy of a header that the program makes, and those in front of its text.
const COPY: usize = 16384;

const FRONT: usize = 4096;

/// What the text of a header without tokens has in their place.
const NO_TOKENS: &str = "\"tokens\":{}";

/// Gives a copy the sum of its bytes.
fn sum_anew(copy: &mut [u8]) -> Result<()> {
    if copy.len() < FRONT {
        return Err(anyhow!("a copy of too few bytes"));
    }
    copy[448..512].fill(0);
    let sum = Sha256::digest(&*copy);
    copy[448..480].copy_from_slice(&sum);
    Ok(())
}

/// So many bytes of a disk from this one on.
fn part_of(bytes: &mut [u8], at: u64, size: u64) -> Result<&mut [u8]> {
    let count = bytes.len() as u64;
    if at > count || size > count - at {
        return Err(anyhow!("a disk without {size} bytes at {at}"));
    }
    Ok(&mut bytes[at as usize..at as usize + size as usize])
}

/// Puts bytes on a disk from this one on.
fn put(bytes: &mut [u8], at: u64, part: &[u8]) -> Result<()> {
    let place = part_of(bytes, at, part.len() as u64)?;
    if place.len() != part.len() {
        return Err(anyhow!("a part of another length"));
    }
    place.copy_from_slice(part);
    Ok(())
}

/// Makes a copy of a header: its place, number, the first letter of its label, and its text.
fn make_copy(copy: &mut [u8], at: u64, seqid: u64, letter: u8, text: &[u8]) -> Result<()> {
    let size = copy.len();
    if size < FRONT || size - FRONT < text.len() {
        return Err(anyhow!("a copy of {size} bytes"));
    }
    copy.fill(0);
    let magic = if at == 0 {
        b"LUKS\xba\xbe"
    } else {
        b"SKUL\xba\xbe"
    };
    copy[0..6].copy_from_slice(magic);
    copy[6..8].copy_from_slice(&2u16.to_be_bytes());
    copy[8..16].copy_from_slice(&(size as u64).to_be_bytes());
    copy[16..24].copy_from_slice(&seqid.to_be_bytes());
    copy[24] = letter;
    copy[72..78].copy_from_slice(b"sha256");
    copy[104..168].fill(7);
    copy[168..204].copy_from_slice(b"12345678-1234-4234-8234-123456789ABC");
    copy[256..264].copy_from_slice(&at.to_be_bytes());
    copy[FRONT..FRONT + text.len()].copy_from_slice(text);
    sum_anew(copy)
}

/// The text of a header, behind which zeros may stand, with a token whose text has so many letters.
fn with_token(alloc: Global, text: &[u8], letters: u64) -> Result<String> {
    let Ok(text) = str::from_utf8(text) else {
        return Err(anyhow!("no text"));
    };
    let Some((front, end)) = text.split_once(NO_TOKENS) else {
        return Err(anyhow!("a header with tokens"));
    };
    let mut token = String::new(alloc);
    for _ in 0..letters {
        token.push('x')?;
    }
    let end = end.trim_end_matches('\0');
    Ok(format!(in alloc;
        "{front}\"tokens\":{{\"0\":{{\"keyslots\":[],\"text\":\"{token}\",\"type\":\"note\"}}}}{end}"
    )?)
}

/// Gives a copy a token whose text has so many letters.
fn add_token(alloc: Global, copy: &mut [u8], letters: u64) -> Result<()> {
    if copy.len() != COPY {
        return Err(anyhow!("a copy of {} bytes", copy.len()));
    }
    let text = with_token(alloc, &copy[FRONT..], letters)?;
    let text = text.as_bytes();
    if text.len() > COPY - FRONT {
        return Err(anyhow!("a text of {} bytes", text.len()));
    }
    copy[FRONT..].fill(0);
    copy[FRONT..FRONT + text.len()].copy_from_slice(text);
    sum_anew(copy)
}

/// Gives both copies of a disk's header a token whose text has so many letters.
fn add_tokens(alloc: Global, bytes: &mut [u8], letters: u64) -> Result<()> {
    for copy in bytes.chunks_mut(COPY).take(2) {
        add_token(alloc, copy, letters)?;
    }
    Ok(())
}

/// Changes the bytes of a disk.
fn change_bytes(
    alloc: Global,
    lexicon: &Lexicon,
    bytes: &mut [u8],
    change: Change<'_>,
) -> Result<()> {
    match change {
        Change::Put { at, spelling } => {
            let spelled = lexicon.spelled(alloc, spelling)?;
            put(bytes, at, spelled.as_slice())
        }
        Change::Fill { at, length, byte } => {
            part_of(bytes, at, length)?.fill(byte);
            Ok(())
        }
        Change::Copy {
            at,
            size,
            seqid,
            letter,
            text,
        } => {
            let text = lexicon.text(text)?.trim_end();
            let copy = part_of(bytes, at, size)?;
            make_copy(copy, at, seqid, letter, text.as_bytes())
        }
        Change::Sum { at, size } => sum_anew(part_of(bytes, at, size)?),
        Change::Token { letters } => add_tokens(alloc, bytes, letters),
        Change::Tail { .. } => Ok(()),
    }
}

/// Changes a disk.
pub(crate) fn change(
    alloc: Global,
    lexicon: &Lexicon,
    shelf: &mut Shelf,
    change: Change<'_>,
) -> Result<()> {
    if let Change::Tail { bytes } = change {
        shelf.tail = bytes;
    }
    change_bytes(alloc, lexicon, shelf.bytes.as_mut_slice(), change)
}
