// The words of a new segment.

ghost use Rattle.std.specs.Prelude.{◌≡◌, ◌≤◌, ◌%◌, true, codes, IfOk};
ghost use Rattle.clap.specs.Words.{found_of, rows_of, first_of};
ghost use Rattle.command_line.specs.Segments.{
  IsNewSegment,
  cipher_or_default,
  default_key_size,
  has_key_size,
  key_size_or_default,
  sector_size_or_default,
  segment_in,
};
ghost use Rattle.command_line.specs.Values.{Reads};
ghost use Rattle.luks_meta.specs.Segments.{is_sector_size};

use crate::values::{Refused, number_or, text_of};
use clap::ArgMatches;
use luks_meta::Cipher;

/// How the data of a new segment are encrypted, and how the passphrase opens their key.
#[derive(Clone, Copy)]
pub struct NewSegment {
    /// The cipher of its data.
    pub cipher: Cipher,
    /// The bytes of its key: 32 or 64 for XTS, 16 or 32 for CBC.
    pub key_size: u32,
    /// The bytes that are encrypted as one: 512, 1024, 2048 or 4096, no more than an atom.
    pub sector_size: u32,
    /// The rounds of PBKDF2 that the passphrase takes: 1000 to 268435456.
    pub iterations: u32,
}

#[tactic(auto, unfolding(crate::specs::Segments::cipher_or_default))]
fn cipher_or_default(matches: &ArgMatches<'_>) -> Result<Cipher, Refused>
    ensures { Reads (λ cipher. cipher) result
        (cipher_or_default (first_of (codes "cipher") (rows_of (found_of matches.now)))) }
{
    let Some(word) = text_of(matches, "cipher") else {
        return Ok(Cipher::AesXtsPlain64);
    };
    match Cipher::of_name(word) {
        Some(cipher) => Ok(cipher),
        None => Err(Refused("--cipher takes aes-xts-plain64 or aes-cbc-essiv:sha256")),
    }
}

/// Whether a cipher has keys of so many bytes.
#[tactic(auto, unfolding(crate::specs::Segments::has_key_size))]
fn has_key_size(cipher: Cipher, size: u64) -> bool
    ensures { result ≡ has_key_size cipher size }
{
    match cipher {
        Cipher::AesXtsPlain64 => size == 32 || size == 64,
        Cipher::AesCbcEssivSha256 => size == 16 || size == 32,
    }
}

#[tactic(auto, unfolding(crate::specs::Segments::default_key_size))]
fn default_key_size(cipher: Cipher) -> u64
    ensures is { result ≡ default_key_size cipher }
    ensures above { 16 ≤ result }
    ensures within { result ≤ 64 }
{
    match cipher {
        Cipher::AesXtsPlain64 => 64,
        Cipher::AesCbcEssivSha256 => 32,
    }
}

#[tactic(auto, unfolding(crate::specs::Segments::key_size_or_default))]
fn key_size_or_default(matches: &ArgMatches<'_>, cipher: Cipher) -> Result<u32, Refused>
    ensures reads { Reads (λ size. size) result (key_size_or_default cipher
        (first_of (codes "key-size") (rows_of (found_of matches.now)))) }
    ensures known { IfOk result (λ size. has_key_size cipher size ≡ true) }
{
    let refused = Refused("--key-size takes bytes, not bits: 32 or 64 for xts, 16 or 32 for cbc");
    let size = number_or(
        matches,
        "key-size",
        default_key_size(cipher),
        16,
        64,
        refused,
    )?;
    if !has_key_size(cipher, size) {
        return Err(refused);
    }
    Ok(size as u32)
}

/// Whether the sectors of an encryption may have so many bytes.
fn is_sector_size(size: u64) -> bool
    ensures { result ≡ is_sector_size size }
{
    size == 512 || size == 1024 || size == 2048 || size == 4096
}

#[tactic(auto, unfolding(crate::specs::Segments::sector_size_or_default))]
fn sector_size_or_default(matches: &ArgMatches<'_>, atom: u32) -> Result<u32, Refused>
    ensures reads { Reads (λ size. size) result
        (sector_size_or_default atom
        (first_of (codes "sector-size") (rows_of (found_of matches.now)))) }
    ensures known { IfOk result (λ size. is_sector_size size ≡ true) }
    ensures whole { IfOk result (λ size. atom % size ≡ 0) }
{
    let refused = Refused(
        "--sector-size takes bytes: 512, 1024, 2048 or 4096, no more than --atom",
    );
    let size = number_or(matches, "sector-size", 512, 512, 4096, refused)?;
    if !is_sector_size(size) {
        return Err(refused);
    }
    if atom as u64 % size != 0 {
        return Err(refused);
    }
    Ok(size as u32)
}

/// The new segment of a volume on a disk of such atoms.
#[tactic(auto, unfolding(crate::specs::Segments::segment_by))]
pub fn read_segment(matches: &ArgMatches<'_>, atom: u32) -> Result<NewSegment, Refused>
    ensures reads { Reads (λ segment. segment) result
        (segment_in atom (rows_of (found_of matches.now))) }
    ensures bounded { IfOk result (λ segment. IsNewSegment atom segment) }
{
    let cipher = cipher_or_default(matches)?;
    let key_size = key_size_or_default(matches, cipher)?;
    let sector_size = sector_size_or_default(matches, atom)?;
    let rounds = Refused("--iterations takes a number from 1000 to 268435456");
    let iterations = number_or(matches, "iterations", 100_000, 1000, 268_435_456, rounds)?;
    Ok(NewSegment {
        cipher,
        key_size,
        sector_size,
        iterations: iterations as u32,
    })
}
