// The words of `format`.

ghost use Rattle.std.specs.Prelude.{◌≡◌, ◌%◌, true, codes, IfOk};
ghost use Rattle.clap.specs.Words.{found_of, rows_of, first_of};
ghost use Rattle.command_line.specs.Formats.{
  IsFormatting,
  data_offset_or_default,
  default_data_offset,
  formatting,
  formatting_in,
  identifier_in,
  metadata_size_or_default,
};
ghost use Rattle.command_line.specs.Values.{Reads};
ghost use Rattle.luks_bin.specs.Fields.{is_size};

use crate::segment::{NewSegment, read_segment};
use crate::values::{Refused, atom_or_default, number_or, required, text_of};
use clap::ArgMatches;
use luks_bin::is_header_size;
use uuid::Uuid;

/// `format`: a new volume on a disk.
#[derive(Clone, Copy)]
pub struct Format<'a> {
    pub disk: &'a str,
    /// The disk that is to have its header. None where that lies on `disk`, in front of the data.
    pub header: Option<&'a str>,
    /// The file of the passphrase that is to open it.
    pub key_file: &'a str,
    /// The bytes of an atom: 512 or 4096.
    pub atom: u32,
    /// How its data are encrypted, and how the passphrase opens its key.
    pub segment: NewSegment,
    /// The byte at which its data begins: a multiple of 4096.
    pub data_offset: u64,
    /// The bytes of one copy of its header: one of the nine sizes.
    pub metadata_size: u64,
    /// Its identifier. None where a random one is asked for.
    pub identifier: Option<Uuid>,
}

#[tactic(auto, unfolding(crate::specs::Formats::default_data_offset))]
fn default_data_offset(detached: bool) -> u64
    ensures { result ≡ default_data_offset detached }
{
    if detached { 0 } else { 16_777_216 }
}

#[tactic(auto, unfolding(crate::specs::Formats::data_offset_or_default))]
fn data_offset_or_default(matches: &ArgMatches<'_>, detached: bool) -> Result<u64, Refused>
    ensures reads { Reads (λ offset. offset) result (data_offset_or_default detached
        (first_of (codes "data-offset") (rows_of (found_of matches.now)))) }
    ensures page { IfOk result (λ offset. offset % 4096 ≡ 0) }
{
    let refused = Refused("--data-offset takes bytes: a multiple of 4096");
    let default = default_data_offset(detached);
    let offset = number_or(matches, "data-offset", default, 0, u64::MAX, refused)?;
    if offset % 4096 != 0 {
        return Err(refused);
    }
    Ok(offset)
}

#[tactic(auto, unfolding(crate::specs::Formats::metadata_size_or_default))]
fn metadata_size_or_default(matches: &ArgMatches<'_>) -> Result<u64, Refused>
    ensures reads { Reads (λ size. size) result (metadata_size_or_default
        (first_of (codes "metadata-size") (rows_of (found_of matches.now)))) }
    ensures known { IfOk result (λ size. is_size size ≡ true) }
{
    let refused = Refused(
        "--metadata-size takes bytes: 16384, doubled any number of times up to 4194304",
    );
    let size = number_or(matches, "metadata-size", 16384, 16384, 4_194_304, refused)?;
    if !is_header_size(size) {
        return Err(refused);
    }
    Ok(size)
}

/// The bytes of an identifier's hyphenated form; the other forms of RFC 9562 are no identifiers
/// here.
const HYPHENATED: usize = 36;

#[tactic(auto, unfolding(crate::specs::Formats::identifier_in))]
fn identifier_in(matches: &ArgMatches<'_>) -> Result<Option<Uuid>, Refused>
    ensures { Reads (λ identifier. identifier) result
        (identifier_in (first_of (codes "uuid") (rows_of (found_of matches.now)))) }
{
    let refused = Refused("--uuid takes the 36 letters, digits and hyphens of an identifier");
    let Some(word) = text_of(matches, "uuid") else {
        return Ok(None);
    };
    if word.len() != HYPHENATED {
        return Err(refused);
    }
    match Uuid::parse_str(word) {
        Ok(identifier) => Ok(Some(identifier)),
        Err(_) => Err(refused),
    }
}

#[tactic(auto, unfolding(crate::specs::Formats::formatting_by))]
pub fn read_format<'a>(matches: &ArgMatches<'a>) -> Result<Format<'a>, Refused>
    ensures reads { Reads formatting result (formatting_in (rows_of (found_of matches.now))) }
    ensures bounded { IfOk result (λ words. IsFormatting (formatting words)) }
{
    let disk = required(matches, "disk")?;
    let header = text_of(matches, "header");
    let key_file = required(matches, "key-file")?;
    let atom = atom_or_default(matches)?;
    let segment = read_segment(matches, atom)?;
    let data_offset = data_offset_or_default(matches, header.is_some())?;
    let metadata_size = metadata_size_or_default(matches)?;
    let identifier = match identifier_in(matches) {
        Ok(identifier) => identifier,
        Err(refused) => return Err(refused),
    };
    Ok(Format {
        disk,
        header,
        key_file,
        atom,
        segment,
        data_offset,
        metadata_size,
        identifier,
    })
}
