// The words of `init`.

ghost use Rattle.std.specs.Prelude.{◌≡◌, ◌<◌, ◌≤◌, ◌%◌, true, false, codes, IfOk, MatchResult};
ghost use Rattle.clap.specs.Words.{found_of, rows_of, first_of};
ghost use Rattle.command_line.specs.Starts.{
  IsStarting,
  asks_unbuilt,
  direction_or_default,
  guard_name,
  guard_named,
  guard_or_default,
  hotzone_size_or_default,
  starting,
  starting_in,
};
ghost use Rattle.command_line.specs.Values.{IsAtomSize, Reads};
ghost use Rattle.luks_meta.specs.Reencrypts.{direction_named};

use crate::segment::{NewSegment, read_segment};
use crate::values::{Refused, atom_or_default, is_given, is_set, number_or, required, text_of};
use clap::ArgMatches;
use luks_meta::Direction;

/// What keeps the open zone of a conversion safe.
#[derive(Clone, Copy, PartialEq, Eq)]
pub enum Guard {
    /// `journal`: copies of its old blocks.
    Journal,
    /// `checksum`: a SHA-256 of each of its old blocks.
    Checksum,
}

impl Guard {
    /// What keeps zones safe by this name.
    fn of_name(name: &str) -> Option<Guard>
        ensures { result ≡ guard_named name.now }
    {
        if name == "journal" {
            Some(Guard::Journal)
        } else if name == "checksum" {
            Some(Guard::Checksum)
        } else {
            None
        }
    }

    /// Its name.
    pub fn name(self) -> &'static str
        ensures { result.now ≡ guard_name self }
    {
        match self {
            Guard::Journal => "journal",
            Guard::Checksum => "checksum",
        }
    }
}

/// `init`: a conversion of the volume on a disk to a new key is begun.
#[derive(Clone, Copy)]
pub struct Init<'a> {
    pub disk: &'a str,
    /// The file of the passphrase that opens the volume, and is to open the new key.
    pub key_file: &'a str,
    /// The bytes of an atom: 512 or 4096.
    pub atom: u32,
    /// How the data are to be encrypted, and how the passphrase is to open their key.
    pub segment: NewSegment,
    /// What keeps an open zone safe.
    pub resilience: Guard,
    /// In which order blocks are converted.
    pub direction: Direction,
    /// The bytes of the largest zone that is to have room: whole atoms, at least one, and at most
    /// 67108864 bytes.
    pub hotzone_size: u64,
    /// Whether keyslots that hold the old key for other passphrases may go.
    pub drop_keyslots: bool,
}

/// Refuses the options of `init` that aren't built yet.
#[tactic(auto, unfolding(crate::specs::Starts::asks_unbuilt))]
fn refuse_unbuilt(matches: &ArgMatches<'_>) -> Result<(), Refused>
    ensures { MatchResult result (λ _. asks_unbuilt (rows_of (found_of matches.now)) ≡ false)
        (λ _. asks_unbuilt (rows_of (found_of matches.now)) ≡ true) }
{
    if is_given(matches, "header") {
        return Err(Refused("init takes no --header yet"));
    }
    if is_given(matches, "metadata-size") {
        return Err(Refused("init takes no --metadata-size yet"));
    }
    if is_given(matches, "shift") {
        return Err(Refused("init takes no --shift yet"));
    }
    if is_set(matches, "encrypt") {
        return Err(Refused("init takes no --encrypt yet"));
    }
    if is_set(matches, "decrypt") {
        return Err(Refused("init takes no --decrypt yet"));
    }
    Ok(())
}

#[tactic(auto, unfolding(crate::specs::Starts::guard_or_default))]
fn guard_or_default(matches: &ArgMatches<'_>) -> Result<Guard, Refused>
    ensures { Reads (λ guard. guard) result
        (guard_or_default (first_of (codes "resilience") (rows_of (found_of matches.now)))) }
{
    let Some(word) = text_of(matches, "resilience") else {
        return Ok(Guard::Journal);
    };
    match Guard::of_name(word) {
        Some(guard) => Ok(guard),
        None => Err(Refused("--resilience takes journal or checksum")),
    }
}

/// The direction of a name.
fn direction_named(word: &str) -> Option<Direction>
    ensures { result ≡ direction_named word.now }
{
    if word == "forward" {
        Some(Direction::Forward)
    } else if word == "backward" {
        Some(Direction::Backward)
    } else {
        None
    }
}

#[tactic(auto, unfolding(crate::specs::Starts::direction_or_default))]
fn direction_or_default(matches: &ArgMatches<'_>) -> Result<Direction, Refused>
    ensures { Reads (λ direction. direction) result
        (direction_or_default (first_of (codes "direction") (rows_of (found_of matches.now)))) }
{
    let Some(word) = text_of(matches, "direction") else {
        return Ok(Direction::Forward);
    };
    match direction_named(word) {
        Some(direction) => Ok(direction),
        None => Err(Refused("--direction takes forward or backward")),
    }
}

#[tactic(auto, unfolding(crate::specs::Starts::hotzone_size_or_default))]
fn hotzone_size_or_default(matches: &ArgMatches<'_>, atom: u32) -> Result<u64, Refused>
    requires { IsAtomSize atom }
    ensures reads { Reads (λ size. size) result (hotzone_size_or_default atom
        (first_of (codes "hotzone-size") (rows_of (found_of matches.now)))) }
    ensures some { IfOk result (λ size. 0 < size) }
    ensures most { IfOk result (λ size. size ≤ 67108864) }
    ensures whole { IfOk result (λ size. size % atom ≡ 0) }
{
    let refused = Refused(
        "--hotzone-size takes bytes: a multiple of --atom, at most 67108864, not 0",
    );
    let size = number_or(matches, "hotzone-size", 1_048_576, 1, 67_108_864, refused)?;
    if size % atom as u64 != 0 {
        return Err(refused);
    }
    Ok(size)
}

#[tactic(auto, unfolding(crate::specs::Starts::starting_by))]
pub fn read_init<'a>(matches: &ArgMatches<'a>) -> Result<Init<'a>, Refused>
    ensures reads { Reads starting result (starting_in (rows_of (found_of matches.now))) }
    ensures bounded { IfOk result (λ words. IsStarting (starting words)) }
{
    refuse_unbuilt(matches)?;
    let disk = required(matches, "disk")?;
    let key_file = required(matches, "key-file")?;
    let atom = atom_or_default(matches)?;
    let segment = read_segment(matches, atom)?;
    let resilience = guard_or_default(matches)?;
    let direction = direction_or_default(matches)?;
    let hotzone_size = hotzone_size_or_default(matches, atom)?;
    Ok(Init {
        disk,
        key_file,
        atom,
        segment,
        resilience,
        direction,
        hotzone_size,
        drop_keyslots: is_set(matches, "drop-keyslots"),
    })
}
