ghost use Rattle.std.specs.Prelude.{◌≡◌, ◌≤◌, option_map, codes, IfOk, IfSome};
ghost use Rattle.std.specs.Char.{is_ascii_digit};
ghost use Rattle.std.specs.List.{list_all};
ghost use Rattle.clap.specs.Words.{found_of, rows_of, first_of};
ghost use Rattle.command_line.specs.Values.{
  IsAtomSize,
  Reads,
  atom_named,
  atom_or_default,
  is_given,
  is_number,
  is_set,
  number_in,
  number_or,
  number_or_none,
  number_within,
};

use clap::ArgMatches;

/// Why the values of words are refused, for a person.
#[derive(Clone, Copy)]
pub struct Refused(pub &'static str);

/// The value of an option, or the word of the disk, where there is one.
pub fn text_of<'a>(matches: &ArgMatches<'a>, name: &str) -> Option<&'a str>
    ensures { option_map (λ word. word.now) result
        ≡ first_of name.now (rows_of (found_of matches.now)) }
{
    matches.get_str(name)
}

/// The value of an option that must be there, as `clap` sees to.
pub fn required<'a>(matches: &ArgMatches<'a>, name: &str) -> Result<&'a str, Refused>
    ensures { Reads (λ word. word.now) result (first_of name.now (rows_of (found_of matches.now))) }
{
    match text_of(matches, name) {
        Some(word) => Ok(word),
        None => Err(Refused("a required value is missing")),
    }
}

/// Whether an option is given.
pub fn is_given(matches: &ArgMatches<'_>, name: &str) -> bool
    ensures { result ≡ is_given name.now (rows_of (found_of matches.now)) }
{
    text_of(matches, name).is_some()
}

/// Whether a flag is given.
pub fn is_set(matches: &ArgMatches<'_>, name: &str) -> bool
    ensures { result ≡ is_set name.now (rows_of (found_of matches.now)) }
{
    match text_of(matches, name) {
        Some(word) => word == "true",
        None => false,
    }
}

/// Whether a word is a number: 1 to 20 decimal digits, without a sign.
fn is_number(word: &str) -> bool
    ensures { result ≡ is_number word.now }
{
    if word.is_empty() || word.len() > 20 {
        return false;
    }
    are_digits(word.as_bytes())
}

fn are_digits(word: &[u8]) -> bool
    ensures { result ≡ list_all is_ascii_digit word.now }
{
    word.iter().all(|digit| digit.is_ascii_digit())
}

/// The number of a word, where it is one within these bounds.
#[tactic(auto, unfolding(crate::specs::Values::number_within))]
fn number_within(word: &str, least: u64, most: u64) -> Option<u64>
    ensures is { result ≡ number_within least most word.now }
    ensures above { IfSome result (λ number. least ≤ number) }
    ensures within { IfSome result (λ number. number ≤ most) }
{
    if !is_number(word) {
        return None;
    }
    let Ok(number) = word.parse::<u64>() else {
        return None;
    };
    if number < least {
        return None;
    }
    if number > most {
        return None;
    }
    Some(number)
}

/// The value of an option that is a number within these bounds, or its default.
#[tactic(auto, unfolding(crate::specs::Values::number_or))]
pub fn number_or(
    matches: &ArgMatches<'_>,
    name: &str,
    default: u64,
    least: u64,
    most: u64,
    refused: Refused,
) -> Result<u64, Refused>
    requires above { least ≤ default }
    requires within { default ≤ most }
    ensures reads { Reads (λ number. number) result
        (number_or default least most (first_of name.now (rows_of (found_of matches.now)))) }
    ensures above { IfOk result (λ number. least ≤ number) }
    ensures within { IfOk result (λ number. number ≤ most) }
{
    let Some(word) = text_of(matches, name) else {
        return Ok(default);
    };
    match number_within(word, least, most) {
        Some(number) => Ok(number),
        None => Err(refused),
    }
}

/// The value of an option that is a number within these bounds and must be there, as `clap` sees to.
#[tactic(auto, unfolding(crate::specs::Values::number_in))]
pub fn required_number(
    matches: &ArgMatches<'_>,
    name: &str,
    least: u64,
    most: u64,
    refused: Refused,
) -> Result<u64, Refused>
    ensures reads { Reads (λ number. number) result
        (number_in least most (first_of name.now (rows_of (found_of matches.now)))) }
    ensures above { IfOk result (λ number. least ≤ number) }
    ensures within { IfOk result (λ number. number ≤ most) }
{
    let word = required(matches, name)?;
    match number_within(word, least, most) {
        Some(number) => Ok(number),
        None => Err(refused),
    }
}

/// The value of an option that is a number within these bounds, where it is there.
#[tactic(auto, unfolding(crate::specs::Values::number_or_none))]
pub fn number_or_none(
    matches: &ArgMatches<'_>,
    name: &str,
    least: u64,
    most: u64,
    refused: Refused,
) -> Result<Option<u64>, Refused>
    ensures reads { Reads (λ number. number) result
        (number_or_none least most (first_of name.now (rows_of (found_of matches.now)))) }
    ensures within { IfOk result (λ number. IfSome number (λ n. n ≤ most)) }
{
    let Some(word) = text_of(matches, name) else {
        return Ok(None);
    };
    match number_within(word, least, most) {
        Some(number) => Ok(Some(number)),
        None => Err(refused),
    }
}

/// The bytes of an atom.
#[tactic(auto, unfolding(crate::specs::Values::atom_named))]
fn atom_named(word: &str) -> Option<u32>
    ensures is { result ≡ atom_named word.now }
    ensures known { IfSome result IsAtomSize }
{
    if word == "512" {
        Some(512)
    } else if word == "4096" {
        Some(4096)
    } else {
        None
    }
}

/// The value of `--atom`, or its default.
#[tactic(auto, unfolding(crate::specs::Values::atom_or_default))]
pub fn atom_or_default(matches: &ArgMatches<'_>) -> Result<u32, Refused>
    ensures reads { Reads (λ atom. atom) result
        (atom_or_default (first_of (codes "atom") (rows_of (found_of matches.now)))) }
    ensures known { IfOk result IsAtomSize }
{
    let Some(word) = text_of(matches, "atom") else {
        return Ok(4096);
    };
    match atom_named(word) {
        Some(atom) => Ok(atom),
        None => Err(Refused("--atom takes 512 or 4096")),
    }
}
