// What a person is told of the words of a command line: help, the version, and what is wrong with
// them.

ghost use Rattle.std.specs.Prelude.{◌≡◌, true, map, string_bytes, IfOk, IfSome, is_none, is_some};
ghost use Rattle.std.specs.Prelude.{None};
ghost use Rattle.std.specs.List.{list_any};
ghost use Rattle.command_line.specs.Commands.{asked};
ghost use Rattle.command_line.specs.Helps.{is_help_word};

use crate::command::{Reason, read};
use crate::product::{command_named, product};
use clap::Error;
use clap::error::ErrorKind;
use std::alloc::{AllocError, Global};

/// The version of the program.
const VERSION: &str = "reencd 0.3.0\n";

/// A text of `clap` without the lines that guess at another word, and without the empty line behind
/// each.
fn without_tips(alloc: Global, text: &str) -> Result<String, AllocError> {
    let mut kept = String::new(alloc);
    let mut dropped = false;
    for line in text.lines() {
        if line.starts_with("  tip: ") {
            dropped = true;
        } else if dropped && line.is_empty() {
            dropped = false;
        } else {
            kept.push_str(line)?;
            kept.push_str("\n")?;
        }
    }
    Ok(kept)
}

/// Whether this is the help that was asked for.
fn is_help(error: &Error) -> bool {
    matches!(error.kind(), ErrorKind::DisplayHelp)
}

/// What is wrong with values, with the usage of the command that the words begin with.
fn value_text(alloc: Global, words: &[String], reason: &str) -> Result<String, AllocError> {
    let mut command = match words.first() {
        Some(name) => command_named(alloc, name.as_str())?,
        None => product(alloc)?,
    };
    command
        .error(ErrorKind::ValueValidation, reason)?
        .to_string(alloc)
}

/// What to tell a person whose words were refused: help that they asked for, or what is wrong with
/// them, in the texts of `clap`, with the usage of the command that they name. There is a text
/// exactly where the words ask for nothing. They are read once more for it, so that a command that
/// is run carries no text.
///
/// # Errors
///
/// Memory was wanted.
pub fn explain_words(alloc: Global, words: &[String]) -> Result<Option<String>, AllocError>
    ensures { IfOk result
        (λ text. is_none text ≡ is_some (asked (map string_bytes words.now))) }
{
    match read(alloc, words) {
        Ok(_) => Ok(None),
        Err(Reason::Memory) => Err(AllocError),
        Err(Reason::Words(error)) => {
            let text = error.to_string(alloc)?;
            Ok(Some(without_tips(alloc, text.as_str())?))
        }
        Err(Reason::Values(reason)) => Ok(Some(value_text(alloc, words, reason)?)),
    }
}

/// Whether a word asks for the version.
fn asks_version(words: &[String]) -> bool {
    match words {
        [word] => word.as_str() == "--version" || word.as_str() == "-V",
        _ => false,
    }
}

/// Whether a word asks for help or for the version.
fn is_help_word(word: &str) -> bool
    ensures { result ≡ is_help_word word.now }
{
    word == "help" || word == "--help" || word == "-h" || word == "--version" || word == "-V"
}

/// Whether one of the words asks for help or for the version.
fn has_help_word(words: &[String]) -> bool
    ensures { result ≡ list_any (λ word. is_help_word (string_bytes word)) words.now }
{
    words.iter().any(|word| is_help_word(word.as_str()))
}

/// Help or the version, where `clap` finds that the words ask for it.
fn help_text(alloc: Global, words: &[String]) -> Result<Option<String>, AllocError>
    ensures { IfOk result (λ text. IfSome text
        (λ _. asked (map string_bytes words.now) ≡ None)) }
{
    match read(alloc, words) {
        Ok(_) => Ok(None),
        Err(Reason::Memory) => Err(AllocError),
        Err(Reason::Words(error)) => {
            if is_help(&error) {
                return Ok(Some(error.to_string(alloc)?));
            }
            if asks_version(words) {
                return Ok(Some(String::from_str(alloc, VERSION)?));
            }
            Ok(None)
        }
        Err(Reason::Values(_)) => Ok(None),
    }
}

/// The text that the words ask for, where they ask for help or for the version; such words ask for
/// no command, and one of them is `help`, `--help`, `-h`, `--version` or `-V`.
///
/// # Errors
///
/// Memory was wanted.
#[tactic(auto, using(crate::proofs::HelpLemmas::told_where))]
pub fn asked_help(alloc: Global, words: &[String]) -> Result<Option<String>, AllocError>
    ensures none { IfOk result (λ text. IfSome text
        (λ _. asked (map string_bytes words.now) ≡ None)) }
    ensures words { IfOk result (λ text. IfSome text
        (λ _. list_any (λ word. is_help_word (string_bytes word)) words.now ≡ true)) }
{
    if has_help_word(words) {
        return help_text(alloc, words);
    }
    Ok(None)
}
