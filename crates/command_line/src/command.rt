ghost use Rattle.std.specs.Prelude.{◌≡◌, ◌≢◌, map, string_bytes, IfOk, IfErr, MatchResult};
ghost use Rattle.std.specs.Prelude.{None, Some, [], codes, option_map};
ghost use Rattle.clap.specs.Words.{fault_of, first_of, found_of, kind_of, rows_of, subcommand_of};
ghost use Rattle.clap.specs.Words.{subcommand_rows_of};
ghost use Rattle.clap.specs.declared.error.kind.ErrorKind.TheVariants.{OutOfMemory};
ghost use Rattle.command_line.specs.Product.{product};
ghost use Rattle.command_line.specs.Values.{IsAtomSize, Reads, number_or_none};
ghost use Rattle.command_line.specs.Commands.{
  IsBounded,
  IsServing,
  asked,
  asked_by,
  command_in,
  key_file_in,
  serving,
  serving_in,
  showing,
  showing_in,
};

use crate::demonstrating::{Demo, read_demo};
use crate::formatting::{Format, read_format};
use crate::product::product;
use crate::resuming::{Resume, read_resume};
use crate::starting::{Init, read_init};
use crate::values::{
    Refused, atom_or_default, is_given, is_set, number_or, number_or_none, required, text_of,
};
use clap::error::ErrorKind;
use clap::{ArgMatches, Error};
use std::alloc::Global;

/// `serve` on a disk.
#[derive(Clone, Copy)]
pub struct Serve<'a> {
    pub disk: &'a str,
    /// The file of the passphrase that opens the volume on the disk. None where the disk is served
    /// plain, as it is.
    pub key_file: Option<&'a str>,
    /// The bytes of an atom: 512 or 4096.
    pub atom: u32,
    pub address: &'a str,
    /// How many links the sessions are dealt to: 1 to 16.
    pub workers: u32,
    /// How many sessions are served at most: 1 to 4294967295.
    pub sessions: u32,
    /// Whether a conversion that is under way is led on meanwhile.
    pub converts: bool,
    /// After how many seconds a client that sends nothing is dropped: 1 to 86400. None where it
    /// never is.
    pub idle_timeout: Option<u32>,
    /// Whether it is said when a session begins and ends.
    pub verbose: bool,
}

/// `status`: what the header of a disk says.
#[derive(Clone, Copy)]
pub struct Status<'a> {
    pub disk: &'a str,
    /// The bytes of an atom: 512 or 4096.
    pub atom: u32,
}

/// What the words of a command line ask for.
#[derive(Clone, Copy)]
pub enum Command<'a> {
    Format(Format<'a>),
    Init(Init<'a>),
    Serve(Serve<'a>),
    Resume(Resume<'a>),
    Status(Status<'a>),
    Demo(Demo),
}

/// Why no command was read.
#[derive(Clone, Copy, PartialEq, Eq)]
pub enum Refusal {
    /// The words ask for nothing, or for what isn't built yet.
    Usage,
    /// Memory was wanted.
    Memory,
}

/// What `clap` finds in the words.
fn matches_of<'a>(alloc: Global, words: &'a [String]) -> Result<ArgMatches<'a>, Error>
    ensures taken { IfOk result (λ m. fault_of product (map string_bytes words.now) ≡ []) }
    ensures found { IfOk result
        (λ m. subcommand_rows_of m ≡ subcommand_of product (map string_bytes words.now)) }
    ensures refused { IfErr result (λ e. kind_of e ≢ OutOfMemory →
        fault_of product (map string_bytes words.now) ≢ []) }
{
    product(alloc)?.try_get_matches_from(words)
}

/// The key file of a volume that is served, or None where the disk is served plain: one of both
/// must be asked for.
#[tactic(auto, unfolding(crate::specs::Commands::key_file_in))]
fn read_key_file<'a>(matches: &ArgMatches<'a>) -> Result<Option<&'a str>, Refused>
    ensures { Reads (λ file. option_map (λ word. word.now) file) result
        (key_file_in (rows_of (found_of matches.now))) }
{
    if is_given(matches, "header") {
        return Err(Refused("serve takes no --header yet"));
    }
    let key_file = text_of(matches, "key-file");
    if is_set(matches, "plain") {
        if key_file.is_some() {
            return Err(Refused("serve takes --key-file or --plain, not both"));
        }
        return Ok(None);
    }
    match key_file {
        Some(word) => Ok(Some(word)),
        None => Err(Refused("serve takes --key-file or --plain")),
    }
}

/// The value of `--idle-timeout`, where it is there.
fn timeout_or_none(matches: &ArgMatches<'_>) -> Result<Option<u32>, Refused>
    ensures { Reads (λ seconds. seconds) result
        (number_or_none 1 86400 (first_of (codes "idle-timeout") (rows_of (found_of matches.now)))) }
{
    let refused = Refused("--idle-timeout takes seconds: a number from 1 to 86400");
    match number_or_none(matches, "idle-timeout", 1, 86_400, refused) {
        Ok(Some(seconds)) => Ok(Some(seconds as u32)),
        Ok(None) => Ok(None),
        Err(refused) => Err(refused),
    }
}

#[tactic(auto, unfolding(crate::specs::Commands::serving_in))]
fn read_serve<'a>(matches: &ArgMatches<'a>) -> Result<Serve<'a>, Refused>
    ensures reads { Reads serving result (serving_in (rows_of (found_of matches.now))) }
    ensures bounded { IfOk result (λ words. IsServing (serving words)) }
{
    let disk = required(matches, "disk")?;
    let atom = atom_or_default(matches)?;
    let address = required(matches, "listen")?;
    let count = Refused("--workers takes a number from 1 to 16");
    let workers = number_or(matches, "workers", 4, 1, 16, count)?;
    let count = Refused("--sessions takes a number from 1 to 4294967295");
    let most = u64::from(u32::MAX);
    let sessions = number_or(matches, "sessions", most, 1, most, count)?;
    let key_file = read_key_file(matches)?;
    let idle_timeout = timeout_or_none(matches)?;
    Ok(Serve {
        disk,
        key_file,
        atom,
        address,
        workers: workers as u32,
        sessions: sessions as u32,
        converts: !is_set(matches, "no-worker"),
        idle_timeout,
        verbose: is_set(matches, "verbose"),
    })
}

#[tactic(auto, unfolding(crate::specs::Commands::showing_in))]
fn read_status<'a>(matches: &ArgMatches<'a>) -> Result<Status<'a>, Refused>
    ensures reads { Reads showing result (showing_in (rows_of (found_of matches.now))) }
    ensures bounded { IfOk result (λ words. IsAtomSize words.atom) }
{
    let disk = required(matches, "disk")?;
    let atom = atom_or_default(matches)?;
    if is_given(matches, "header") {
        return Err(Refused("--header is not built yet"));
    }
    Ok(Status { disk, atom })
}

/// The command of this name, by its values.
#[tactic(auto, unfolding(crate::specs::Commands::command_in))]
fn read_command<'a>(name: &str, matches: &ArgMatches<'a>) -> Result<Command<'a>, Refused>
    ensures reads { Reads asked_by result (command_in name.now (rows_of (found_of matches.now))) }
    ensures bounded { IfOk result (λ command. IsBounded (asked_by command)) }
{
    if name == "format" {
        return match read_format(matches) {
            Ok(format) => Ok(Command::Format(format)),
            Err(refused) => Err(refused),
        };
    }
    if name == "init" {
        return match read_init(matches) {
            Ok(init) => Ok(Command::Init(init)),
            Err(refused) => Err(refused),
        };
    }
    if name == "serve" {
        let serve = read_serve(matches)?;
        return Ok(Command::Serve(serve));
    }
    if name == "resume" {
        let resume = read_resume(matches)?;
        return Ok(Command::Resume(resume));
    }
    if name == "status" {
        let status = read_status(matches)?;
        return Ok(Command::Status(status));
    }
    if name == "demo" {
        let demo = read_demo(matches)?;
        return Ok(Command::Demo(demo));
    }
    Err(Refused("there is no such command"))
}

/// Why no command was read, with what a person is told.
#[derive(Drop)]
pub(crate) enum Reason {
    Memory,
    /// What `clap` found wrong, or the help that was asked for.
    Words(Error),
    /// What is wrong with the values.
    Values(&'static str),
}

/// What the words of a command line ask for, or why they ask for nothing.
#[tactic(auto, unfolding(crate::specs::Commands::asked))]
pub(crate) fn read<'a>(alloc: Global, words: &'a [String]) -> Result<Command<'a>, Reason>
    ensures asked { MatchResult result
        (λ command. asked (map string_bytes words.now) ≡ Some (asked_by command))
        (λ reason. reason ≢ Reason.Memory → asked (map string_bytes words.now) ≡ None) }
    ensures bounded { IfOk result (λ command. IsBounded (asked_by command)) }
{
    let matches = match matches_of(alloc, words) {
        Ok(matches) => matches,
        Err(error) if error.kind() == ErrorKind::OutOfMemory => return Err(Reason::Memory),
        Err(error) => return Err(Reason::Words(error)),
    };
    let Some((name, found)) = matches.subcommand() else {
        return Err(Reason::Values("no command is named"));
    };
    match read_command(name, found) {
        Ok(command) => Ok(command),
        Err(Refused(reason)) => Err(Reason::Values(reason)),
    }
}

/// What the words of a command line ask for.
///
/// # Errors
///
/// `Usage` exactly where they ask for nothing, or for what isn't built yet; or `Memory`.
pub fn read_words(alloc: Global, words: &[String]) -> Result<Command<'_>, Refusal>
    ensures asked { MatchResult result
        (λ command. asked (map string_bytes words.now) ≡ Some (asked_by command))
        (λ refusal. refusal ≡ Refusal.Usage → asked (map string_bytes words.now) ≡ None) }
    ensures bounded { IfOk result (λ command. IsBounded (asked_by command)) }
{
    match read(alloc, words) {
        Ok(command) => Ok(command),
        Err(Reason::Memory) => Err(Refusal::Memory),
        Err(_) => Err(Refusal::Usage),
    }
}
