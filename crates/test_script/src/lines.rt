// The lines of scripts.

use crate::numbers::{byte, number, numbers, pair};
use anyhow::{Result, anyhow};
use std::alloc::Global;

/// Where named bytes come from.
#[derive(Clone, Copy)]
pub(crate) enum Origin<'a> {
    /// They are spelled.
    Spelled(&'a str),
    /// They are those of the rest of the line.
    Text(&'a str),
    /// They are a file of the scripts' folder.
    File(&'a str),
    /// So many that rise from the first one on, below the modulus.
    Rising {
        length: u64,
        first: u64,
        modulus: u64,
    },
    /// Requests that are drawn.
    Drawn {
        seed: u64,
        atom: u64,
    },
    /// Those of a name, in which texts are replaced by others; tabs stand between them.
    Edited(&'a str),
}

/// What is changed of a disk's bytes, from outside of a command.
#[derive(Clone, Copy)]
pub(crate) enum Change<'a> {
    /// These are put at a byte.
    Put {
        at: u64,
        spelling: &'a str,
    },
    /// So many have one value.
    Fill {
        at: u64,
        length: u64,
        byte: u8,
    },
    /// A copy of a header is put at a byte: its size, number, the first letter of its label, and the
    /// name of its text.
    Copy {
        at: u64,
        size: u64,
        seqid: u64,
        letter: u8,
        text: &'a str,
    },
    /// The copy of a header at a byte, of so many, has the sum of its bytes.
    Sum {
        at: u64,
        size: u64,
    },
    /// There are so many bytes behind the last whole atom.
    Tail {
        bytes: u64,
    },
    /// Both copies of a header have a token with so many letters.
    Token {
        letters: u64,
    },
}

/// What is settled of the commands that come.
#[derive(Clone, Copy)]
pub(crate) enum Setting<'a> {
    /// There is a key file of this name.
    Key { name: &'a str, spelling: &'a str },
    /// A client sends these bytes.
    Client(&'a str),
    /// For each byte of these there is a client whose input ends before it.
    Cuts(&'a str),
    /// A client's bytes come in pieces of at most so many, and it takes so many.
    Limits { piece: u64, room: u64 },
    /// The output takes so many bytes.
    Room(u64),
    /// The bytes that are drawn rise from the first one by so much.
    Seeds { first: u8, step: u8 },
    /// Calls of these numbers fail.
    Fails { whose: &'a str, calls: &'a str },
    /// The disk is stopped behind so many device calls.
    Stop(u64),
    /// What is left of the disks behind the command.
    Left(&'a str),
    /// Clients and the conversion's worker meet at its step of this number.
    Meet(u64),
    /// Which device calls are tried, and where the command is stopped once more.
    Tried(&'a str),
    Again(&'a str),
    /// The words of a command that serves the clients at the end.
    Reader(&'a str),
}

/// A line of a script.
#[derive(Clone, Copy)]
pub(crate) enum Line<'a> {
    /// Nothing, or a remark.
    Remark,
    /// Bytes have a name.
    Name {
        name: &'a str,
        origin: Origin<'a>,
    },
    /// There is a disk of so many atoms, all of whose bytes are this one.
    Disk {
        name: &'a str,
        atom: u64,
        atoms: u64,
        byte: u8,
    },
    Change {
        name: &'a str,
        change: Change<'a>,
    },
    Set(Setting<'a>),
    /// A command is run.
    Run(&'a str),
    /// The same, of which less is told, since threads may order its calls otherwise.
    Loose(&'a str),
    /// A command is stopped within its device calls, and goes on.
    Stops(&'a str),
    /// Device calls of a command fail, and it is run again.
    Faults(&'a str),
    /// What a person is told of words.
    Words(&'a str),
    /// A calculation, which no command shows.
    Value(&'a str),
    /// A header of a conversion, step by step.
    Metadata(&'a str),
}

impl Line<'_> {
    /// Whether something is shown of it.
    pub(crate) fn is_shown(&self) -> bool {
        match self {
            Line::Run(_) | Line::Loose(_) | Line::Stops(_) | Line::Faults(_) => true,
            Line::Words(_) | Line::Value(_) | Line::Metadata(_) => true,
            Line::Remark | Line::Name { .. } | Line::Disk { .. } | Line::Change { .. } => false,
            Line::Set(_) => false,
        }
    }
}

/// A line by its first word and the rest.
pub(crate) fn line_of<'a>(alloc: Global, line: &'a str) -> Result<Line<'a>> {
    let (word, rest) = pair(line);
    if line.is_empty() || line.starts_with('#') {
        return Ok(Line::Remark);
    }
    match word {
        "bytes" | "text" | "file" | "rising" | "drawn" | "edited" => naming(alloc, word, rest),
        "disk" => disk(alloc, rest),
        "put" | "fill" | "tail" | "copy" | "sum" | "token" => changing(alloc, word, rest),
        "run" => Ok(Line::Run(rest)),
        "loose" => Ok(Line::Loose(rest)),
        "stops" => Ok(Line::Stops(rest)),
        "faults" => Ok(Line::Faults(rest)),
        "words" => Ok(Line::Words(rest)),
        "value" => Ok(Line::Value(rest)),
        "metadata" => Ok(Line::Metadata(rest)),
        _ => Ok(Line::Set(settled(alloc, word, rest)?)),
    }
}

/// A line that names bytes.
fn naming<'a>(alloc: Global, word: &str, rest: &'a str) -> Result<Line<'a>> {
    let (name, rest) = pair(rest);
    let origin = match word {
        "bytes" => Origin::Spelled(rest),
        "text" => Origin::Text(rest),
        "file" => Origin::File(rest),
        "edited" => Origin::Edited(rest),
        _ => match (word, numbers(alloc, rest, 0)?.as_slice()) {
            ("rising", [length, first, modulus]) => Origin::Rising {
                length: *length,
                first: *first,
                modulus: *modulus,
            },
            ("drawn", [seed, atom]) => Origin::Drawn {
                seed: *seed,
                atom: *atom,
            },
            _ => return Err(anyhow!("{word} has other numbers")),
        },
    };
    Ok(Line::Name { name, origin })
}

/// A line that makes a disk.
fn disk<'a>(alloc: Global, rest: &'a str) -> Result<Line<'a>> {
    let (name, rest) = pair(rest);
    match numbers(alloc, rest, 0)?.as_slice() {
        [atom, atoms, byte] => Ok(Line::Disk {
            name,
            atom: *atom,
            atoms: *atoms,
            byte: (*byte % 256) as u8,
        }),
        _ => Err(anyhow!("a disk has three numbers")),
    }
}

/// A line that changes a disk.
fn changing<'a>(alloc: Global, word: &str, rest: &'a str) -> Result<Line<'a>> {
    let (name, rest) = pair(rest);
    let change = match word {
        "put" => {
            let (at, spelling) = pair(rest);
            Change::Put {
                at: number(at)?,
                spelling,
            }
        }
        "copy" => return copy(alloc, name, rest),
        _ => match (word, numbers(alloc, rest, 0)?.as_slice()) {
            ("fill", [at, length, byte]) => Change::Fill {
                at: *at,
                length: *length,
                byte: (*byte % 256) as u8,
            },
            ("sum", [at, size]) => Change::Sum {
                at: *at,
                size: *size,
            },
            ("tail", [bytes]) => Change::Tail { bytes: *bytes },
            ("token", [letters]) => Change::Token { letters: *letters },
            _ => return Err(anyhow!("{word} has other numbers")),
        },
    };
    Ok(Line::Change { name, change })
}

/// A line that puts a copy of a header on a disk.
fn copy<'a>(alloc: Global, name: &'a str, rest: &'a str) -> Result<Line<'a>> {
    let words: Vec<&str> = rest.split(' ').collect(alloc)?;
    match words.as_slice() {
        [at, size, seqid, letter, text] => Ok(Line::Change {
            name,
            change: Change::Copy {
                at: number(at)?,
                size: number(size)?,
                seqid: number(seqid)?,
                letter: letter.as_bytes().first().copied().unwrap_or(0),
                text: *text,
            },
        }),
        _ => Err(anyhow!("a copy has a place, a size, a number, a letter and a text")),
    }
}

/// A line that settles something.
fn settled<'a>(alloc: Global, word: &str, rest: &'a str) -> Result<Setting<'a>> {
    let (first, second) = pair(rest);
    match word {
        "key" => Ok(Setting::Key {
            name: first,
            spelling: second,
        }),
        "client" => Ok(Setting::Client(rest)),
        "cuts" => Ok(Setting::Cuts(rest)),
        "fails" => Ok(Setting::Fails {
            whose: first,
            calls: second,
        }),
        "left" => Ok(Setting::Left(rest)),
        "tried" => Ok(Setting::Tried(rest)),
        "again" => Ok(Setting::Again(rest)),
        "reader" => Ok(Setting::Reader(rest)),
        "seeds" => Ok(Setting::Seeds {
            first: byte(first)?,
            step: byte(second)?,
        }),
        _ => match (word, numbers(alloc, rest, 0)?.as_slice()) {
            ("limits", [piece, room]) => Ok(Setting::Limits {
                piece: *piece,
                room: *room,
            }),
            ("room", [room]) => Ok(Setting::Room(*room)),
            ("stop", [calls]) => Ok(Setting::Stop(*calls)),
            ("meet", [step]) => Ok(Setting::Meet(*step)),
            _ => Err(anyhow!("{word} is no line of a script")),
        },
    }
}
