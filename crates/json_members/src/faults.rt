ghost use Rattle.std.specs.Prelude.{◌≡◌, IfOk, string_bytes};
ghost use Rattle.json_members.specs.Fields.{IsFaultAt, under};

use crate::text::Text;
use std::alloc::{AllocError, AllocFailed, Global};
use std::error::Error;
use std::fmt;

/// What can be wrong with a member.
#[derive(Clone, Copy, Debug, PartialEq, Eq)]
pub enum JsonFaultKind {
    /// The bytes are no JSON text, or nest deeper than 127 levels.
    NotJson,
    /// A member that has to be there is not.
    Missing,
    /// A member is of another kind: no text, no number, no list or no object.
    Kind,
    /// A number isn't whole within 64 bits, is outside the numbers that are allowed, or is no
    /// decimal text; or a key is none.
    Number,
    /// A text is not in standard base64 with padding.
    Base64,
    /// A text is none of those that are known.
    Unsupported,
}

impl JsonFaultKind {
    /// Its number and its name, as a fault is told to people.
    fn number_and_name(self) -> (u8, &'static str) {
        match self {
            JsonFaultKind::NotJson => (1, "NotJson"),
            JsonFaultKind::Missing => (2, "Missing"),
            JsonFaultKind::Kind => (3, "Kind"),
            JsonFaultKind::Number => (4, "Number"),
            JsonFaultKind::Base64 => (5, "Base64"),
            JsonFaultKind::Unsupported => (6, "Unsupported"),
        }
    }
}

/// The first fault of a JSON text, and the path of the member that has it: the keys that lead to
/// it, and the places in lists, from 0, with a slash between two. The path of the whole is empty.
#[derive(Debug, Drop)]
pub struct JsonFault {
    pub kind: JsonFaultKind,
    pub path: Text,
}

/// One line, as `JSON fault 2 Missing at digests/0/hash`; what can't be printed in the path is
/// escaped.
impl fmt::Display for JsonFault {
    fn fmt<W: fmt::Write>(&self, f: &mut fmt::Formatter<W>) -> fmt::Result {
        let (number, name) = self.kind.number_and_name();
        let path = self.path.as_str();
        if path.is_empty() {
            write!(f, "JSON fault {number} {name}")
        } else {
            let path = path.escape_debug();
            write!(f, "JSON fault {number} {name} at {path}")
        }
    }
}

impl Error for JsonFault {}

/// Why nothing was read.
#[derive(Debug, Drop)]
pub enum ReadError {
    /// Memory ran out.
    Memory,
    /// The text has a fault.
    Fault(JsonFault),
}

impl fmt::Display for ReadError {
    fn fmt<W: fmt::Write>(&self, f: &mut fmt::Formatter<W>) -> fmt::Result {
        match self {
            ReadError::Memory => write!(f, "out of memory"),
            ReadError::Fault(fault) => write!(f, "{fault}"),
        }
    }
}

impl Error for ReadError {}

impl From<AllocError> for ReadError {
    ghost use Rattle.json_members.specs.declared.faults.ReadError.TheVariants.{Memory};

    ghost from_gives = { λ _ e. e ≡ Memory };

    fn from(_: AllocError) -> ReadError {
        ReadError::Memory
    }
}

impl<T: Drop> From<AllocFailed<T>> for ReadError {
    ghost use Rattle.json_members.specs.declared.faults.ReadError.TheVariants.{Memory};

    ghost from_gives = { λ _ e. e ≡ Memory };

    fn from(_: AllocFailed<T>) -> ReadError {
        ReadError::Memory
    }
}

/// The path of a member of the object at a path.
#[tactic(auto, unfolding(crate::specs::Fields::under))]
pub fn path_of(alloc: Global, path: &str, name: &str) -> Result<String, AllocError>
    ensures { IfOk result (λ text. string_bytes text ≡ under path.now name.now) }
{
    if path.is_empty() {
        return String::from_str(alloc, name);
    }
    let mut text = String::from_str(alloc, path)?;
    text.push_str("/")?;
    text.push_str(name)?;
    Ok(text)
}

/// The fault of a member of the object at a path, or `Memory`.
pub fn fault_at(alloc: Global, kind: JsonFaultKind, path: &str, name: &str) -> ReadError
    ensures { IsFaultAt kind path.now name.now result }
{
    match path_of(alloc, path, name) {
        Ok(text) => ReadError::Fault(JsonFault {
            kind,
            path: Text::new(text),
        }),
        Err(_) => ReadError::Memory,
    }
}
