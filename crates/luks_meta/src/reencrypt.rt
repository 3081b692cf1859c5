// The keyslot that says how a conversion goes on.

ghost use Rattle.std.specs.Prelude.{◌≡◌, IfOk};
ghost use Rattle.luks_meta.specs.Reencrypts.{
  mode_named,
  mode_name,
  direction_named,
  direction_name,
};

use json_members::Object;
use std::alloc::{AllocError, Global};

/// What is converted into what.
#[derive(Clone, Copy, PartialEq, Eq)]
pub enum Mode {
    /// `reencrypt`: a crypt segment into another.
    Reencrypt,
    /// `encrypt`: a linear segment into a crypt one.
    Encrypt,
    /// `decrypt`: a crypt segment into a linear one.
    Decrypt,
}

/// In which order blocks are converted.
#[derive(Clone, Copy, PartialEq, Eq)]
pub enum Direction {
    /// `forward`: from the first block up.
    Forward,
    /// `backward`: from the last block down.
    Backward,
}

/// How an open zone is kept safe, which is the area's type.
#[derive(Clone, Copy, PartialEq, Eq)]
pub enum Resilience {
    /// `journal`: the area holds the zone's old content.
    Journal,
    /// `checksum`: the area holds a SHA-256 of each of the zone's sectors of so many bytes.
    Checksum(u64),
    /// `datashift`: the new place lies so many bytes from the old one, and the area is reserved.
    Datashift(u64),
}

/// The area of a conversion.
#[derive(Drop)]
pub struct ReencryptArea {
    pub resilience: Resilience,
    /// In bytes.
    pub offset: u64,
    /// In bytes.
    pub size: u64,
    /// The members that have no name here, as they were read.
    pub rest: Object,
}

/// The state of a conversion: a keyslot of the type `reencrypt`, whose key_size is 1.
pub struct Reencrypt {
    pub mode: Mode,
    pub direction: Direction,
    pub area: ReencryptArea,
    /// The members that have no name here, as they were read.
    pub rest: Object,
}

// By hand, so that a value that is dropped in place is one call to the prover.
impl Drop for Reencrypt {
    fn drop(self) {
        let Reencrypt {
            mode: _,
            direction: _,
            area,
            rest,
        } = self;
        drop(area);
        drop(rest);
    }
}

impl Mode {
    /// The mode of a name, if it is one that is known.
    pub fn of_name(name: &str) -> Option<Mode>
        ensures { result ≡ mode_named name.now }
    {
        if name == "reencrypt" {
            Some(Mode::Reencrypt)
        } else if name == "encrypt" {
            Some(Mode::Encrypt)
        } else if name == "decrypt" {
            Some(Mode::Decrypt)
        } else {
            None
        }
    }

    /// The mode's name.
    pub fn name(self) -> &'static str
        ensures { result.now ≡ mode_name self }
    {
        match self {
            Mode::Reencrypt => "reencrypt",
            Mode::Encrypt => "encrypt",
            Mode::Decrypt => "decrypt",
        }
    }
}

impl Direction {
    /// The direction of a name, if it is one that is known.
    pub fn of_name(name: &str) -> Option<Direction>
        ensures { result ≡ direction_named name.now }
    {
        if name == "forward" {
            Some(Direction::Forward)
        } else if name == "backward" {
            Some(Direction::Backward)
        } else {
            None
        }
    }

    /// The direction's name.
    pub fn name(self) -> &'static str
        ensures { result.now ≡ direction_name self }
    {
        match self {
            Direction::Forward => "forward",
            Direction::Backward => "backward",
        }
    }
}

impl Reencrypt {
    /// The same again.
    pub fn copy(&self, alloc: Global) -> Result<Reencrypt, AllocError>
        ensures { IfOk result (λ s. s ≡ self.now) }
    {
        Ok(Reencrypt {
            mode: self.mode,
            direction: self.direction,
            area: ReencryptArea {
                resilience: self.area.resilience,
                offset: self.area.offset,
                size: self.area.size,
                rest: self.area.rest.copy(alloc)?,
            },
            rest: self.rest.copy(alloc)?,
        })
    }
}
