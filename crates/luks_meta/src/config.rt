// The sizes of the header's areas, and what a reader of the header must know.

ghost use Rattle.std.specs.Prelude.{◌≡◌, IfOk};

use json_members::{Listed, Object, Text, copy_texts};
use std::alloc::{AllocError, Global};

/// The requirement that a header has while this program converts it.
pub const PROFILE: &str = "reencd-online-reencrypt-v1";

/// What a reader of the header must know.
#[derive(Drop)]
pub struct Requirements {
    pub mandatory: Listed<Text>,
    /// The members that have no name here, as they were read.
    pub rest: Object,
}

/// The sizes of the header's areas, and the requirements.
#[derive(Drop)]
pub struct Config {
    /// The bytes of one copy's JSON area: those of the copy less 4096.
    pub json_size: u64,
    /// The bytes of the keyslots' area.
    pub keyslots_size: u64,
    pub requirements: Option<Requirements>,
    /// The members that have no name here, as they were read.
    pub rest: Object,
}

impl Requirements {
    /// The same again.
    pub fn copy(&self, alloc: Global) -> Result<Requirements, AllocError>
        ensures { IfOk result (λ r. r ≡ self.now) }
    {
        Ok(Requirements {
            mandatory: copy_texts(alloc, self.mandatory.as_slice())?,
            rest: self.rest.copy(alloc)?,
        })
    }
}

impl Config {
    /// The same again.
    pub fn copy(&self, alloc: Global) -> Result<Config, AllocError>
        ensures { IfOk result (λ c. c ≡ self.now) }
    {
        let requirements = match &self.requirements {
            Some(requirements) => Some(requirements.copy(alloc)?),
            None => None,
        };
        Ok(Config {
            json_size: self.json_size,
            keyslots_size: self.keyslots_size,
            requirements,
            rest: self.rest.copy(alloc)?,
        })
    }
}
