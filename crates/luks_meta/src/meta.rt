// The metadata of a header.

ghost use Rattle.std.specs.Prelude.{◌≡◌, IfOk};

use crate::config::Config;
use crate::digest::Digest;
use crate::keyslot::Keyslot;
use crate::segment::Segment;
use crate::token::Token;
use json_members::{Listed, Object, copy_entries};
use std::alloc::{AllocError, Global};
use std::marker::Model;

/// The objects of a header, each list by rising number.
pub struct Parts {
    pub keyslots: Listed<(u64, Keyslot)>,
    pub tokens: Listed<(u64, Token)>,
    pub segments: Listed<(u64, Segment)>,
    pub digests: Listed<(u64, Digest)>,
    pub config: Config,
    /// The members that have no name here, as they were read.
    pub rest: Object,
}

// By hand, so that a value that is dropped in place is one call to the prover.
impl Drop for Parts {
    fn drop(self) {
        let Parts {
            keyslots,
            tokens,
            segments,
            digests,
            config,
            rest,
        } = self;
        drop(keyslots);
        drop(tokens);
        drop(segments);
        drop(digests);
        drop(config);
        drop(rest);
    }
}

/// The metadata of a header, which contracts see as its parts. They have a text.
pub struct Meta {
    parts: Parts,
}

impl Drop for Meta {
    fn drop(self) {
        let Meta { parts } = self;
        drop(parts);
    }
}

impl Model for Meta {
    ghost use Rattle.luks_meta.specs.declared.meta.Parts.{Parts};

    ghost Value = { Parts };

    ghost use Rattle.luks_meta.specs.contracts.meta.Parts as parts_type;

    ghost coded = { parts_type.the_row.coded };

    ghost use Rattle.luks_meta.specs.Metas.{IsMeta};

    ghost view = { λ meta. meta.parts };

    ghost invariant = { λ meta. IsMeta meta.parts };
}

impl Parts {
    /// The same again.
    pub fn copy(&self, alloc: Global) -> Result<Parts, AllocError>
        ensures { IfOk result (λ m. m ≡ self.now) }
    {
        Ok(Parts {
            keyslots: copy_entries(alloc, self.keyslots.as_slice())?,
            tokens: copy_entries(alloc, self.tokens.as_slice())?,
            segments: copy_entries(alloc, self.segments.as_slice())?,
            digests: copy_entries(alloc, self.digests.as_slice())?,
            config: self.config.copy(alloc)?,
            rest: self.rest.copy(alloc)?,
        })
    }
}

impl Meta {
    ghost use Rattle.luks_meta.specs.Metas.{IsMeta};

    /// The metadata of parts that have a text.
    pub fn new(parts: Parts) -> Meta
        requires { IsMeta parts }
        ensures { result ≡ parts }
    {
        Meta { parts }
    }

    /// The parts.
    pub fn parts(&self) -> &Parts
        ensures same { result.now ≡ self.now }
        ensures right { IsMeta self.now }
    {
        &self.parts
    }

    /// The parts, to be changed.
    pub fn into_parts(self) -> Parts
        ensures same { result ≡ self }
        ensures right { IsMeta result }
    {
        let Meta { parts } = self;
        parts
    }

    /// The same again.
    pub fn copy(&self, alloc: Global) -> Result<Meta, AllocError>
        ensures { IfOk result (λ m. m ≡ self.now) }
    {
        Ok(Meta {
            parts: self.parts.copy(alloc)?,
        })
    }
}
