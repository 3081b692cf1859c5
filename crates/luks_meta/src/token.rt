// Tokens, which are kept.

use json_members::{Entry, Object};
use std::alloc::{AllocError, Global};

/// A token: all of its members, as they were read.
#[derive(Drop)]
pub struct Token {
    pub members: Object,
}

impl Entry for Token {
    fn copy(&self, alloc: Global) -> Result<Token, AllocError> {
        Ok(Token {
            members: self.members.copy(alloc)?,
        })
    }
}
