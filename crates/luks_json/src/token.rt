// Tokens, which are kept.

use crate::entries::EntryText;
use json_members::{Object, ReadError};
use luks_meta::Token;
use std::alloc::{AllocError, Global};

impl EntryText for Token {
    ghost use Rattle.luks_json.specs.Tokens.{token_of, token_members};

    type Terms = ();

    ghost of = { λ terms. token_of };

    ghost members = { token_members };

    #[tactic(auto, unfolding(crate::specs::Tokens::token_of))]
    fn read(_alloc: Global, _terms: &(), _path: &str, object: Object) -> Result<Token, ReadError> {
        Ok(Token { members: object })
    }

    fn write(&self, alloc: Global) -> Result<Object, AllocError> {
        self.members.copy(alloc)
    }
}
