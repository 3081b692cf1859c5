ghost use Rattle.std.specs.Prelude.{◌≡◌};

use nbd_wire::{CommandType, RequestHead};

/// How a request is answered.
#[derive(Clone, Copy, PartialEq, Eq)]
pub enum Form {
    /// By a simple reply.
    Simple,
    /// A READ from an offset on, by chunks: by one for all of it where the client wants it `whole`.
    Chunks { whole: bool, offset: u64 },
}

impl Form {
    ghost use Rattle.nbd_session.specs.Forms.{form_of};

    /// The form of the reply to a request with this head: chunks for a READ where structured
    /// replies were agreed on, whatever its flags are.
    #[tactic(auto, unfolding(crate::specs::Forms::form_of))]
    pub fn of(head: &RequestHead, structured: bool) -> Form
        ensures { result ≡ form_of structured head.now }
    {
        match head.command {
            CommandType::Read if structured => Form::Chunks {
                whole: head.flags.has_df(),
                offset: head.offset,
            },
            _ => Form::Simple,
        }
    }
}
