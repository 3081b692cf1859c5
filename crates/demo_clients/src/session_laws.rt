ghost use Rattle.demo_clients.specs.Asking.{InputsAsk, SessionsAsk};

use nbd_session::reading_is_unique;

/// A law, with nothing to run: what sessions do whose input is what a client sends that asks some
/// operations. Where the input ended the session it disconnected, was asked just these operations,
/// in order and each to be answered by a simple reply, and put all its messages. Where none was
/// answered an error, the operations that it submitted are these, and each was served. So it is of
/// the clients of the demonstration.
pub fn sessions_ask_these()
    ensures inputs { InputsAsk }
    ensures sessions { SessionsAsk }
{
    reading_is_unique();
}
