ghost use Rattle.demo_clients.specs.Demonstrations.{DemonstrationsAreTold, GrantedIsReadBack};

use crate::sessions_ask_these;

/// A law, with nothing to run: what a demonstration tells. Its sessions got the clients' inputs, each
/// over a link of its own, and were ended by them; a history of one plain disk has just what they
/// submitted; and the links' replies were read back. Then each session asked what its client asks,
/// nothing was answered an error, the blocks hold in the end what the clients wrote, and that's what
/// was read back. Where nothing was answered an error in such sessions all of it is read back.
pub fn demonstrations_are_told()
    ensures told { DemonstrationsAreTold }
    ensures read { GrantedIsReadBack }
{
    sessions_ask_these();
}
