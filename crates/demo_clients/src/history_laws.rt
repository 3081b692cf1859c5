ghost use Rattle.demo_clients.specs.Histories.{HistoriesLeaveTheContent};

/// A law, with nothing to run: what a history of the clients leaves. Where each session asked in it
/// just what its client asks, in order, no other session asked anything, and nothing was answered
/// an error, the blocks hold in the end what the clients wrote, and each read was answered with
/// that. So it is however the sessions' operations stand among one another.
pub fn histories_leave_the_content()
    ensures { HistoriesLeaveTheContent }
{}
