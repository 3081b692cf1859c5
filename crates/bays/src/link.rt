ghost use Rattle.std.specs.Prelude.{◌≡◌, ◌+◌, ◌<◌, IfOk, IfNone};
ghost use Rattle.base_terms.specs.Causes.{HasCause};
ghost use Rattle.bays.specs.Stories.{CountsGiven, Gives, HasNoneAhead, LinkState, TakesBack};

use base_terms::Failed;
use io_edge::{Sink, Source};

/// Where one worker's connections come from.
pub trait Link {
    type In: Source;

    type Out: Sink;

    /// What it has ahead and was handed back, where it is told, and its counts.
    ghost state: { Self → LinkState };

    /// The next connection; None exactly where there is no more to come.
    fn next(&mut self) -> Result<Option<(Self::In, Self::Out)>, Failed>
        ensures told { Gives Self.In.intake Self.Out.outlet (state self.old) (state self.new)
            result }
        ensures at_end { IfOk result (λ given. IfNone given (HasNoneAhead (state self.new))) }
        ensures counts { CountsGiven (state self.old) (state self.new) result }
        ensures cause { HasCause (state self.old).faults (state self.new).faults result };

    /// Takes a connection back when its session has ended. It takes no memory.
    fn done(&mut self, source: Self::In, sink: Self::Out)
        requires { 0 < (state self.old).lent }
        ensures told { TakesBack (Self.In.intake source) (Self.Out.outlet sink) (state self.old)
            (state self.new) }
        ensures bound { (state self.new).bound ≡ (state self.old).bound }
        ensures lent { (state self.new).lent + 1 ≡ (state self.old).lent }
        ensures faults { (state self.new).faults ≡ (state self.old).faults };

    /// How many calls failed.
    fn faults(&self) -> u64
        ensures { result ≡ (state self.now).faults };
}
