ghost use Rattle.std.specs.Prelude.{◌≡◌, []};
ghost use Rattle.demo_clients.specs.ClientLinks.{client_state};

use base_terms::Failed;
use bays::{Link, MemLink};
use io_edge::{ListSink, ListSource};
use std::marker::Model;

/// A link in memory of which no call is to fail, and which tells that none ever did.
#[derive(Drop)]
pub struct ClientLink {
    link: MemLink,
}

impl Model for ClientLink {
    ghost use Rattle.std.specs.Prelude.{◌≡◌, []};
    ghost use Rattle.bays.specs.Memory.{Line};

    ghost Value = { Line };

    ghost view = { λ l. l.link };

    ghost invariant = { λ l. l.link.plan.fails ≡ [] };
}

impl ClientLink {
    /// A link in memory that isn't to fail.
    pub fn new(link: MemLink) -> ClientLink
        requires { link.plan.fails ≡ [] }
        ensures { result ≡ link }
    {
        ClientLink { link }
    }

    /// The connections that were handed back, in the order in which they were.
    pub fn handed(&self) -> &[(ListSource, ListSink)]
        ensures { result.now ≡ self.now.handed }
    {
        self.link.handed()
    }
}

impl Link for ClientLink {
    type In = ListSource;

    type Out = ListSink;

    ghost state = { client_state };

    fn next(&mut self) -> Result<Option<(ListSource, ListSink)>, Failed> {
        match self.link.next() {
            Ok(given) => Ok(given),
            Err(_) => unreachable!(),
        }
    }

    fn done(&mut self, source: ListSource, sink: ListSink) {
        self.link.done(source, sink);
    }

    fn faults(&self) -> u64 {
        0
    }
}
