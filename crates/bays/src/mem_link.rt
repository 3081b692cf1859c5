ghost use Rattle.std.specs.Prelude.{◌≡◌, ℕ, ◌+◌, ◌-◌, ◌<◌, ◌↔◌, [], ◌∷◌, ◌++◌, length};
ghost use Rattle.std.specs.Prelude.{option_to_list, Some, false, true, IfNone, IfOk, IfSome};
ghost use Rattle.std.specs.Prelude.{MatchResult, MatchOption, OnErr, IsErr, Contains};
ghost use Rattle.base_terms.specs.Causes.{HasCause};
ghost use Rattle.io_edge.specs.FaultPlan.{fresh_plan, next_plan};
ghost use Rattle.io_edge.specs.Memory.{intake_of, outlet_of};
ghost use Rattle.bays.specs.Memory.{link_state};
ghost use Rattle.bays.specs.Stories.{CountsGiven, Gives, HasNoneAhead, TakesBack};

use crate::Link;
use base_terms::Failed;
use io_edge::{FaultPlan, ListSink, ListSource};
use std::alloc::{AllocError, Global};
use std::collections::VecDeque;
use std::marker::Model;

/// A link in memory, which gives the connections that it was dealt, in their order, and keeps those
/// that it got back. It fails exactly at the calls of `next` that it was told, counted from 0.
pub struct MemLink {
    ahead: VecDeque<(ListSource, ListSink)>,
    handed: Vec<(ListSource, ListSink)>,
    lent: usize,
    room: usize,
    plan: FaultPlan,
}

// By hand, so that a link that is dropped in place is one call to the prover.
impl Drop for MemLink {
    fn drop(self) {
        let MemLink {
            ahead,
            handed,
            lent: _,
            room: _,
            plan,
        } = self;
        drop((ahead, handed, plan));
    }
}

impl Model for MemLink {
    ghost use Rattle.std.specs.Prelude.{◌+◌, ◌≤◌, length, vec_capacity};
    ghost use Rattle.std.specs.VecDeque.{deque_capacity};
    ghost use Rattle.bays.specs.Memory.{Line};

    ghost Value = { Line };

    ghost view = { λ l. record {
      ahead = l.ahead.items;
      lent = l.lent;
      handed = l.handed.items;
      room = l.room;
      plan = l.plan;
    } };

    ghost invariant = { λ l. (length l.ahead.items + l.lent + length l.handed.items ≤ l.room)
        × (l.room ≤ deque_capacity l.ahead) × (l.room ≤ vec_capacity l.handed) };
}

impl MemLink {
    /// A link with room for so many connections, whose memory it takes now, and none ahead.
    pub(crate) fn new(alloc: Global, room: usize, fails: &[u64]) -> Result<MemLink, AllocError>
        ensures { IfOk result
            (λ link. link ≡ record {
              ahead = [];
              lent = 0;
              handed = [];
              room = room;
              plan =
                  fresh_plan fails.now;
            }) }
    {
        Ok(MemLink {
            ahead: VecDeque::with_capacity(alloc, room)?,
            handed: Vec::with_capacity(alloc, room)?,
            lent: 0,
            room,
            plan: FaultPlan::new(Vec::from_slice(alloc, fails)?),
        })
    }

    /// Puts a connection before those ahead, for which there is room.
    pub(crate) fn put_first(&mut self, connection: (ListSource, ListSink))
        requires { length self.old.ahead + self.old.lent + length self.old.handed < self.old.room }
        ensures { self.new ≡ record self.old { ahead = connection ∷ self.old.ahead } }
    {
        self.ahead.push_front_reserved(connection);
    }

    /// The connections that were handed back, in the order in which they were.
    pub fn handed(&self) -> &[(ListSource, ListSink)]
        ensures { result.now ≡ self.now.handed }
    {
        self.handed.as_slice()
    }
}

impl Link for MemLink {
    type In = ListSource;

    type Out = ListSink;

    ghost state = { link_state };

    /// Fails exactly where the call's number is one of those that are to fail; then nothing changes
    /// but the counts. There is no connection exactly where none is ahead.
    fn next(&mut self) -> Result<Option<(ListSource, ListSink)>, Failed>
        ensures told { Gives intake_of outlet_of (link_state self.old) (link_state self.new)
            result }
        ensures at_end { IfOk result (λ given. IfNone given (HasNoneAhead (link_state self.new))) }
        ensures counts { CountsGiven (link_state self.old) (link_state self.new) result }
        ensures cause { HasCause self.old.plan.faults self.new.plan.faults result }
        ensures exact { IsErr result ↔ Contains self.old.plan.fails self.old.plan.calls }
        ensures first { IfOk result
            (λ given. self.old.ahead ≡ option_to_list given ++ self.new.ahead) }
        ensures ends { IfOk result (λ given. IfNone given (self.old.ahead ≡ [])) }
        ensures lends { IfOk result (λ given. self.new ≡ record self.old {
          ahead = self.new.ahead;
          lent = self.old.lent + length (option_to_list given);
          plan = next_plan self.old.plan false;
        }) }
        ensures fails { OnErr result
            (self.new ≡ record self.old { plan = next_plan self.old.plan true }) }
    {
        if self.plan.is_failing(false) {
            return Err(Failed);
        }
        let Some(connection) = self.ahead.pop_front() else {
            return Ok(None);
        };
        self.lent += 1;
        Ok(Some(connection))
    }

    /// Keeps the connection behind those that were handed back before.
    fn done(&mut self, source: ListSource, sink: ListSink)
        requires { 0 < self.old.lent }
        ensures told { TakesBack (intake_of source) (outlet_of sink) (link_state self.old)
            (link_state self.new) }
        ensures bound { length self.new.ahead ≡ length self.old.ahead }
        ensures lent { self.new.lent + 1 ≡ self.old.lent }
        ensures faults { self.new.plan.faults ≡ self.old.plan.faults }
        ensures takes { self.new
            ≡ record self.old {
              lent = self.old.lent - 1;
              handed =
                  self.old.handed ++ (source, sink) ∷ [];
            } }
    {
        self.handed.push_reserved((source, sink));
        self.lent -= 1;
    }

    fn faults(&self) -> u64 {
        self.plan.faults()
    }
}
