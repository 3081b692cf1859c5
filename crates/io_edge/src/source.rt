ghost use Rattle.std.specs.Prelude.{◌≡◌, ◌≤◌, ◌<◌, ◌↔◌, [], length, take, drop, min, true, false};
ghost use Rattle.std.specs.Prelude.{IfOk, OnOk, OnErr, IsErr, Contains};
ghost use Rattle.base_terms.specs.Causes.{HasCause};
ghost use Rattle.io_edge.specs.FaultPlan.{fresh_plan, next_plan};
ghost use Rattle.io_edge.specs.Intake.{Intake, TakesLeft, GaveMore};
ghost use Rattle.io_edge.specs.Memory.{Input, intake_of};

use crate::FaultPlan;
use base_terms::Failed;
use std::alloc::{AllocError, Global};
use std::marker::Model;

/// Where bytes come from.
pub trait Source: Drop {
    /// What it gave and has left, where these are told, and how many calls failed.
    ghost intake: { Self → Intake };

    /// Takes some bytes to the front of the buffer and says how many; 0 for a buffer that isn't
    /// empty only at the end of the input. A take that fails takes nothing.
    fn take(&mut self, buf: &mut [u8]) -> Result<usize, Failed>
        ensures within { IfOk result (λ n. n ≤ length buf.old) }
        ensures told { TakesLeft (intake self.old) (intake self.new) buf.old buf.new result }
        ensures given { GaveMore (intake self.old) (intake self.new) buf.new result }
        ensures cause { HasCause (intake self.old).faults (intake self.new).faults result };

    /// Hears that both sides have agreed on what follows. One that waits for a peer may then wait
    /// longer, or less long, than before; none gives or loses a byte by it.
    fn settle(&mut self)
        ensures { intake self.new ≡ intake self.old }
    {}

    /// How many calls failed.
    fn faults(&self) -> u64
        ensures { result ≡ (intake self.now).faults };
}

/// A text in memory, given in pieces.
#[derive(Drop)]
pub struct ListSource {
    bytes: Vec<u8>,
    at: usize,
    piece: usize,
    plan: FaultPlan,
}

impl Model for ListSource {
    ghost Value = { Input };

    ghost view = { λ s. record {
      given = take s.at s.bytes.items;
      left = drop s.at s.bytes.items;
      piece = s.piece;
      plan = s.plan;
    } };

    ghost invariant = { λ s. (s.at ≤ length s.bytes.items) × (0 < s.piece) };
}

impl ListSource {
    /// A source of these bytes that gives at most `piece` of them a call. The calls of the numbers
    /// in `fails`, counted from 0, fail.
    pub fn new(
        alloc: Global,
        bytes: &[u8],
        piece: usize,
        fails: &[u64],
    ) -> Result<ListSource, AllocError>
        requires { 0 < piece }
        ensures given { IfOk result (λ s. s.given ≡ []) }
        ensures left { IfOk result (λ s. s.left ≡ bytes.now) }
        ensures piece { IfOk result (λ s. s.piece ≡ piece) }
        ensures plan { IfOk result (λ s. s.plan ≡ fresh_plan fails.now) }
    {
        Ok(ListSource {
            bytes: Vec::from_slice(alloc, bytes)?,
            at: 0,
            piece,
            plan: FaultPlan::new(Vec::from_slice(alloc, fails)?),
        })
    }
}

impl Source for ListSource {
    ghost intake = { intake_of };

    fn take(&mut self, buf: &mut [u8]) -> Result<usize, Failed>
        ensures within { IfOk result (λ n. n ≤ length buf.old) }
        ensures told { TakesLeft (intake_of self.old) (intake_of self.new) buf.old buf.new result }
        ensures given { GaveMore (intake_of self.old) (intake_of self.new) buf.new result }
        ensures cause { HasCause self.old.plan.faults self.new.plan.faults result }
        ensures exact { IsErr result ↔ Contains self.old.plan.fails self.old.plan.calls }
        ensures most { IfOk result
            (λ n. n ≡ min self.old.piece (min (length self.old.left) (length buf.old))) }
        ensures piece { self.new.piece ≡ self.old.piece }
        ensures gives { IfOk result (λ n. self.new.left ≡ drop n self.old.left) }
        ensures counts { OnOk result (self.new.plan ≡ next_plan self.old.plan false) }
        ensures fails { OnErr result (self.new ≡ record self.old {
          plan = next_plan self.old.plan true;
        }) }
        ensures buffer { OnErr result (buf.new ≡ buf.old) }
    {
        if self.plan.is_failing(false) {
            return Err(Failed);
        }
        let n = self.piece.min((self.bytes.len() - self.at).min(buf.len()));
        buf[..n].copy_from_slice(&self.bytes[self.at..self.at + n]);
        self.at += n;
        Ok(n)
    }

    fn faults(&self) -> u64 {
        self.plan.faults()
    }
}
