ghost use Rattle.std.specs.Prelude.{◌≡◌, ◌+◌, ◌≤◌, ◌<◌, ◌⊎◌, ◌↔◌, [], ◌++◌, length, drop, None};
ghost use Rattle.std.specs.Prelude.{true, false, IfOk, OnOk, OnErr, IsErr, IsOk, Contains};
ghost use Rattle.std.specs.Prelude.{vec_capacity};
ghost use Rattle.base_terms.specs.Causes.{HasCause};
ghost use Rattle.io_edge.specs.FaultPlan.{fresh_plan, next_plan};
ghost use Rattle.io_edge.specs.Memory.{Output, outlet_of};
ghost use Rattle.io_edge.specs.Outlet.{Outlet, PutsPiece, HoldsBackRear, IsRear};

use crate::FaultPlan;
use base_terms::Failed;
use std::alloc::{AllocError, Global};
use std::marker::Model;

/// Where bytes go to.
pub trait Sink: Drop {
    /// What it was put, where that is told, what of it was not let out yet, and how many calls
    /// failed.
    ghost outlet: { Self → Outlet };

    /// Puts all bytes, or fails; after a failure a front of them may have been put. What was put
    /// may be held back until it is pushed out.
    fn put(&mut self, bytes: &[u8]) -> Result<(), Failed>
        ensures told { PutsPiece (outlet self.old) (outlet self.new) bytes.now result }
        ensures holds { HoldsBackRear (outlet self.old).held_back (outlet self.new).held_back
            bytes.now result }
        ensures cause { HasCause (outlet self.old).faults (outlet self.new).faults result };

    /// Lets all bytes out that were put, so that nothing is held back, or fails.
    fn push_out(&mut self) -> Result<(), Failed>
        ensures told { (outlet self.new).had ≡ (outlet self.old).had }
        ensures out { OnOk result ((outlet self.new).held_back ≡ []) }
        ensures holds { IsRear (outlet self.new).held_back (outlet self.old).held_back }
        ensures cause { HasCause (outlet self.old).faults (outlet self.new).faults result };

    /// How many calls failed.
    fn faults(&self) -> u64
        ensures { result ≡ (outlet self.now).faults };
}

/// A text in memory, which has room for so many bytes. What it is put it holds back until it is
/// pushed out.
#[derive(Drop)]
pub struct ListSink {
    bytes: Vec<u8>,
    out: usize,
    room: usize,
    plan: FaultPlan,
}

impl Model for ListSink {
    ghost Value = { Output };

    ghost view = { λ s. record {
      had = s.bytes.items;
      held_back = drop s.out s.bytes.items;
      room = s.room;
      plan = s.plan;
    } };

    ghost invariant = { λ s. (s.out ≤ length s.bytes.items) × (length s.bytes.items ≤ s.room)
        × (s.room ≤ vec_capacity s.bytes) };
}

impl ListSink {
    /// An empty sink that holds at most `room` bytes, whose memory it takes now. The calls of the
    /// numbers in `fails`, counted from 0, fail.
    pub fn new(alloc: Global, room: usize, fails: &[u64]) -> Result<ListSink, AllocError>
        ensures had { IfOk result (λ s. s.had ≡ []) }
        ensures held_back { IfOk result (λ s. s.held_back ≡ []) }
        ensures room { IfOk result (λ s. s.room ≡ room) }
        ensures plan { IfOk result (λ s. s.plan ≡ fresh_plan fails.now) }
    {
        Ok(ListSink {
            bytes: Vec::with_capacity(alloc, room)?,
            out: 0,
            room,
            plan: FaultPlan::new(Vec::from_slice(alloc, fails)?),
        })
    }

    /// What it was put.
    pub fn as_slice(&self) -> &[u8]
        ensures { result.now ≡ self.now.had }
    {
        self.bytes.as_slice()
    }

    /// What it was put and still holds back.
    pub fn held_back(&self) -> &[u8]
        ensures { result.now ≡ self.now.held_back }
    {
        &self.bytes[self.out..]
    }
}

impl Sink for ListSink {
    ghost outlet = { outlet_of };

    fn put(&mut self, bytes: &[u8]) -> Result<(), Failed>
        ensures told { PutsPiece (outlet_of self.old) (outlet_of self.new) bytes.now result }
        ensures holds { HoldsBackRear self.old.held_back self.new.held_back bytes.now result }
        ensures cause { HasCause self.old.plan.faults self.new.plan.faults result }
        ensures exact { IsErr result
            ↔ ((self.old.room < length self.old.had + length bytes.now)
            ⊎ Contains self.old.plan.fails self.old.plan.calls) }
        ensures room { self.new.room ≡ self.old.room }
        ensures puts { OnOk result (self.new ≡ record self.old {
          had = self.old.had ++ bytes.now;
          held_back = self.old.held_back ++ bytes.now;
          plan = next_plan self.old.plan false;
        }) }
        ensures fails { OnErr result (self.new ≡ record self.old {
          plan = next_plan self.old.plan true;
        }) }
    {
        let is_full = self.room - self.bytes.len() < bytes.len();
        if self.plan.is_failing(is_full) {
            return Err(Failed);
        }
        let Ok(()) = self.bytes.extend_from_slice(bytes) else {
            unreachable!()
        };
        Ok(())
    }

    fn push_out(&mut self) -> Result<(), Failed>
        ensures told { (outlet_of self.new).had ≡ (outlet_of self.old).had }
        ensures out { OnOk result (self.new.held_back ≡ []) }
        ensures holds { IsRear self.new.held_back self.old.held_back }
        ensures cause { HasCause self.old.plan.faults self.new.plan.faults result }
        ensures exact { IsErr result ↔ Contains self.old.plan.fails self.old.plan.calls }
        ensures room { self.new.room ≡ self.old.room }
        ensures pushes { OnOk result (self.new ≡ record self.old {
          held_back = [];
          plan = next_plan self.old.plan false;
        }) }
        ensures fails { OnErr result (self.new ≡ record self.old {
          plan = next_plan self.old.plan true;
        }) }
    {
        if self.plan.is_failing(false) {
            return Err(Failed);
        }
        self.out = self.bytes.len();
        Ok(())
    }

    fn faults(&self) -> u64 {
        self.plan.faults()
    }
}

/// A sink that drops what it gets. It never fails, holds nothing back and tells nothing.
#[derive(Clone, Copy)]
pub struct VoidSink;

impl Sink for VoidSink {
    ghost outlet = { λ _. record { had = None; held_back = []; faults = 0 } };

    #[tactic(auto, using(crate::proofs::OutletLemmas::holds_nothing))]
    fn put(&mut self, bytes: &[u8]) -> Result<(), Failed>
        ensures never { IsOk result }
        ensures holds { HoldsBackRear [] [] bytes.now result }
    {
        Ok(())
    }

    fn push_out(&mut self) -> Result<(), Failed>
        ensures never { IsOk result }
        ensures holds { IsRear [] [] }
    {
        Ok(())
    }

    fn faults(&self) -> u64 {
        0
    }
}
