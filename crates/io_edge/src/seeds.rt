ghost use Rattle.std.specs.Prelude.{◌≡◌, ℕ, ◌+◌, ◌%◌, ◌<◌, ◌↔◌, length, slice_index, true, false};
ghost use Rattle.std.specs.Prelude.{IfOk, OnErr, OnOk, IsErr, Contains};
ghost use Rattle.base_terms.specs.Causes.{HasCause};
ghost use Rattle.io_edge.specs.FaultPlan.{fresh_plan, next_plan};
ghost use Rattle.io_edge.specs.Memory.{Seedlings, round_from, supply_of};
ghost use Rattle.io_edge.specs.Supply.{Supply, Draws};

use crate::FaultPlan;
use base_terms::Failed;
use std::alloc::{AllocError, Global};
use std::marker::Model;

/// Where random bytes come from.
pub trait Seeds {
    /// The bytes to come, where they are told, and how many calls failed.
    ghost supply: { Self → Supply };

    /// Fills the buffer with the next bytes. A fill that fails draws nothing, and the buffer's
    /// content isn't to be used.
    fn fill(&mut self, buf: &mut [u8]) -> Result<(), Failed>
        ensures told { Draws (supply self.old) (supply self.new) buf.new result }
        ensures cause { HasCause (supply self.old).faults (supply self.new).faults result };

    /// How many calls failed.
    fn faults(&self) -> u64
        ensures { result ≡ (supply self.now).faults };
}

/// Bytes in memory, given in order again and again.
#[derive(Drop)]
pub struct FixedSeeds {
    bytes: Vec<u8>,
    at: usize,
    plan: FaultPlan,
}

impl Model for FixedSeeds {
    ghost Value = { Seedlings };

    ghost view = { λ s. record { bytes = s.bytes.items; at = s.at; plan = s.plan } };

    ghost invariant = { λ s. s.at < length s.bytes.items };
}

impl FixedSeeds {
    /// Seeds that give these bytes in order, again and again. The calls of the numbers in `fails`,
    /// counted from 0, fail.
    pub fn new(alloc: Global, bytes: &[u8], fails: &[u64]) -> Result<FixedSeeds, AllocError>
        requires { 0 < length bytes.now }
        ensures bytes { IfOk result (λ s. s.bytes ≡ bytes.now) }
        ensures at { IfOk result (λ s. s.at ≡ 0) }
        ensures plan { IfOk result (λ s. s.plan ≡ fresh_plan fails.now) }
    {
        Ok(FixedSeeds {
            bytes: Vec::from_slice(alloc, bytes)?,
            at: 0,
            plan: FaultPlan::new(Vec::from_slice(alloc, fails)?),
        })
    }
}

impl Seeds for FixedSeeds {
    ghost supply = { supply_of };

    fn fill(&mut self, buf: &mut [u8]) -> Result<(), Failed>
        ensures told { Draws (supply_of self.old) (supply_of self.new) buf.new result }
        ensures cause { HasCause self.old.plan.faults self.new.plan.faults result }
        ensures exact { IsErr result ↔ Contains self.old.plan.fails self.old.plan.calls }
        ensures fills { OnOk result (self.new ≡ record self.old {
          at = (self.old.at + length buf.new) % length self.old.bytes;
          plan = next_plan self.old.plan false;
        }) }
        ensures fails { OnErr result (self.new ≡ record self.old {
          plan = next_plan self.old.plan true;
        }) }
        ensures buffer { OnErr result (buf.new ≡ buf.old) }
    {
        if self.plan.is_failing(false) {
            return Err(Failed);
        }
        self.at = fill_round(self.bytes.as_slice(), self.at, buf);
        Ok(())
    }

    fn faults(&self) -> u64 {
        self.plan.faults()
    }
}

/// Fills the buffer with the bytes from `at` on, going round, and says where the next one is.
fn fill_round(bytes: &[u8], at: usize, buf: &mut [u8]) -> usize
    requires { at < length bytes.now }
    ensures inside { result < length bytes.now }
    ensures next { result ≡ (at + length buf.new) % length bytes.now }
    ensures round { (k : ℕ) → k < length buf.new →
        slice_index buf.new k ≡ round_from bytes.now at k }
{
    let mut next = at;
    for byte in buf.iter_mut() {
        *byte = bytes[next];
        next = (next + 1) % bytes.len();
    }
    next
}
