ghost use Rattle.std.specs.Prelude.{◌≡◌, ◌≤◌, ◌⊎◌, ◌↔◌, IsTrue, Contains};
ghost use Rattle.base_terms.specs.Causes.{Rose};
ghost use Rattle.io_edge.specs.FaultPlan.{Plan, fresh_plan, next_plan};

use std::marker::Model;

/// Which calls of an object in memory are to fail, by their numbers from 0, and how many calls and
/// faults there were. Both counts stand still at `2^64 - 1`.
#[derive(Drop)]
pub struct FaultPlan {
    fails: Vec<u64>,
    calls: u64,
    faults: u64,
}

impl Model for FaultPlan {
    ghost Value = { Plan };

    ghost view = { λ p. record { fails = p.fails.items; calls = p.calls; faults = p.faults } };
}

impl FaultPlan {
    /// The calls of these numbers are to fail; none was made yet.
    pub fn new(fails: Vec<u64>) -> FaultPlan
        ensures { result ≡ fresh_plan fails.items }
    {
        FaultPlan {
            fails,
            calls: 0,
            faults: 0,
        }
    }

    /// Counts a call, and says whether it fails: by its number, or by the other cause.
    pub fn is_failing(&mut self, other_cause: bool) -> bool
        ensures exact { IsTrue result
            ↔ (IsTrue other_cause ⊎ Contains self.old.fails self.old.calls) }
        ensures next { self.new ≡ next_plan self.old result }
        ensures later { self.old.faults ≤ self.new.faults }
        ensures rose { IsTrue result → Rose self.old.faults self.new.faults }
    {
        let failing = other_cause || self.fails.contains(&self.calls);
        self.calls = self.calls.saturating_add(1);
        if failing {
            self.faults = self.faults.saturating_add(1);
        }
        failing
    }

    /// How many calls were made.
    pub fn calls(&self) -> u64
        ensures { result ≡ self.now.calls }
    {
        self.calls
    }

    /// How many calls failed.
    pub fn faults(&self) -> u64
        ensures { result ≡ self.now.faults }
    {
        self.faults
    }
}
