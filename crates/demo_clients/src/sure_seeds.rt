ghost use Rattle.std.specs.Prelude.{◌≡◌, []};
ghost use Rattle.demo_clients.specs.SureSupplies.{sure_supply};

use base_terms::Failed;
use io_edge::{FixedSeeds, Seeds};
use std::marker::Model;

/// Random bytes in memory of which no call is to fail, and which tell that none ever did.
#[derive(Drop)]
pub struct SureSeeds {
    seeds: FixedSeeds,
}

impl Model for SureSeeds {
    ghost use Rattle.std.specs.Prelude.{◌≡◌, []};
    ghost use Rattle.io_edge.specs.Memory.{Seedlings};

    ghost Value = { Seedlings };

    ghost view = { λ s. s.seeds };

    ghost invariant = { λ s. s.seeds.plan.fails ≡ [] };
}

impl SureSeeds {
    /// Seeds in memory that aren't to fail, and didn't.
    pub fn new(seeds: FixedSeeds) -> SureSeeds
        requires never { seeds.plan.fails ≡ [] }
        requires none { seeds.plan.faults ≡ 0 }
        ensures { result ≡ seeds }
    {
        SureSeeds { seeds }
    }
}

impl Seeds for SureSeeds {
    ghost supply = { sure_supply };

    fn fill(&mut self, buf: &mut [u8]) -> Result<(), Failed> {
        match self.seeds.fill(buf) {
            Ok(()) => Ok(()),
            Err(_) => unreachable!(),
        }
    }

    fn faults(&self) -> u64 {
        0
    }
}
