// The words of `demo`.

ghost use Rattle.std.specs.Prelude.{◌≡◌, IfOk};
ghost use Rattle.clap.specs.Words.{found_of, rows_of};
ghost use Rattle.command_line.specs.Demonstrations.{IsDemonstrating, demonstrating};
ghost use Rattle.command_line.specs.Demonstrations.{demonstrating_in};
ghost use Rattle.command_line.specs.Values.{Reads};

use crate::values::{Refused, required_number};
use clap::ArgMatches;

/// `demo`: a volume in memory is converted while clients use it.
#[derive(Clone, Copy)]
pub struct Demo {
    /// What all random bytes come from.
    pub seed: u64,
    /// The blocks of the volume: 1 to 16384.
    pub blocks: u32,
    /// The clients, each with a worker of its own: 1 to 16.
    pub workers: u32,
}

#[tactic(auto, unfolding(crate::specs::Demonstrations::demonstrating_by))]
pub fn read_demo(matches: &ArgMatches<'_>) -> Result<Demo, Refused>
    ensures reads { Reads demonstrating result (demonstrating_in (rows_of (found_of matches.now))) }
    ensures bounded { IfOk result (λ words. IsDemonstrating (demonstrating words)) }
{
    let count = Refused("--seed takes a number from 0 to 18446744073709551615");
    let seed = required_number(matches, "seed", 0, u64::MAX, count)?;
    let count = Refused("--blocks takes a number from 1 to 16384");
    let blocks = required_number(matches, "blocks", 1, 16_384, count)?;
    let count = Refused("--workers takes a number from 1 to 16");
    let workers = required_number(matches, "workers", 1, 16, count)?;
    Ok(Demo {
        seed,
        blocks: blocks as u32,
        workers: workers as u32,
    })
}
