// The runs of a volume's blocks while it is converted.

ghost use Rattle.std.specs.Prelude.{◌≡◌, ◌+◌, ◌<◌, ◌^◌, ◌++◌, IfOk, OnOk};
ghost use Rattle.reenc_meta.specs.Runs.{runs_of, sides_of, some_of};

use luks_meta::Direction;
use luks_rules::Plan;
use segment_map::Side;
use std::alloc::{AllocError, Global};

/// Blocks in a row that are on one side.
#[derive(Clone, Copy, PartialEq, Eq)]
pub(crate) struct Run {
    pub(crate) side: Side,
    /// The first of them.
    pub(crate) from: u64,
    pub(crate) blocks: u64,
}

/// Appends a run, if it has a block.
fn push_some(runs: &mut Vec<Run>, run: Run) -> Result<(), AllocError>
    ensures { OnOk result (runs.new.items ≡ runs.old.items ++ some_of run) }
{
    if run.blocks != 0 {
        runs.push(run)?;
    }
    Ok(())
}

/// The runs that have a block, in logical order.
#[tactic(auto, unfolding(crate::specs::Runs::runs_of))]
pub(crate) fn list_runs(
    alloc: Global,
    direction: Direction,
    plan: &Plan,
) -> Result<Vec<Run>, AllocError>
    requires { plan.now.first + plan.now.zone < 2 ^ 64 }
    ensures { IfOk result (λ runs. runs.items ≡ runs_of direction plan.now) }
{
    let (first, last) = match direction {
        Direction::Forward => (Side::New, Side::Old),
        Direction::Backward => (Side::Old, Side::New),
    };
    let mut runs = Vec::new(alloc);
    push_some(
        &mut runs,
        Run {
            side: first,
            from: 0,
            blocks: plan.first,
        },
    )?;
    push_some(
        &mut runs,
        Run {
            side: Side::Zone,
            from: plan.first,
            blocks: plan.zone,
        },
    )?;
    push_some(
        &mut runs,
        Run {
            side: last,
            from: plan.first + plan.zone,
            blocks: plan.last,
        },
    )?;
    Ok(runs)
}

/// The sides of all segments: of the runs, and of the whole old and the whole new one behind them.
pub(crate) fn list_sides(alloc: Global, runs: &[Run]) -> Result<Vec<Side>, AllocError>
    ensures { IfOk result (λ sides. sides.items ≡ sides_of runs.now) }
{
    let mut sides = Vec::new(alloc);
    for run in runs {
        sides.push(run.side)?;
    }
    sides.push(Side::Old)?;
    sides.push(Side::New)?;
    Ok(sides)
}
