//! The rule of the cell's table, and what each step on it tells.
ghost use Rattle.volume_cell.specs.Knowing.{beginning, having_split, split_off, having_joined};
ghost use Rattle.volume_cell.specs.Knowing.{retired, gone};
ghost use Rattle.volume_cell.specs.Steps.{stays, learns, confirms, takes_at, gives_back};

use crate::held::Held;
use crate::knowledge::Knowledge;
use crate::machine::Machine;
use atomic_table::{Join, Play, Split, TableRule};
use std::marker::PhantomData;
use std::snapshot::Snapshot;

/// What a cell is made with: how long its history can get, and the machine as it then was.
#[derive(Drop)]
pub struct Terms<M> {
    pub(crate) limit: u64,
    pub(crate) opening: Snapshot<M>,
}

/// One pass at a time has the machine, and what it stands for is one history of which each pass
/// knows a beginning.
pub struct OneHistory<M> {
    machine: PhantomData<M>,
}

impl<M: Machine> TableRule<
    Held<M, M::Event, M::Outcome>,
    Knowledge<M::Start, M::Event, M::Outcome>,
    Terms<M>,
> for OneHistory<M> {
    ghost use Rattle.volume_cell.specs.History.{Rule};

    ghost holds = { λ terms. Rule M.start M.stands_for terms.limit };

    ghost first = { λ terms. beginning (M.start terms.opening.value) };
}

/// A step that tells nothing.
pub(crate) struct Stay;

impl<M, S, E, O> Play<Held<M, E, O>, Knowledge<S, E, O>> for Stay {
    ghost then = { stays };
}

/// A look at the history.
pub(crate) struct Learn;

impl<M, S, E, O> Play<Held<M, E, O>, Knowledge<S, E, O>> for Learn {
    ghost then = { learns };
}

/// A look that confirms what was learned from others.
pub(crate) struct Confirm;

impl<M, S, E, O> Play<Held<M, E, O>, Knowledge<S, E, O>> for Confirm {
    ghost then = { confirms };
}

/// The machine is taken, where the word is the one expected.
pub(crate) struct Take<M> {
    machine: PhantomData<M>,
}

impl<M: Machine> Play<Held<M, M::Event, M::Outcome>, Knowledge<M::Start, M::Event, M::Outcome>>
    for Take<M> {
    ghost then = { takes_at M.start M.stands_for };
}

/// The machine is given back after it acted.
pub(crate) struct Give;

impl<M, S, E, O> Play<Held<M, E, O>, Knowledge<S, E, O>> for Give {
    ghost then = { gives_back };
}

/// A pass is split off another.
pub(crate) struct Part;

impl<S, E, O> Split<Knowledge<S, E, O>> for Part {
    ghost left = { having_split };

    ghost right = { split_off };
}

/// A pass tells what it knows to one that is good for no calls.
pub(crate) struct Retire;

impl<S, E, O> Split<Knowledge<S, E, O>> for Retire {
    ghost left = { λ v. v };

    ghost right = { retired };
}

/// A pass is joined into the one that it was split off.
pub(crate) struct Reunite;

impl<S, E, O> Join<Knowledge<S, E, O>> for Reunite {
    ghost both = { having_joined };

    ghost spent = { gone };
}
