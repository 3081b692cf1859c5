// The room of lanes.

ghost use Rattle.std.specs.Prelude.{◌≡◌, ◌<◌, ◌^◌, [], None, IfOk, replicate};

use range_lock::Table;
use std::alloc::{AllocError, Global};
use std::marker::Model;
use volume_machine::Open;

/// All that a volume keeps of its lanes, as a number: how many they are. It is taken before there
/// is a volume: no lane has an operation yet, and nothing is locked.
#[derive(Drop)]
pub struct Lanes {
    table: Table,
    lanes: Vec<Option<Open>>,
}

impl Model for Lanes {
    ghost use Rattle.std.specs.Prelude.{ℕ};
    ghost use Rattle.volume_core.specs.Volumes.{AreUnused};

    ghost Value = { ℕ };

    ghost view = { λ l. l.table.room };

    ghost invariant = { λ l. AreUnused l.table l.lanes.items };
}

impl Lanes {
    /// Room for so many lanes.
    pub fn new(alloc: Global, lanes: u32) -> Result<Lanes, AllocError>
        requires { 0 < lanes }
        ensures { IfOk result (λ room. room ≡ lanes) }
    {
        let table = Table::with_room(alloc, lanes as usize)?;
        let lanes = vec![in alloc; None; lanes as usize]?;
        Ok(Lanes { table, lanes })
    }

    /// The table of locks, and the operation of each lane.
    pub(crate) fn into_parts(self) -> (Table, Vec<Option<Open>>)
        ensures some { 0 < self }
        ensures few { self < 2 ^ 32 }
        ensures room { result.0.room ≡ self }
        ensures entries { result.0.entries ≡ [] }
        ensures lanes { result.1.items ≡ replicate self None }
    {
        let Lanes { table, lanes } = self;
        (table, lanes)
    }
}
