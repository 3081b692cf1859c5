//! What threads share of a cell.
ghost use Rattle.std.specs.Prelude.{◌≡◌, ◌-◌, ◌^◌, ◌<◌};

use crate::rule::Terms;
use atomic_table::{Table, TableRule};
use std::alloc::Global;

/// A cell, by its types: the machine, what lies in the cell, what a pass knows, and the rule.
#[derive(Drop)]
pub struct Shared<M, H, V, P: TableRule<H, V, Terms<M>>> {
    pub(crate) table: Table<H, V, Terms<M>, P, Global>,
    pub(crate) limit: u64,
    ghost terms: { (limit ≡ table.shared.key.limit) × (limit < 2 ^ 63 - 1) },
    ghost sizes: { (table.shared.table_id.words ≡ 2) × (table.shared.table_id.slots ≡ 1) },
}
