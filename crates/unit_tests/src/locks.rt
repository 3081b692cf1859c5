use crate::same::same;
use base_terms::BlockRange;
use range_lock::{Kind, Standing, Table};
use std::test::Fail;

const HELD: Option<Standing> = Some(Standing::Held);

fn waiting(lane: u32) -> Option<Standing> {
    Some(Standing::Waiting(lane))
}

fn blocks(start: u64, end: u64) -> BlockRange {
    BlockRange { start, end }
}

// What `enter` and `ask` require is met by the lanes that each test takes.
fn enter(table: &mut Table, lane: u32, range: BlockRange, kind: Kind) -> Option<Standing> {
    if table.is_full() || table.has_entry(lane) {
        return None;
    }
    Some(table.enter(lane, range, kind))
}

fn ask(table: &Table, lane: u32) -> Option<Standing> {
    if table.has_entry(lane) {
        Some(table.ask(lane))
    } else {
        None
    }
}

fn leave(table: &mut Table, lane: u32) {
    if table.has_entry(lane) {
        table.leave(lane);
    }
}

#[test]
fn a_second_write_of_a_block_waits_for_the_first(rt: HostRuntime) -> Result<(), Fail> {
    let mut table = Table::with_room(rt.alloc(), 2)?;
    let block = blocks(3, 4);
    same(&rt, enter(&mut table, 0, block, Kind::Alone), HELD);
    same(&rt, enter(&mut table, 1, block, Kind::Alone), waiting(0));
    same(&rt, ask(&table, 1), waiting(0));
    leave(&mut table, 0);
    same(&rt, ask(&table, 1), HELD);
    Ok(())
}

#[test]
fn two_reads_of_a_block_are_held(rt: HostRuntime) -> Result<(), Fail> {
    let mut table = Table::with_room(rt.alloc(), 2)?;
    let block = blocks(3, 4);
    same(&rt, enter(&mut table, 0, block, Kind::Shared), HELD);
    same(&rt, enter(&mut table, 1, block, Kind::Shared), HELD);
    Ok(())
}

#[test]
fn a_read_does_not_overtake_a_write_that_waits(rt: HostRuntime) -> Result<(), Fail> {
    let mut table = Table::with_room(rt.alloc(), 4)?;
    same(&rt, enter(&mut table, 5, blocks(0, 4), Kind::Shared), HELD);
    same(
        &rt,
        enter(&mut table, 6, blocks(3, 8), Kind::Alone),
        waiting(5),
    );
    same(
        &rt,
        enter(&mut table, 7, blocks(7, 9), Kind::Shared),
        waiting(6),
    );
    same(&rt, enter(&mut table, 8, blocks(5, 5), Kind::Alone), HELD);
    assert!(rt; table.is_full());
    leave(&mut table, 5);
    same(&rt, ask(&table, 6), HELD);
    same(&rt, ask(&table, 7), waiting(6));
    leave(&mut table, 6);
    same(&rt, ask(&table, 7), HELD);
    same(&rt, ask(&table, 6), None);
    Ok(())
}

fn can_be_sent<T: Send + Sync>(_value: &T) {}

#[test]
fn a_table_can_go_to_another_thread(rt: HostRuntime) -> Result<(), Fail> {
    can_be_sent(&Table::with_room(rt.alloc(), 1)?);
    Ok(())
}
