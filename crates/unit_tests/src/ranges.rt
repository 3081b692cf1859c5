use crate::same::same;
use base_terms::BlockRange;

fn blocks(start: u64, end: u64) -> BlockRange {
    BlockRange { start, end }
}

/// Whether they share a block, asked of the one and of the other.
fn share(one: BlockRange, other: BlockRange) -> [bool; 2] {
    [one.overlaps(other), other.overlaps(one)]
}

#[test]
fn ranges_overlap_where_they_share_a_block(rt: HostRuntime) {
    same(&rt, share(blocks(0, 4), blocks(3, 5)), [true; 2]);
    same(&rt, share(blocks(0, 4), blocks(4, 5)), [false; 2]);
    same(&rt, share(blocks(5, 6), blocks(0, 9)), [true; 2]);
    same(&rt, share(blocks(5, 5), blocks(0, 9)), [false; 2]);
    same(&rt, share(blocks(0, 9), blocks(7, 2)), [false; 2]);
    let last = blocks(u64::MAX - 1, u64::MAX);
    same(&rt, share(blocks(0, u64::MAX), last), [true; 2]);
    same(&rt, [blocks(2, 6).len(), blocks(6, 2).len()], [4, 0]);
    let empty = [blocks(6, 6).is_empty(), blocks(6, 7).is_empty()];
    same(&rt, empty, [true, false]);
}
