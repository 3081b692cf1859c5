ghost use Rattle.std.specs.Prelude.{◌<◌, ◌≤◌};

use crate::same::same;
use base_terms::BlockRange;
use segment_map::{Direction, Map, Piece, Side};

// Eight blocks of 512 bytes, of which the last four are the zone or old, or the first four are:
// the boundary is in the middle, and the new segment two atoms before the old one.
fn eight_blocks(direction: Direction, zone: u64) -> Map
    requires { zone ≤ 4 }
{
    Map {
        atom: 512,
        blocks: 8,
        boundary: 4,
        direction,
        zone,
        old_place: 100,
        new_place: 98,
    }
}

// Volumes whose blocks are all new, longer than two pieces.
fn all_new(atom: u32, blocks: u64) -> Map
    requires some { 0 < atom }
    requires most { atom ≤ 4096 }
    requires few { blocks ≤ 10000 }
{
    Map {
        atom,
        blocks,
        boundary: blocks,
        direction: Direction::Forward,
        zone: 0,
        old_place: 0,
        new_place: 7,
    }
}

// The pieces of a range, as (first, count, side), up to three of them. None where the range isn't in
// the volume, or they don't come to its end.
fn pieces(map: &Map, start: u64, end: u64) -> Option<[Option<(u64, u64, Side)>; 3]> {
    let mut found = [None; 3];
    let mut at = start;
    for i in 0..3usize {
        if at < end {
            let (first, count, side) = piece(map, at, end)?;
            found[i] = Some((first, count, side));
            at = at.checked_add(count)?;
        }
    }
    if at == end { Some(found) } else { None }
}

fn piece(map: &Map, start: u64, end: u64) -> Option<(u64, u64, Side)> {
    if start >= end || end > map.blocks {
        return None;
    }
    let Piece { first, count, side } = map.next_piece(BlockRange { start, end });
    Some((first, count, side))
}

#[test]
fn pieces_end_where_the_side_changes(rt: HostRuntime) {
    let forward = eight_blocks(Direction::Forward, 0);
    let halves = [Some((2, 2, Side::New)), Some((4, 2, Side::Old)), None];
    same(&rt, pieces(&forward, 2, 6), Some(halves));
    let backward = eight_blocks(Direction::Backward, 0);
    let halves = [Some((2, 2, Side::Old)), Some((4, 2, Side::New)), None];
    same(&rt, pieces(&backward, 2, 6), Some(halves));
    let zone_above = eight_blocks(Direction::Forward, 4);
    let halves = [Some((2, 2, Side::New)), Some((4, 2, Side::Zone)), None];
    same(&rt, pieces(&zone_above, 2, 6), Some(halves));
    let zone_below = eight_blocks(Direction::Backward, 1);
    let thirds = [
        Some((2, 1, Side::Old)),
        Some((3, 1, Side::Zone)),
        Some((4, 2, Side::New)),
    ];
    same(&rt, pieces(&zone_below, 2, 6), Some(thirds));
}

#[test]
fn pieces_have_at_most_a_mebibyte(rt: HostRuntime) {
    let small = [
        Some((0, 2048, Side::New)),
        Some((2048, 2048, Side::New)),
        Some((4096, 904, Side::New)),
    ];
    same(&rt, pieces(&all_new(512, 5000), 0, 5000), Some(small));
    let large = [Some((3, 256, Side::New)), Some((259, 41, Side::New)), None];
    same(&rt, pieces(&all_new(4096, 5000), 3, 300), Some(large));
}

// The side and the place of a block, where there is one.
fn stands(map: &Map, block: u64) -> Option<(Side, u64)> {
    if block >= map.blocks {
        return None;
    }
    Some((map.side(block), map.place(block)))
}

#[test]
fn each_block_has_its_place(rt: HostRuntime) {
    let map = eight_blocks(Direction::Forward, 2);
    same(&rt, stands(&map, 0), Some((Side::New, 98)));
    same(&rt, stands(&map, 3), Some((Side::New, 101)));
    same(&rt, stands(&map, 4), Some((Side::Zone, 104)));
    same(&rt, stands(&map, 5), Some((Side::Zone, 105)));
    same(&rt, stands(&map, 6), Some((Side::Old, 106)));
    same(&rt, stands(&map, 7), Some((Side::Old, 107)));
}

// How many of eight blocks are converted where new and old meet at this one.
fn converted_at(direction: Direction, boundary: u64) -> u64
    requires { boundary ≤ 8 }
{
    let map = Map {
        atom: 512,
        blocks: 8,
        boundary,
        direction,
        zone: 0,
        old_place: 0,
        new_place: 0,
    };
    map.converted()
}

#[test]
fn blocks_that_the_boundary_has_passed_are_converted(rt: HostRuntime) {
    same(&rt, converted_at(Direction::Forward, 0), 0);
    same(&rt, converted_at(Direction::Forward, 3), 3);
    same(&rt, converted_at(Direction::Backward, 3), 5);
    same(&rt, converted_at(Direction::Backward, 8), 0);
}
