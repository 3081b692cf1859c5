ghost use Rattle.std.specs.Prelude.{◌≡◌, ℕ, ◌+◌, ◌%◌, ◌^◌, ◌-◌, ◌<◌, ◌≤◌, IfSome, length};
ghost use Rattle.volume_cell.specs.Numbered.{AreNumbered, AreDrawn};
ghost use Rattle.volume_cell.specs.Knowing.{IsWhole};
ghost use Rattle.volume_cell.specs.Passes.{known, IsPassOf};
ghost use denote.Param.Send.{IsSync};

use crate::same::same;
use std::sync::Wait;
use std::test::Fail;
use std::thread::{Threads, join};
use volume_cell::{Cell, Machine, Pass, Spent};

/// Answers how often it acted before, and stands for every history of as many entries.
#[derive(Debug, Drop, PartialEq, Eq)]
struct Counter {
    count: u64,
}

impl Machine for Counter {
    type Event = ();

    type Outcome = u64;

    type Start = ();

    ghost start = { λ machine. tt };

    ghost stands_for = { λ machine history. machine.count ≡ length history % 2 ^ 64 };

    ghost fits = { λ start name calls event. Unit {0} };

    fn is_long(_event: &()) -> bool {
        false
    }

    fn act<R: Threads + Wait + Sync>(&mut self, _rt: &R, _event: ()) -> u64 {
        let before = self.count;
        self.count = before.wrapping_add(1);
        before
    }
}

/// Asks so many times, or until the history is full, and tells whether each time the answer was
/// higher than the last.
fn ask_often<R: Threads + Wait + Sync>(
    rt: &R,
    cell: &Cell<Counter>,
    mut pass: Pass<Counter>,
    turns: u32,
) -> (Pass<Counter>, bool)
    requires { IsPassOf cell.now pass × IsWhole (known pass) }
    ensures { IsPassOf cell.now result.0 × IsWhole (known result.0)
        × ((known result.0).name ≡ (known pass).name) }
{
    let mut lowest = 0;
    let mut rising = true;
    for _ in 0..turns {
        let Ok(count) = cell.turn(rt, &mut pass, ()) else {
            break;
        };
        rising = rising && lowest <= count;
        lowest = count.saturating_add(1);
    }
    (pass, rising)
}

/// The same in each thread at the leaves of a tree of so many levels. Above the leaves, two passes
/// are split off each pass and joined back.
#[cycle(tree)]
fn ask_in_tree<R: Threads + Wait + Sync>(
    rt: &R,
    cell: &Cell<Counter>,
    mut pass: Pass<Counter>,
    levels: u32,
    turns: u32,
) -> (Pass<Counter>, bool)
    requires { IsPassOf cell.now pass × IsWhole (known pass) }
    ensures { IsPassOf cell.now result.0 × IsWhole (known result.0)
        × ((known result.0).name ≡ (known pass).name) }
{
    if levels == 0 {
        return ask_often(rt, cell, pass, turns);
    }
    let left = cell.split(&mut pass);
    let right = cell.split(&mut pass);
    let ask_left = || -> (Pass<Counter>, bool)
        requires { IsSync R.row × (0 < levels) × IsPassOf cell.now left × IsWhole (known left) }
        ensures { IsPassOf cell.entry.now result.0 × IsWhole (known result.0)
            × ((known result.0).name ≡ (known left).name) }
    { ask_in_tree(rt, cell, left, levels - 1, turns) };
    let ask_right = || -> (Pass<Counter>, bool)
        requires { IsSync R.row × (0 < levels) × IsPassOf cell.now right × IsWhole (known right) }
        ensures { IsPassOf cell.entry.now result.0 × IsWhole (known result.0)
            × ((known result.0).name ≡ (known right).name) }
    { ask_in_tree(rt, cell, right, levels - 1, turns) };
    let (left, right) = join(rt, ask_left, ask_right);
    let rising = left.1 && right.1;
    cell.join(&mut pass, left.0);
    cell.join(&mut pass, right.0);
    (pass, rising)
}

/// Whether the answers of each thread of such a tree rose, and how often the counter that is left
/// acted.
fn rise_in_tree<R: AllocGlobal + Threads + Wait + Sync>(
    rt: &R,
    limit: u64,
    levels: u32,
    turns: u32,
) -> Option<(bool, u64)>
    requires { (1 ≤ limit) × (limit < 2 ^ 63 - 1) }
{
    let (cell, pass) = Cell::new(rt.alloc(), Counter { count: 0 }, limit).ok()?;
    let (pass, rising) = ask_in_tree(rt, &cell, pass, levels, turns);
    let (machine, _) = cell.close(pass);
    Some((rising, machine.count))
}

/// Answers 0, 1, 2 and so on. Each pass may ask three times.
#[derive(Drop)]
struct Tickets {
    next: u64,
}

impl Machine for Tickets {
    type Event = ();

    type Outcome = u64;

    type Start = ();

    ghost start = { λ machine. tt };

    ghost stands_for = { λ machine history. (machine.next ≡ length history % 2 ^ 64)
        × AreNumbered 0 history };

    ghost fits = { λ start name calls event. length calls < 3 };

    fn is_long(_event: &()) -> bool {
        false
    }

    fn act<R: Threads + Wait + Sync>(&mut self, _rt: &R, _event: ()) -> u64 {
        let ticket = self.next;
        self.next = ticket.wrapping_add(1);
        ticket
    }
}

/// Two passes are split off the first and ask, one twice and one once, and are joined back. The
/// history has just these calls, each under the name that asked.
fn ask_by_two<R: AllocGlobal + Threads + Wait + Sync>(
    rt: &R,
) -> Option<(u64, u64, u64, Pass<Tickets>)>
    ensures { IfSome result (λ drawn. AreDrawn drawn.0 drawn.1 drawn.2 (known drawn.3).history) }
{
    let Ok((cell, mut first)) = Cell::new(rt.alloc(), Tickets { next: 0 }, 3) else {
        return None;
    };
    let mut left = cell.split(&mut first);
    let mut right = cell.split(&mut first);
    let Ok(one) = cell.turn(rt, &mut left, ()) else {
        return None;
    };
    let Ok(two) = cell.turn(rt, &mut right, ()) else {
        return None;
    };
    let Ok(three) = cell.turn(rt, &mut left, ()) else {
        return None;
    };
    cell.join(&mut first, left);
    cell.join(&mut first, right);
    let (_, closed) = cell.close(first);
    Some((one, two, three, closed))
}

/// The tickets that they draw.
fn drawn_by_two<R: AllocGlobal + Threads + Wait + Sync>(rt: &R) -> Option<(u64, u64, u64)> {
    let (one, two, three, _) = ask_by_two(rt)?;
    Some((one, two, three))
}

#[test]
fn two_passes_draw_tickets(rt: HostRuntime) {
    same(&rt, drawn_by_two(&rt), Some((0, 1, 2)));
}

/// What a turn was answered, or the event that came back.
fn told(answer: Result<u64, Spent<()>>) -> Result<u64, ()> {
    match answer {
        Ok(count) => Ok(count),
        Err(Spent { event }) => Err(event),
    }
}

#[test]
fn the_third_turn_of_two_is_spent_and_hands_its_event_back(rt: HostRuntime) -> Result<(), Fail> {
    let Ok((cell, mut pass)) = Cell::new(rt.alloc(), Counter { count: 0 }, 2) else {
        return Err(Fail::new("no memory"));
    };
    same(&rt, told(cell.turn(&rt, &mut pass, ())), Ok(0));
    same(&rt, told(cell.turn(&rt, &mut pass, ())), Ok(1));
    same(&rt, told(cell.turn(&rt, &mut pass, ())), Err(()));
    let (machine, _) = cell.close(pass);
    same(&rt, machine.count, 2);
    Ok(())
}

#[test]
fn one_two_four_and_sixteen_threads_rise_and_leave_the_sum(rt: HostRuntime) {
    for (levels, sum) in [(0, 100_000), (1, 200_000), (2, 400_000), (4, 1_600_000)] {
        let risen = rise_in_tree(&rt, 1 << 40, levels, 100_000);
        same(&rt, risen, Some((true, sum)));
    }
}

/// Each thread finds the history full at its end, so none may be left asleep.
#[test]
fn sixteen_threads_that_ask_until_it_is_full_all_return(rt: HostRuntime) {
    for _ in 0..20 {
        let risen = rise_in_tree(&rt, 1000, 4, u32::MAX);
        same(&rt, risen, Some((true, 1000)));
    }
}

#[test]
fn a_tree_of_three_levels_is_joined_and_closed(rt: HostRuntime) {
    let risen = rise_in_tree(&rt, 1 << 40, 3, 1000);
    same(&rt, risen, Some((true, 8000)));
}
