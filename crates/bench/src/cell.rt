// The cell beside a mutex around the same machine.

ghost use Rattle.std.specs.Prelude.{IfOk};
ghost use Rattle.volume_cell.specs.Passes.{IsPassOf};
ghost use denote.Param.Send.{IsSync};

use std::alloc::AllocError;
use std::rt::Runtime;
use std::sync::{Mutex, Wait};
use std::thread::{Threads, join};
use std::time::{Clock, Duration, Instant};
use std::{io, thread};
use volume_cell::{Cell, Machine, Pass};

/// How long the history of a run can get.
const LIMIT: u64 = 1 << 60;

/// The turns of each thread in the run without an argument.
const FEW_TURNS: u32 = 1000;

/// Adds numbers up.
#[derive(Drop)]
struct Adder {
    sum: u64,
}

impl Adder {
    fn add(&mut self, number: u64) -> u64 {
        self.sum = self.sum.wrapping_add(number);
        self.sum
    }
}

impl Machine for Adder {
    type Event = u64;

    type Outcome = u64;

    type Start = ();

    ghost start = { λ machine. tt };

    ghost stands_for = { λ machine history. Unit {0} };

    ghost fits = { λ start name calls event. Unit {0} };

    fn is_long(_event: &u64) -> bool {
        false
    }

    fn act<R: Threads + Wait + Sync>(&mut self, _rt: &R, event: u64) -> u64 {
        self.add(event)
    }
}

/// Sleeps a millisecond at each turn.
#[derive(Drop)]
struct Sleeper<C: Clock + Drop> {
    clock: C,
}

impl<C: Clock + Drop> Machine for Sleeper<C> {
    type Event = ();

    type Outcome = ();

    type Start = ();

    ghost start = { λ machine. tt };

    ghost stands_for = { λ machine history. Unit {0} };

    ghost fits = { λ start name calls event. Unit {0} };

    fn is_long(_event: &()) -> bool {
        true
    }

    fn act<R: Threads + Wait + Sync>(&mut self, _rt: &R, _event: ()) {
        thread::sleep(&self.clock, Duration::from_millis(1));
    }
}

/// Asks for so many turns, and tells the last answer.
fn ask<R: Threads + Wait + Sync>(
    rt: &R,
    cell: &Cell<Adder>,
    mut pass: Pass<Adder>,
    turns: u32,
) -> u64
    requires { IsPassOf cell.now pass }
{
    let mut last = 0;
    for _ in 0..turns {
        if let Ok(sum) = cell.turn(rt, &mut pass, 1) {
            last = sum;
        }
    }
    last
}

/// The same in two threads, and the higher of their last answers.
fn ask_in_two<R: Threads + Wait + Sync>(
    rt: &R,
    cell: &Cell<Adder>,
    mut pass: Pass<Adder>,
    turns: u32,
) -> u64
    requires { IsPassOf cell.now pass }
{
    let other = cell.split(&mut pass);
    let (one, two) = join(
        rt,
        || -> u64
            requires { IsSync R.row × IsPassOf cell.now pass }
        { ask(rt, cell, pass, turns) },
        || -> u64
            requires { IsSync R.row × IsPassOf cell.now other }
        { ask(rt, cell, other, turns) },
    );
    one.max(two)
}

/// The same in four threads.
fn ask_in_four<R: Threads + Wait + Sync>(
    rt: &R,
    cell: &Cell<Adder>,
    mut pass: Pass<Adder>,
    turns: u32,
) -> u64
    requires { IsPassOf cell.now pass }
{
    let other = cell.split(&mut pass);
    let (one, two) = join(
        rt,
        || -> u64
            requires { IsSync R.row × IsPassOf cell.now pass }
        { ask_in_two(rt, cell, pass, turns) },
        || -> u64
            requires { IsSync R.row × IsPassOf cell.now other }
        { ask_in_two(rt, cell, other, turns) },
    );
    one.max(two)
}

/// Locks the mutex so many times, and tells the last answer.
fn lock<R: Wait>(rt: &R, adder: &Mutex<Adder>, turns: u32) -> u64 {
    let mut last = 0;
    for _ in 0..turns {
        last = adder.lock(rt).add(1);
    }
    last
}

fn lock_in_two<R: Threads + Wait + Sync>(rt: &R, adder: &Mutex<Adder>, turns: u32) -> u64 {
    let (one, two) = join(rt, || lock(rt, adder, turns), || lock(rt, adder, turns));
    one.max(two)
}

fn lock_in_four<R: Threads + Wait + Sync>(rt: &R, adder: &Mutex<Adder>, turns: u32) -> u64 {
    let (one, two) = join(
        rt,
        || lock_in_two(rt, adder, turns),
        || lock_in_two(rt, adder, turns),
    );
    one.max(two)
}

/// Sleeps so many times.
fn sleep_often<C: Clock + Drop, R: Threads + Wait + Sync>(
    rt: &R,
    cell: &Cell<Sleeper<C>>,
    mut pass: Pass<Sleeper<C>>,
    turns: u32,
)
    requires { IsPassOf cell.now pass }
{
    for _ in 0..turns {
        let _ = cell.turn(rt, &mut pass, ());
    }
}

fn make<R: AllocGlobal>(rt: &R) -> io::Result<(Cell<Adder>, Pass<Adder>)>
    ensures { IfOk result (λ made. IsPassOf made.0 made.1) }
{
    match Cell::new(rt.alloc(), Adder { sum: 0 }, LIMIT) {
        Ok(made) => Ok(made),
        Err(_) => Err(AllocError.into()),
    }
}

/// Prints how many turns a second `threads` threads made, and how long one took.
fn show<R: Print>(rt: &R, what: &str, threads: u32, turns: u32, took: Duration) -> io::Result<()> {
    let turns = turns as f64 * threads as f64;
    let seconds = took.as_secs_f64();
    let rate = turns / seconds;
    let each = seconds * 1e6 / turns;
    println!(rt;
        "{what} threads {threads}: {rate:.0} turns a second, {each:.3} microseconds a turn"
    )
}

/// Has one, two and four threads ask a cell so often each, and then lock a mutex around the same
/// machine so often each, and prints the turns a second of both.
pub(crate) fn measure<R: Runtime + AllocGlobal + Threads + Wait + Sync>(
    rt: &R,
    turns: u32,
) -> io::Result<()> {
    let (cell, pass) = make(rt)?;
    let start = Instant::now(rt)?;
    ask(rt, &cell, pass, turns);
    show(rt, "cell ", 1, turns, start.elapsed(rt)?)?;
    let adder = Mutex::new(Adder { sum: 0 });
    let start = Instant::now(rt)?;
    lock(rt, &adder, turns);
    show(rt, "mutex", 1, turns, start.elapsed(rt)?)?;
    let (cell, pass) = make(rt)?;
    let start = Instant::now(rt)?;
    ask_in_two(rt, &cell, pass, turns);
    show(rt, "cell ", 2, turns, start.elapsed(rt)?)?;
    let start = Instant::now(rt)?;
    lock_in_two(rt, &adder, turns);
    show(rt, "mutex", 2, turns, start.elapsed(rt)?)?;
    let (cell, pass) = make(rt)?;
    let start = Instant::now(rt)?;
    ask_in_four(rt, &cell, pass, turns);
    show(rt, "cell ", 4, turns, start.elapsed(rt)?)?;
    let start = Instant::now(rt)?;
    lock_in_four(rt, &adder, turns);
    show(rt, "mutex", 4, turns, start.elapsed(rt)?)
}

/// Two threads, of which one always waits while the machine sleeps for the other.
pub(crate) fn measure_sleep<R: Runtime + AllocGlobal + Threads + Wait + Sync + Send>(
    rt: &R,
    turns: u32,
) -> io::Result<()> {
    let sleeper = Sleeper { clock: rt.clone()? };
    let Ok((cell, mut pass)) = Cell::new(rt.alloc(), sleeper, LIMIT) else {
        return Err(AllocError.into());
    };
    let other = cell.split(&mut pass);
    let start = Instant::now(rt)?;
    join(
        rt,
        ||
            requires { IsSync R.row × IsPassOf cell pass }
        { sleep_often(rt, &cell, pass, turns) },
        ||
            requires { IsSync R.row × IsPassOf cell other }
        { sleep_often(rt, &cell, other, turns) },
    );
    let seconds = start.elapsed(rt)?.as_secs_f64();
    println!(rt; "two threads slept {turns} times each in {seconds:.3} seconds")
}

/// Asks a cell in two threads, and prints the sum that they leave.
pub(crate) fn try_turns<R: AllocGlobal + Print + Threads + Wait + Sync>(rt: &R) -> io::Result<()> {
    let (cell, pass) = make(rt)?;
    let sum = ask_in_two(rt, &cell, pass, FEW_TURNS);
    println!(rt; "two threads of {FEW_TURNS} turns: {sum}")
}
