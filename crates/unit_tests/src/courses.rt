// What people are told of a conversion on its way, and when.

use crate::same::same;
use gates::Converted;
use host_edge::{Course, Told};
use std::alloc::{AllocError, Global};
use std::io;
use std::process::Abort;
use std::time::{Clock, Duration, Instant};

/// Asserts that this is told where so many blocks of 4096 bytes are new, of which so many were moved in
/// so many milliseconds.
fn is_told<R: Abort>(
    rt: &R,
    alloc: Global,
    blocks: [u64; 3],
    millis: u64,
    text: &str,
) -> Result<(), AllocError> {
    let [done, blocks, moved] = blocks;
    let course = Course {
        converted: Converted {
            done,
            blocks,
            atom: 4096,
        },
        moved,
        elapsed: Duration::from_millis(millis),
    };
    same(rt, format!(in alloc; "{course}")?.as_str(), text);
    Ok(())
}

/// Blocks that are new, all blocks and those that were moved, milliseconds, and what is told.
const COURSES: &[([u64; 3], u64, &str)] = &[
    (
        [0, 0, 0],
        0,
        "0 of 0 blocks, 100.0 %, 0.0 MiB/s, 0:00:00 in all",
    ),
    (
        [1, 3, 0],
        0,
        "1 of 3 blocks, 33.3 %, 0.0 MiB/s, 0:00:00 left",
    ),
    (
        [65536, 262144, 65536],
        2500,
        "65536 of 262144 blocks, 25.0 %, 102.4 MiB/s, 0:00:07 left",
    ),
    (
        [512, 3_000_000_000, 256],
        1000,
        "512 of 3000000000 blocks, 0.0 %, 1.0 MiB/s, 3255:12:28 left",
    ),
    (
        [262144, 262144, 131072],
        3_723_000,
        "262144 of 262144 blocks, 100.0 %, 0.1 MiB/s, 1:02:03 in all",
    ),
];

#[test]
fn a_course_tells_share_speed_and_time(rt: HostRuntime) -> Result<(), AllocError> {
    for (blocks, millis, text) in COURSES {
        is_told(&rt, rt.alloc(), *blocks, *millis, text)?;
    }
    Ok(())
}

/// A clock that stands at so many seconds.
#[derive(Drop)]
struct Stopped(u64);

impl Clock for Stopped {
    fn monotonic(&self) -> io::Result<Duration> {
        Ok(Duration::from_secs(self.0))
    }

    fn since_1970(&self) -> io::Result<Duration> {
        Ok(Duration::from_secs(self.0))
    }
}

/// Whether a course of 2000 blocks is to be told of, the clock at `clock` seconds, where `at_last` of
/// them were new at 5. None where no clock can be read.
fn is_due(at_last: u64, done: u64, clock: u64, is_terminal: bool) -> Option<bool> {
    let start = Instant::now(&Stopped(5)).ok()?;
    let now = Instant::now(&Stopped(clock)).ok()?;
    let told = Told {
        start,
        at_start: 0,
        last: start,
        at_last,
        was_told: true,
    };
    let converted = Converted {
        done,
        blocks: 2000,
        atom: 512,
    };
    Some(told.is_due(now, converted, is_terminal))
}

#[test]
fn people_are_told_each_second_or_each_tenth_part(rt: HostRuntime) {
    same(&rt, is_due(0, 0, 9, true), Some(false));
    same(&rt, is_due(0, 1, 5, true), Some(false));
    same(&rt, is_due(0, 1, 6, true), Some(true));
    same(&rt, is_due(7, 7, 9, true), Some(false));
    same(&rt, is_due(7, 2000, 5, true), Some(true));
    same(&rt, is_due(0, 199, 9, false), Some(false));
    same(&rt, is_due(0, 200, 5, false), Some(true));
    same(&rt, is_due(200, 399, 9, false), Some(false));
    same(&rt, is_due(399, 400, 5, false), Some(true));
    same(&rt, is_due(1999, 2000, 5, false), Some(true));
    same(&rt, is_due(2000, 2000, 9, false), Some(false));
}
