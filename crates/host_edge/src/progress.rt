// What people are told of a conversion on its way.

use gates::{Converted, Gate, Place};
use std::fmt::{self, Display, Formatter, Write};
use std::io::{IsTerminal, Stderr};
use std::sync::Mutex;
use std::time::{Clock, Duration, Instant};

/// The bytes of a mebibyte.
const MEBIBYTE: u128 = 1_048_576;

/// A gate that holds nobody, and says on standard error how far a conversion is, how fast it goes
/// and how long it takes at that speed: once a second where that is a terminal, else at every tenth
/// part, and when the last block is new. Where the clock can't be read, or another thread is telling
/// just then, it says nothing.
#[derive(Drop)]
pub struct ProgressGate<R: Clock + Drop> {
    clock: R,
    errors: Stderr,
    is_terminal: bool,
    told: Mutex<Option<Told>>,
}

/// How far a conversion was when it was first told of, and when it was last spoken of, if it was.
#[derive(Clone, Copy)]
pub struct Told {
    pub start: Instant,
    pub at_start: u64,
    pub last: Instant,
    pub at_last: u64,
    pub was_told: bool,
}

impl<R: Clock + Drop> ProgressGate<R> {
    /// A gate with this clock. Nothing was told yet.
    pub fn new(clock: R, errors: Stderr) -> ProgressGate<R> {
        ProgressGate {
            clock,
            errors,
            is_terminal: errors.is_terminal(),
            told: Mutex::new(None),
        }
    }

    /// Says how far the conversion is in a line, on a terminal in place of the line that it said last.
    fn say(&self, course: &Course, was_told: bool) {
        let _ = if self.is_terminal && was_told {
            eprintln!(self.errors; "\x1b[A\x1b[Kreencd: {course}")
        } else {
            eprintln!(self.errors; "reencd: {course}")
        };
    }

    /// What was told, once it is so far. It is spoken of where that is due.
    fn heard(&self, told: Option<Told>, now: Instant, converted: Converted) -> Told {
        let Some(told) = told else {
            return Told {
                start: now,
                at_start: converted.done,
                last: now,
                at_last: converted.done,
                was_told: false,
            };
        };
        if !told.is_due(now, converted, self.is_terminal) {
            return told;
        }
        let course = Course {
            converted,
            moved: converted.done.saturating_sub(told.at_start),
            elapsed: now.duration_since(told.start),
        };
        self.say(&course, told.was_told);
        Told {
            last: now,
            at_last: converted.done,
            was_told: true,
            ..told
        }
    }
}

impl<R: Clock + Drop> Gate for ProgressGate<R> {
    fn pause(&self, _place: Place) {}

    fn tell(&self, converted: Converted) {
        let Ok(now) = Instant::now(&self.clock) else {
            return;
        };
        if let Some(mut told) = self.told.try_lock() {
            *told = Some(self.heard(*told, now, converted));
        }
    }

    fn notify(&self, line: &str) {
        let _ = eprintln!(self.errors; "reencd: {line}");
    }
}

impl Told {
    /// Whether it is time to say how far the conversion is: it went on since, and it is done, or a
    /// second went by for a terminal, or else a tenth part was passed.
    pub fn is_due(&self, now: Instant, converted: Converted, is_terminal: bool) -> bool {
        if converted.done == self.at_last {
            return false;
        }
        if converted.done == converted.blocks {
            return true;
        }
        if is_terminal {
            return now.duration_since(self.last).as_secs() >= 1;
        }
        let before = Converted {
            done: self.at_last,
            ..converted
        };
        tenths(converted) / 100 != tenths(before) / 100
    }
}

/// How far a conversion is, and how long it took to convert so many blocks.
#[derive(Clone, Copy)]
pub struct Course {
    pub converted: Converted,
    pub moved: u64,
    pub elapsed: Duration,
}

impl Course {
    fn is_whole(&self) -> bool {
        self.converted.done == self.converted.blocks
    }

    /// Tenths of a mebibyte a second, 0 where no time went by.
    fn speed(&self) -> u128 {
        let bytes = (self.moved as u128).saturating_mul(self.converted.atom as u128);
        let span = self.elapsed.as_millis().saturating_mul(MEBIBYTE);
        bytes.saturating_mul(10_000).checked_div(span).unwrap_or(0)
    }

    /// The whole seconds that the other blocks take at this speed, 0 where none was converted.
    fn left(&self) -> u64 {
        let blocks = self.converted.blocks.saturating_sub(self.converted.done);
        let span = self.elapsed.as_millis().saturating_mul(blocks as u128);
        let millis = span.checked_div(self.moved as u128).unwrap_or(0);
        u64::try_from(millis / 1000).unwrap_or(u64::MAX)
    }
}

/// Tenths of a per cent, 1000 where there is no block.
fn tenths(converted: Converted) -> u128 {
    let done = (converted.done as u128).saturating_mul(1000);
    done.checked_div(converted.blocks as u128).unwrap_or(1000)
}

impl Display for Course {
    fn fmt<W: Write>(&self, f: &mut Formatter<W>) -> fmt::Result {
        let Converted { done, blocks, .. } = self.converted;
        let share = tenths(self.converted);
        let speed = self.speed();
        write!(
            f,
            "{done} of {blocks} blocks, {}.{} %",
            share / 10,
            share % 10
        )?;
        write!(f, ", {}.{} MiB/s, ", speed / 10, speed % 10)?;
        if self.is_whole() {
            write_time(f, self.elapsed.as_secs())?;
            f.write_str(" in all")
        } else {
            write_time(f, self.left())?;
            f.write_str(" left")
        }
    }
}

/// Hours, minutes and seconds, as `1:02:03`.
fn write_time<W: Write>(f: &mut Formatter<W>, seconds: u64) -> fmt::Result {
    let minutes = seconds / 60;
    write!(
        f,
        "{}:{:02}:{:02}",
        minutes / 60,
        minutes % 60,
        seconds % 60
    )
}
