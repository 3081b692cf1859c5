// A gate at which clients and the worker of a conversion meet, and that keeps what it is told.

use anyhow::{Result, anyhow};
use gates::{Converted, Gate, Place};
use std::alloc::Global;
use std::sync::Mutex;
use std::sync::atomic::{AtomicU64, Ordering};
use std::thread;
use std::time::{Clock, Duration};

/// How often one that is held looks, a millisecond apart, until it goes on alone.
const LOOKS: u32 = 10_000;

/// What a gate was told: at first, and last; how often, and how often it was another count of blocks
/// than before.
#[derive(Clone, Copy)]
struct Told {
    first: Converted,
    last: Converted,
    times: u64,
    changes: u64,
}

/// What was told, once this is told too.
fn heard(told: Option<Told>, converted: Converted) -> Told {
    match told {
        Some(told) => Told {
            last: converted,
            times: told.times.saturating_add(1),
            changes: told
                .changes
                .saturating_add((told.last.done != converted.done) as u64),
            ..told
        },
        None => Told {
            first: converted,
            last: converted,
            times: 1,
            changes: 0,
        },
    }
}

/// A gate that a script settles. Where it has a step, holds the first operation that is admitted until the worker has come to the
/// step of this number, or, where that is 0, until a second operation is admitted; and holds the
/// worker there until then. It keeps what it is told of a conversion, and what people should know.
#[derive(Drop)]
pub struct ScriptGate<R: Clock + Drop> {
    clock: R,
    step: Option<u64>,
    admitted: AtomicU64,
    steps: AtomicU64,
    missed: AtomicU64,
    told: Mutex<Option<Told>>,
    alloc: Global,
    notices: Mutex<Vec<String>>,
}

impl<R: Clock + Drop> ScriptGate<R> {
    pub(crate) fn new(alloc: Global, clock: R, step: Option<u64>) -> ScriptGate<R> {
        ScriptGate {
            clock,
            step,
            admitted: AtomicU64::new(0),
            steps: AtomicU64::new(0),
            missed: AtomicU64::new(0),
            told: Mutex::new(None),
            alloc,
            notices: Mutex::new(Vec::new(alloc)),
        }
    }

    /// Holds until so many were counted.
    fn hold(&self, count: &AtomicU64, wanted: u64) {
        for _ in 0..LOOKS {
            if count.load(Ordering::SeqCst) >= wanted {
                return;
            }
            thread::sleep(&self.clock, Duration::from_millis(1));
        }
        self.missed.store(1, Ordering::SeqCst);
    }

    /// Holds an operation or a step at this place, for those that meet at the step of this number.
    fn meet(&self, place: Place, step: u64) {
        match place {
            Place::Waiting => {}
            Place::Admitted => {
                if self.admitted.fetch_add(1, Ordering::SeqCst) == 0 {
                    if step == 0 {
                        self.hold(&self.admitted, 2);
                    } else {
                        self.hold(&self.steps, step);
                    }
                }
            }
            Place::Work => {
                let before = self.steps.fetch_add(1, Ordering::SeqCst);
                if before.wrapping_add(1) == step {
                    self.hold(&self.admitted, 2);
                }
            }
        }
    }

    /// Whether each that was held met the other, and there were some, where they were to, in words.
    pub(crate) fn met(&self) -> &'static str {
        let Some(step) = self.step else {
            return "";
        };
        let kept = self.missed.load(Ordering::SeqCst) == 0
            && self.admitted.load(Ordering::SeqCst) > 1
            && self.steps.load(Ordering::SeqCst) >= step;
        if kept { "met" } else { "missed" }
    }

    /// What people should know, a line each.
    pub(crate) fn notices(&self) -> Result<Vec<String>> {
        match self.notices.try_lock() {
            Some(lines) => Ok(lines.clone()?),
            None => Err(anyhow!("a gate that somebody still tells something")),
        }
    }

    /// What it was told of a conversion, in words; none where nothing was.
    pub(crate) fn course(&self, alloc: Global) -> Result<String> {
        let told = match self.told.try_lock() {
            Some(told) => *told,
            None => None,
        };
        let Some(told) = told else {
            return Ok(String::new(alloc));
        };
        let Told {
            first,
            last,
            times,
            changes,
        } = told;
        let (done, Converted { blocks, atom, .. }) = (first.done, last);
        Ok(format!(in alloc;
            "{times} told, {done} to {} of {blocks} blocks of {atom} bytes, {changes} changes",
            last.done
        )?)
    }
}

impl<R: Clock + Drop> Gate for ScriptGate<R> {
    fn pause(&self, place: Place) {
        if let Some(step) = self.step {
            self.meet(place, step);
        }
    }

    fn tell(&self, converted: Converted) {
        if let Some(mut told) = self.told.try_lock() {
            *told = Some(heard(*told, converted));
        }
    }

    fn notify(&self, line: &str) {
        let line = String::from_str(self.alloc, line);
        if let (Ok(line), Some(mut lines)) = (line, self.notices.try_lock()) {
            let _ = lines.push(line);
        }
    }
}
