// Where lanes wait for blocks that others have.

use std::sync::Wait;
use std::sync::atomic::{AtomicU64, Ordering};

/// How often blocks were left. A lane that waits for blocks sleeps until some were.
///
/// A lane looks at the count, asks for its blocks, and where it has to wait sleeps only while the
/// count is the same: one that leaves its blocks after the ask wakes it.
#[derive(Drop)]
pub struct Departures {
    count: AtomicU64,
    sleepers: AtomicU64,
}

impl Departures {
    pub fn new() -> Departures {
        Departures {
            count: AtomicU64::new(0),
            sleepers: AtomicU64::new(0),
        }
    }

    /// How often blocks were left so far.
    pub(crate) fn count(&self) -> u64 {
        self.count.load(Ordering::SeqCst)
    }

    /// Tells that blocks were left, and wakes the lanes that sleep. `Lane::execute` does so at its
    /// end; whoever leaves blocks by turns of its own has to do it too, once they are left, since a
    /// lane that waits for them may sleep on else.
    pub fn note(&self) {
        self.count.fetch_add(1, Ordering::SeqCst);
        if self.sleepers.load(Ordering::SeqCst) > 0 {
            self.count.wake_all();
        }
    }

    /// Sleeps while blocks were left so often. It may also return for no reason.
    pub(crate) fn wait<R: Wait>(&self, rt: &R, count: u64) {
        self.sleepers.fetch_add(1, Ordering::SeqCst);
        if self.count() == count {
            self.count.park(rt, (count % (1 << 32)) as u32);
        }
        self.sleepers.fetch_sub(1, Ordering::SeqCst);
    }
}
