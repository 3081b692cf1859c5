// How long a client is waited for.

use crate::streams::Peer;
use std::io::{self, Stderr};
use std::time::{Clock, Duration, Instant};

/// How many milliseconds a client has for the whole negotiation.
const NEGOTIATION: u64 = 30_000;

/// How long a client is waited for, and since when.
#[derive(Clone, Copy)]
pub struct Watch<C: Clock + Copy> {
    clock: C,
    errors: Stderr,
    peer: Peer,
    since: Instant,
    idle_timeout: Option<u32>,
    pub(crate) is_settled: bool,
}

impl<C: Clock + Copy> Watch<C> {
    ghost use Rattle.std.specs.Prelude.{◌≡◌, IfOk, false};

    /// A watch on a client that has just connected, which may say nothing for so many seconds once
    /// it is through the negotiation.
    pub fn new(
        clock: C,
        errors: Stderr,
        peer: Peer,
        idle_timeout: Option<u32>,
    ) -> io::Result<Watch<C>>
        ensures idle_timeout { IfOk result (λ watch. watch.idle_timeout ≡ idle_timeout) }
        ensures is_settled { IfOk result (λ watch. watch.is_settled ≡ false) }
    {
        Ok(Watch {
            clock,
            errors,
            peer,
            since: Instant::now(&clock)?,
            idle_timeout,
            is_settled: false,
        })
    }

    /// How many milliseconds are left for the negotiation; 0 where its time is over.
    pub(crate) fn time_left(&self) -> u64 {
        match self.since.elapsed(&self.clock) {
            Ok(gone) => {
                NEGOTIATION.saturating_sub(u64::try_from(gone.as_millis()).unwrap_or(u64::MAX))
            }
            Err(_) => NEGOTIATION,
        }
    }

    /// How long the client may say or take nothing once it is through the negotiation.
    pub(crate) fn idle_time(&self) -> Option<Duration> {
        self.idle_timeout
            .map(|seconds| Duration::from_secs(u64::from(seconds)))
    }

    /// Says that the client is dropped.
    pub(crate) fn tell(&self) {
        let peer = self.peer;
        let _ = match self.idle_timeout {
            Some(seconds) if self.is_settled => {
                eprintln!(self.errors; "reencd: {peer}: dropped, silent for {seconds} seconds")
            }
            None if self.is_settled => {
                eprintln!(self.errors;
                    "reencd: {peer}: dropped, silent for longer than the system waits"
                )
            }
            _ => eprintln!(self.errors;
                "reencd: {peer}: dropped, not through the negotiation within 30 seconds"
            ),
        };
    }
}
