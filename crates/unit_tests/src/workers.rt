use crate::same::same;
use gates::{Converted, OpenGate};
use reenc_worker::{NoFit, WorkAnswer, WorkerEnd, WorkerPort, work_loop};
use std::sync::Wait;
use std::test::Fail;
use std::thread::Threads;

/// A conversion that goes on for so many calls, at each second of which it waits, and ends so.
#[derive(Drop)]
struct Course {
    calls: u8,
    goes_on: u8,
    end: WorkerEnd,
}

impl WorkerPort for Course {
    ghost stands = { λ _. Unit {0} };

    ghost worked = { λ _ _ _. Unit {0} };

    ghost tells = { λ course. record { done = course.calls; blocks = 4; atom = 512 } };

    ghost worked_none = { λ _. tt };

    ghost worked_more = { λ _ _ _ _ _ _ _. tt };

    fn work<R: Threads + Wait + Sync>(&mut self, _rt: &R) -> WorkAnswer {
        self.calls = self.calls.saturating_add(1);
        if self.calls > self.goes_on {
            return WorkAnswer::Ended(self.end);
        }
        if self.calls % 2 == 0 {
            return WorkAnswer::Waiting;
        }
        WorkAnswer::Stepped
    }

    fn converted(&self) -> Converted {
        Converted {
            done: self.calls as u64,
            blocks: 4,
            atom: 512,
        }
    }
}

const ENDS: [WorkerEnd; 8] = [
    WorkerEnd::Finished,
    WorkerEnd::Device,
    WorkerEnd::Clash {
        block: 7,
        digest: [5; 32],
    },
    WorkerEnd::NoFit(NoFit::SeqEnd { left: 1, wanted: 2 }),
    WorkerEnd::NoFit(NoFit::JsonFull {
        length: 13,
        limit: 12,
    }),
    WorkerEnd::Broken,
    WorkerEnd::Spent,
    WorkerEnd::Memory,
];

#[test]
fn each_end_comes_behind_all_that_went_on(rt: HostRuntime) -> Result<(), Fail> {
    for goes_on in 0..4 {
        for end in ENDS {
            let mut port = Course {
                calls: 0,
                goes_on,
                end,
            };
            same(&rt, work_loop(&rt, &mut port, &OpenGate), end);
            same(&rt, port.calls, goes_on + 1);
        }
    }
    Ok(())
}
