// The worker's loop.

ghost use Rattle.std.specs.Prelude.{List};
ghost use Rattle.reenc_worker.specs.Answers.{AreAnswers};
ghost use Rattle.reenc_worker.specs.declared.ends.WorkAnswer.{WorkAnswer};

use crate::ends::{WorkAnswer, WorkerEnd};
use crate::port::WorkerPort;
use gates::{Gate, Place};
use std::sync::Wait;
use std::thread::Threads;

/// Calls for steps of a conversion until an answer ends it, and tells that end. Before each call the
/// gate is told how far the conversion is, and may hold the thread. It goes on while steps are made,
/// and while blocks are waited for, and it makes at most `2^64 - 1` calls. It takes no memory.
pub fn work_loop<R: Threads + Wait + Sync, P: WorkerPort, G: Gate>(
    rt: &R,
    port: &mut P,
    gate: &G,
) -> WorkerEnd
    requires stands { P.stands port.old }
    ensures stands { P.stands port.new }
    ensures worked { (answers : List WorkAnswer) × P.worked port.old port.new answers
        × AreAnswers result answers }
{
    for _ in 0..u64::MAX {
        gate.tell(port.converted());
        gate.pause(Place::Work);
        match port.work(rt) {
            WorkAnswer::Stepped | WorkAnswer::Waiting => {}
            WorkAnswer::Ended(end) => return end,
        }
    }
    WorkerEnd::Spent
}
