// The worker of the conversion, beside the workers of all links.

ghost use Rattle.std.specs.Prelude.{◌≡◌, ◌<◌, ◌≤◌, ◌↔◌, ℕ, List, [], length, slice_index_or};
ghost use Rattle.std.specs.Prelude.{IfSome, IsSome, IsSomeAnd, IsTrue};
ghost use Rattle.block_server.specs.Leading.{AreRejoined, AreSplit, HasLed, MayRejoin, end_of};
ghost use Rattle.block_server.specs.Workers.{HaveWorked, IsReady};
ghost use Rattle.lane_plan.specs.Plans.{IsShape};
ghost use Rattle.reenc_worker.specs.Answers.{AreAnswers};
ghost use Rattle.reenc_worker.specs.declared.ends.WorkAnswer.{WorkAnswer};
ghost use Rattle.shared_volume.specs.Working.{HasWorker, IsWorkerOf};
ghost use Rattle.shared_volume.specs.Works.{Works};
ghost use Rattle.volume_cell.specs.Knowing.{having_split};
ghost use Rattle.volume_cell.specs.Passes.{IsPassOf, known};
ghost use denote.Param.Send.{IsSync};

use crate::worker::Worker;
use crate::workers::work_all;
use bays::Link;
use gates::{Converted, Gate};
use lane_plan::Shape;
use reenc_worker::{WorkerEnd, work_loop};
use sector_disk::Disk;
use shared_volume::{SharedCell, SharedVolume, SharedWorker};
use std::alloc::Global;
use std::sync::Wait;
use std::thread::Threads;
use volume_cell::{Cell, Pass};

/// The worker of a conversion that has led it: how it ended, and the pass by which it asked.
#[derive(Drop)]
pub struct Led<D: Disk> {
    pub end: WorkerEnd,
    pub pass: Pass<SharedVolume<D>>,
}

/// Has each worker serve its link, in a thread of its own where one can be made, and the worker of the
/// conversion lead it beside them, where one is wanted.
pub(crate) fn work<R: Threads + Wait + Sync, D: Disk + Send, L: Link + Send + Drop, G: Gate + Sync>(
    rt: &R,
    alloc: Global,
    shared: &SharedCell<D>,
    first: &mut Pass<SharedVolume<D>>,
    gate: &G,
    shape: Shape,
    workers: &mut [Option<Worker<D, L>>],
    converted: Converted,
    leads: bool,
) -> Option<Led<D>>
where
    L::In: Send,
    L::Out: Send,
    requires shape { IsShape shape }
    requires few { length workers.old ≤ 16 }
    requires ready { (k : ℕ) (slot : _) → k < length workers.old →
        IsSomeAnd (slice_index_or workers.old k slot) (IsReady L.state
        shared.now.cell (length workers.old) shape k) }
    requires pass { IsPassOf shared.now.cell first.old }
    requires name { (known first.old).name ≡ [] }
    requires next { (known first.old).splits ≡ length workers.old }
    requires has { IsTrue leads →
        IsSomeAnd (known first.old).start (HasWorker (length workers.old)) }
    ensures worked { HaveWorked L.state shared.now.cell
        (length workers.old) shape workers.old workers.new }
    ensures pass { IsPassOf shared.now.cell first.new }
    ensures split { AreSplit shared.now.cell (length workers.old) (known first.old)
        (known first.new) result }
    ensures led { IsSome result ↔ IsTrue leads }
{
    if leads {
        let led = lead_beside(rt, alloc, shared, first, gate, shape, workers, converted);
        Some(led)
    } else {
        work_all(rt, alloc, shared, gate, shape, workers, &mut || {});
        None
    }
}

/// Has each worker serve its link, in a thread of its own where one can be made, and the worker of the
/// conversion lead it in this thread meanwhile.
fn lead_beside<R: Threads + Wait + Sync, D: Disk + Send, L: Link + Send + Drop, G: Gate + Sync>(
    rt: &R,
    alloc: Global,
    shared: &SharedCell<D>,
    first: &mut Pass<SharedVolume<D>>,
    gate: &G,
    shape: Shape,
    workers: &mut [Option<Worker<D, L>>],
    converted: Converted,
) -> Led<D>
where
    L::In: Send,
    L::Out: Send,
    requires shape { IsShape shape }
    requires few { length workers.old ≤ 16 }
    requires ready { (k : ℕ) (slot : _) → k < length workers.old →
        IsSomeAnd (slice_index_or workers.old k slot) (IsReady L.state
        shared.now.cell (length workers.old) shape k) }
    requires pass { IsPassOf shared.now.cell first.old }
    requires name { (known first.old).name ≡ [] }
    requires next { (known first.old).splits ≡ length workers.old }
    requires has { IsSomeAnd (known first.old).start (HasWorker (length workers.old)) }
    ensures worked { HaveWorked L.state shared.now.cell
        (length workers.old) shape workers.old workers.new }
    ensures pass { IsPassOf shared.now.cell first.new
        × (known first.new ≡ having_split (known first.old)) }
    ensures led { HasLed shared.now.cell (length workers.old) (known first.old).start result }
{
    let number = workers.len() as u32;
    let mut worker = SharedWorker::split_off(rt, shared, first, number, converted);
    let mut lead = || -> WorkerEnd
        requires sync { IsSync R.row }
        requires stands { IsPassOf worker.shared.now.cell worker.pass
            × IsWorkerOf (known worker.pass) worker.number }
        ensures pass { IsPassOf worker.exit.shared.now.cell worker.exit.pass
            × IsWorkerOf (known worker.exit.pass) worker.exit.number }
        ensures worked { (answers : List WorkAnswer)
            × Works worker.entry.shared.now.cell worker.exit.shared.now.cell
            worker.entry.number worker.exit.number (known worker.entry.pass)
            (known worker.exit.pass) worker.entry.converted worker.exit.converted answers
            × AreAnswers result answers }
    { work_loop(rt, &mut worker, gate) };
    let end = work_all(rt, alloc, shared, gate, shape, workers, &mut lead);
    Led {
        end,
        pass: worker.into_pass(),
    }
}

/// Joins the pass of the worker of the conversion into the first one, behind those of all links'
/// workers, and tells how it ended.
pub(crate) fn relieve<D: Disk>(
    cell: &Cell<SharedVolume<D>>,
    first: &mut Pass<SharedVolume<D>>,
    led: Option<Led<D>>,
) -> Option<WorkerEnd>
    requires pass { IsPassOf cell.now first.old }
    requires name { (known first.old).name ≡ [] }
    requires back { (number : ℕ) × IfSome led (MayRejoin cell.now number) }
    ensures pass { IsPassOf cell.now first.new }
    ensures rejoined { AreRejoined (known first.old) (known first.new) led }
    ensures told { result ≡ end_of led }
{
    let Some(Led { end, pass }) = led else {
        return None;
    };
    cell.join(first, pass);
    Some(end)
}
