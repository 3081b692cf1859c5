// The workers of all links.

ghost use Rattle.std.specs.Prelude.{◌≡◌, ◌+◌, ◌<◌, ◌≤◌, ℕ, [], length, slice_index_or};
ghost use Rattle.std.specs.Prelude.{vec_capacity, IsSomeAnd};
ghost use Rattle.block_server.specs.Leaving.{HasRoom, IsLeftOf, IsRoomFor};
ghost use Rattle.block_server.specs.Passing.{account_of, AreBack, IsFirst, KnowsAll};
ghost use Rattle.block_server.specs.Slots.{HaveChanged, each_of};
ghost use Rattle.block_server.specs.Workers.{AreReady, HaveWorked, IsReady, HasWorked};
ghost use Rattle.lane_plan.specs.Plans.{IsShape};
ghost use Rattle.shared_volume.specs.Ciphers.{sector_of};
ghost use Rattle.shared_volume.specs.Lanes.{IsOn};
ghost use Rattle.std.specs.Fork.{AcceptsEach, ChangesEach};
ghost use Rattle.volume_cell.specs.Passes.{IsPassOf, known};
ghost use denote.Param.Send.{IsSend, IsSync};

use crate::leavings::{Leavings, put};
use crate::worker::Worker;
use bays::Link;
use gates::Gate;
use lane_plan::Shape;
use sector_cipher::Context;
use sector_disk::Disk;
use shared_volume::{Lane, SharedCell, SharedVolume};
use std::alloc::Global;
use std::sync::Wait;
use std::thread::{Threads, for_each_mut, join_mut};
use volume_cell::{Cell, Pass};
use volume_machine::Keys;

/// Makes a worker of each link, on the lane of its number.
pub(crate) fn engage<D: Disk, L: Link + Drop>(
    alloc: Global,
    cell: &Cell<SharedVolume<D>>,
    first: &mut Pass<SharedVolume<D>>,
    links: Vec<L>,
    keys: Keys<Context>,
    shape: Shape,
    workers: &mut Vec<Option<Worker<D, L>>>,
)
    requires pass { IsPassOf cell.now first.old }
    requires first { IsFirst 0 0 (known first.old) }
    requires joined { (known first.old).joined ≡ [] }
    requires on { (number : ℕ) → number < length links.items →
        IsSomeAnd (known first.old).start (IsOn sector_of number keys shape) }
    requires shape { IsShape shape }
    requires bound { (k : ℕ) (link : L) → k < length links.items →
        (L.state (slice_index_or links.items k link)).bound ≤ 4294967295 }
    requires few { length links.items ≤ 16 }
    requires none { workers.old.items ≡ [] }
    requires room { length links.items ≤ vec_capacity workers.old }
    ensures pass { IsPassOf cell.now first.new }
    ensures first { IsFirst (length links.items) 0 (known first.new) }
    ensures joined { (known first.new).joined ≡ [] }
    ensures start { (known first.new).start ≡ (known first.old).start }
    ensures ready { AreReady L.state cell.now (length links.items) shape
        (known first.old).start links.items workers.new.items }
{
    let mut number = 0;
    for link in links {
        let lane = Lane::split_off(cell, first, number, keys, shape);
        put(workers, Some(Worker::new(alloc, lane, link)));
        number += 1;
    }
}

/// Has each worker serve its link, in a thread of its own where one can be made, and does something
/// else in this one meanwhile.
pub(crate) fn work_all<
    R: Threads + Wait + Sync,
    D: Disk + Send,
    L: Link + Send + Drop,
    G: Gate + Sync,
    B,
    W: FnMut() -> B,
>(
    rt: &R,
    alloc: Global,
    shared: &SharedCell<D>,
    gate: &G,
    shape: Shape,
    workers: &mut [Option<Worker<D, L>>],
    meanwhile: &mut W,
) -> B
where
    L::In: Send,
    L::Out: Send,
    requires shape { IsShape shape }
    requires few { length workers.old ≤ 16 }
    requires ready { (k : ℕ) (slot : _) → k < length workers.old →
        IsSomeAnd (slice_index_or workers.old k slot) (IsReady L.state
        shared.now.cell (length workers.old) shape k) }
    requires meanwhile { W.pre meanwhile.old }
    ensures worked { HaveWorked L.state shared.now.cell
        (length workers.old) shape workers.old workers.new }
    ensures meanwhile { W.step meanwhile.old result meanwhile.new }
{
    let links = workers.len();
    let work = move |k: usize, slot: &mut Option<Worker<D, L>>|
        requires sync { IsSync R.row }
        requires links { (k < links) × (links ≤ 16) }
        requires ready { IsSomeAnd slot.now (IsReady L.state
            shared.now.cell links shape k) }
        ensures worked { IsSomeAnd slot.entry.now (λ old. IsSomeAnd slot.exit.now
            (HasWorked L.state shared.entry.now.cell links shape k
            old)) }
    {
        if let Some(worker) = slot.take() {
            let links = links as u32;
            *slot = Some(worker.work(rt, alloc, shared, gate, shape, links, k as u32));
        }
    };
    each_beside(rt, workers, links.max(1), &work, meanwhile)
}

/// Makes a call at each place, in so many threads where they can be made, and another one in this
/// thread meanwhile.
fn each_beside<R: Threads + Sync, T: Send, F: Fn(usize, &mut T) + Sync, B, W: FnMut() -> B>(
    rt: &R,
    places: &mut [T],
    threads: usize,
    each: &F,
    meanwhile: &mut W,
) -> B
    requires threads { 0 < threads }
    requires accepts { AcceptsEach F.Fn each.now places.old }
    requires meanwhile { W.pre meanwhile.old }
    ensures each { HaveChanged (ChangesEach F.Fn each.now places.old places.new) }
    ensures meanwhile { W.step meanwhile.old result meanwhile.new }
{
    let mut all = ||
        requires { IsSync R.row × IsSync F.row × IsSend T.row × (0 < threads)
            × AcceptsEach F.Fn each.now places.now }
        ensures { HaveChanged (ChangesEach F.Fn each.entry.now places.entry.now
            places.exit.now) }
    { for_each_mut(rt, places, threads, each) };
    let ((), told) = join_mut(rt, &mut all, meanwhile);
    told
}

/// Joins the passes of all workers into the first one, and takes the workers apart.
pub(crate) fn dismiss<D: Disk, L: Drop>(
    cell: &Cell<SharedVolume<D>>,
    first: &mut Pass<SharedVolume<D>>,
    workers: Vec<Option<Worker<D, L>>>,
    leavings: &mut Leavings<L>,
)
    requires pass { IsPassOf cell.now first.old }
    requires name { (known first.old).name ≡ [] }
    requires joined { (known first.old).joined ≡ [] }
    requires back { AreBack cell.now workers.items }
    requires room { IsRoomFor (length workers.items) leavings.old }
    ensures pass { IsPassOf cell.now first.new }
    ensures first { (splits : ℕ) → IsFirst splits 0 (known first.old) →
        IsFirst splits (length workers.items) (known first.new) }
    ensures joined { (known first.new).joined ≡ each_of account_of workers.items }
    ensures start { (known first.new).start ≡ (known first.old).start }
    ensures knows { KnowsAll (known first.new) workers.items }
    ensures left { IsLeftOf workers.items leavings.new }
{
    for slot in workers {
        let Some(worker) = slot else { unreachable!() };
        let Worker {
            lane,
            link,
            ends,
            standing,
            ..
        } = worker;
        cell.join(first, lane.into_pass());
        leavings.put(link, ends, standing);
    }
}
