// The worker of a volume that threads share.

ghost use Rattle.std.specs.Prelude.{◌≡◌, ◌+◌, [], IsSomeAnd, None};
ghost use Rattle.shared_volume.specs.Working.{HasWorker, IsWorkerOf};
ghost use Rattle.volume_cell.specs.Knowing.{having_split};
ghost use Rattle.volume_cell.specs.Passes.{IsPassOf, known};

use crate::asking::{SharedEvent, SharedOutcome};
use crate::machine::SharedVolume;
use crate::sharing::SharedCell;
use gates::Converted;
use reenc_worker::{WorkAnswer, WorkerEnd, WorkerPort};
use sector_disk::Disk;
use std::sync::Wait;
use std::thread::Threads;
use volume_cell::Pass;
use volume_core::told;

/// The worker of a volume that threads share: the pass by which it asks, whose name is the number
/// of the last lane, and what its last call told. Each call makes one step of the conversion, an
/// event of the volume's one history; it waits while other threads have the volume.
///
/// Where the last call had to wait for blocks, the next one sleeps first until some were left on a
/// lane; it may wake for nothing, and asks then too. Where it leaves blocks it tells that they were.
pub struct SharedWorker<'c, R: Threads + Wait + Sync, D: Disk> {
    pub rt: &'c R,
    pub shared: &'c SharedCell<D>,
    pub pass: Pass<SharedVolume<D>>,
    pub number: u32,
    /// How far the conversion was behind the last step.
    pub converted: Converted,
    /// Where the last call had to wait: how often blocks had been left before it.
    pub waits: Option<u64>,
}

// By hand, so that a value that is dropped in place is one call to the prover.
impl<'c, R: Threads + Wait + Sync, D: Disk> Drop for SharedWorker<'c, R, D> {
    fn drop(self) {
        let SharedWorker {
            rt: _,
            shared: _,
            pass,
            number: _,
            converted: _,
            waits: _,
        } = self;
        drop(pass);
    }
}

impl<'c, R: Threads + Wait + Sync, D: Disk> SharedWorker<'c, R, D> {
    /// The worker on the last lane, by a pass that is split off the first one behind those of all
    /// other lanes. The conversion is so far.
    pub fn split_off(
        rt: &'c R,
        shared: &'c SharedCell<D>,
        first: &mut Pass<SharedVolume<D>>,
        number: u32,
        converted: Converted,
    ) -> SharedWorker<'c, R, D>
        requires pass { IsPassOf shared.now.cell first.old }
        requires first { (known first.old).name ≡ [] }
        requires next { (known first.old).splits ≡ number }
        requires has { IsSomeAnd (known first.old).start (HasWorker number) }
        ensures first { IsPassOf shared.now.cell first.new
            × (known first.new ≡ having_split (known first.old)) }
        ensures name { (known first.new).name ≡ [] }
        ensures next { (known first.new).splits ≡ number + 1 }
        ensures start { (known first.new).start ≡ (known first.old).start }
        ensures pass { IsPassOf shared.now.cell result.pass }
        ensures worker { IsWorkerOf (known result.pass) number }
        ensures same { (known result.pass).start ≡ (known first.old).start }
        ensures calls { (known result.pass).calls ≡ [] }
        ensures shared { result.shared.now ≡ shared.now }
        ensures number { result.number ≡ number }
        ensures converted { result.converted ≡ converted }
        ensures waits { result.waits ≡ None }
    {
        let pass = shared.cell.split(first);
        SharedWorker {
            rt,
            shared,
            pass,
            number,
            converted,
            waits: None,
        }
    }

    /// The pass, which can be joined into the first one.
    pub fn into_pass(self) -> Pass<SharedVolume<D>>
        ensures { result ≡ self.entry.pass }
    {
        let SharedWorker {
            rt: _,
            shared: _,
            pass,
            number: _,
            converted: _,
            waits: _,
        } = self;
        pass
    }

    /// Sleeps until blocks were left, where the last call had to wait for some. Tells how often they
    /// were left by then.
    fn wait(&self) -> u64 {
        let departures = &self.shared.departures;
        if let Some(seen) = self.waits {
            departures.wait(self.rt, seen);
        }
        departures.count()
    }
}

impl<'c, R: Threads + Wait + Sync, D: Disk> WorkerPort for SharedWorker<'c, R, D> {
    ghost use Rattle.std.specs.Prelude.{◌≡◌, ◌*◌};
    ghost use Rattle.shared_volume.specs.Working.{IsWorkerOf};
    ghost use Rattle.shared_volume.specs.Works.{Works, works_joined, works_none};
    ghost use Rattle.volume_cell.specs.Passes.{IsPassOf, known};
    ghost use denote.Param.Send.{IsSync};

    ghost stands = { λ port. IsPassOf port.shared.now.cell port.pass
        × IsWorkerOf (known port.pass) port.number × IsSync R.row };

    ghost worked = { λ old new answers. Works old.shared.now.cell new.shared.now.cell
        old.number new.number (known old.pass) (known new.pass) old.converted new.converted
        answers };

    ghost tells = { λ port. port.converted };

    ghost worked_none = { λ port. works_none port.shared.now.cell port.number
        (known port.pass) port.converted };

    ghost worked_more = { λ first second third xs ys. works_joined first.shared.now.cell
        second.shared.now.cell third.shared.now.cell first.number second.number third.number
        (known first.pass) (known second.pass) (known third.pass) first.converted second.converted
        third.converted xs ys };

    fn work<Q: Threads + Wait + Sync>(&mut self, _rt: &Q) -> WorkAnswer {
        let seen = self.wait();
        let event = SharedEvent::Worker(self.number);
        match self.shared.cell.turn(self.rt, &mut self.pass, event) {
            Ok(SharedOutcome::Worker(made)) => {
                if made.has_left {
                    self.shared.departures.note();
                }
                self.converted = made.converted;
                let answer = told(made.worked);
                self.waits = if answer == WorkAnswer::Waiting {
                    Some(seen)
                } else {
                    None
                };
                answer
            }
            Ok(SharedOutcome::Client(_)) => unreachable!(),
            Err(_) => {
                self.shared.departures.note();
                WorkAnswer::Ended(WorkerEnd::Spent)
            }
        }
    }

    fn converted(&self) -> Converted {
        self.converted
    }
}
