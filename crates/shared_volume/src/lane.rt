// Lanes of a volume that threads share.

ghost use Rattle.std.specs.Prelude.{◌≡◌, ◌+◌, [], IsSomeAnd};
ghost use Rattle.lane_plan.specs.Calls.{event_of};
ghost use Rattle.shared_volume.specs.Ciphers.{opened, sealed, sector_of};
ghost use Rattle.shared_volume.specs.Calling.{HasFront};
ghost use Rattle.shared_volume.specs.Lanes.{IsAtRest, IsCalled, IsLaneOf, IsOn, StandsSo, seals_at};
ghost use Rattle.volume_cell.specs.Knowing.{having_split};
ghost use Rattle.volume_cell.specs.Passes.{IsPassOf, IsSamePass, known};
ghost use Rattle.volume_machine.specs.Alone.{MeetsAlone};

use crate::asking::{SharedEvent, SharedOutcome};
use crate::calling::{Called, LaneCall};
use crate::machine::SharedVolume;
use lane_plan::{Call, Shape};
use sector_cipher::Context;
use sector_disk::Disk;
use std::sync::Wait;
use std::thread::Threads;
use volume_cell::{Cell, Pass};
use volume_machine::Keys;

/// A thread's lane: the pass by which it asks, whose name is the lane's number, and what of the
/// volume never changes, so that bytes can be sealed and opened without it.
pub struct Lane<D: Disk> {
    pub pass: Pass<SharedVolume<D>>,
    pub number: u32,
    pub keys: Keys<Context>,
    pub shape: Shape,
}

// By hand, so that a value that is dropped in place is one call to the prover.
impl<D: Disk> Drop for Lane<D> {
    fn drop(self) {
        let Lane {
            pass,
            number: _,
            keys,
            shape: _,
        } = self;
        drop(pass);
        drop(keys);
    }
}

impl<D: Disk> Lane<D> {
    /// The lane of the next number, by a pass that is split off the first one. The keys and the
    /// shape are those of the volume with which the cell was made.
    pub fn split_off(
        cell: &Cell<SharedVolume<D>>,
        first: &mut Pass<SharedVolume<D>>,
        number: u32,
        keys: Keys<Context>,
        shape: Shape,
    ) -> Lane<D>
        requires pass { IsPassOf cell.now first.old }
        requires first { (known first.old).name ≡ [] }
        requires next { (known first.old).splits ≡ number }
        requires on { IsSomeAnd (known first.old).start (IsOn sector_of number keys shape) }
        ensures first { IsPassOf cell.now first.new
            × (known first.new ≡ having_split (known first.old)) }
        ensures name { (known first.new).name ≡ [] }
        ensures next { (known first.new).splits ≡ number + 1 }
        ensures start { (known first.new).start ≡ (known first.old).start }
        ensures pass { IsPassOf cell.now result.pass }
        ensures rests { IsAtRest sealed opened (known result.pass) }
        ensures lane { IsLaneOf sector_of (known result.pass) number keys shape }
        ensures same { (known result.pass).start ≡ (known first.old).start }
        ensures calls { (known result.pass).calls ≡ [] }
        ensures number { result.number ≡ number }
        ensures keys { result.keys ≡ keys }
        ensures shape { result.shape ≡ shape }
    {
        let pass = cell.split(first);
        Lane {
            pass,
            number,
            keys,
            shape,
        }
    }

    /// Makes a call on the lane, which meets its conditions by the lane's own calls: one event of
    /// the volume. It waits while other threads have the volume.
    pub fn turn<R: Threads + Wait + Sync>(
        &mut self,
        rt: &R,
        cell: &Cell<SharedVolume<D>>,
        call: Call,
    ) -> Called
        requires pass { IsPassOf cell.now self.old.pass }
        requires lane { IsLaneOf sector_of (known self.old.pass) self.old.number self.old.keys
            self.old.shape }
        requires meets { StandsSo sealed opened (known self.old.pass)
            (λ start alone. MeetsAlone (seals_at sealed opened start) alone
            (event_of self.old.number call)) }
        requires front { HasFront call }
        ensures pass { IsPassOf cell.now self.new.pass }
        ensures lane { IsLaneOf sector_of (known self.new.pass) self.new.number self.new.keys
            self.new.shape }
        ensures same { IsSamePass (known self.old.pass) (known self.new.pass) }
        ensures number { self.new.number ≡ self.old.number }
        ensures keys { self.new.keys ≡ self.old.keys }
        ensures shape { self.new.shape ≡ self.old.shape }
        ensures called { IsCalled sealed opened cell.now.limit self.old.number call
            (known self.old.pass) (known self.new.pass) result }
    {
        let event = SharedEvent::Client(LaneCall {
            lane: self.number,
            call,
        });
        match cell.turn(rt, &mut self.pass, event) {
            Ok(SharedOutcome::Client(answer)) => Called::Answered(answer),
            Ok(SharedOutcome::Worker(_)) => unreachable!(),
            Err(_) => Called::Spent,
        }
    }

    /// The pass, which can be joined into the first one.
    pub fn into_pass(self) -> Pass<SharedVolume<D>>
        ensures { result ≡ self.pass }
    {
        let Lane {
            pass,
            number: _,
            keys: _,
            shape: _,
        } = self;
        pass
    }
}
