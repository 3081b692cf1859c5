// Operations executed on a lane, from their plan to their reply.

ghost use Rattle.std.specs.Prelude.{◌≡◌, [], IfOk, OnErr};
ghost use Rattle.shared_volume.specs.Ciphers.{opened, sealed, sector_of};
ghost use Rattle.shared_volume.specs.Lanes.{IsAtRest, IsLaneOf};
ghost use Rattle.volume_cell.specs.Passes.{IsPassOf, IsSamePass, known};

use crate::calling::Called;
use crate::lane::Lane;
use crate::sharing::SharedCell;
use base_terms::{Buffer, Bytes};
use gates::{Gate, Place};
use lane_plan::{Call, Next, Plan};
use plain_disk::{Op, Reply};
use sector_disk::Disk;
use std::alloc::{AllocError, Global};
use std::mem;
use std::sync::Wait;
use std::thread::Threads;

/// What came of an operation.
#[derive(Drop)]
pub enum Executed {
    /// Its reply, and a buffer for another use.
    Replied(Reply, Bytes),
    /// The history became full before the operation was answered. Either no call was made, or the
    /// operation is under way for good, and of a write a front of its bytes may have been tried.
    Spent,
}

impl<D: Disk> Lane<D> {
    ghost use Rattle.std.specs.Prelude.{ℕ, ◌≡◌, ◌*◌, None, OnErr};
    ghost use Rattle.lane_plan.specs.Calls.{ask_of};
    ghost use Rattle.lane_plan.specs.Plans.{HasRoom, IsBegun};
    ghost use Rattle.volume_machine.specs.Asks.{wrong_ask};
    ghost use Rattle.plain_disk.specs.declared.operation.Op.{Op};
    ghost use Rattle.shared_volume.specs.Executing.{IsAt, IsExecuted, IsOnTheWay, IsPlanFor};
    ghost use Rattle.shared_volume.specs.Lanes.{Knowing};

    /// Executes one operation of a session on the lane, on which none is under way, while other
    /// lanes have theirs executed, and answers it.
    ///
    /// A wrong operation is refused with its number, and else one on a broken volume with 5. Else it
    /// waits until no operation that came before it has blocks of its own in a way that conflicts,
    /// and then its pieces of at most 1 MiB are read or written in order, up to the first that
    /// fails; a write with `fua` of some bytes, and a flush, end in a sync. The reply is error 5
    /// exactly where one of these calls failed, and a failed write or sync breaks the volume. Of a
    /// read that failed the reply says at which piece, and a content is as long as its read. Zeroes
    /// go as a write of so many zero bytes.
    ///
    /// The spare buffer is for the content of a read, or for the zeros of a piece of at most 1 MiB,
    /// and `part` for pieces of at most 1 MiB of an operation that has more than one; what is in
    /// them isn't used. Where they aren't long enough memory is taken, before the admit and only
    /// where the operation isn't wrong. Where there is none, nothing was done, and both buffers are
    /// gone: `part` is an empty one. Else nothing is said of what `part` is afterwards.
    ///
    /// The gate may hold the thread after the operation was admitted, and before it asks again for
    /// its blocks. Before that it sleeps until blocks were left on some lane; it may wake
    /// for nothing, and asks then too.
    pub fn execute<R: Threads + Wait + Sync, G: Gate>(
        &mut self,
        rt: &R,
        alloc: Global,
        shared: &SharedCell<D>,
        gate: &G,
        session: u64,
        op: Op,
        spare: Bytes,
        part: &mut Buffer,
    ) -> Result<Executed, AllocError>
        requires pass { IsPassOf shared.now.cell self.old.pass }
        requires lane { IsLaneOf sector_of (known self.old.pass) self.old.number self.old.keys
            self.old.shape }
        requires rests { IsAtRest sealed opened (known self.old.pass) }
        ensures pass { IsPassOf shared.now.cell self.new.pass }
        ensures lane { IsLaneOf sector_of (known self.new.pass) self.new.number self.new.keys
            self.new.shape }
        ensures same { IsSamePass (known self.old.pass) (known self.new.pass) }
        ensures executed { IfOk result (IsExecuted sealed opened shared.now.cell.limit session op
            (known self.old.pass) (known self.new.pass)) }
        ensures err { OnErr result (self.new ≡ self.old) }
        ensures gone { OnErr result (part.new ≡ []) }
        ensures memory { OnErr result (wrong_ask self.old.shape.atom
            (self.old.shape.blocks * self.old.shape.atom) (ask_of op) ≡ None) }
        ensures short { OnErr result (HasRoom self.old.shape.atom op spare part.old → ⊥) }
    {
        let pieces = mem::replace(part, Buffer::empty(alloc));
        let mut plan = Plan::new(alloc, session, op, spare, pieces, self.shape)?;
        let executed = self.carry_out(rt, shared, gate, &mut plan);
        shared.departures.note();
        *part = plan.into_part();
        Ok(executed)
    }

    /// Makes the calls of a plan up to its reply.
    fn carry_out<R: Threads + Wait + Sync, G: Gate>(
        &mut self,
        rt: &R,
        shared: &SharedCell<D>,
        gate: &G,
        plan: &mut Plan,
    ) -> Executed
        requires pass { IsPassOf shared.now.cell self.old.pass }
        requires lane { IsLaneOf sector_of (known self.old.pass) self.old.number self.old.keys
            self.old.shape }
        requires rests { IsAtRest sealed opened (known self.old.pass) }
        requires plan { (session : ℕ) × (op : Op)
            × IsPlanFor self.old.shape plan.old session op }
        ensures pass { IsPassOf shared.now.cell self.new.pass }
        ensures lane { IsLaneOf sector_of (known self.new.pass) self.new.number self.new.keys
            self.new.shape }
        ensures same { IsSamePass (known self.old.pass) (known self.new.pass) }
        ensures number { self.new.number ≡ self.old.number }
        ensures keys { self.new.keys ≡ self.old.keys }
        ensures shape { self.new.shape ≡ self.old.shape }
        ensures executed { (session : ℕ) (op : Op) →
            IsPlanFor self.old.shape plan.old session op →
            IsExecuted sealed opened shared.now.cell.limit session op
            (known self.old.pass) (known self.new.pass) result }
    {
        let mut seen = shared.departures.count();
        let mut next = self.begin(rt, shared, plan);
        gate.pause(Place::Admitted);
        for _ in rt.forever() {
            match next {
                Some(Next::Call(call)) => {
                    seen = wait(rt, shared, gate, &call, seen);
                    next = self.step(rt, shared, plan, call);
                }
                Some(Next::Reply(reply, spare)) => return Executed::Replied(reply, spare),
                None => return Executed::Spent,
            }
        }
        unreachable!()
    }

    /// Begins the operation of a plan.
    fn begin<R: Threads + Wait + Sync>(
        &mut self,
        rt: &R,
        shared: &SharedCell<D>,
        plan: &mut Plan,
    ) -> Option<Next>
        requires pass { IsPassOf shared.now.cell self.old.pass }
        requires lane { IsLaneOf sector_of (known self.old.pass) self.old.number self.old.keys
            self.old.shape }
        requires rests { IsAtRest sealed opened (known self.old.pass) }
        requires plan { (session : ℕ) × (op : Op)
            × IsPlanFor self.old.shape plan.old session op }
        ensures pass { IsPassOf shared.now.cell self.new.pass }
        ensures lane { IsLaneOf sector_of (known self.new.pass) self.new.number self.new.keys
            self.new.shape }
        ensures same { IsSamePass (known self.old.pass) (known self.new.pass) }
        ensures number { self.new.number ≡ self.old.number }
        ensures keys { self.new.keys ≡ self.old.keys }
        ensures shape { self.new.shape ≡ self.old.shape }
        ensures at { (session : ℕ) (op : Op) →
            IsPlanFor self.old.shape plan.old session op →
            IsAt sealed opened shared.now.cell.limit self.old.number self.old.shape plan.new session op
            (known self.old.pass) (known self.new.pass) result }
    {
        match self.turn(rt, &shared.cell, plan.first()) {
            Called::Answered(answer) => Some(plan.told(rt, &shared.sealers, &self.keys, answer)),
            Called::Spent => None,
        }
    }

    /// Makes a call of a plan, and tells the plan what was answered: what comes next, unless the
    /// history is full.
    fn step<R: Threads + Wait + Sync>(
        &mut self,
        rt: &R,
        shared: &SharedCell<D>,
        plan: &mut Plan,
        call: Call,
    ) -> Option<Next>
        requires pass { IsPassOf shared.now.cell self.old.pass }
        requires lane { IsLaneOf sector_of (known self.old.pass) self.old.number self.old.keys
            self.old.shape }
        requires way { (first : Knowing _) × (session : ℕ) × (op : Op)
            × IsOnTheWay sealed opened self.old.number self.old.shape plan.old session op first
            (known self.old.pass) call }
        requires begun { IsBegun call }
        ensures pass { IsPassOf shared.now.cell self.new.pass }
        ensures lane { IsLaneOf sector_of (known self.new.pass) self.new.number self.new.keys
            self.new.shape }
        ensures same { IsSamePass (known self.old.pass) (known self.new.pass) }
        ensures number { self.new.number ≡ self.old.number }
        ensures keys { self.new.keys ≡ self.old.keys }
        ensures shape { self.new.shape ≡ self.old.shape }
        ensures at { (first : Knowing _) (session : ℕ) (op : Op) →
            IsOnTheWay sealed opened self.old.number self.old.shape plan.old session op first
            (known self.old.pass) call →
            IsAt sealed opened shared.now.cell.limit self.old.number self.old.shape plan.new session op
            first (known self.new.pass) result }
    {
        match self.turn(rt, &shared.cell, call) {
            Called::Answered(answer) => Some(plan.told(rt, &shared.sealers, &self.keys, answer)),
            Called::Spent => None,
        }
    }
}

/// Before an operation asks again for its blocks: waits until blocks were left oftener than was
/// seen before its last ask. Tells how often they were left by then.
fn wait<R: Wait, D: Disk, G: Gate>(
    rt: &R,
    shared: &SharedCell<D>,
    gate: &G,
    call: &Call,
    seen: u64,
) -> u64 {
    if let Call::Ask = call {
        gate.pause(Place::Waiting);
        shared.departures.wait(rt, seen);
    }
    shared.departures.count()
}
