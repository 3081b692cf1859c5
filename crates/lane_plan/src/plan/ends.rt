// How an operation ends.

ghost use Rattle.std.specs.Prelude.{◌≡◌, ◌*◌, ◌<◌, ◌^◌};
ghost use Rattle.volume_machine.specs.Asks.{IsRead};
ghost use Rattle.lane_plan.specs.Plans.{failure_of};

use super::{Plan, Stage};
use crate::buffers::taken;
use crate::{Call, Next};
use base_terms::{Bytes, DEVICE_ERROR};
use plain_disk::Reply;
use volume_machine::{Ask, Open};

impl Plan {
    ghost use Rattle.std.specs.Prelude.{◌≡◌, []};
    ghost use Rattle.volume_machine.specs.Seals.{Seals};
    ghost use Rattle.lane_plan.specs.Plans.{Goes, HasBegun, IsFailure, IsFewer, IsTold};
    ghost use Rattle.lane_plan.specs.declared.calls.Answer.TheVariants as Answers;
    ghost use Rattle.lane_plan.specs.declared.calls.Call.TheVariants as Calls;
    ghost use Rattle.lane_plan.specs.declared.calls.Next.TheVariants as Nexts;
    ghost use Rattle.lane_plan.specs.declared.plan.Stage.TheVariants as Stages;

    /// What comes next once the settle is done.
    #[inline(always)]
    pub(super) fn settled(&mut self) -> Next
        requires { self.old.stage ≡ Stages.Settling }
        ensures goes { (seals : Seals) → Goes seals self.old Answers.Done self.new result }
        ensures begun { HasBegun result }
        ensures fewer { IsFewer self.old self.new result }
        ensures shape { self.new.shape ≡ self.old.shape }
        ensures session { self.new.operation.session ≡ self.old.operation.session }
    {
        match self.operation.after_settle(self.operation.settling()) {
            Some(now) => self.end(now),
            None => self.reply(Reply::Done),
        }
    }

    /// What comes next once a call failed.
    #[inline(always)]
    pub(super) fn failed(&mut self) -> Next
        requires { (seals : Seals) × (answer : _) × IsFailure answer
            × IsTold seals self.old answer }
        ensures goes { (seals : Seals) (answer : _) → IsFailure answer →
            Goes seals self.old answer self.new result }
        ensures begun { HasBegun result }
        ensures fewer { IsFewer self.old self.new result }
        ensures shape { self.new.shape ≡ self.old.shape }
        ensures session { self.new.operation.session ≡ self.old.operation.session }
    {
        match self.operation.after_settle(self.operation.failing()) {
            Some(now) => self.end(now),
            None => self.reply(Reply::Errno(DEVICE_ERROR)),
        }
    }

    /// The finish.
    #[inline(always)]
    fn end(&mut self, now: Open) -> Next
        ensures next { result ≡ Nexts.Call Calls.Finish }
        ensures is { self.new ≡ record self.old { operation = now; stage = Stages.Ending } }
    {
        self.operation = now;
        self.stage = Stage::Ending;
        Next::Call(Call::Finish)
    }

    /// The reply once the operation has finished.
    #[inline(always)]
    pub(super) fn finished(&mut self) -> Next
        requires told { (seals : Seals) × IsTold seals self.old Answers.Done }
        requires stage { self.old.stage ≡ Stages.Ending }
        ensures goes { (seals : Seals) → Goes seals self.old Answers.Done self.new result }
        ensures begun { HasBegun result }
        ensures fewer { IsFewer self.old self.new result }
        ensures shape { self.new.shape ≡ self.old.shape }
        ensures session { self.new.operation.session ≡ self.old.operation.session }
    {
        if self.operation.failed {
            return self.reply(failure(self.operation, self.shape.atom));
        }
        match self.operation.ask {
            Ask::Read { length, .. } => {
                let content = taken(self.alloc, &mut self.whole).into_text(length as usize);
                Next::Reply(Reply::Content(content), Bytes::new(Vec::new(self.alloc)))
            }
            Ask::Write { .. } | Ask::Flush => self.reply(Reply::Done),
        }
    }

    /// A reply, with the buffer that is left.
    #[inline(always)]
    pub(super) fn reply(&mut self, reply: Reply) -> Next
        ensures next { result ≡ Nexts.Reply reply self.old.whole }
        ensures is { self.new ≡ record self.old { whole = [] } }
    {
        let buffer = taken(self.alloc, &mut self.whole);
        let len = buffer.len();
        Next::Reply(reply, buffer.into_text(len))
    }
}

/// The error of an operation that has failed on blocks of `atom` bytes: of a read with the offset
/// of the piece that wasn't read.
fn failure(operation: Open, atom: u32) -> Reply
    requires { IsRead operation.ask → operation.next * atom < 2 ^ 64 }
    ensures { result ≡ failure_of operation atom }
{
    match operation.ask {
        Ask::Read { .. } => Reply::ErrnoAt(DEVICE_ERROR, operation.next * u64::from(atom)),
        Ask::Write { .. } | Ask::Flush => Reply::Errno(DEVICE_ERROR),
    }
}
