// The calls of plans, made on a volume.

ghost use Rattle.lane_plan.specs.Calls.{event_of, outcome_of};
ghost use Rattle.shared_volume.specs.Calling.{HasFront, IsAnswerOf};
ghost use Rattle.volume_machine.specs.Steps.{Meets, Step};

use cipher_laws::SectorCipher;
use lane_plan::{Answer, Call};
use sector_disk::Disk;
use volume_core::{Admitted, Asked, PieceRead, PieceWritten, Settled, Volume};

/// A call of a lane of clients, by the lane's number.
#[derive(Drop)]
pub struct LaneCall {
    pub lane: u32,
    pub call: Call,
}

/// What came of a call.
#[derive(Drop)]
pub enum Called {
    Answered(Answer),
    /// The history has as many entries as the cell can take: the call wasn't made.
    Spent,
}

/// Makes a call of a lane.
pub(crate) fn make_call<D: Disk, C: SectorCipher + Copy>(
    volume: &mut Volume<D, C>,
    lane: u32,
    call: Call,
) -> Answer
    requires meets { Meets volume.old (event_of lane call) }
    requires front { HasFront call }
    ensures step { Step volume.old (event_of lane call) (outcome_of result) volume.new }
    ensures answers { IsAnswerOf call result }
{
    match call {
        Call::Admit { session, ask } => match volume.admit(lane, session, ask) {
            Admitted::Held(grant) => Answer::Held(grant),
            Admitted::Waiting(other) => Answer::Waiting(other),
            Admitted::Refused(number) => Answer::Refused(number),
        },
        Call::Ask => match volume.ask(lane) {
            Asked::Held(grant) => Answer::Held(grant),
            Asked::Waiting(other) => Answer::Waiting(other),
        },
        Call::Read(buffer, len) => match volume.piece_read(lane, buffer, len) {
            PieceRead::Got(buffer) => Answer::Got(buffer, len),
            PieceRead::Device(_) => Answer::Device,
            PieceRead::Broken(_) => Answer::Broken,
        },
        Call::Write(prepared) => match volume.piece_write(lane, prepared) {
            PieceWritten::Done(buffer) => Answer::Written(buffer),
            PieceWritten::Device(_) => Answer::Device,
            PieceWritten::Broken(_) => Answer::Broken,
        },
        Call::Settle => match volume.settle(lane) {
            Settled::Done => Answer::Done,
            Settled::Device => Answer::Device,
            Settled::Broken => Answer::Broken,
        },
        Call::Finish => {
            volume.finish(lane);
            Answer::Done
        }
    }
}
