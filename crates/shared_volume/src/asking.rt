// What is asked of a volume that threads share.

use crate::calling::LaneCall;
use gates::Converted;
use lane_plan::Answer;
use volume_core::Worked;

/// An event of a volume that threads share: a call of a lane of clients, or the next step of the
/// conversion's worker, by the number of its lane.
#[derive(Drop)]
pub enum SharedEvent {
    Client(LaneCall),
    Worker(u32),
}

/// What came of an event.
#[derive(Drop)]
pub enum SharedOutcome {
    Client(Answer),
    Worker(WorkDone),
}

/// What came of a step of the worker.
#[derive(Clone, Copy, PartialEq, Eq)]
pub struct WorkDone {
    pub worked: Worked,
    /// How far the conversion was behind it.
    pub converted: Converted,
    /// Whether the worker has left blocks with it, for which lanes may wait.
    pub has_left: bool,
}
