//! A volume that threads share: the machine of a cell, the lanes by which threads of clients ask it,
//! and the worker of its conversion. A call of a plan is one event of one history, whoever asks, and
//! so is a step of the worker; each makes at most one device call. Bytes of clients are sealed and
//! opened between the calls, without the volume.
//!
//! The layer above may rely on this.
//! - A machine stands for a history of deeds from the volume that was handed in: each entry is an
//!   event of the lane whose number is the asker's name, with its outcome, or a step of the worker,
//!   whose name is the last lane's number.
//! - A lane is known by its own calls alone, whatever steps of the worker stand between them. An
//!   operation that is executed on it makes calls that answer just this operation, with this reply
//!   and for its session, whatever other lanes and the worker do meanwhile.
//! - Where the history is full the operation isn't answered. It may be under way then, for good; no
//!   other one is. A step of the worker isn't made then.
//! - Once the cell is closed its history is known as deeds, in which under each lane just the
//!   operations were answered that the calls made on the lane answered, and the worker's steps are
//!   those of its calls. Without a conversion they are one run of events.
//!
//! A lane that waits for blocks, and the worker where it does, sleeps outside the cell until blocks
//! were left. That it wakes, and that it ever gets its blocks, is no promise.
//!
//! `sent_volumes` shows that volumes, zones and loaded headers may go to other threads.
#![tactic(auto)]

mod asking;
mod calling;
mod departures;
mod executing;
mod lane;
mod laws;
mod machine;
mod sent_volumes;
mod sharing;
mod worker;

pub use asking::{SharedEvent, SharedOutcome, WorkDone};
pub use calling::{Called, LaneCall};
pub use departures::Departures;
pub use executing::Executed;
pub use lane::Lane;
pub use laws::{
    answers_join, shared_conversions_end, shared_volumes_serve_their_lanes, worker_ends_are_deeds,
};
pub use machine::SharedVolume;
pub use sent_volumes::{headers_may_go, volumes_may_go, zones_may_go};
pub use sharing::{SharedCell, Sharing, share};
pub use worker::SharedWorker;
