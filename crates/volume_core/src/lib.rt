//! A volume on a disk: lanes of clients read, write and flush its blocks. Each call is one event of
//! the machine of `volume_machine`, which makes at most one device call, and calls of different
//! lanes may come in any order. A table of locks keeps operations apart whose blocks meet, a map
//! says on which side of a conversion each block lies and where, and each side has its key. The
//! layer above may rely on one definition, `Step`: every call ensures it, with what the disk tells.
//! By the laws of `volume_laws` the operations of every run of calls are then those of one plain
//! disk, and wherever a run stops the disk holds what that history allows.
//!
//! A volume whose header says that it is being converted can be armed; each call of `work` is then
//! one step of its conversion, a `WorkStep`, between the clients' calls and in any order with them.
//!
//! `volume_worker` leads a conversion to its end on a volume at hand.
#![tactic(auto)]

mod answers;
mod calls;
mod lanes;
mod volume;
mod volume_worker;
mod working;

pub use answers::{Admitted, Asked, PieceRead, PieceWritten, Progress, Settled, Worked};
pub use hotzone::ZoneFault;
pub use lanes::Lanes;
pub use volume::Volume;
pub use volume_machine::Grant;
pub use volume_worker::{NoFit, WorkerEnd, converted_of, finish_conversion, told};
