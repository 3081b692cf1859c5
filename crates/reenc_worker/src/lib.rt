//! The worker of a conversion: it calls for one step after the other, each when a gate lets it, until
//! an answer ends it. What is converted, and who else uses it meanwhile, is behind a port, whose
//! meaning is the list of what its calls answered. The layer above may rely on one relation,
//! `AreAnswers`: the calls made are works alone, all but the last one went on, and the last one was
//! answered by the end that the worker tells.
#![tactic(auto)]

mod ends;
mod port;
mod running;

pub use ends::{NoFit, WorkAnswer, WorkerEnd};
pub use port::WorkerPort;
pub use running::work_loop;
