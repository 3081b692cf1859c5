// A conversion led to its end on a volume at hand, on which no client has an operation under way:
// the worker's steps, one after the other, each of at most one device call. The layer above may rely
// on one relation, `HasConverted`: the calls are steps of the volume's worker alone, from the old
// state to the new one, in the form that the laws of `volume_laws` take, and by the end that is told
// the volume is converted, or stays in use as far as it is, or is broken.

mod finishing;
mod telling;

pub use finishing::finish_conversion;
pub use reenc_worker::{NoFit, WorkerEnd};
pub use telling::{converted_of, told};
