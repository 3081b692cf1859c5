//! The edge of the server: where bytes come from and go to, where seeds are drawn, and where a
//! thread may be held and how far a conversion is told. A source tells what is left of its input and a sink what it was put, so far
//! as they are objects in memory; real streams tell nothing of content. A sink tells what it holds
//! back, which is nothing once it was pushed out. Each object counts its faults and says how many
//! there were, and a call answers `Failed` only where that count rose in the call. The layer above
//! may rely on these clauses for every implementation, and on nothing else. The objects in memory
//! fail exactly at the calls that their plans name, and where a piece passes the room of a sink;
//! such a call changes nothing but the counts of its plan. The real ones stand on streams and
//! devices of the system: each call says by their relations which of their calls were made and what
//! these answered.
#![tactic(auto)]

mod calls;
mod counted;
mod entropy_source;
mod fault_plan;
mod gathering;
mod input_stream;
mod output_stream;
mod seeds;
mod sink;
mod source;

pub use counted::{Counted, answered};
pub use entropy_source::{EntropySource, OsSeeds};
pub use fault_plan::FaultPlan;
pub use gathering::{GatheringWriter, WritePair};
pub use input_stream::{InputStream, StdSource};
pub use output_stream::{OutputStream, StdSink};
pub use seeds::{FixedSeeds, Seeds};
pub use sink::{ListSink, Sink, VoidSink};
pub use source::{ListSource, Source};
