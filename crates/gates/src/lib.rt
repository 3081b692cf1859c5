//! Gates: where a thread may be held, and to whom it is told how far a conversion is. A gate answers
//! nothing, so it can't change an answer.
#![tactic(auto)]

mod gate;

pub use gate::{Converted, Gate, OpenGate, Place};
