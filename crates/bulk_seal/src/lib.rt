//! Many atoms sealed or unsealed at once, by any cipher of sectors, in parts that threads work on.
//! The layer above may rely on the answer being that of the whole sealed in one piece.
#![tactic(auto)]

mod many;

pub use many::{seal_many, unseal_many};
