//! The handshake of the NBD protocol ("Fixed newstyle negotiation" of its document), as a function
//! of the bytes that a client sends. After the greeting and the client's flags come options. The
//! one export, `volume`, which the empty name stands for too, is chosen by EXPORT_NAME or GO, told
//! by INFO and named by LIST; by STRUCTURED_REPLY the client asks for reads that are answered by
//! chunks; ABORT ends the session; every other option is answered as one that isn't supported.
//! Every input has its ending.
//!
//! The layer above may rely on two clauses of `negotiate`. The bytes that were put are the greeting
//! and the answers to the options that were taken, however the bytes came in pieces, and the
//! negotiation came to an end by the option or the bytes that say so (`negotiates`). All that was
//! put has gone out at the end, unless the sink failed (`out`).
#![tactic(auto)]

mod export;
mod negotiation;
mod options;

pub use export::Export;
pub use negotiation::{Agreed, negotiate};
