//! Many clients at once on one volume. Each link has a worker, a thread with a lane of its own of
//! the volume, which serves the link's sessions one after the other, and a volume in the middle of
//! its conversion may have one more, which leads the conversion on; the workers share the volume as
//! one machine, whose turns are single events and steps of the conversion. An operation whose blocks
//! another one has, or the conversion, waits until these are left, and any other goes on beside it.
//!
//! The layer above may rely on this.
//! - All calls are one list of deeds from the volume that was handed in to the one that is handed
//!   back: events of clients, and steps of the conversion where it was led. They executed of each
//!   session just the operations that it submitted, each once and in order. They are the history that
//!   is known by the pass that is handed back, entry by entry.
//! - Each link tells the sessions that its worker served, and stands so: it had none ahead, or it
//!   failed, or memory was wanted for the end of a session.
//! - A session ends since the port is spent only where the deeds are as many as the history can get,
//!   and only then is an operation of a client under way at the end, of a session of the lane's own
//!   link.
//! - Where the conversion was led, the last step of the deeds brought the end that is told, unless
//!   the history was full.
//!
//! In which order the operations of different sessions come is no promise, nor that two links are
//! ever served at once, or one beside the conversion.
#![tactic(auto)]

mod connection;
mod leading;
mod leavings;
mod link;
mod port;
mod serving;
mod worker;
mod workers;

pub use link::{MAX_SESSIONS, Standing};
pub use serving::{MAX_LINKS, Served, Unserved, VolumePass, serve};
