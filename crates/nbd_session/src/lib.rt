//! A session with one client by the NBD protocol ("Fixed newstyle negotiation" and "Transmission"
//! of its document), as a function of the bytes that the client sends. After the handshake of
//! `nbd_hand` the client asks for reads, writes, zeroes and flushes, each of which is submitted to
//! a port and answered: by a simple reply, or a read by chunks where structured replies were agreed
//! on. A request of another type, or with a flag that its type may not have, is answered 22 here.
//! Every input has its ending.
//!
//! The layer above may rely on three clauses of `serve_session`. The bytes that were put are the
//! answers to the bytes that were taken and the port's replies, however the bytes came in pieces,
//! and the operations that the port was asked are those of the bytes, in order (`session`). All
//! that was put has gone out at the end, unless the sink failed (`out`). A session ends as by a
//! spent port only where the port is spent (`spent`). By `reading_is_unique` the bytes leave no
//! choice in what was asked and how the session ended; by `reads_are_spelt` the chunks of each READ
//! spell what it came to. A session keeps one buffer, of at most 32 MiB, for the bodies and
//! contents of its operations.
//!
//! `serve_lanes` serves a client with several requests in flight, over as many ports, each of which
//! has a lane: a thread that takes a request, submits it and puts its reply. The source and the sink
//! lie in a cell of `volume_cell` each, so one history tells which lane took which request, and
//! another which reply went out when. By its clause `session` each request is answered by the lane
//! that took it, and the replies stand in the order in which they were put. By
//! `sessions_are_flights` the same clause holds of `serve_session`, with one lane, and says as much.
//! By `flights_read_as_sessions` the bytes leave no choice in what was asked of the lanes either.
#![tactic(auto)]

mod ending;
mod flights;
mod flying;
mod forms;
mod lane;
mod lanes;
mod port;
mod reader;
mod reading;
mod replies;
mod requests;
mod session;
mod spelling;
mod writer;

pub use ending::SessionEnd;
pub use flights::{flights_read_as_sessions, sessions_are_flights};
pub use lanes::{LanesServed, serve_lanes};
pub use nbd_hand::Export;
pub use nbd_stream::Ending;
pub use port::{Port, Submitted};
pub use reading::reading_is_unique;
pub use session::serve_session;
pub use spelling::reads_are_spelt;
