//! The clients of the demonstration, in memory: what each sends, over which connections they come,
//! and what follows where a server answered them well. So many clients have the blocks of a volume
//! among them, each a share of its own. A client begins a session by the NBD protocol ("Fixed
//! newstyle negotiation" and "Transmission" of its document), writes its blocks, each by a request,
//! flushes, reads each of them, and disconnects. What is written is told by a seed alone.
//!
//! The layer above may rely on `scripts`, whose connections give exactly what these clients send,
//! and on laws. A session that its input ended was asked just a client's operations
//! (`sessions_ask_these`). A history in which nothing else was asked, and nothing answered an error,
//! leaves what the clients wrote, and answers their reads with it (`histories_leave_the_content`).
//! `read_back` gives what the reads were answered, by all that the sessions put; it gives nothing
//! where a reply is missing or an error. `demonstrations_are_told` says of it that these are the bytes
//! that the blocks hold in the end. `demo_text` is what is printed.
#![tactic(auto)]

mod client_link;
mod connections;
mod contents;
mod demo_bay;
mod demonstration_laws;
mod history_laws;
mod input;
mod reading;
mod replies;
mod session_laws;
mod sure_seeds;
mod text;

pub use client_link::ClientLink;
pub use connections::scripts;
pub use demo_bay::{DEMO_NAME, DemoBay};
pub use demonstration_laws::demonstrations_are_told;
pub use history_laws::histories_leave_the_content;
pub use reading::read_back;
pub use session_laws::sessions_ask_these;
pub use sure_seeds::SureSeeds;
pub use text::demo_text;
