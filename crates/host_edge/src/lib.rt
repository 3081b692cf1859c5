//! The machine as a bay: its files and block devices are disks and keys, and its network is where
//! clients come from. It stands on the system's calls, which tell nothing of content; the layer above
//! may rely on each disk, key and link being what those calls gave by the name or the address that
//! was asked for, on sessions being dealt to the links in turn, and on a failure being counted where
//! the system refused something. What the system refuses, where clients may connect, and how far a
//! conversion is, is said on standard error.
#![tactic(auto)]

mod client_stream;
mod client_writer;
mod descriptors;
mod host_bay;
mod host_file;
mod host_link;
mod network;
mod notices;
mod progress;
mod socket_file;
mod streams;
mod watch;

pub use client_stream::ClientStream;
pub use client_writer::ClientWriter;
pub use descriptors::keep_standard_streams;
pub use host_bay::HostBay;
pub use host_file::HostFile;
pub use host_link::{HostLink, HostSink, HostSource};
pub use network::{HostListener, Listener, Network, accept};
pub use progress::{Course, ProgressGate, Told};
pub use socket_file::SocketFile;
pub use streams::{HangUp, HostReader, HostWriter, Patient, Peer};
pub use watch::Watch;
