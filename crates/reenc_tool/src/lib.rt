//! The commands of the server, over a bay that gives their disks, keys and clients. The top call
//! `run` reads the words of a command line, executes the command and prints one line. Its contract
//! is the server's promise: what the clients were put are the answers of one plain disk that was
//! asked their operations one after the other, and each status has its cause. That plain disk is
//! the disk as it is, or the content that an encrypted volume on it stands for under a passphrase.
//! A conversion of a volume is begun while no client is served; it is led to its end beside the clients
//! that use the volume, or without them. What serves no client is done by `run_alone`, which waits for
//! nobody: it returns once the calls that it makes have.
#![tactic(auto)]

mod alone;
mod commands;
mod demo_setting;
mod demonstrating;
mod ended;
mod header_text;
mod history;
mod making;
mod notices;
mod opening;
mod refusal_text;
mod resuming;
mod sessions;
mod showing;
mod starting;
mod text;
mod trouble;
mod volume_refusal;

pub use alone::{Alone, run_alone};
pub use bays::{Bay, BayFault, Link};
pub use command_line::{Demo, Serve, asked_help, explain_words};
pub use commands::run;
pub use ended::{Cause, Ended, Failing, Fit};
pub use header_report::FaultText;
pub use header_text::HeaderText;
pub use history::Pass;
pub use luks_slots::{Refusal as SlotRefusal, SlotFault};
pub use luks_store::StoreFault;
pub use nbd_session::{Ending, SessionEnd};
pub use refusal_text::RefusalText;
pub use resume_disk::Refusal as ResumeRefusal;
pub use volume_opening::Refusal as OpeningRefusal;
pub use volume_refusal::VolumeRefusal;
