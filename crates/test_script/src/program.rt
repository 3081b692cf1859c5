// What runs the commands of a script.

ghost use Rattle.std.specs.Prelude.{◌≡◌};
ghost use Rattle.std.specs.Thread.{IsSync};
ghost use Rattle.reenc_meta.specs.Placements.{all_atoms};
ghost use Rattle.sector_disk.specs.Geometry.{IsDisk};

use crate::meeting::ScriptGate;
use anyhow::Result;
use bays::{MemBay, MemLink};
use io_edge::{FixedSeeds, ListSink};
use luks_rules::Valid;
use memory_disks::MemDisk;
use nbd_session::SessionEnd;
use std::sync::Wait;
use std::thread::Threads;

/// A command that was run.
#[derive(Drop)]
pub struct Finished {
    /// The exit status.
    pub status: u8,
    /// Its cause, in words.
    pub cause: String,
    /// Whether memory was wanted for a session's end.
    pub memory: bool,
    /// Why no header is shown, or no volume was opened; empty where neither was wanted.
    pub why: String,
    /// The disk, and the one of a detached header, where they were handed back.
    pub disk: Option<MemDisk>,
    pub header: Option<MemDisk>,
    /// The ends of the sessions of each link, in their order.
    pub sessions: Vec<Vec<SessionEnd>>,
    /// The links that were handed back.
    pub links: Vec<MemLink>,
}

/// The program whose commands a script runs.
pub trait Program {
    /// Runs the command that the words ask for, by these threads. The bay gives its disks, key files and clients; the seeds
    /// what is drawn; it prints into the sink, and clients and a conversion pass the gate.
    ///
    /// # Errors
    ///
    /// What came of it can't be told.
    fn run<T: Threads + Wait + Sync>(
        &self,
        threads: &T,
        words: &[String],
        bay: &mut MemBay,
        seeds: &mut FixedSeeds,
        out: &mut ListSink,
        gate: &ScriptGate<HostRuntime>,
    ) -> Result<Finished>
        requires sync { IsSync T.row };

    /// The text of the metadata with which a conversion of a volume begins, under a new key of its
    /// own; or what stands in the way. Words are the passphrase, the bytes of the key and of a sector, the
    /// direction, `journal` or `checksum`, and the bytes of the largest zone.
    ///
    /// # Errors
    ///
    /// The words ask for no such conversion.
    fn begin(&self, valid: &Valid, words: &[&str]) -> Result<Result<String, String>>
        requires { IsDisk valid.now.sizes.atom (all_atoms valid.now.sizes) };
}
