// Commands that are run, and what they come to.

use crate::disks::{calls_of, left_on};
use crate::program::{Finished, Program};
use crate::sessions::{put_of, sessions_of};
use crate::setup::{Heard, Setup};
use crate::world::World;
use anyhow::{Result, anyhow};
use memory_disks::MemDisk;
use std::alloc::Global;
use std::sync::Wait;
use std::thread::Threads;

/// How a command ended, and its sessions.
pub(crate) struct End {
    pub(crate) status: u8,
    /// The status and its cause.
    pub(crate) text: String,
    /// How each session ended, and what its client was put, a line each.
    pub(crate) sessions: Vec<String>,
    /// What the first client of the first link was put.
    pub(crate) put: Vec<u8>,
}

// By hand, so that one that is dropped in place is one call to the prover.
impl Drop for End {
    fn drop(self) {
        let End {
            status: _,
            text,
            sessions,
            put,
        } = self;
        drop((text, sessions, put));
    }
}

/// What a command came to.
#[derive(Drop)]
pub(crate) struct Outcome {
    pub(crate) end: End,
    /// Why no header is shown, or no volume was opened.
    pub(crate) why: String,
    pub(crate) heard: Heard,
    /// The disk, and the one of a detached header, where they were handed back.
    pub(crate) disk: Option<MemDisk>,
    pub(crate) header: Option<MemDisk>,
}

/// How a command ended, what was heard of it, and what is left of the disk that was handed back.
pub(crate) struct Left {
    pub(crate) end: End,
    pub(crate) heard: Heard,
    /// How many device calls were made.
    pub(crate) calls: u64,
    pub(crate) bytes: Vec<u8>,
}

// By hand, for the same reason.
impl Drop for Left {
    fn drop(self) {
        let Left {
            end,
            heard,
            calls: _,
            bytes,
        } = self;
        drop((end, heard, bytes));
    }
}

impl Outcome {
    /// What is left of the disk that was handed back, and how the command ended.
    pub(crate) fn into_left(self, alloc: Global, left: &str) -> Result<Left> {
        let Outcome {
            end,
            heard,
            disk,
            ..
        } = self;
        let Some(disk) = disk else {
            return Err(anyhow!("no disk is handed back"));
        };
        let calls = calls_of(&disk);
        let bytes = left_on(alloc, disk, left)?;
        Ok(Left {
            end,
            heard,
            calls,
            bytes,
        })
    }
}

/// How a command ended, in words, and its sessions.
fn end_of(alloc: Global, finished: &Finished) -> Result<End> {
    let Finished {
        status,
        cause,
        memory,
        sessions,
        links,
        ..
    } = finished;
    let wanted = if *memory { " wanting memory" } else { "" };
    let text = format!(in alloc; "{status} {cause}{wanted}")?;
    let put = put_of(alloc, links.as_slice())?;
    let sessions = sessions_of(alloc, sessions.as_slice(), links.as_slice())?;
    Ok(End {
        status: *status,
        text,
        sessions,
        put,
    })
}

/// What a command came to that ended so, and of which this was heard.
fn outcome_of(alloc: Global, finished: Finished, heard: Heard) -> Result<Outcome> {
    let end = end_of(alloc, &finished)?;
    let Finished {
        why,
        disk,
        header,
        ..
    } = finished;
    Ok(Outcome {
        end,
        why,
        heard,
        disk,
        header,
    })
}

/// Runs a command on these disks, for these clients.
pub(crate) fn run_on(
    rt: &HostRuntime,
    threads: &(impl Threads + Wait + Sync),
    program: &impl Program,
    world: &World,
    words: &str,
    disks: Vec<(String, MemDisk)>,
    clients: &[Vec<u8>],
) -> Result<Outcome> {
    let mut setup = Setup::new(rt, world, words, disks, clients)?;
    let finished = setup.run(threads, program)?;
    let heard = setup.heard(rt.alloc())?;
    outcome_of(rt.alloc(), finished, heard)
}
