// The program whose commands the scripts run.

ghost use Rattle.std.specs.Prelude.{◌≡◌};
ghost use Rattle.reenc_meta.specs.Placements.{all_atoms};
ghost use Rattle.sector_disk.specs.Geometry.{IsDisk};
ghost use Rattle.std.specs.Thread.{IsSync};

use crate::beginnings::begun;
use anyhow::Result;
use bays::{MemBay, MemLink};
use io_edge::{FixedSeeds, ListSink};
use luks_rules::Valid;
use memory_disks::MemDisk;
use reenc_tool::{Ended, FaultText, RefusalText, run};
use std::alloc::Global;
use std::sync::Wait;
use std::thread::Threads;
use test_script::{Finished, Program, ScriptGate, text_of};

/// The commands of `reencd`, by its `run`.
#[derive(Drop)]
pub(crate) struct Tool {
    pub(crate) alloc: Global,
}

/// Why no header is shown, or no volume was opened.
fn why_of(alloc: Global, ended: &Ended<'_, MemDisk, MemLink>) -> Result<String> {
    Ok(match (&ended.fault, &ended.refusal) {
        (Some(fault), _) => format!(in alloc; "{}", FaultText(fault))?,
        (None, Some(refusal)) => format!(in alloc; "{}", RefusalText(refusal))?,
        (None, None) => String::new(alloc),
    })
}

/// The cause of a command's end in words, and why no header is shown, or no volume was opened.
fn texts_of(alloc: Global, ended: &Ended<'_, MemDisk, MemLink>) -> Result<(String, String)> {
    let why = why_of(alloc, ended)?;
    Ok((format!(in alloc; "{:?}", ended.cause)?, why))
}

/// A command that ended so.
fn told(alloc: Global, ended: Ended<'_, MemDisk, MemLink>) -> Result<Finished> {
    let texts = texts_of(alloc, &ended);
    let Ended {
        status,
        memory,
        disk,
        header,
        sessions,
        links,
        ..
    } = ended;
    let (cause, why) = texts?;
    Ok(Finished {
        status,
        cause,
        memory,
        why,
        disk,
        header,
        sessions,
        links,
    })
}

impl Program for Tool {
    fn run<T: Threads + Wait + Sync>(
        &self,
        threads: &T,
        words: &[String],
        bay: &mut MemBay,
        seeds: &mut FixedSeeds,
        out: &mut ListSink,
        gate: &ScriptGate<HostRuntime>,
    ) -> Result<Finished>
        requires sync { IsSync T.row }
    {
        let alloc = self.alloc;
        told(alloc, run(threads, alloc, words, bay, seeds, out, gate))
    }

    fn begin(&self, valid: &Valid, words: &[&str]) -> Result<Result<String, String>> {
        match begun(self.alloc, valid, words)? {
            Ok(begun) => Ok(Ok(text_of(self.alloc, &begun.meta)?)),
            Err(fault) => Ok(Err(format!(in self.alloc; "{fault:?}")?)),
        }
    }
}
