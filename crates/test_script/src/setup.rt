// What a command is run with: its words, and the bay, the seeds, the output and the gate around it.

use crate::meeting::ScriptGate;
use crate::program::{Finished, Program};
use crate::world::World;
use anyhow::{Result, anyhow};
use base_terms::Bytes;
use bays::MemBay;
use command_line::explain_words;
use io_edge::{FixedSeeds, ListSink, ListSource};
use memory_disks::MemDisk;
use std::alloc::Global;
use std::sync::Wait;
use std::thread::Threads;

/// What a command is run with.
pub(crate) struct Setup {
    words: Vec<String>,
    bay: MemBay,
    seeds: FixedSeeds,
    out: ListSink,
    gate: ScriptGate<HostRuntime>,
}

// By hand, so that one that is dropped in place is one call to the prover.
impl Drop for Setup {
    fn drop(self) {
        let Setup {
            words,
            bay,
            seeds,
            out,
            gate,
        } = self;
        drop((words, bay, seeds, out, gate));
    }
}

/// What a command printed, and what its gate was told.
pub(crate) struct Heard {
    /// What was printed.
    pub(crate) text: String,
    /// What the gate was told that people should know, and of a conversion.
    pub(crate) notices: Vec<String>,
    pub(crate) course: String,
    /// Whether clients and worker met.
    pub(crate) met: &'static str,
}

// By hand, for the same reason.
impl Drop for Heard {
    fn drop(self) {
        let Heard {
            text,
            notices,
            course,
            met: _,
        } = self;
        drop((text, notices, course));
    }
}

/// The key files of a bay, which gives the first of a name: the last that the script has.
fn keys_of(alloc: Global, world: &World) -> Result<Vec<(String, Bytes)>> {
    let mut keys = Vec::new(alloc);
    for (name, bytes) in world.keys.as_slice().iter().rev() {
        keys.push((name.clone()?, Bytes::new(bytes.clone()?)))?;
    }
    Ok(keys)
}

/// The connections of clients that send these bytes.
fn connections_of(
    alloc: Global,
    world: &World,
    clients: &[Vec<u8>],
) -> Result<Vec<(ListSource, ListSink)>> {
    let piece = world.next.piece.max(1) as usize;
    let room = world.next.taken as usize;
    let mut connections = Vec::new(alloc);
    for client in clients {
        let source = ListSource::new(alloc, client.as_slice(), piece, &[])?;
        connections.push((source, ListSink::new(alloc, room, &[])?))?;
    }
    Ok(connections)
}

/// The bay's own calls that fail, and those of each link.
fn lists_of(alloc: Global, world: &World) -> Result<Vec<Vec<u64>>> {
    let mut lists = Vec::new(alloc);
    for name in ["bay", "link0", "link1", "link2", "link3"] {
        lists.push(Vec::from_slice(alloc, world.next.fails_of(name))?)?;
    }
    Ok(lists)
}

/// The bay of these disks, with the clients at the address `A`.
fn bay_of(
    alloc: Global,
    world: &World,
    disks: Vec<(String, MemDisk)>,
    clients: &[Vec<u8>],
) -> Result<MemBay> {
    let keys = keys_of(alloc, world)?;
    let connections = connections_of(alloc, world, clients)?;
    let lists = lists_of(alloc, world)?;
    let address = String::from_str(alloc, "A")?;
    Ok(MemBay::new(alloc, disks, keys, address, connections, lists))
}

/// The seeds that are drawn next.
fn seeds_of(alloc: Global, world: &World) -> Result<FixedSeeds> {
    let mut bytes = [0; 256];
    let mut byte = world.first;
    for place in bytes.iter_mut() {
        *place = byte;
        byte = byte.wrapping_add(world.step);
    }
    Ok(FixedSeeds::new(alloc, &bytes, world.next.fails_of("seeds"))?)
}

/// The words of a command.
fn words_of(alloc: Global, line: &str) -> Result<Vec<String>> {
    let mut words = Vec::new(alloc);
    if !line.is_empty() {
        for word in line.split(' ') {
            words.push(String::from_str(alloc, word)?)?;
        }
    }
    Ok(words)
}

/// The first line that a person is told of words that ask for nothing.
pub(crate) fn told_of_words(alloc: Global, line: &str) -> Result<String> {
    let words = words_of(alloc, line)?;
    match explain_words(alloc, words.as_slice())? {
        None => Ok(String::from_str(alloc, "taken")?),
        Some(text) => Ok(String::from_str(alloc, text.as_str().lines().next().unwrap_or(""))?),
    }
}

impl Setup {
    /// What a command is run with on these disks, for these clients.
    pub(crate) fn new(
        rt: &HostRuntime,
        world: &World,
        words: &str,
        disks: Vec<(String, MemDisk)>,
        clients: &[Vec<u8>],
    ) -> Result<Setup> {
        let alloc = rt.alloc();
        let bay = bay_of(alloc, world, disks, clients)?;
        let words = words_of(alloc, words)?;
        let seeds = seeds_of(alloc, world)?;
        let out = ListSink::new(alloc, world.next.room as usize, world.next.fails_of("out"))?;
        Ok(Setup {
            words,
            bay,
            seeds,
            out,
            gate: ScriptGate::new(alloc, *rt, world.next.meet),
        })
    }

    /// Runs the command.
    pub(crate) fn run(
        &mut self,
        threads: &(impl Threads + Wait + Sync),
        program: &impl Program,
    ) -> Result<Finished> {
        let Setup {
            words,
            bay,
            seeds,
            out,
            gate,
        } = self;
        program.run(threads, words.as_slice(), bay, seeds, out, gate)
    }

    /// What it printed, and what the gate was told.
    pub(crate) fn heard(&self, alloc: Global) -> Result<Heard> {
        let Ok(text) = str::from_utf8(self.out.as_slice()) else {
            return Err(anyhow!("no text is printed"));
        };
        let text = String::from_str(alloc, text)?;
        let notices = self.gate.notices()?;
        let course = self.gate.course(alloc)?;
        Ok(Heard {
            text,
            notices,
            course,
            met: self.gate.met(),
        })
    }
}
