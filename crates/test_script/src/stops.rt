// Commands that are stopped within their device calls, or whose device calls fail, and go on.

use crate::digests::sum_of;
use crate::disks::Limit;
use crate::program::Program;
use crate::running::{Left, Outcome, run_on};
use crate::world::World;
use anyhow::{Result, anyhow};
use sha2::{Digest, Sha256};
use std::alloc::Global;
use std::sync::Wait;
use std::thread::Threads;

/// The images of what a stop leaves that are tried.
const IMAGES: [&str; 4] = ["oldest", "newest", "0,1", "1,0,1"];

/// By how many places of their list the second stops of two images are apart.
const APART: usize = 5;

/// The calls of a disk none of which fails.
const NO_FAULT: Limit<'static> = Limit::Fail(&[]);

/// A command that is tried again and again, on disks that have the script's disk's name.
#[derive(Drop)]
pub(crate) struct Trial<'a, P: Program> {
    pub(crate) rt: &'a HostRuntime,
    pub(crate) program: &'a P,
    pub(crate) world: &'a World,
    pub(crate) words: &'a str,
}

impl<P: Program> Trial<'_, P> {
    /// Runs a command on a disk of these bytes, whose calls fail so, for these clients.
    fn run(
        &self,
        threads: &(impl Threads + Wait + Sync),
        words: &str,
        bytes: &[u8],
        limit: Limit<'_>,
        clients: &[Vec<u8>],
    ) -> Result<Outcome> {
        let alloc = self.rt.alloc();
        let mut disks = Vec::new(alloc);
        disks.push(self.world.disk()?.disk(alloc, bytes, limit)?)?;
        run_on(
            self.rt,
            threads,
            self.program,
            self.world,
            words,
            disks,
            clients,
        )
    }

    /// How the command ends without a client on a disk of these bytes, whose calls fail so, and what
    /// is left of it.
    fn left(
        &self,
        threads: &(impl Threads + Wait + Sync),
        bytes: &[u8],
        limit: Limit<'_>,
        left: &str,
    ) -> Result<Left> {
        self.run(threads, self.words, bytes, limit, &[])?
            .into_left(self.rt.alloc(), left)
    }

    /// What the script's client is put at the end, of a disk of these bytes.
    fn read(&self, threads: &(impl Threads + Wait + Sync), bytes: &[u8]) -> Result<String> {
        let alloc = self.rt.alloc();
        let next = &self.world.next;
        let clients = next.clients.as_slice();
        let Outcome { end, .. } = self.run(
            threads,
            next.reader.as_str(),
            bytes,
            NO_FAULT,
            clients,
        )?;
        let sum = sum_of(alloc, end.put.as_slice())?;
        let Some(front) = sum.as_str().get(..16) else {
            return Err(anyhow!("no sum"));
        };
        Ok(format!(in alloc; "{} {front}", end.status)?)
    }

    /// What `status` tells of the conversion of a disk of these bytes: the boundary and the zone.
    fn state(&self, threads: &(impl Threads + Wait + Sync), bytes: &[u8]) -> Result<String> {
        let alloc = self.rt.alloc();
        let shelf = self.world.disk()?;
        let words = format!(in alloc; "status {} --atom {}", shelf.name, shelf.atom)?;
        let Outcome { heard, .. } = self.run(threads, words.as_str(), bytes, NO_FAULT, &[])?;
        state_in(alloc, heard.text.as_str())
    }

    /// How an image goes on that a stop left: the command is stopped once more, and then it isn't,
    /// and the client is served. The images are hashed.
    fn go_on(
        &self,
        threads: &(impl Threads + Wait + Sync),
        image: &[u8],
        second: u64,
        left: &str,
        hasher: &mut Sha256,
    ) -> Result<String> {
        let alloc = self.rt.alloc();
        hasher.update(image);
        let again = self.left(threads, image, Limit::Stop(second), left)?;
        hasher.update(again.bytes.as_slice());
        let state = self.state(threads, again.bytes.as_slice())?;
        let last = self.left(threads, again.bytes.as_slice(), NO_FAULT, "held")?;
        hasher.update(last.bytes.as_slice());
        let read = self.read(threads, last.bytes.as_slice())?;
        let (again, last) = (again.end.status, last.end.status);
        Ok(format!(in alloc; "{again}, {state}, {last}, {read}")?)
    }

    /// What a stop comes to: how the command ended, and how four images go on.
    fn stop(
        &self,
        threads: &(impl Threads + Wait + Sync),
        bytes: &[u8],
        stop: u64,
        hasher: &mut Sha256,
    ) -> Result<String> {
        let alloc = self.rt.alloc();
        let mut line = format!(in alloc; "{stop}:")?;
        for which in 0..IMAGES.len() {
            let left = IMAGES[which];
            let image = self.left(threads, bytes, Limit::Stop(stop), left)?;
            let second = second_of(self.world.next.again.as_slice(), stop, which)?;
            let found = self.go_on(threads, image.bytes.as_slice(), second, left, hasher)?;
            line = if which == 0 {
                format!(in alloc; "{line} {}; {found}", image.end.text)?
            } else {
                format!(in alloc; "{line} | {found}")?
            };
        }
        Ok(line)
    }

    /// How the command ends on a disk of these bytes whose calls fail so, what it prints, and how many
    /// calls it made; and what is on the disk.
    fn fail(
        &self,
        threads: &(impl Threads + Wait + Sync),
        bytes: &[u8],
        limit: Limit<'_>,
    ) -> Result<(String, Left)> {
        let left = self.left(threads, bytes, limit, "held")?;
        let Left {
            end,
            heard,
            calls,
            ..
        } = &left;
        let told = format!(in self.rt.alloc(); "{} {:?} {calls}", end.text, heard.text)?;
        Ok((told, left))
    }

    /// The calls that the script tells, or where it tells none all that the command makes on a disk of
    /// these bytes, and so many behind the last one.
    fn tried(
        &self,
        threads: &(impl Threads + Wait + Sync),
        bytes: &[u8],
        more: u64,
    ) -> Result<Vec<u64>> {
        if !self.world.next.tried.is_empty() {
            return Ok(self.world.next.tried.clone()?);
        }
        let calls = self.left(threads, bytes, NO_FAULT, "held")?.calls;
        let mut list = Vec::new(self.rt.alloc());
        for number in 0..calls.saturating_add(more) {
            list.push(number)?;
        }
        Ok(list)
    }

    /// Stops the command within its device calls and behind the last one, and shows what each stop
    /// comes to, and the SHA-256 of all images and of what stands behind each.
    pub(crate) fn show_stops(&self, threads: &(impl Threads + Wait + Sync)) -> Result<()> {
        let bytes = self.world.disk()?.bytes.as_slice();
        let mut hasher = Sha256::new();
        for stop in self.tried(threads, bytes, 1)? {
            let line = self.stop(threads, bytes, stop, &mut hasher)?;
            println!(self.rt; "  {line}")?;
        }
        let sum = hex::encode(self.rt.alloc(), &hasher.finalize())?;
        println!(self.rt; "  {sum}")?;
        Ok(())
    }

    /// Lets device calls of the command fail in turn, and shows what each comes to, and how the command
    /// ends that is given again, behind which the client is served.
    pub(crate) fn show_faults(&self, threads: &(impl Threads + Wait + Sync)) -> Result<()> {
        let bytes = self.world.disk()?.bytes.as_slice();
        for number in self.tried(threads, bytes, 0)? {
            let (first, left) = self.fail(threads, bytes, Limit::Fail(&[number]))?;
            let sum = sum_of(self.rt.alloc(), left.bytes.as_slice())?;
            let (again, left) = self.fail(threads, left.bytes.as_slice(), NO_FAULT)?;
            let read = self.read(threads, left.bytes.as_slice())?;
            println!(self.rt; "  {number}: {first} {sum}; again {again}, {read}")?;
        }
        Ok(())
    }
}

/// The boundary and the zone that `status` has printed; `idle` where it has none.
fn state_in(alloc: Global, text: &str) -> Result<String> {
    let mut state = String::from_str(alloc, "idle")?;
    for line in text.lines() {
        if let Some(told) = line.strip_prefix("boundary: ") {
            state = String::from_str(alloc, told)?;
        } else if let Some(told) = line.strip_prefix("zone: ") {
            state = format!(in alloc; "{state} {told}")?;
        }
    }
    Ok(state)
}

/// The second stop of an image of a first one.
fn second_of(seconds: &[u64], stop: u64, which: usize) -> Result<u64> {
    if seconds.is_empty() {
        return Err(anyhow!("stops without second ones"));
    }
    let place = (stop as usize).wrapping_add(APART.wrapping_mul(which)) % seconds.len();
    Ok(seconds[place])
}
