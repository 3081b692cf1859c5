// What a script has settled: names, disks, key files, and how its next command is run.

use crate::bytes::{Lexicon, rising};
use crate::disks::{Limit, Shelf, new_shelf};
use crate::draws::drawn_requests;
use crate::editing::edited;
use crate::headers::change;
use crate::lines::{Change, Origin, Setting};
use crate::metadata::{Stand, nothing};
use crate::numbers::numbers;
use anyhow::{Context, Result, anyhow};
use memory_disks::MemDisk;
use std::alloc::Global;
use std::fs;

/// How the next command is run.
pub(crate) struct Next {
    /// What each client sends, and in pieces of how many bytes; how many it takes.
    pub(crate) clients: Vec<Vec<u8>>,
    pub(crate) piece: u64,
    pub(crate) taken: u64,
    /// How many bytes the output takes.
    pub(crate) room: u64,
    /// The numbers of the calls that fail, by whose they are.
    pub(crate) fails: Vec<(String, Vec<u64>)>,
    /// Behind how many device calls the disk is stopped.
    pub(crate) stop: Option<u64>,
    /// What is left of the disks behind the command.
    pub(crate) left: String,
    /// The step at which clients and the worker meet.
    pub(crate) meet: Option<u64>,
    /// The device calls that are tried, and those within which the command is stopped once more.
    pub(crate) tried: Vec<u64>,
    pub(crate) again: Vec<u64>,
    /// The words of the command that serves the clients at the end.
    pub(crate) reader: String,
}

// By hand, so that one that is dropped in place is one call to the prover.
impl Drop for Next {
    fn drop(self) {
        let Next {
            clients,
            piece: _,
            taken: _,
            room: _,
            fails,
            stop: _,
            left,
            meet: _,
            tried,
            again,
            reader,
        } = self;
        drop((clients, fails, left));
        drop((tried, again, reader));
    }
}

impl Next {
    pub(crate) fn new(alloc: Global) -> Result<Next> {
        Ok(Next {
            clients: Vec::new(alloc),
            piece: 4096,
            taken: 65536,
            room: 4096,
            fails: Vec::new(alloc),
            stop: None,
            left: String::from_str(alloc, "held")?,
            meet: None,
            tried: Vec::new(alloc),
            again: Vec::new(alloc),
            reader: String::new(alloc),
        })
    }

    /// The numbers of the calls that fail of this name.
    pub(crate) fn fails_of(&self, whose: &str) -> &[u64] {
        for (name, calls) in self.fails.as_slice().iter() {
            if name.as_str() == whose {
                return calls.as_slice();
            }
        }
        &[]
    }

    /// Adds for each byte of these a client whose input ends before it.
    fn cut(&mut self, alloc: Global, bytes: &[u8]) -> Result<()> {
        for length in 0..bytes.len() {
            self.clients
                .push(Vec::from_slice(alloc, &bytes[..length])?)?;
        }
        Ok(())
    }
}

/// What a script has settled.
pub(crate) struct World {
    pub(crate) lexicon: Lexicon,
    /// The disk, and that of a detached header, in this order.
    pub(crate) disks: Vec<Shelf>,
    pub(crate) keys: Vec<(String, Vec<u8>)>,
    /// The first byte that is drawn next, and by how much they rise.
    pub(crate) first: u8,
    pub(crate) step: u8,
    pub(crate) next: Next,
    /// The header of a conversion that goes on step by step.
    pub(crate) stand: Stand,
}

// By hand, so that one that is dropped in place is one call to the prover.
impl Drop for World {
    fn drop(self) {
        let World {
            lexicon,
            disks,
            keys,
            first: _,
            step: _,
            next,
            stand,
        } = self;
        drop((lexicon, disks, keys));
        drop((next, stand));
    }
}

impl World {
    pub(crate) fn new(alloc: Global) -> Result<World> {
        Ok(World {
            lexicon: Lexicon::new(alloc),
            disks: Vec::new(alloc),
            keys: Vec::new(alloc),
            first: 0,
            step: 1,
            next: Next::new(alloc)?,
            stand: nothing(alloc),
        })
    }

    /// Names bytes.
    pub(crate) fn name(&mut self, rt: &HostRuntime, name: &str, origin: Origin<'_>) -> Result<()> {
        let alloc = rt.alloc();
        let bytes = match origin {
            Origin::Spelled(spelling) => self.lexicon.spelled(alloc, spelling)?,
            Origin::Text(text) => Vec::from_slice(alloc, text.as_bytes())?,
            Origin::File(path) => fs::read(rt, path).context("a script's file")?,
            Origin::Rising {
                length,
                first,
                modulus,
            } => rising(alloc, length, first, modulus)?,
            Origin::Drawn { seed, atom } => drawn_requests(alloc, seed, atom)?,
            Origin::Edited(rest) => edited(alloc, &self.lexicon, rest)?,
        };
        self.lexicon.name(alloc, name, bytes)
    }

    /// Makes a disk, in place of one of its name.
    pub(crate) fn make_disk(
        &mut self,
        alloc: Global,
        name: &str,
        atom: u64,
        atoms: u64,
        byte: u8,
    ) -> Result<()> {
        let made = new_shelf(alloc, name, atom, atoms, byte)?;
        if self
            .disks
            .first()
            .is_some_and(|first| first.name.as_str() == name)
        {
            self.disks.clear();
        }
        self.disks.push(made)?;
        Ok(())
    }

    /// Changes the bytes of the disk of a name.
    pub(crate) fn change(&mut self, alloc: Global, name: &str, what: Change<'_>) -> Result<()> {
        let World { lexicon, disks, .. } = self;
        for shelf in disks.as_mut_slice().iter_mut() {
            if shelf.name.as_str() == name {
                return change(alloc, lexicon, shelf, what);
            }
        }
        Err(anyhow!("no disk {name}"))
    }

    /// Settles something.
    pub(crate) fn set(&mut self, alloc: Global, setting: Setting<'_>) -> Result<()> {
        let next = &mut self.next;
        match setting {
            Setting::Key { name, spelling } => {
                let bytes = self.lexicon.spelled(alloc, spelling)?;
                self.keys.push((String::from_str(alloc, name)?, bytes))?;
            }
            Setting::Client(spelling) => {
                next.clients.push(self.lexicon.spelled(alloc, spelling)?)?;
            }
            Setting::Cuts(spelling) => {
                let bytes = self.lexicon.spelled(alloc, spelling)?;
                next.cut(alloc, bytes.as_slice())?;
            }
            Setting::Limits { piece, room } => {
                next.piece = piece;
                next.taken = room;
            }
            Setting::Room(room) => next.room = room,
            Setting::Seeds { first, step } => {
                self.first = first;
                self.step = step;
            }
            Setting::Fails { whose, calls } => {
                let calls = numbers(alloc, calls, 0)?;
                next.fails.push((String::from_str(alloc, whose)?, calls))?;
            }
            Setting::Stop(calls) => next.stop = Some(calls),
            Setting::Left(left) => next.left = String::from_str(alloc, left)?,
            Setting::Meet(step) => next.meet = Some(step),
            Setting::Tried(calls) => next.tried = numbers(alloc, calls, 0)?,
            Setting::Again(calls) => next.again = numbers(alloc, calls, 0)?,
            Setting::Reader(words) => next.reader = String::from_str(alloc, words)?,
        }
        Ok(())
    }

    /// The disk.
    pub(crate) fn disk(&self) -> Result<&Shelf> {
        match self.disks.first() {
            Some(shelf) => Ok(shelf),
            None => Err(anyhow!("no disk")),
        }
    }

    /// The disks of the next command, whose calls fail or are stopped as is settled.
    pub(crate) fn take_disks(&self, alloc: Global) -> Result<Vec<(String, MemDisk)>> {
        let mut disks = Vec::new(alloc);
        for shelf in self.disks.as_slice().iter() {
            let limit = match self.next.stop {
                Some(calls) if disks.is_empty() => Limit::Stop(calls),
                _ => Limit::Fail(self.next.fails_of(shelf.name.as_str())),
            };
            disks.push(shelf.disk(alloc, shelf.bytes.as_slice(), limit)?)?;
        }
        Ok(disks)
    }
}
