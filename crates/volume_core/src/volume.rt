// A volume: its disk, its map and keys, and the operations under way on it.

ghost use Rattle.std.specs.Prelude.{◌≡◌, ◌<◌, ◌≤◌, ◌↔◌, false, [], length, take, ℕ, None, IfOk};
ghost use Rattle.std.specs.Prelude.{IfErr, OnOk, IsTrue, is_some, replicate};
ghost use Rattle.volume_core.specs.Answers.{outcome_of_admitted, outcome_of_asked, outcome_of_read};
ghost use Rattle.volume_core.specs.Answers.{outcome_of_written, outcome_of_settled, buffer_of_read};
ghost use Rattle.volume_core.specs.Answers.{buffer_of_written, KeepsBuffer, is_idle};
ghost use Rattle.range_lock.specs.Locks.{has_entry};
ghost use Rattle.volume_core.specs.Calls.{Locks};
ghost use Rattle.volume_machine.specs.Asks.{kind_of, range_of};
ghost use Rattle.volume_machine.specs.Beginnings.{IsFresh};
ghost use Rattle.volume_machine.specs.Events.{admits, asks, reads, fetches, writes, settles};
ghost use Rattle.volume_machine.specs.Events.{finishes, done, refused};
ghost use Rattle.volume_machine.specs.Beginnings.{ChangeNothing};
ghost use Rattle.volume_machine.specs.Seals.{KeysFit, seals_of};
ghost use Rattle.volume_machine.specs.Sound.{AreApart, IsSound, MapFits};
ghost use Rattle.volume_machine.specs.States.{IsClient, open_at};
ghost use Rattle.volume_machine.specs.Steps.{Holds, IsReadyFor, Meets, Step};
ghost use Rattle.volume_machine.specs.Beginnings.{IsWholeDisk, new_volume};

use crate::answers::{Admitted, Asked, PieceRead, PieceWritten, Progress, Settled};
use crate::calls::{read_edge, read_next, sync_all, write_next};
use crate::lanes::Lanes;
use base_terms::{BlockRange, Buffer, DEVICE_ERROR};
use cipher_laws::SectorCipher;
use hotzone::Zone;
use range_lock::{Standing, Table};
use sector_cipher::Context;
use sector_disk::Disk;
use segment_map::{Direction, Map};
use std::alloc::{AllocError, Global};
use std::marker::Model;
use volume_machine::{Ask, Grant, Keys, Open, Prepared, open_of, set_lane};

/// A volume on a disk: a map says where each of its blocks lies and under which key, and its lanes
/// have operations under way. A lane has one operation at a time, from its `admit` on: a read or a
/// write to its `finish`, a flush to its `settle`. The last lane is the conversion's own, and the
/// calls are given a lane below it.
///
/// Each call on a lane is one event: it makes at most one device call and takes no memory. `Device`
/// comes exactly where that device call failed, and `Broken` exactly where the volume was broken: a
/// write or a sync had failed before, or a read of the conversion behind a zone's first commit. A
/// lane's failed read breaks nothing.
pub struct Volume<D: Disk, C: SectorCipher + Copy> {
    pub(crate) disk: D,
    pub(crate) map: Map,
    pub(crate) keys: Keys<C>,
    pub(crate) table: Table,
    pub(crate) lanes: Vec<Option<Open>>,
    pub(crate) broken: bool,
    pub(crate) zone: Option<Zone<C>>,
}

impl<D: Disk, C: SectorCipher + Copy> Model for Volume<D, C> {
    ghost use Rattle.volume_machine.specs.States.{State};
    ghost use Rattle.volume_core.specs.Volumes.{IsVolume, state_of};
    ghost use Rattle.volume_core.specs.Zones.{work_in};
    ghost use Rattle.volume_machine.specs.declared.keys.Keys.{Keys};

    ghost Value = { State (Keys C) };

    ghost view = { λ v. state_of v.map v.keys v.table v.lanes.items v.broken
        (work_in C.sealed C.opened v.zone) (D.device v.disk) };

    ghost invariant = { λ v. IsVolume C.sector v.zone
        (state_of v.map v.keys v.table v.lanes.items v.broken
        (work_in C.sealed C.opened v.zone) (D.device v.disk)) };
}

// By hand, so that a volume that is dropped in place is one call to the prover.
impl<D: Disk + Drop, C: SectorCipher + Copy> Drop for Volume<D, C> {
    fn drop(self) {
        drop(self.into_disk());
    }
}

impl<D: Disk> Volume<D, Context> {
    /// The volume of a whole disk as it is: all blocks are new, at their places, and no key changes
    /// their bytes. It has so many lanes. Where there is no memory the disk is handed back.
    pub fn plain(alloc: Global, disk: D, lanes: u32) -> Result<Volume<D, Context>, D>
        requires { 0 < lanes }
        ensures map { IfOk result (λ volume.
            IsWholeDisk (D.device disk).size (D.device disk).atoms volume.map) }
        ensures apart { IfOk result (λ volume. AreApart volume.map) }
        ensures keys { IfOk result (λ volume. ChangeNothing
            (seals_of ⟦<Context as SectorCipher>⟧.sealed ⟦<Context as SectorCipher>⟧.opened
            volume.map.atom volume.keys)) }
        ensures fresh { IfOk result IsFresh }
        ensures sound { IfOk result IsSound }
        ensures lanes { IfOk result (λ volume. volume.lanes ≡ replicate lanes None) }
        ensures disk { IfOk result (λ volume. volume.disk ≡ D.device disk) }
        ensures refused { IfErr result (λ same. same ≡ disk) }
    {
        let blocks = disk.atoms();
        let map = Map {
            atom: disk.atom(),
            blocks,
            boundary: blocks,
            direction: Direction::Forward,
            zone: 0,
            old_place: 0,
            new_place: 0,
        };
        let keys = Keys {
            old: Context::linear(),
            old_tweak: 0,
            new: Context::linear(),
            new_tweak: 0,
        };
        Volume::of(alloc, disk, map, keys, lanes)
    }
}

impl<D: Disk, C: SectorCipher + Copy> Volume<D, C> {
    /// The volume of this map with the keys of its sides, and with so many lanes, as by `opened`.
    /// Where there is no memory the disk is handed back.
    pub fn of(
        alloc: Global,
        disk: D,
        map: Map,
        keys: Keys<C>,
        lanes: u32,
    ) -> Result<Volume<D, C>, D>
        requires lanes { 0 < lanes }
        requires atom { map.atom ≡ (D.device disk).size }
        requires map { MapFits map (D.device disk).atoms }
        requires zone { map.zone ≡ 0 }
        requires keys { KeysFit C.sector keys map.atom map.blocks }
        ensures volume { IfOk result (λ volume. volume ≡ new_volume map keys lanes
            (D.device disk)) }
        ensures fresh { IfOk result IsFresh }
        ensures sound { IfOk result IsSound }
        ensures refused { IfErr result (λ same. same ≡ disk) }
    {
        match Lanes::new(alloc, lanes) {
            Ok(lanes) => Ok(Volume::opened(disk, map, keys, lanes)),
            Err(AllocError) => Err(disk),
        }
    }

    /// The volume of this map with the keys of its sides, and with lanes whose room was taken
    /// before: it takes no memory. The blocks of the map have the size of the disk's atoms, and
    /// their places lie on the disk; the sectors of both keys divide a block, and the IV numbers of
    /// all blocks fit 64 bits. No zone is open: of one that was being converted when its disk was
    /// left nobody knows yet which atoms are old, so a recovery comes first. What is promised of
    /// runs of events asks besides that no two blocks have the same place.
    pub fn opened(disk: D, map: Map, keys: Keys<C>, lanes: Lanes) -> Volume<D, C>
        requires atom { map.atom ≡ (D.device disk).size }
        requires map { MapFits map (D.device disk).atoms }
        requires zone { map.zone ≡ 0 }
        requires keys { KeysFit C.sector keys map.atom map.blocks }
        ensures volume { result ≡ new_volume map keys lanes (D.device disk) }
        ensures fresh { IsFresh result }
        ensures sound { IsSound result }
    {
        let (table, lanes) = lanes.into_parts();
        Volume {
            disk,
            map,
            keys,
            table,
            lanes,
            broken: false,
            zone: None,
        }
    }

    /// How far the conversion is.
    pub fn progress(&self) -> Progress
        ensures { result ≡ record {
          boundary = self.now.map.boundary;
          blocks = self.now.map.blocks;
          idle = is_idle self.now.map;
          atom = self.now.map.atom;
          armed = is_some self.now.work;
          broken = self.now.broken;
        } }
    {
        let Map {
            boundary,
            blocks,
            ..
        } = self.map;
        Progress {
            boundary,
            blocks,
            idle: match self.map.direction {
                Direction::Forward => boundary == blocks,
                Direction::Backward => boundary == 0,
            },
            atom: self.map.atom,
            armed: self.zone.is_some(),
            broken: self.broken,
        }
    }

    /// Where the blocks lie now.
    pub fn map(&self) -> Map
        ensures is { result ≡ self.now.map }
        ensures fits { MapFits result self.now.disk.atoms }
        ensures sound { IsSound self.now }
    {
        self.map
    }

    /// A copy of the keys.
    pub fn keys(&self) -> Keys<C>
        ensures is { result ≡ self.now.keys }
        ensures fits { KeysFit C.sector result self.now.map.atom self.now.map.blocks }
    {
        self.keys
    }

    /// Whether a lane is one of clients: the last lane is the conversion's own.
    pub fn is_client(&self, lane: u32) -> bool
        ensures { IsTrue result ↔ IsClient self.now lane }
    {
        (lane as usize) + 1 < self.lanes.len()
    }

    /// The operation that a lane has under way.
    pub fn operation(&self, lane: u32) -> Option<Open>
        ensures { result ≡ open_at self.now.lanes lane }
    {
        match self.lanes.get(lane as usize) {
            Some(operation) => *operation,
            None => None,
        }
    }

    /// Whether the operation of a lane holds its blocks.
    pub fn is_held(&self, lane: u32) -> bool
        ensures { IsTrue result ↔ Holds self.now lane }
    {
        if !self.table.has_entry(lane) {
            return false;
        }
        match self.table.ask(lane) {
            Standing::Held => true,
            Standing::Waiting(_) => false,
        }
    }

    /// The disk.
    pub fn into_disk(self) -> D
        ensures size { (D.device result).size ≡ self.map.atom }
        ensures disk { D.device result ≡ self.disk }
    {
        let Volume {
            disk,
            map: _,
            keys: _,
            table: _,
            lanes: _,
            broken: _,
            zone,
        } = self;
        drop(zone);
        disk
    }

    /// The blocks that an operation reads or writes, or the number with which it is refused now: a
    /// wrong one with its own, and else one on a broken volume with 5.
    fn judge(&self, ask: Ask) -> Result<BlockRange, u32>
        ensures ready { OnOk result (IsReadyFor self.now ask) }
        ensures blocks { IfOk result (λ range. range ≡ range_of self.now.map.atom ask) }
        ensures sound { IsSound self.now }
        ensures refused { IfErr result (λ number. (lane session : ℕ) →
            Step self.now (admits lane session ask) (refused number) self.now) }
    {
        let Map { atom, blocks, .. } = self.map;
        if let Some(number) = ask.wrong(atom, blocks * u64::from(atom)) {
            return Err(number);
        }
        if self.broken {
            return Err(DEVICE_ERROR);
        }
        Ok(ask.range(atom))
    }

    /// Begins an operation of a session on a lane that has none. One that `judge` refuses is
    /// refused with its number, and nothing was done; any other begins as by `enter`.
    pub fn admit(&mut self, lane: u32, session: u64, ask: Ask) -> Admitted
        requires { Meets self.old (admits lane session ask) }
        ensures { Step self.old (admits lane session ask) (outcome_of_admitted result) self.new }
    {
        match self.judge(ask) {
            Ok(range) => self.enter(lane, session, ask, range),
            Err(number) => Admitted::Refused(number),
        }
    }

    /// Begins an operation that `judge` has given its blocks, on a lane that has none: the event of
    /// an `admit` that refuses nothing. A read or a write enters the table of locks behind all
    /// others, and has its blocks where no earlier entry conflicts. A flush has no blocks and never
    /// waits.
    fn enter(&mut self, lane: u32, session: u64, ask: Ask, range: BlockRange) -> Admitted
        requires meets { Meets self.old (admits lane session ask) }
        requires ready { IsReadyFor self.old ask }
        requires blocks { range ≡ range_of self.old.map.atom ask }
        ensures { Step self.old (admits lane session ask) (outcome_of_admitted result) self.new }
    {
        set_lane(&mut self.lanes, lane, Some(Open::new(session, ask, range)));
        match lock(&mut self.table, lane, range, ask) {
            Standing::Held => Admitted::Held(Grant {
                map: self.map,
                range,
            }),
            Standing::Waiting(other) => Admitted::Waiting(other),
        }
    }

    /// Tells where the read or write of a lane stands now.
    pub fn ask(&self, lane: u32) -> Asked
        requires { Meets self.now (asks lane) }
        ensures { Step self.now (asks lane) (outcome_of_asked result) self.now }
    {
        let open = open_of(&self.lanes, lane);
        match self.table.ask(lane) {
            Standing::Held => Asked::Held(Grant {
                map: self.map,
                range: open.range,
            }),
            Standing::Waiting(other) => Asked::Waiting(other),
        }
    }

    /// Reads the next piece of a lane's read, which holds its blocks and has `len` bytes, into the
    /// front of a buffer. The bytes come sealed, as they lie on the disk. The buffer comes back as
    /// long as it was.
    pub fn piece_read(&mut self, lane: u32, buffer: Buffer, len: usize) -> PieceRead
        requires meets { Meets self.old (reads lane len) }
        requires front { len ≤ length buffer }
        ensures step { Step self.old (reads lane len) (outcome_of_read len result) self.new }
        ensures buffer { length (buffer_of_read result) ≡ length buffer }
        ensures kept { KeepsBuffer buffer result }
    {
        let mut open = open_of(&self.lanes, lane);
        let read = read_next(
            &mut self.disk,
            self.map,
            self.broken,
            &mut open,
            buffer,
            len,
        );
        set_lane(&mut self.lanes, lane, Some(open));
        read
    }

    /// Reads an edge of a lane's write, which holds its blocks and has made no piece yet, into the
    /// front of a buffer: the first block that it covers in part, or the second one. The bytes come
    /// sealed, as they lie on the disk. The buffer comes back as long as it was. A read that fails
    /// breaks nothing; the write then ends.
    pub fn edge_read(&mut self, lane: u32, which: u32, buffer: Buffer) -> PieceRead
        requires meets { Meets self.old (fetches lane which) }
        requires front { self.old.map.atom ≤ length buffer }
        ensures step { Step self.old (fetches lane which)
            (outcome_of_read self.old.map.atom result) self.new }
        ensures buffer { length (buffer_of_read result) ≡ length buffer }
        ensures kept { KeepsBuffer buffer result }
    {
        let mut open = open_of(&self.lanes, lane);
        let read = read_edge(
            &mut self.disk,
            self.map,
            self.broken,
            &mut open,
            which,
            buffer,
        );
        set_lane(&mut self.lanes, lane, Some(open));
        read
    }

    /// Writes the next piece of a lane's write, which holds its blocks. The bytes are sealed with
    /// the volume's keys as that piece. A write that fails breaks the volume.
    pub fn piece_write(&mut self, lane: u32, prepared: Prepared) -> PieceWritten
        requires { Meets self.old (writes lane prepared.bytes) }
        ensures step { Step self.old (writes lane prepared.bytes)
            (outcome_of_written result) self.new }
        ensures buffer { length (buffer_of_written result) ≡ prepared.room }
        ensures kept { take (length prepared.bytes) (buffer_of_written result) ≡ prepared.bytes }
    {
        let mut open = open_of(&self.lanes, lane);
        let written = write_next(
            &mut self.disk,
            self.map,
            &mut self.broken,
            &mut open,
            prepared,
        );
        set_lane(&mut self.lanes, lane, Some(open));
        written
    }

    /// Waits until every write so far is certain to be kept: the last event of a flush, and that of
    /// a write with `fua` and some bytes before its finish. A sync that fails breaks the volume.
    pub fn settle(&mut self, lane: u32) -> Settled
        requires { Meets self.old (settles lane) }
        ensures { Step self.old (settles lane) (outcome_of_settled result) self.new }
    {
        let mut open = open_of(&self.lanes, lane);
        let settled = sync_all(&mut self.disk, &mut self.broken, &mut open);
        set_lane(&mut self.lanes, lane, open.after_settle(open));
        settled
    }

    /// Ends a lane's read or write, which holds its blocks, and leaves them. It is complete, or one
    /// of its events has failed.
    pub fn finish(&mut self, lane: u32)
        requires { Meets self.old (finishes lane) }
        ensures { Step self.old (finishes lane) done self.new }
    {
        self.table.leave(lane);
        set_lane(&mut self.lanes, lane, None);
    }
}

// Where an operation stands that has just begun: behind all others where it locks its blocks.
pub(crate) fn lock(table: &mut Table, lane: u32, range: BlockRange, ask: Ask) -> Standing
    requires room { length table.old.entries < table.old.room }
    requires new { has_entry lane table.old.entries ≡ false }
    ensures locks { Locks ask (record { lane = lane; range = range; kind = kind_of ask })
        table.old.entries table.new.entries result }
    ensures room { table.new.room ≡ table.old.room }
{
    if !ask.has_lock() {
        return Standing::Held;
    }
    table.enter(lane, range, ask.kind())
}
