// The pieces of an operation, one after the other.

ghost use Rattle.std.specs.Prelude.{◌≡◌, ◌↔◌, true};
ghost use Rattle.lane_plan.specs.Plans.{MustSettle};

use super::{Plan, Stage};
use crate::Call;
use crate::buffers::{put, taken, unseal_front};
use base_terms::{Buffer, bytes_are_below_256};
use cipher_laws::SectorCipher;
use segment_map::{Map, Piece};
use std::thread::Threads;
use volume_machine::{Ask, Keys, Prepared, Sealers};

impl Plan {
    ghost use Rattle.std.specs.Prelude.{◌≡◌, ◌↔◌, ◌+◌, ◌-◌, ◌*◌, ◌<◌, ◌≤◌, ◌⊎◌, ◌^◌, [], false};
    ghost use Rattle.std.specs.Prelude.{length, take, drop};
    ghost use Rattle.cipher_laws.specs.Bytes.{AreBytes};
    ghost use Rattle.sector_disk.specs.Geometry.{IsAtom};
    ghost use Rattle.plain_disk.specs.declared.operation.Op.{Op};
    ghost use Rattle.segment_map.specs.declared.map.Map.{Map};
    ghost use Rattle.volume_machine.specs.Alone.{Alone};
    ghost use Rattle.volume_machine.specs.Seals.{KeysFit, Seals, seals_of};
    ghost use Rattle.lane_plan.specs.Plans.{Awaits, Goes, HasPlace, IsBack, IsBegun, IsOnly};
    ghost use Rattle.lane_plan.specs.Plans.{IsPart};
    ghost use Rattle.lane_plan.specs.Plans.{IsTakenIn, IsTold, calls_left, place_in, source_in};
    ghost use Rattle.lane_plan.specs.declared.calls.Answer.TheVariants as Answers;
    ghost use Rattle.lane_plan.specs.declared.calls.Next.TheVariants as Nexts;

    /// The next call of an operation all of whose pieces so far were made.
    #[inline(always)]
    pub(super) fn go_on<R: Threads + Sync, C: SectorCipher + Sync>(
        &mut self,
        rt: &R,
        sealers: &Sealers,
        keys: &Keys<C>,
        map: Map,
    ) -> Call
        requires fits { KeysFit C.sector keys.now self.old.shape.atom self.old.shape.blocks }
        requires back { (op : Op) × (alone : Alone) × IsBack self.old op alone map }
        ensures awaits { (op : Op) (alone : Alone) → IsBack self.old op alone map →
            Awaits (seals_of C.sealed C.opened self.old.shape.atom keys.now)
            self.new op alone result }
        ensures begun { IsBegun result }
        ensures fewer { calls_left self.new
            ≤ 1 + (self.old.operation.range.end - self.old.operation.next) }
        ensures shape { self.new.shape ≡ self.old.shape }
        ensures same { self.new.operation ≡ self.old.operation }
    {
        if self.operation.next == self.operation.range.end {
            return self.last_call();
        }
        let piece = map.next_piece(self.operation.rest());
        self.stage = Stage::Moving { map, piece };
        let len = piece.count as usize * self.shape.atom as usize;
        match self.operation.ask {
            Ask::Read { .. } => Call::Read(self.lent(piece), len),
            Ask::Write { .. } => {
                let from = self.source_of(piece);
                Call::Write(self.prepared(rt, sealers, keys, piece, from, len))
            }
            Ask::Flush => unreachable!(),
        }
    }

    /// The call after all pieces.
    #[inline(always)]
    fn last_call(&mut self) -> Call
        requires all { self.old.operation.next ≡ self.old.operation.range.end }
        ensures awaits { (seals : Seals) (op : Op) (alone : Alone) (map : Map) →
            IsBack self.old op alone map → Awaits seals self.new op alone result }
        ensures begun { IsBegun result }
        ensures fewer { calls_left self.new ≤ 1 }
        ensures shape { self.new.shape ≡ self.old.shape }
        ensures same { self.new.operation ≡ self.old.operation }
    {
        if must_settle(self.operation.ask) {
            self.stage = Stage::Settling;
            return Call::Settle;
        }
        self.stage = Stage::Ending;
        Call::Finish
    }

    /// Whether a piece is all of the operation.
    fn is_only(&self, piece: Piece) -> bool
        requires { self.now.operation.range.start ≤ self.now.operation.range.end }
        ensures { (result ≡ false) ↔ IsPart self.now.operation piece }
    {
        piece.count == self.operation.range.end - self.operation.range.start
    }

    /// The buffer of a piece: the whole one where it is all of the operation.
    #[inline(always)]
    fn lent(&mut self, piece: Piece) -> Buffer
        requires { self.old.operation.range.start ≤ self.old.operation.range.end }
        ensures part { IsPart self.old.operation piece → (result ≡ self.old.part)
            × (self.new ≡ record self.old { part = [] }) }
        ensures whole { IsOnly self.old.operation piece →
            (result ≡ self.old.whole) × (self.new ≡ record self.old { whole = [] }) }
        ensures same { self.new ≡ record self.old { whole = self.new.whole; part = self.new.part } }
    {
        if self.is_only(piece) {
            return taken(self.alloc, &mut self.whole);
        }
        taken(self.alloc, &mut self.part)
    }

    /// The next piece of a body or of zeros, which begins at byte `from` of the whole buffer,
    /// sealed.
    #[inline(always)]
    fn prepared<R: Threads + Sync, C: SectorCipher + Sync>(
        &mut self,
        rt: &R,
        sealers: &Sealers,
        keys: &Keys<C>,
        piece: Piece,
        from: usize,
        len: usize,
    ) -> Prepared
        requires known { IsAtom self.old.shape.atom }
        requires fits { KeysFit C.sector keys.now self.old.shape.atom (piece.first + piece.count) }
        requires order { self.old.operation.range.start ≤ self.old.operation.range.end }
        requires size { len ≡ piece.count * self.old.shape.atom }
        requires small { from + len < 2 ^ 63 }
        requires whole { from + len ≤ length self.old.whole }
        requires only { from ≡ 0 ⊎ IsPart self.old.operation piece }
        requires part { IsPart self.old.operation piece → len ≤ length self.old.part }
        ensures bytes { result.bytes
            ≡ (seals_of C.sealed C.opened self.old.shape.atom keys.now).sealed
            piece.side piece.first (take len (drop from self.old.whole)) }
        ensures length { length result.bytes ≡ len }
        ensures are_bytes { AreBytes result.bytes }
        ensures plain { AreBytes (take len (drop from self.old.whole)) }
        ensures room { IsPart self.old.operation piece → result.room ≡ length self.old.part }
        ensures rest { IsPart self.old.operation piece → self.new.whole ≡ self.old.whole }
        ensures same { self.new ≡ record self.old { whole = self.new.whole; part = self.new.part } }
    {
        let buffer = self.filled(piece, from, len);
        bytes_are_below_256(buffer.front(len));
        Prepared::seal(rt, sealers, keys, self.shape.atom, piece, buffer, len)
    }

    /// The buffer of a piece of a body, with its bytes at the front.
    #[inline(always)]
    fn filled(&mut self, piece: Piece, from: usize, len: usize) -> Buffer
        requires order { self.old.operation.range.start ≤ self.old.operation.range.end }
        requires small { from + len < 2 ^ 63 }
        requires whole { from + len ≤ length self.old.whole }
        requires only { from ≡ 0 ⊎ IsPart self.old.operation piece }
        requires part { IsPart self.old.operation piece → len ≤ length self.old.part }
        ensures front { take len result ≡ take len (drop from self.old.whole) }
        ensures long { len ≤ length result }
        ensures room { IsPart self.old.operation piece → length result ≡ length self.old.part }
        ensures rest { IsPart self.old.operation piece → self.new.whole ≡ self.old.whole }
        ensures same { self.new ≡ record self.old { whole = self.new.whole; part = self.new.part } }
    {
        if self.is_only(piece) {
            return taken(self.alloc, &mut self.whole);
        }
        let mut buffer = taken(self.alloc, &mut self.part);
        put(&mut buffer, 0, &self.whole.front(from + len)[from..]);
        buffer
    }

    /// Where the bytes of a piece stand in the operation's.
    fn place_of(&self, piece: Piece) -> usize
        requires order { self.now.operation.range.start ≤ piece.first }
        requires small { place_in self.now piece < 2 ^ 63 }
        ensures { result ≡ place_in self.now piece }
    {
        (piece.first - self.operation.range.start) as usize * self.shape.atom as usize
    }

    /// Where the bytes that a piece writes begin in the whole buffer: zeros stand at its front
    /// alone.
    fn source_of(&self, piece: Piece) -> usize
        requires order { self.now.operation.range.start ≤ piece.first }
        requires small { place_in self.now piece < 2 ^ 63 }
        ensures { result ≡ source_in self.now piece }
    {
        if self.zeroes {
            return 0;
        }
        self.place_of(piece)
    }

    /// The next call once a piece was read.
    #[inline(always)]
    pub(super) fn got<R: Threads + Sync, C: SectorCipher + Sync>(
        &mut self,
        rt: &R,
        sealers: &Sealers,
        keys: &Keys<C>,
        buffer: Buffer,
        len: usize,
    ) -> Call
        requires fits { KeysFit C.sector keys.now self.old.shape.atom self.old.shape.blocks }
        requires told { IsTold (seals_of C.sealed C.opened self.old.shape.atom keys.now)
            self.old (Answers.Got buffer len) }
        ensures goes { Goes (seals_of C.sealed C.opened self.old.shape.atom keys.now)
            self.old (Answers.Got buffer len) self.new (Nexts.Call result) }
        ensures begun { IsBegun result }
        ensures fewer { calls_left self.new < calls_left self.old }
        ensures shape { self.new.shape ≡ self.old.shape }
        ensures session { self.new.operation.session ≡ self.old.operation.session }
    {
        let Stage::Moving { map, piece } = self.stage else {
            unreachable!()
        };
        let mut buffer = buffer;
        unseal_front(rt, sealers, keys, self.shape.atom, piece, &mut buffer, len);
        self.take_in(piece, buffer, len);
        self.operation = self.operation.moved(piece);
        self.go_on(rt, sealers, keys, map)
    }

    /// Puts an opened piece behind those before it. One that is all of the operation lies where it
    /// is to.
    #[inline(always)]
    fn take_in(&mut self, piece: Piece, buffer: Buffer, len: usize)
        requires order { self.old.operation.range.start ≤ self.old.operation.range.end }
        requires front { len ≤ length buffer }
        requires part { IsPart self.old.operation piece → HasPlace self.old piece len }
        ensures only { IsOnly self.old.operation piece →
            self.new.whole ≡ buffer }
        ensures part { IsPart self.old.operation piece →
            IsTakenIn self.old self.new piece len buffer }
        ensures same { self.new ≡ record self.old { whole = self.new.whole; part = self.new.part } }
    {
        if self.is_only(piece) {
            self.whole = buffer;
            return;
        }
        let at = self.place_of(piece);
        put(&mut self.whole, at, buffer.front(len));
        self.part = buffer;
    }

    /// The next call once a piece was written.
    #[inline(always)]
    pub(super) fn written<R: Threads + Sync, C: SectorCipher + Sync>(
        &mut self,
        rt: &R,
        sealers: &Sealers,
        keys: &Keys<C>,
        buffer: Buffer,
    ) -> Call
        requires fits { KeysFit C.sector keys.now self.old.shape.atom self.old.shape.blocks }
        requires told { IsTold (seals_of C.sealed C.opened self.old.shape.atom keys.now)
            self.old (Answers.Written buffer) }
        ensures goes { Goes (seals_of C.sealed C.opened self.old.shape.atom keys.now)
            self.old (Answers.Written buffer) self.new (Nexts.Call result) }
        ensures begun { IsBegun result }
        ensures fewer { calls_left self.new < calls_left self.old }
        ensures shape { self.new.shape ≡ self.old.shape }
        ensures session { self.new.operation.session ≡ self.old.operation.session }
    {
        let Stage::Moving { map, piece } = self.stage else {
            unreachable!()
        };
        self.put_back(piece, buffer);
        self.operation = self.operation.moved(piece);
        self.go_on(rt, sealers, keys, map)
    }

    /// Keeps the buffer of a piece that was written.
    #[inline(always)]
    fn put_back(&mut self, piece: Piece, buffer: Buffer)
        requires { self.old.operation.range.start ≤ self.old.operation.range.end }
        ensures part { IsPart self.old.operation piece →
            (self.new.whole ≡ self.old.whole) × (self.new.part ≡ buffer) }
        ensures same { self.new ≡ record self.old { whole = self.new.whole; part = self.new.part } }
    {
        if self.is_only(piece) {
            self.whole = buffer;
            return;
        }
        self.part = buffer;
    }
}

/// Whether an operation is to be kept for certain after its pieces: a flush, and a write of some
/// bytes with `fua`.
fn must_settle(ask: Ask) -> bool
    ensures { (result ≡ true) ↔ MustSettle ask }
{
    match ask {
        Ask::Read { .. } => false,
        Ask::Write { length, fua, .. } => fua && length > 0,
        Ask::Flush => true,
    }
}
