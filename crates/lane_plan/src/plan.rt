// The plan of an operation.

ghost use Rattle.std.specs.Prelude.{◌≡◌, ◌<◌, ℕ, Bool, List, length, take};
ghost use Rattle.plain_disk.specs.declared.operation.Op.TheVariants as Ops;
ghost use Rattle.lane_plan.specs.Calls.{ask_of};
ghost use Rattle.lane_plan.specs.Plans.{buffered, bytes_of, is_zeroes, spare_of};

mod ends;
mod pieces;

use crate::buffers::{grown, with_zeros};
use crate::{Answer, Call, Next};
use base_terms::{BlockRange, Buffer, Bytes};
use cipher_laws::SectorCipher;
use plain_disk::{Op, Reply};
use segment_map::{Map, Piece};
use std::alloc::{AllocError, Global};
use std::thread::Threads;
use volume_machine::{Ask, Keys, Open, Sealers};

/// The bytes of the longest piece: 1 MiB.
const MOST_BYTES: usize = 1_048_576;

/// What of a volume never changes: the bytes of a block, and how many blocks there are.
#[derive(Clone, Copy, PartialEq, Eq)]
pub struct Shape {
    pub atom: u32,
    pub blocks: u64,
}

/// Which call's answer a plan awaits.
#[derive(Clone, Copy)]
enum Stage {
    /// Its admit's, which will be refused.
    Refusing,
    /// Its admit's.
    Beginning,
    /// That of another ask.
    Waiting,
    /// That of this piece's read or write, under the map that it was granted.
    Moving { map: Map, piece: Piece },
    /// Its settle's.
    Settling,
    /// Its finish's.
    Ending,
}

/// The plan of one operation of a session.
#[derive(Drop)]
pub struct Plan {
    alloc: Global,
    shape: Shape,
    stage: Stage,
    // as the volume has it, from its grant on
    operation: Open,
    // the content, the body, or the zeros of a piece, but while an only piece is being made
    whole: Buffer,
    // zeros are written, which the front of the whole buffer has for any piece
    zeroes: bool,
    // for pieces that aren't all of the operation
    part: Buffer,
}

impl Plan {
    ghost use Rattle.std.specs.Prelude.{◌≡◌, ◌≢◌, ◌*◌, ◌≤◌, ◌⊎◌, Bool, ℕ, List, length, take, max};
    ghost use Rattle.std.specs.Prelude.{None, IfOk, OnErr};
    ghost use Rattle.plain_disk.specs.declared.operation.Op.TheVariants as Ops;
    ghost use Rattle.volume_machine.specs.Alone.{Alone};
    ghost use Rattle.volume_machine.specs.Asks.{wrong_ask};
    ghost use Rattle.volume_machine.specs.Seals.{KeysFit, Seals, seals_of};
    ghost use Rattle.lane_plan.specs.Calls.{ask_of};
    ghost use Rattle.lane_plan.specs.Plans.{Awaits, Goes, HasBegun, IsFewer, IsShape, IsTold};
    ghost use Rattle.lane_plan.specs.Plans.{HasRoom, IsWaiting, WillBeRefused, first_call, part_in};
    ghost use Rattle.lane_plan.specs.Plans.{part_of, session_of, shape_of};
    ghost use Rattle.lane_plan.specs.declared.calls.Call.TheVariants as Calls;

    /// The plan of an operation on a volume of this shape, with all the memory that it needs. A
    /// read's content comes in the spare buffer, made long enough. Zeros that are to be written
    /// stand at its front, no more of them than the longest piece of 1 MiB has. An operation of
    /// more than a block has a buffer besides, for pieces that aren't all of it, which isn't made
    /// longer than 1 MiB. A wrong operation has none, and neither has a flush. Memory is wanted
    /// only where one of the two buffers isn't long enough.
    #[inline(always)]
    pub fn new(
        alloc: Global,
        session: u64,
        op: Op,
        spare: Bytes,
        part: Buffer,
        shape: Shape,
    ) -> Result<Plan, AllocError>
        requires { IsShape shape }
        ensures awaits { IfOk result (λ plan. (seals : Seals) (alone : Alone) →
            alone.operation ≡ None → Awaits seals plan op alone (Calls.Admit session (ask_of op))) }
        ensures first { IfOk result (λ plan. first_call plan ≡ Calls.Admit session (ask_of op)) }
        ensures refuses { IfOk result (λ plan. WillBeRefused plan →
            wrong_ask shape.atom (shape.blocks * shape.atom) (ask_of op) ≢ None) }
        ensures shape { IfOk result (λ plan. shape_of plan ≡ shape) }
        ensures session { IfOk result (λ plan. session_of plan ≡ session) }
        ensures pieces { IfOk result (λ plan.
            length (part_in plan) ≤ max (length part) (part_of shape.atom (ask_of op))) }
        ensures memory { OnErr result
            (wrong_ask shape.atom (shape.blocks * shape.atom) (ask_of op) ≡ None) }
        ensures short { OnErr result (HasRoom shape.atom op spare part → ⊥) }
    {
        let ask = ask_of(&op);
        let Shape { atom, blocks } = shape;
        if ask.wrong(atom, blocks * u64::from(atom)).is_some() {
            return Ok(Plan::refused(alloc, session, op, spare, part, shape));
        }
        let room = len_of(ask).saturating_sub(atom as usize).min(MOST_BYTES);
        let zeroes = is_zeroes(&op);
        let len = buffered(&op);
        let whole = grown(whole_of(op, spare), len)?;
        let part = grown(part, room)?;
        let whole = with_zeros(whole, len, zeroes);
        Ok(Plan::of(
            alloc,
            session,
            ask,
            whole,
            zeroes,
            part,
            shape,
            Stage::Beginning,
        ))
    }

    /// The plan of an operation that will be refused: it is wrong, or the volume is known to be
    /// broken. It takes no memory.
    #[inline(always)]
    pub fn refused(
        alloc: Global,
        session: u64,
        op: Op,
        spare: Bytes,
        part: Buffer,
        shape: Shape,
    ) -> Plan
        ensures awaits { (seals : Seals) (alone : Alone) → alone.operation ≡ None →
            Awaits seals result op alone (Calls.Admit session (ask_of op)) }
        ensures first { first_call result ≡ Calls.Admit session (ask_of op) }
        ensures shape { shape_of result ≡ shape }
        ensures session { session_of result ≡ session }
        ensures pieces { part_in result ≡ part }
    {
        let ask = ask_of(&op);
        let zeroes = is_zeroes(&op);
        let whole = whole_of(op, spare);
        Plan::of(
            alloc,
            session,
            ask,
            whole,
            zeroes,
            part,
            shape,
            Stage::Refusing,
        )
    }

    /// A plan at its first stage.
    #[inline(always)]
    fn of(
        alloc: Global,
        session: u64,
        ask: Ask,
        whole: Buffer,
        zeroes: bool,
        part: Buffer,
        shape: Shape,
        stage: Stage,
    ) -> Plan
        ensures asks { result.operation.ask ≡ ask }
        ensures session { result.operation.session ≡ session }
        ensures shape { result.shape ≡ shape }
        ensures stage { result.stage ≡ stage }
        ensures whole { result.whole ≡ whole }
        ensures zeroes { result.zeroes ≡ zeroes }
        ensures part { result.part ≡ part }
    {
        Plan {
            alloc,
            shape,
            stage,
            operation: Open::new(session, ask, BlockRange { start: 0, end: 0 }),
            whole,
            zeroes,
            part,
        }
    }

    /// Its first call: the admit.
    #[inline(always)]
    pub fn first(&self) -> Call
        ensures { result ≡ first_call self.now }
    {
        Call::Admit {
            session: self.operation.session,
            ask: self.operation.ask,
        }
    }

    /// What comes next, once the last call was answered so. The keys are the volume's. Threads take
    /// a part of a piece of 256 KiB and more that is sealed or opened.
    #[inline(always)]
    pub fn told<R: Threads + Sync, C: SectorCipher + Sync>(
        &mut self,
        rt: &R,
        sealers: &Sealers,
        keys: &Keys<C>,
        answer: Answer,
    ) -> Next
        requires fits { KeysFit C.sector keys.now
            (shape_of self.old).atom (shape_of self.old).blocks }
        requires told { IsTold (seals_of C.sealed C.opened (shape_of self.old).atom keys.now)
            self.old answer }
        ensures goes { Goes (seals_of C.sealed C.opened (shape_of self.old).atom keys.now)
            self.old answer self.new result }
        ensures begun { HasBegun result }
        ensures fewer { IsWaiting answer ⊎ IsFewer self.old self.new result }
        ensures shape { shape_of self.new ≡ shape_of self.old }
        ensures session { session_of self.new ≡ session_of self.old }
    {
        match answer {
            Answer::Held(grant) => {
                self.operation = Open::new(self.operation.session, self.operation.ask, grant.range);
                Next::Call(self.go_on(rt, sealers, keys, grant.map))
            }
            Answer::Waiting(_) => {
                self.stage = Stage::Waiting;
                Next::Call(Call::Ask)
            }
            Answer::Refused(number) => self.reply(Reply::Errno(number)),
            Answer::Got(buffer, len) => Next::Call(self.got(rt, sealers, keys, buffer, len)),
            Answer::Written(buffer) => Next::Call(self.written(rt, sealers, keys, buffer)),
            Answer::Done => match self.stage {
                Stage::Settling => self.settled(),
                Stage::Ending => self.finished(),
                _ => unreachable!(),
            },
            Answer::Device | Answer::Broken => self.failed(),
        }
    }

    /// The buffer for pieces, for the plan of another operation.
    #[inline(always)]
    pub fn into_part(self) -> Buffer
        ensures { result ≡ part_in self }
    {
        let Plan { part, .. } = self;
        part
    }
}

/// The buffer of an operation: that of its body, or the spare one for its content or its zeros.
#[inline(always)]
fn whole_of(op: Op, spare: Bytes) -> Buffer
    ensures body { (offset : ℕ) (body : List ℕ) (fua : Bool) → op ≡ Ops.Write offset body fua →
        take (length body) result ≡ body }
    ensures short { length result < buffered op → length spare < spare_of op }
{
    match op {
        Op::Write { body, .. } => body.into_buffer(),
        Op::Read { .. } | Op::Zeroes { .. } | Op::Flush => spare.into_buffer(),
    }
}

/// Whether an operation writes zeros.
fn is_zeroes(op: &Op) -> bool
    ensures { result ≡ is_zeroes op.now }
{
    matches!(op, Op::Zeroes { .. })
}

/// How many bytes of an operation its buffer has: of zeroes no more than the longest piece.
fn buffered(op: &Op) -> usize
    ensures { result ≡ buffered op.now }
{
    match op {
        Op::Read { length, .. } => *length as usize,
        Op::Write { body, .. } => body.len(),
        Op::Zeroes { length, .. } => (*length as usize).min(MOST_BYTES),
        Op::Flush => 0,
    }
}

/// What an operation asks for: zeroes, as a write of so many bytes.
fn ask_of(op: &Op) -> Ask
    ensures { result ≡ ask_of op.now }
{
    match op {
        Op::Read { offset, length } => Ask::Read {
            offset: *offset,
            length: *length,
        },
        Op::Write { offset, body, fua } => Ask::Write {
            offset: *offset,
            length: body.len() as u64,
            fua: *fua,
        },
        Op::Zeroes {
            offset,
            length,
            fua,
        } => Ask::Write {
            offset: *offset,
            length: u64::from(*length),
            fua: *fua,
        },
        Op::Flush => Ask::Flush,
    }
}

/// How many bytes an operation reads or writes.
fn len_of(ask: Ask) -> usize
    ensures { result ≡ bytes_of ask }
{
    match ask {
        Ask::Read { length, .. } => length as usize,
        Ask::Write { length, .. } => length as usize,
        Ask::Flush => 0,
    }
}
