// Where sessions submit their operations.

ghost use Rattle.std.specs.Prelude.{◌≡◌, ◌≢◌, ◌⊎◌, ℕ, List, [], ◌++◌, Option, Some, None};
ghost use Rattle.plain_disk.specs.Plain.{Exchange};
ghost use Rattle.block_server.specs.Sessions.{tagged};
ghost use Rattle.volume_machine.specs.Answers.{Tagged};

use base_terms::{Buffer, Bytes};
use gates::Gate;
use nbd_session::{Port, Submitted};
use plain_disk::Op;
use sector_disk::Disk;
use shared_volume::{Executed, Lane, SharedCell};
use std::alloc::{AllocError, Global};
use std::sync::Wait;
use std::thread::Threads;

/// A port that sessions have one after the other.
pub trait SharedPort: Port {
    /// From an old state to a new one these operations were executed, each of its session.
    ghost executed: { Self → Self → List Tagged → Type 0 };

    /// The number of the session that has the port.
    ghost number: { Self → ℕ };

    /// The number of the session whose operation found that the port takes no more, once one did.
    ghost left_by: { Self → Option ℕ };

    /// The operations to come are this session's.
    fn begin(&mut self, session: u64)
        requires usable { Self.usable self.old }
        ensures usable { Self.usable self.new }
        ensures number { number self.new ≡ session }
        ensures left { left_by self.new ≡ left_by self.old }
        ensures none { executed self.old self.new [] };

    ghost executed_none: { (port : Self) → executed port port [] };

    ghost executed_more: { (first second third : Self) (xs ys : List Tagged) →
        executed first second xs → executed second third ys → executed first third (xs ++ ys) };

    ghost of_session: { (old new : Self) (exchanges : List Exchange) →
        Self.did old new exchanges → executed old new (tagged (number old) exchanges) };

    ghost leaves: { (old new : Self) (exchanges : List Exchange) → Self.did old new exchanges →
        (left_by new ≡ left_by old)
        ⊎ ((left_by old ≡ None) × (left_by new ≡ Some (number old))) };

    ghost is_left: { (port : Self) → Self.is_spent port → left_by port ≢ None };
}

/// The port of a link's sessions to a volume that threads share: it executes their operations on
/// one lane, one after the other. It is spent once the history was found full.
#[derive(Drop)]
pub struct LanePort<'c, R: Threads + Wait + Sync, D: Disk, G: Gate> {
    pub rt: &'c R,
    pub shared: &'c SharedCell<D>,
    pub gate: &'c G,
    pub lane: Lane<D>,
    pub session: u64,
    /// The buffer for pieces of operations that have more than one.
    pub part: Buffer,
    /// The session whose operation found the history full, once one did.
    pub left_by: Option<u64>,
}

impl<'c, R: Threads + Wait + Sync, D: Disk, G: Gate> Port for LanePort<'c, R, D, G> {
    ghost use Rattle.std.specs.Prelude.{◌≢◌, None};
    ghost use Rattle.shared_volume.specs.Ciphers.{opened, sealed};
    ghost use Rattle.volume_cell.specs.Passes.{known};
    ghost use Rattle.block_server.specs.Ports.{Did, IsUsable, did_none, did_joined};
    ghost use denote.Param.Send.{IsSync};

    ghost did = { λ old new exchanges. Did sealed opened old.session old.shared.now.cell
        (known old.lane.pass) old.left_by new.session new.shared.now.cell (known new.lane.pass)
        new.left_by exchanges };

    ghost is_spent = { λ port. port.left_by ≢ None };

    ghost usable = { λ port. IsUsable port.shared.now.cell port.lane
        port.left_by × IsSync R.row };

    ghost did_none = { λ port. did_none sealed opened port.session port.shared.now.cell
        (known port.lane.pass) port.left_by };

    ghost did_more = { λ first second third xs ys. did_joined sealed opened first.session
        second.session third.session first.shared.now.cell second.shared.now.cell
        third.shared.now.cell (known first.lane.pass) (known second.lane.pass)
        (known third.lane.pass) first.left_by second.left_by third.left_by xs ys };

    fn submit(&mut self, alloc: Global, op: Op, spare: Bytes) -> Result<Submitted, AllocError> {
        if self.left_by.is_some() {
            return Ok(Submitted::Spent);
        }
        match self.lane.execute(
            self.rt,
            alloc,
            self.shared,
            self.gate,
            self.session,
            op,
            spare,
            &mut self.part,
        ) {
            Ok(Executed::Replied(reply, buffer)) => Ok(Submitted::Replied(reply, buffer)),
            Ok(Executed::Spent) => {
                self.left_by = Some(self.session);
                Ok(Submitted::Spent)
            }
            Err(refused) => Err(refused),
        }
    }
}

impl<'c, R: Threads + Wait + Sync, D: Disk, G: Gate> SharedPort for LanePort<'c, R, D, G> {
    ghost use Rattle.shared_volume.specs.Ciphers.{opened, sealed};
    ghost use Rattle.volume_cell.specs.Passes.{known};
    ghost use Rattle.block_server.specs.Ports.{Executed, executed_none, executed_joined};

    ghost executed = { λ old new history. Executed sealed opened old.shared.now.cell
        (known old.lane.pass) new.shared.now.cell (known new.lane.pass) history };

    ghost number = { λ port. port.session };

    ghost left_by = { λ port. port.left_by };

    ghost executed_none = { λ port. executed_none sealed opened port.shared.now.cell
        (known port.lane.pass) };

    ghost executed_more = { λ first second third xs ys. executed_joined sealed opened
        first.shared.now.cell second.shared.now.cell third.shared.now.cell
        (known first.lane.pass) (known second.lane.pass) (known third.lane.pass) xs ys };

    ghost of_session = { λ old new exchanges did. did.executed };

    ghost leaves = { λ old new exchanges did. did.left };

    ghost is_left = { λ port spent. spent };

    fn begin(&mut self, session: u64) {
        self.session = session;
    }
}
