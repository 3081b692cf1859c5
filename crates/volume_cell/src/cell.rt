//! The cell and its passes.
ghost use Rattle.std.specs.Prelude.{◌≡◌, ℕ, List, ◌+◌, ◌-◌, ◌^◌, ◌<◌, ◌≤◌, ◌++◌, [], ◌∷◌, Some};
ghost use Rattle.std.specs.Prelude.{IfOk, IfErr, OnOk, MatchBool, MatchResult};
ghost use Rattle.volume_cell.specs.Histories.{Begins, calls_of};
ghost use Rattle.volume_cell.specs.Knowing.{IsWhole, HasCalls, having_split, split_off};
ghost use Rattle.volume_cell.specs.Knowing.{having_joined, retired, beginning};
ghost use Rattle.volume_cell.specs.Passes.{known, IsPassOf, IsSamePass, IsAnswered, IsSpent};
ghost use Rattle.volume_cell.specs.Passes.{IsAccounted, HasStood};
ghost use Rattle.volume_cell.specs.Asking.{IsSameSeat, HasLooked, HasTaken, IsFull, CanAct};
ghost use Rattle.volume_cell.specs.Asking.{HasActed};

use crate::held::Held;
use crate::knowledge::Knowledge;
use crate::machine::Machine;
use crate::rule::{Confirm, Give, Learn, OneHistory, Part, Retire, Reunite, Stay, Take, Terms};
use crate::shared::Shared;
use crate::spent::Spent;
use atomic_table::{Refused, Seat, Table};
use std::alloc::{AllocFailed, Global};
use std::hint;
use std::snapshot::Snapshot;
use std::sync::Wait;
use std::thread::Threads;
use std::time::Duration;

/// The word that tells how many entries the history has, doubled, and one more while the machine
/// is out.
const ENTRIES: usize = 0;

/// The word that tells of the threads that sleep until the machine is back: one of the four below.
const MARK: usize = 1;

/// No thread sleeps, or one was woken and does not have the machine yet.
const NOBODY: u64 = 0;

/// A thread may sleep.
const SLEEPS: u64 = 1;

/// A thread may sleep that was woken in vain too often.
const URGES: u64 = 2;

/// Only a thread that has slept may take the machine.
const LEFT: u64 = 3;

/// How often a thread that finds the machine out looks again before it sleeps.
const LOOKS: u32 = 100;

/// How often a thread is woken in vain before it asks that the machine be left to those that slept.
const VAIN_WAKES: u32 = 2;

/// How many microseconds a thread gives way at once behind a long turn; the system adds some more.
const GRACE: u64 = 100;

/// How often it does so at most, while others sleep.
const GRACES: u32 = 5;

/// A machine under many threads.
pub type Cell<M> = Shared<
    M,
    Held<M, <M as Machine>::Event, <M as Machine>::Outcome>,
    Knowledge<<M as Machine>::Start, <M as Machine>::Event, <M as Machine>::Outcome>,
    OneHistory<M>,
>;

/// A thread's right to ask the machine of one cell, and what it knows of the history. It has no
/// bytes.
pub type Pass<M> = Seat<
    Held<M, <M as Machine>::Event, <M as Machine>::Outcome>,
    Knowledge<<M as Machine>::Start, <M as Machine>::Event, <M as Machine>::Outcome>,
>;

/// The machine that lay alone in what a table refused.
fn only_machine<M: Machine>(refused: Refused<Held<M, M::Event, M::Outcome>, Global>) -> M
    requires { (held : Held M M.Event M.Outcome) × (refused.slots.items ≡ held ∷ []) }
    ensures { (held : Held M M.Event M.Outcome) → refused.slots.items ≡ held ∷ []
        → result ≡ held.machine }
{
    let Refused { mut slots } = refused;
    let Some(held) = slots.pop() else {
        unreachable!()
    };
    slots.destroy_empty();
    held.into_machine()
}

impl<M: Machine> Cell<M> {
    /// A cell around a machine, which stands for the empty history, and the first pass. The
    /// history can get `limit` entries long. Without memory the machine comes back.
    pub fn new(alloc: Global, machine: M, limit: u64) -> Result<(Cell<M>, Pass<M>), AllocFailed<M>>
        requires machine { M.stands_for machine [] }
        requires limit { (1 ≤ limit) × (limit < 2 ^ 63 - 1) }
        ensures pass { IfOk result
            (λ made. IsPassOf made.0 made.1 × (known made.1 ≡ beginning (M.start machine))) }
        ensures limit { IfOk result (λ made. made.0.limit ≡ limit) }
        ensures back { IfErr result (λ refused. refused.value ≡ machine) }
    {
        let terms = Terms {
            limit,
            opening: Snapshot::of(&machine),
        };
        let mut slots = Vec::new(alloc);
        let held = Held {
            machine,
            note: None,
        };
        if let Err(failed) = slots.push(held) {
            let AllocFailed { value } = failed;
            slots.destroy_empty();
            return Err(AllocFailed {
                value: value.into_machine(),
            });
        }
        match Table::new(alloc, &[0, 0], slots, &terms) {
            Ok((table, pass)) => Ok((Shared { table, limit }, pass)),
            Err(refused) => Err(AllocFailed {
                value: only_machine(refused),
            }),
        }
    }

    /// Has the machine act on an event, as the next entry of the history, and answers its
    /// outcome. Where the history has as many entries as it can get, the event comes back.
    pub fn turn<R: Threads + Wait + Sync>(
        &self,
        rt: &R,
        pass: &mut Pass<M>,
        event: M::Event,
    ) -> Result<M::Outcome, Spent<M::Event>>
        requires pass { IsPassOf self.now pass.old }
        requires fits { (start : M.Start) → (known pass.old).start ≡ Some start
            → M.fits start (known pass.old).name (known pass.old).calls event }
        ensures pass { IsPassOf self.now pass.new }
        ensures same { IsSamePass (known pass.old) (known pass.new) }
        ensures answer { MatchResult result
            (IsAnswered self.now.limit (known pass.old) (known pass.new) event)
            (IsSpent self.now.limit (known pass.old) (known pass.new) event) }
        ensures stood { OnOk result (HasStood M.start M.stands_for (known pass.new)) }
        ensures own { calls_of (known pass.new).name (known pass.new).history
            ≡ (known pass.new).calls }
        ensures calls { HasCalls (known pass.new) }
    {
        if !self.take(rt, pass) {
            return Err(Spent { event });
        }
        let is_long = M::is_long(&event);
        let outcome = self.act(rt, pass, event);
        self.table.shared.fetch_add::<Give>(pass, ENTRIES, 1);
        let woke = self.wake(pass);
        if is_long && woke {
            self.give_way(rt);
        }
        Ok(outcome)
    }

    /// Takes the machine, and waits for it while it is out. False where the history is full.
    fn take<R: Wait>(&self, rt: &R, pass: &mut Pass<M>) -> bool
        requires { IsPassOf self.now pass.old }
        ensures { MatchBool result (HasTaken M.start M.stands_for self.now.limit pass.old pass.new)
            (IsFull self.now.limit pass.old pass.new) }
    {
        let shared = &self.table.shared;
        let mut looks = LOOKS;
        let mut sleeps = 0;
        for _ in rt.forever() {
            let word = shared.load::<Learn>(pass, ENTRIES);
            if word == self.limit * 2 {
                // Nobody gives the machine back any more, so the next one that sleeps is woken
                // here.
                self.mark_again(pass, sleeps);
                self.wake(pass);
                return false;
            }
            if self.try_take(pass, word, sleeps) {
                self.mark_again(pass, sleeps);
                return true;
            }
            if looks > 0 && shared.peek(MARK) == NOBODY {
                looks -= 1;
                hint::spin_loop();
            } else {
                self.sleep(rt, pass, sleeps);
                sleeps = sleeps.saturating_add(1);
                looks = LOOKS;
            }
        }
        unreachable!()
    }

    /// Takes the machine, if it is at home, the first word is still the one that was found, and the
    /// machine is not left to others.
    fn try_take(&self, pass: &mut Pass<M>, word: u64, sleeps: u32) -> bool
        requires { IsPassOf self.now pass.old }
        ensures { MatchBool result (HasTaken M.start M.stands_for self.now.limit pass.old pass.new)
            (IsSameSeat pass.old pass.new) }
    {
        let shared = &self.table.shared;
        if sleeps == 0 && shared.peek(MARK) == LEFT {
            return false;
        }
        if word % 2 == 0 && word / 2 < self.limit {
            let found = shared.compare_exchange::<Take<M>>(pass, ENTRIES, word, word + 1);
            return found == word;
        }
        false
    }

    /// Sleeps until it is woken, unless the machine can be taken. It may also return for no reason.
    fn sleep<R: Wait>(&self, rt: &R, pass: &mut Pass<M>, sleeps: u32)
        requires { pass.old.table_id ≡ self.now.table.shared.table_id }
        ensures { IsSameSeat pass.old pass.new }
    {
        let shared = &self.table.shared;
        let wanted = if sleeps < VAIN_WAKES { SLEEPS } else { URGES };
        let mark = shared.fetch_max::<Stay>(pass, MARK, wanted).max(wanted);
        // Who gives the machine back after this look finds the mark.
        let is_out = shared.peek(ENTRIES) % 2 == 1;
        if is_out || (sleeps == 0 && mark == LEFT) {
            shared.park(rt, MARK, (mark % (1 << 32)) as u32);
        }
    }

    /// Sets the mark anew, where the thread has slept: others may sleep yet.
    fn mark_again(&self, pass: &mut Pass<M>, sleeps: u32)
        requires { pass.old.table_id ≡ self.now.table.shared.table_id }
        ensures { IsSameSeat pass.old pass.new }
    {
        if sleeps > 0 {
            self.table.shared.store::<Stay>(pass, MARK, SLEEPS);
        }
    }

    /// Wakes a thread, where one may sleep, and takes the mark away, so that no other is woken
    /// until that thread has had the machine or one more sleeps. Where the mark has changed,
    /// another sees to it. Tells whether one may sleep.
    fn wake(&self, pass: &mut Pass<M>) -> bool
        requires { pass.old.table_id ≡ self.now.table.shared.table_id }
        ensures { IsSameSeat pass.old pass.new }
    {
        let shared = &self.table.shared;
        let mark = shared.peek(MARK);
        if mark == NOBODY {
            return false;
        }
        let next = if mark == URGES { LEFT } else { NOBODY };
        if shared.compare_exchange::<Stay>(pass, MARK, mark, next) == mark {
            shared.wake_one(MARK);
        }
        true
    }

    /// Leaves the machine for a moment to a thread that was woken, and so on while another may sleep.
    /// Who asks for one long turn after the other would take it each time before that thread runs. It
    /// sleeps on a word for which nobody is woken and leaves the mark alone, so it takes no wake of
    /// another.
    fn give_way<R: Wait>(&self, rt: &R) {
        let shared = &self.table.shared;
        let grace = Duration::from_micros(GRACE);
        for _ in 0..GRACES {
            let word = shared.peek(ENTRIES);
            shared.park_timeout(rt, ENTRIES, (word % (1 << 32)) as u32, grace);
            if shared.peek(MARK) == NOBODY {
                return;
            }
        }
    }

    /// Has the machine, which the pass has, act where it lies.
    fn act<R: Threads + Wait + Sync>(
        &self,
        rt: &R,
        pass: &mut Pass<M>,
        event: M::Event,
    ) -> M::Outcome
        requires table { pass.old.table_id ≡ self.now.table.shared.table_id }
        requires can { CanAct M.start M.stands_for M.fits pass.old event }
        ensures { HasActed M.start M.stands_for pass.old pass.new event result }
    {
        let held = pass.slot_mut(&self.table.shared, 0);
        held.act(rt, event)
    }

    /// A new pass, which knows what this one knows and has made no calls.
    pub fn split(&self, pass: &mut Pass<M>) -> Pass<M>
        requires pass { IsPassOf self.now pass.old }
        ensures pass { IsPassOf self.now pass.new
            × (known pass.new ≡ having_split (known pass.old)) }
        ensures new { IsPassOf self.now result × (known result ≡ split_off (known pass.old)) }
    {
        self.table.shared.split_seat::<Part>(pass)
    }

    /// Joins a pass, of which every pass that was split off it was joined back, into the one that
    /// it was split off.
    pub fn join(&self, pass: &mut Pass<M>, other: Pass<M>)
        requires passes { IsPassOf self.now pass.old × IsPassOf self.now other }
        requires child { (number : ℕ)
            × ((known other).name ≡ (known pass.old).name ++ number ∷ []) }
        requires whole { IsWhole (known other) }
        ensures pass { IsPassOf self.now pass.new
            × (known pass.new ≡ having_joined (known pass.old) (known other)) }
        ensures own { Begins (known pass.old).history (known pass.new).history }
        ensures its { Begins (known other).history (known pass.new).history }
        ensures calls { HasCalls (known pass.new) }
    {
        self.table.shared.join_seat::<Reunite>(pass, other);
        self.table.shared.load::<Confirm>(pass, ENTRIES);
    }

    /// The machine, and what the first pass knows, into which every other pass was joined.
    pub fn close(self, mut pass: Pass<M>) -> (M, Pass<M>)
        requires pass { IsPassOf self pass }
        requires first { (known pass).name ≡ [] }
        requires whole { IsWhole (known pass) }
        ensures pass { known result.1 ≡ retired (known pass) }
        ensures stands { M.stands_for result.0 (known result.1).history }
        ensures start { (known result.1).start ≡ Some (M.start result.0) }
        ensures law { IsAccounted (known result.1) }
    {
        let told = self.table.shared.split_seat::<Retire>(&mut pass);
        let Shared { table, limit: _ } = self;
        let mut closed = table.close_with(pass);
        let held = closed.take(0);
        closed.free();
        (held.into_machine(), told)
    }
}
