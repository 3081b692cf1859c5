ghost use Rattle.std.specs.Prelude.{◌≡◌, ℕ, List, ◌<◌, ◌≤◌, ◌⊎◌, ◌↔◌, [], length, map, take, drop};
ghost use Rattle.std.specs.Prelude.{slice_index_or, Some, true, false, not, is_some, IsTrue, IfOk};
ghost use Rattle.std.specs.Prelude.{IfErr, IfSome, OnOk, OnErr, IsErr, IsErrOf, Contains};
ghost use Rattle.std.specs.Prelude.{MatchOption};
ghost use Rattle.std.specs.String.{string_bytes};
ghost use Rattle.std.specs.Str.{bytes_eq};
ghost use Rattle.io_edge.specs.FaultPlan.{fresh_plan, next_plan};
ghost use Rattle.sector_disk.specs.Geometry.{IsAtom};
ghost use Rattle.memory_disks.specs.Mem.{atom_of};
ghost use Rattle.bays.specs.Bays.{AfterDisk, AfterLinks, AreBounded, AreFresh, HasBayCause};
ghost use Rattle.bays.specs.Bays.{LeavesAll, share};
ghost use Rattle.bays.specs.Memory.{Line, AreDealt, HaveShares, IsIdle, fails_of, has_disk};
ghost use Rattle.bays.specs.Memory.{holdings_of, inputs_of, is_failed, link_state, new_line};
ghost use Rattle.bays.specs.Names.{StandsAt, named, without};
ghost use Rattle.std.specs.declared.alloc.Global.{Global};
ghost use Rattle.std.specs.declared.string.String.{String};
ghost use Rattle.memory_disks.specs.declared.mem_disk.MemDisk.{MemDisk};

use crate::names::find_name;
use crate::{Bay, BayFault, Manner, MemLink};
use base_terms::Bytes;
use io_edge::{FaultPlan, ListSink, ListSource};
use memory_disks::MemDisk;
use sector_disk::Disk;
use std::alloc::{AllocError, Global};
use std::marker::Model;

/// How many bytes of a key file are given at most: one more than a passphrase may have.
const KEY_BYTES: usize = 513;

/// A bay in memory. Its calls fail as they were told to, by their numbers counted from 0, and where
/// a name or the address is unknown; a call that fails changes nothing but the counts.
pub struct MemBay {
    disks: Vec<(String, MemDisk)>,
    keys: Vec<(String, Bytes)>,
    address: String,
    connections: Vec<(ListSource, ListSink)>,
    link_fails: Vec<Vec<u64>>,
    plan: FaultPlan,
}

// By hand, so that a bay that is dropped in place is one call to the prover.
impl Drop for MemBay {
    fn drop(self) {
        let MemBay {
            disks,
            keys,
            address,
            connections,
            link_fails,
            plan,
        } = self;
        drop((disks, keys, address, connections, link_fails, plan));
    }
}

impl Model for MemBay {
    ghost use Rattle.std.specs.Prelude.{map};
    ghost use Rattle.std.specs.String.{string_bytes};
    ghost use Rattle.bays.specs.Memory.{Stock};

    ghost Value = { Stock };

    ghost view = { λ b. record {
      disks = b.disks.items;
      keys = b.keys.items;
      address = string_bytes b.address;
      connections = b.connections.items;
      link_fails = map (λ fails. fails.items) b.link_fails.items;
      plan = b.plan;
    } };
}

impl MemBay {
    /// A bay of these disks and key files by name, of which the first of a name comes before the
    /// others, and of these connections by session number, to be had under the address. `fails` are
    /// the numbers of the calls that are to fail, first those of the bay and then those of the link
    /// of each worker; a link without a list never fails.
    pub fn new(
        alloc: Global,
        disks: Vec<(String, MemDisk)>,
        keys: Vec<(String, Bytes)>,
        address: String,
        scripts: Vec<(ListSource, ListSink)>,
        fails: Vec<Vec<u64>>,
    ) -> MemBay
        ensures disks { result.disks ≡ disks.items }
        ensures keys { result.keys ≡ keys.items }
        ensures address { result.address ≡ string_bytes address }
        ensures connections { result.connections ≡ scripts.items }
        ensures plan { result.plan ≡ fresh_plan
            (slice_index_or (map (λ f. f.items) fails.items) 0 []) }
        ensures link_fails { result.link_fails ≡ drop 1 (map (λ f. f.items) fails.items) }
    {
        let mut link_fails = fails;
        let bay_fails = if link_fails.is_empty() {
            Vec::new(alloc)
        } else {
            link_fails.remove(0)
        };
        MemBay {
            disks,
            keys,
            address,
            connections: scripts,
            link_fails,
            plan: FaultPlan::new(bay_fails),
        }
    }

    /// The numbers of the calls of a worker's link that are to fail.
    fn fails_of(&self, worker: usize) -> &[u64]
        ensures { result.now ≡ fails_of self.now.link_fails worker }
    {
        match self.link_fails.get(worker) {
            Some(fails) => fails.as_slice(),
            None => &[],
        }
    }

    /// For each worker a link with room for all connections, and none ahead.
    fn empty_links(&self, alloc: Global, workers: u32) -> Result<Vec<MemLink>, AllocError>
        ensures count { IfOk result (λ links. length links.items ≡ workers) }
        ensures empty { IfOk result (λ links. (k : ℕ) (d : Line) → k < workers →
            slice_index_or links.items k d ≡ new_line [] (length self.now.connections)
            (fails_of self.now.link_fails k)) }
    {
        let mut links = Vec::with_capacity(alloc, workers as usize)?;
        for worker in 0..workers as usize {
            let fails = self.fails_of(worker);
            links.push_reserved(MemLink::new(alloc, self.connections.len(), fails)?);
        }
        Ok(links)
    }
}

/// Where the disk of that name stands, if there is one and it has that atom.
fn find_disk(disks: &[(String, MemDisk)], name: &str, atom: u32) -> Option<usize>
    ensures variant { is_some result ≡ has_disk name.now atom disks.now }
    ensures stands { IfSome result (λ i. StandsAt name.now disks.now i) }
    ensures atom { IfSome result
        (λ i. (d : String Global × MemDisk) → atom_of (slice_index_or disks.now i d).1 ≡ atom) }
{
    let i = find_name(disks, name)?;
    if disks[i].1.atom() == atom {
        Some(i)
    } else {
        None
    }
}

/// Deals the connections out, each to the link of its number.
fn deal(connections: &mut Vec<(ListSource, ListSink)>, links: &mut [MemLink])
    requires some { 0 < length links.old }
    requires idle { (k : ℕ) (d : Line) → k < length links.old →
        IsIdle (length connections.old.items) (slice_index_or links.old k d) }
    ensures empty { connections.new.items ≡ [] }
    ensures count { length links.new ≡ length links.old }
    ensures dealt { HaveShares connections.old.items 0 links.old links.new }
{
    while let Some(connection) = connections.pop() {
        let worker = connections.len() % links.len();
        links[worker].put_first(connection);
    }
}

impl Bay for MemBay {
    type Disk = MemDisk;

    type Link = MemLink;

    ghost holdings = { holdings_of };

    ghost asks_disk = { λ _ _ _ _ _. Unit {0} };

    ghost asks_reading = { λ _ _ _ _ _. Unit {0} };

    ghost asks_key = { λ _ _ _ _. Unit {0} };

    ghost asks_links = { λ _ _ _ _ _ _ _. Unit {0} };

    /// Gives each disk out once. Fails exactly where the call's number is one of those that are to
    /// fail, where there is no disk of that name, or no more, and where it has another atom.
    fn disk(&mut self, _alloc: Global, name: &str, atom: u32) -> Result<MemDisk, BayFault>
        requires { IsAtom atom }
        ensures atom { IfOk result (λ disk. atom_of disk ≡ atom) }
        ensures told { IfOk result
            (λ disk. (kept : MemDisk) → named name.now self.old.disks ≡ Some kept → disk ≡ kept) }
        ensures leaves { AfterDisk name.now (holdings_of self.old) (holdings_of self.new) result }
        ensures cause { HasBayCause self.old.plan.faults self.new.plan.faults result }
        ensures exact { IsErr result ↔
            (IsTrue (not (has_disk name.now atom self.old.disks))
            ⊎ Contains self.old.plan.fails self.old.plan.calls) }
        ensures is { IfOk result (λ disk. named name.now self.old.disks ≡ Some disk) }
        ensures takes { OnOk result
            (self.new ≡ record self.old {
              disks = without name.now self.old.disks;
              plan =
                  next_plan self.old.plan false;
            }) }
        ensures failed { IfErr result (λ fault. fault ≡ BayFault.Failed) }
        ensures fails { OnErr result
            (self.new ≡ record self.old { plan = next_plan self.old.plan true }) }
    {
        let place = find_disk(self.disks.as_slice(), name, atom);
        if self.plan.is_failing(place.is_none()) {
            return Err(BayFault::Failed);
        }
        let Some(i) = place else { unreachable!() };
        let (_, disk) = self.disks.remove(i);
        Ok(disk)
    }

    /// Gives what `disk` gives, each disk once in all, and fails where that fails.
    fn disk_to_read(&mut self, alloc: Global, name: &str, atom: u32) -> Result<MemDisk, BayFault>
        requires { IsAtom atom }
        ensures atom { IfOk result (λ disk. atom_of disk ≡ atom) }
        ensures told { IfOk result
            (λ disk. (kept : MemDisk) → named name.now self.old.disks ≡ Some kept → disk ≡ kept) }
        ensures leaves { AfterDisk name.now (holdings_of self.old) (holdings_of self.new) result }
        ensures cause { HasBayCause self.old.plan.faults self.new.plan.faults result }
        ensures exact { IsErr result ↔
            (IsTrue (not (has_disk name.now atom self.old.disks))
            ⊎ Contains self.old.plan.fails self.old.plan.calls) }
        ensures is { IfOk result (λ disk. named name.now self.old.disks ≡ Some disk) }
        ensures takes { OnOk result
            (self.new ≡ record self.old {
              disks = without name.now self.old.disks;
              plan =
                  next_plan self.old.plan false;
            }) }
        ensures failed { IfErr result (λ fault. fault ≡ BayFault.Failed) }
        ensures fails { OnErr result
            (self.new ≡ record self.old { plan = next_plan self.old.plan true }) }
    {
        self.disk(alloc, name, atom)
    }

    /// Fails exactly where the call's number is one of those that are to fail, and where there is
    /// no key file of that name.
    fn key(&mut self, alloc: Global, name: &str) -> Result<Bytes, BayFault>
        ensures told { IfOk result
            (λ bytes. (whole : List ℕ) → named name.now self.old.keys ≡ Some whole →
            bytes ≡ take 513 whole) }
        ensures leaves { LeavesAll (holdings_of self.old) (holdings_of self.new) }
        ensures cause { HasBayCause self.old.plan.faults self.new.plan.faults result }
        ensures exact { IsErrOf result BayFault.Failed ↔
            (IsTrue (not (is_some (named name.now self.old.keys)))
            ⊎ Contains self.old.plan.fails self.old.plan.calls) }
        ensures bytes { IfOk result
            (λ bytes. MatchOption (named name.now self.old.keys) ⊥
            (λ whole. bytes ≡ take 513 whole)) }
        ensures counts { self.new
            ≡ record self.old { plan = next_plan self.old.plan (is_failed result) } }
    {
        let place = find_name(self.keys.as_slice(), name);
        if self.plan.is_failing(place.is_none()) {
            return Err(BayFault::Failed);
        }
        let Some(i) = place else { unreachable!() };
        let whole = self.keys[i].1.as_slice();
        let Ok(bytes) = Vec::from_slice(alloc, &whole[..KEY_BYTES.min(whole.len())]) else {
            return Err(BayFault::Memory);
        };
        Ok(Bytes::new(bytes))
    }

    /// Fails exactly where the call's number is one of those that are to fail, and where the
    /// address is another one. The connections from number `sessions` on are dropped.
    fn links(
        &mut self,
        alloc: Global,
        address: &str,
        workers: u32,
        sessions: u32,
        _manner: Manner,
    ) -> Result<Vec<MemLink>, BayFault>
        requires { 0 < workers }
        ensures count { IfOk result (λ links. length links.items ≡ workers) }
        ensures fresh { IfOk result
            (λ links. AreFresh link_state ((holdings_of self.old).inputs address.now) workers
            sessions links.items) }
        ensures bound { IfOk result (λ links. AreBounded link_state workers sessions links.items) }
        ensures leaves { AfterLinks address.now (holdings_of self.old) (holdings_of self.new)
            result }
        ensures cause { HasBayCause self.old.plan.faults self.new.plan.faults result }
        ensures exact { IsErrOf result BayFault.Failed ↔
            (IsTrue (not (bytes_eq address.now self.old.address))
            ⊎ Contains self.old.plan.fails self.old.plan.calls) }
        ensures dealt { IfOk result
            (λ links. AreDealt self.old.connections self.old.link_fails workers sessions
            links.items) }
        ensures gives { OnOk result
            (self.new
            ≡ record self.old { connections = []; plan = next_plan self.old.plan false }) }
        ensures fails { IsErr result →
            self.new ≡ record self.old { plan = next_plan self.old.plan (is_failed result) } }
    {
        if self.plan.is_failing(address != self.address.as_str()) {
            return Err(BayFault::Failed);
        }
        match self.empty_links(alloc, workers) {
            Ok(links) => {
                let mut links = links;
                self.connections.truncate(sessions as usize);
                deal(&mut self.connections, &mut links);
                Ok(links)
            }
            Err(_) => Err(BayFault::Memory),
        }
    }

    fn faults(&self) -> u64 {
        self.plan.faults()
    }
}
