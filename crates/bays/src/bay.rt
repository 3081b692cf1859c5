ghost use Rattle.std.specs.Prelude.{◌≡◌, ◌<◌, ℕ, List, Some, Result, Ok, Err, IfOk, MatchResult};
ghost use Rattle.std.specs.Prelude.{length, take};
ghost use Rattle.sector_disk.specs.Geometry.{IsAtom};
ghost use Rattle.bays.specs.Bays.{AfterDisk, AfterLinks, AreBounded, AreFresh, HasBayCause};
ghost use Rattle.bays.specs.Bays.{Holdings, LeavesAll};

use crate::Link;
use base_terms::Bytes;
use sector_disk::Disk;
use std::alloc::Global;

/// Why a bay doesn't give what it was asked for.
#[derive(Clone, Copy, PartialEq, Eq)]
pub enum BayFault {
    Failed,
    Memory,
}

/// How the clients of a command are dealt with.
#[derive(Clone, Copy, Debug, PartialEq, Eq)]
pub struct Manner {
    /// After how many seconds a client that says nothing is dropped, once it was met. None where it
    /// may be silent for ever.
    pub idle_timeout: Option<u32>,
    /// Whether the coming and going of each client is told.
    pub verbose: bool,
}

impl Manner {
    /// A silent client is never dropped, and nothing is told.
    pub const QUIET: Manner = Manner {
        idle_timeout: None,
        verbose: false,
    };
}

/// Where a command's disks, keys and clients come from. A call that gives nothing leaves all as it
/// was, but for the count of failures.
pub trait Bay {
    type Disk: Disk;

    type Link: Link;

    ghost use Rattle.bays.specs.declared.bay.BayFault.{BayFault};
    ghost use Rattle.bays.specs.declared.bay.Manner.{Manner};

    /// Its disks and key files by name and its clients by address, and how many calls failed.
    ghost holdings: { Self → Holdings Self.Disk };

    /// What asking for a disk does: from the bay before it, by the name, the size of an atom and
    /// the answer, to the bay after it. It is a matter of the bay, so nothing but the call brings
    /// it.
    ghost asks_disk: { Self → List ℕ → ℕ → Result Self.Disk BayFault → Self → Type 0 };

    /// What asking for a disk to read alone does, by the name, the size of an atom and the answer.
    ghost asks_reading: { Self → List ℕ → ℕ → Result Self.Disk BayFault → Self → Type 0 };

    /// What asking for a key file does, by the name and the answer.
    ghost asks_key: { Self → List ℕ → Result (List ℕ) BayFault → Self → Type 0 };

    /// What asking for links does, by the address, the workers, the sessions, how clients are dealt
    /// with and the answer.
    ghost asks_links: { Self → List ℕ → ℕ → ℕ → Manner → Result (List Self.Link) BayFault → Self →
        Type 0 };

    /// The disk of that name, with atoms of so many bytes. All else in the bay stands.
    fn disk(&mut self, alloc: Global, name: &str, atom: u32) -> Result<Self::Disk, BayFault>
        requires { IsAtom atom }
        ensures asked { asks_disk self.old name.now atom result self.new }
        ensures atom { IfOk result (λ disk. (Self.Disk.device disk).size ≡ atom) }
        ensures told { IfOk result
            (λ disk. (kept : Self.Disk) → (holdings self.old).shelf name.now ≡ Some kept →
            disk ≡ kept) }
        ensures leaves { AfterDisk name.now (holdings self.old) (holdings self.new) result }
        ensures cause { HasBayCause (holdings self.old).faults (holdings self.new).faults result };

    /// The same disk, to be read alone. It is asked for without the lock, so that it is had also
    /// while another program has it locked, which may then write it between two reads. All else in
    /// the bay stands. No clause keeps a disk that was had so from being written: that the machine
    /// refuses it is argued.
    fn disk_to_read(&mut self, alloc: Global, name: &str, atom: u32) -> Result<Self::Disk, BayFault>
        requires { IsAtom atom }
        ensures asked { asks_reading self.old name.now atom result self.new }
        ensures atom { IfOk result (λ disk. (Self.Disk.device disk).size ≡ atom) }
        ensures told { IfOk result
            (λ disk. (kept : Self.Disk) → (holdings self.old).shelf name.now ≡ Some kept →
            disk ≡ kept) }
        ensures leaves { AfterDisk name.now (holdings self.old) (holdings self.new) result }
        ensures cause { HasBayCause (holdings self.old).faults (holdings self.new).faults result };

    /// The whole key file of that name, cut at 513 bytes. All in the bay stands.
    fn key(&mut self, alloc: Global, name: &str) -> Result<Bytes, BayFault>
        ensures asked { asks_key self.old name.now result self.new }
        ensures told { IfOk result
            (λ bytes. (whole : List ℕ) → (holdings self.old).keyring name.now ≡ Some whole →
            bytes ≡ take 513 whole) }
        ensures leaves { LeavesAll (holdings self.old) (holdings self.new) }
        ensures cause { HasBayCause (holdings self.old).faults (holdings self.new).faults result };

    /// One link to the clients of that address for each worker. Worker `i` of `workers`, counted
    /// from 0, serves the sessions `i`, `i + workers`, `i + 2 * workers` and so on below
    /// `sessions`. All else in the bay stands.
    fn links(
        &mut self,
        alloc: Global,
        address: &str,
        workers: u32,
        sessions: u32,
        manner: Manner,
    ) -> Result<Vec<Self::Link>, BayFault>
        requires { 0 < workers }
        ensures asked { MatchResult result
            (λ links. asks_links self.old address.now workers sessions manner (Ok links.items)
            self.new)
            (λ fault. asks_links self.old address.now workers sessions manner (Err fault)
            self.new) }
        ensures count { IfOk result (λ links. length links.items ≡ workers) }
        ensures fresh { IfOk result
            (λ links. AreFresh Self.Link.state ((holdings self.old).inputs address.now) workers
            sessions links.items) }
        ensures bound { IfOk result
            (λ links. AreBounded Self.Link.state workers sessions links.items) }
        ensures leaves { AfterLinks address.now (holdings self.old) (holdings self.new) result }
        ensures cause { HasBayCause (holdings self.old).faults (holdings self.new).faults result };

    /// How many calls failed.
    fn faults(&self) -> u64
        ensures { result ≡ (holdings self.now).faults };
}
