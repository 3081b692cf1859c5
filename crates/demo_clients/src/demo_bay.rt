ghost use Rattle.std.specs.Prelude.{◌≡◌, ℕ, Some, IfOk};
ghost use Rattle.std.specs.Prelude.{[], ◌<◌, ◌≤◌, length, slice_index_or, vec_capacity};
ghost use Rattle.bays.specs.Memory.{Line};
ghost use Rattle.demo_clients.specs.DemoBays.{
  asks_demo_disk,
  asks_demo_key,
  asks_demo_links,
  demo_holdings,
  demo_name,
  demo_passphrase,
  has_atom,
};

use crate::ClientLink;
use base_terms::Bytes;
use bays::{Bay, BayFault, Manner, MemBay, MemLink};
use io_edge::{ListSink, ListSource};
use memory_disks::RamDisk;
use sector_disk::Disk;
use std::alloc::{AllocError, Global};
use std::marker::Model;

/// The name of the demonstration's disk, of its key file and of its clients' address.
pub const DEMO_NAME: &str = "demo";

/// The bytes of its passphrase.
const PASSPHRASE: &[u8] = b"demo";

/// The bay of the demonstration: a disk in memory, the key file of the passphrase and the clients, each
/// under the name `demo`. It gives the disk once, and again where it was put back. A call fails only
/// where another name is asked for, or the disk isn't there or has another atom.
pub struct DemoBay {
    disk: Option<RamDisk>,
    rest: MemBay,
}

// By hand, so that a bay that is dropped in place is one call to the prover.
impl Drop for DemoBay {
    fn drop(self) {
        let DemoBay { disk, rest } = self;
        drop((disk, rest));
    }
}

impl Model for DemoBay {
    ghost use Rattle.std.specs.Prelude.{◌≡◌, length, [], is_some, true};
    ghost use Rattle.bays.specs.Names.{named};
    ghost use Rattle.demo_clients.specs.DemoBays.{Supplies, demo_name};

    ghost Value = { Supplies };

    ghost view = { λ b. record { disk = b.disk; rest = b.rest } };

    ghost invariant = { λ b. (length b.rest.disks ≡ 0) × (b.rest.plan.fails ≡ [])
        × (b.rest.link_fails ≡ []) × (b.rest.address ≡ demo_name)
        × (is_some (named demo_name b.rest.keys) ≡ true) };
}

impl DemoBay {
    /// A bay of this disk and of these clients, by session number.
    pub fn new(
        alloc: Global,
        disk: RamDisk,
        clients: Vec<(ListSource, ListSink)>,
    ) -> Result<DemoBay, AllocError>
        ensures disk { IfOk result (λ bay. bay.disk ≡ Some disk) }
        ensures key { IfOk result
            (λ bay. (demo_holdings bay).keyring demo_name ≡ Some demo_passphrase) }
        ensures clients { IfOk result (λ bay. bay.rest.connections ≡ clients.items) }
        ensures address { IfOk result (λ bay. bay.rest.address ≡ demo_name) }
        ensures faults { IfOk result (λ bay. (demo_holdings bay).faults ≡ 0) }
    {
        let key = Bytes::new(Vec::from_slice(alloc, PASSPHRASE)?);
        let keys = vec![in alloc; (String::from_str(alloc, DEMO_NAME)?, key)]?;
        let address = String::from_str(alloc, DEMO_NAME)?;
        let rest = MemBay::new(
            alloc,
            Vec::new(alloc),
            keys,
            address,
            clients,
            Vec::new(alloc),
        );
        Ok(DemoBay {
            disk: Some(disk),
            rest,
        })
    }

    /// Puts a disk there, for the next one who asks for it.
    pub fn put_back(&mut self, disk: RamDisk)
        ensures { self.new ≡ record self.old { disk = Some disk } }
    {
        self.disk = Some(disk);
    }
}

/// Whether the disk is there, with atoms of so many bytes.
fn has_atom(disk: &Option<RamDisk>, atom: u32) -> bool
    ensures { result ≡ has_atom atom disk.now }
{
    match disk {
        Some(disk) => disk.atom() == atom,
        None => false,
    }
}

/// Links that are not to fail, in a vector with room for them, as such that never do.
fn sure_links(mut kept: Vec<ClientLink>, links: Vec<MemLink>) -> Vec<ClientLink>
    requires empty { kept.items ≡ [] }
    requires room { length links.items ≤ vec_capacity kept }
    requires never { (k : ℕ) (line : Line) → k < length links.items →
        (slice_index_or links.items k line).plan.fails ≡ [] }
    ensures { result.items ≡ links.items }
{
    for link in links {
        kept.push_reserved(ClientLink::new(link));
    }
    kept
}

impl Bay for DemoBay {
    type Disk = RamDisk;

    type Link = ClientLink;

    ghost holdings = { demo_holdings };

    ghost asks_disk = { asks_demo_disk };

    ghost asks_reading = { asks_demo_disk };

    ghost asks_key = { asks_demo_key };

    ghost asks_links = { asks_demo_links };

    fn disk(&mut self, alloc: Global, name: &str, atom: u32) -> Result<RamDisk, BayFault> {
        if name == DEMO_NAME && has_atom(&self.disk, atom) {
            return match self.disk.take() {
                Some(disk) => Ok(disk),
                None => unreachable!(),
            };
        }
        match self.rest.disk(alloc, name, atom) {
            Ok(_) => unreachable!(),
            Err(fault) => Err(fault),
        }
    }

    fn disk_to_read(&mut self, alloc: Global, name: &str, atom: u32) -> Result<RamDisk, BayFault> {
        self.disk(alloc, name, atom)
    }

    fn key(&mut self, alloc: Global, name: &str) -> Result<Bytes, BayFault> {
        self.rest.key(alloc, name)
    }

    fn links(
        &mut self,
        alloc: Global,
        address: &str,
        workers: u32,
        sessions: u32,
        manner: Manner,
    ) -> Result<Vec<ClientLink>, BayFault> {
        let Ok(kept) = Vec::with_capacity(alloc, workers as usize) else {
            return Err(BayFault::Memory);
        };
        let links = match self.rest.links(alloc, address, workers, sessions, manner) {
            Ok(links) => links,
            Err(fault) => return Err(fault),
        };
        Ok(sure_links(kept, links))
    }

    fn faults(&self) -> u64 {
        self.rest.faults()
    }
}
