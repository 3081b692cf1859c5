ghost use Rattle.std.specs.Prelude.{◌≡◌, ◌<◌, ◌≤◌, ◌⊎◌, ℕ, Ok, Err, IfOk, IfErr};
ghost use Rattle.std.specs.Prelude.{MatchResult, length, slice_index_or};
ghost use Rattle.std.specs.IoError.{error_kind};
ghost use Rattle.std.specs.declared.io.Error.{Error};
ghost use Rattle.bays.specs.Bays.{AreBounded, FaultCounts, HasBayCause};
ghost use Rattle.file_disk.specs.Opening.{OpensLocked, OpensToRead};
ghost use Rattle.file_disk.specs.Sizes.{tail_behind, whole_atoms};
ghost use Rattle.sector_disk.specs.Geometry.{IsAtom};
ghost use Rattle.host_edge.specs.Listening.{HaveHandles, HaveManner, Listens};
ghost use Rattle.host_edge.specs.Shares.{AreShared, share_of};
ghost use Rattle.host_edge.specs.Untold.{CountsOne, FaultIs, untold_bay, untold_link};

use crate::host_file::HostFile;
use crate::host_link::{HostLink, announce_links};
use crate::network::{Listener, Network};
use crate::notices::complain;
use base_terms::Bytes;
use bays::{Bay, BayFault, Manner};
use file_disk::{FileDisk, FileSystem, open_for_reading, open_locked};
use std::alloc::Global;
use std::io::{self, ErrorKind, Stderr};
use std::time::Clock;

/// The most bytes that are taken of a key file.
const MAX_KEY: u32 = 513;

/// The machine as a bay. A disk is the file or block device of its name, which nobody else uses,
/// locked while it is open; a key is the file of its name. An address is `HOST:PORT`, where clients
/// connect by TCP (port 0 is any that is free), or `unix:PATH`, where a socket is made for its owner's
/// clients. What the system refuses is said on standard error, and so is where clients may connect.
#[derive(Drop)]
pub struct HostBay<R: FileSystem + Network + Clock + Copy + Drop> {
    machine: R,
    errors: Stderr,
    faults: u64,
}

impl<R: FileSystem + Network + Clock + Copy + Drop> HostBay<R> {
    /// A bay of this machine, which says on this stream what the system refuses.
    pub fn new(machine: R, errors: Stderr) -> HostBay<R>
        ensures machine { result.machine ≡ machine }
        ensures errors { result.errors ≡ errors }
        ensures faults { result.faults ≡ 0 }
    {
        HostBay {
            machine,
            errors,
            faults: 0,
        }
    }

    /// Tells what the system refused, and counts it where it isn't want of memory.
    fn refused(&mut self, alloc: Global, what: &str, error: &io::Error) -> BayFault
        ensures counts { CountsOne result self.old.faults self.new.faults }
        ensures cause { FaultCounts result self.old.faults self.new.faults }
        ensures reason { FaultIs result error.now }
    {
        complain(alloc, self.errors, what, error);
        if error.kind() == ErrorKind::OutOfMemory {
            return BayFault::Memory;
        }
        self.faults = self.faults.saturating_add(1);
        BayFault::Failed
    }

    /// Says how long a key file is of which not all was read.
    fn tell_length(&self, name: &str, read: &io::Result<Bytes>) {
        let Ok(key) = read else {
            return;
        };
        if key.as_slice().len() < MAX_KEY as usize {
            return;
        }
        let _ = match self.machine.length(name) {
            Ok(bytes) if bytes > 0 => {
                eprintln!(self.errors;
                    "reencd: {name}: {bytes} bytes, and a passphrase has 512 at most"
                )
            }
            _ => eprintln!(self.errors; "reencd: {name}: a passphrase has 512 bytes at most"),
        };
    }

    /// What opening a file gave, which is told of by its name.
    fn named(
        &self,
        alloc: Global,
        name: &str,
        opened: io::Result<(R::Opened, u64)>,
    ) -> io::Result<(HostFile<R::Opened>, u64)>
        ensures { MatchResult result
            (λ named. opened ≡ Ok (named.0.file, named.1))
            (λ error. (error_kind error ≡ ErrorKind.OutOfMemory) ⊎ (opened ≡ Err error)) }
    {
        let (file, len) = match opened {
            Ok(opened) => opened,
            Err(error) => return Err(error),
        };
        match String::from_str(alloc, name) {
            Ok(name) => Ok((HostFile::new(alloc, self.errors, name, file), len)),
            Err(_) => Err(io::Error::from(ErrorKind::OutOfMemory)),
        }
    }

    /// The links of an address.
    #[tactic(auto, using(crate::proofs::ShareLemmas::bounded_by_shares))]
    fn open_links(
        &self,
        alloc: Global,
        address: &str,
        workers: u32,
        sessions: u32,
        manner: Manner,
    ) -> io::Result<Vec<HostLink<R>>>
        requires { 0 < workers }
        ensures count { IfOk result (λ links. length links.items ≡ workers) }
        ensures shared { IfOk result
            (λ links. AreShared (λ link. link.left) workers sessions links.items) }
        ensures listens { IfOk result (λ links. (listener : R.Listener)
            × R.listens self.now.machine address.now (Ok listener)
            × HaveHandles R.Listener.shares (λ link. link.listener) listener workers
            links.items) }
        ensures manner { IfOk result
            (λ links. HaveManner (λ link. link.manner) manner workers links.items) }
        ensures bound { IfOk result (λ links. AreBounded
            (λ link. untold_link link.left link.lent link.faults) workers sessions links.items) }
        ensures refused { IfErr result (λ error. (error_kind error ≡ ErrorKind.OutOfMemory)
            ⊎ Listens (R.listens self.now.machine address.now) R.Listener.shares error) }
    {
        match self.machine.listen(address) {
            Ok(listener) => {
                self.share_listener(alloc, address, &listener, workers, sessions, manner)
            }
            Err(error) => Err(error),
        }
    }

    /// A link for each worker, each with a handle of the same listener, to which the sessions are dealt
    /// in turn.
    fn share_listener(
        &self,
        alloc: Global,
        address: &str,
        listener: &R::Listener,
        workers: u32,
        sessions: u32,
        manner: Manner,
    ) -> io::Result<Vec<HostLink<R>>>
        requires { 0 < workers }
        ensures count { IfOk result (λ links. length links.items ≡ workers) }
        ensures shared { IfOk result
            (λ links. AreShared (λ link. link.left) workers sessions links.items) }
        ensures handles { IfOk result (λ links. HaveHandles
            R.Listener.shares (λ link. link.listener) listener.now workers links.items) }
        ensures manner { IfOk result
            (λ links. HaveManner (λ link. link.manner) manner workers links.items) }
        ensures refused { IfErr result (λ error. (error_kind error ≡ ErrorKind.OutOfMemory)
            ⊎ R.Listener.shares listener.now (Err error)) }
    {
        let mut links = Vec::with_capacity(alloc, workers as usize)?;
        for k in 0..workers {
            let address = String::from_str(alloc, address)?;
            let share = share_for(workers, sessions, k);
            let own = match listener.share() {
                Ok(own) => own,
                Err(error) => return Err(error),
            };
            let link = HostLink::new(
                alloc,
                self.machine,
                self.errors,
                address,
                own,
                share,
                manner,
            );
            links.push(link)?;
        }
        Ok(links)
    }
}

/// How many of `sessions` are dealt to worker `k`.
fn share_for(workers: u32, sessions: u32, k: u32) -> u32
    requires { 0 < workers }
    ensures { result ≡ share_of workers sessions k }
{
    if k < sessions {
        (sessions - 1 - k) / workers + 1
    } else {
        0
    }
}

impl<R: FileSystem + Network + Clock + Copy + Drop> Bay for HostBay<R> {
    type Disk = FileDisk<HostFile<R::Opened>>;

    type Link = HostLink<R>;

    ghost holdings = { λ bay. untold_bay bay.faults };

    ghost asks_disk = { λ _ _ _ _ _. Unit {0} };

    ghost asks_reading = { λ _ _ _ _ _. Unit {0} };

    ghost asks_key = { λ _ _ _ _. Unit {0} };

    ghost asks_links = { λ _ _ _ _ _ _ _. Unit {0} };

    fn disk(&mut self, alloc: Global, name: &str, atom: u32) -> Result<Self::Disk, BayFault>
        requires { IsAtom atom }
        ensures atom { IfOk result (λ disk. disk.atom ≡ atom) }
        ensures opened { IfOk result (λ disk. (len : ℕ)
            × OpensLocked (R.opens self.old.machine name.now) R.Opened.locks
            (R.checks self.old.machine) R.Opened.measures (Ok (disk.file.file, len))
            × (disk.atoms ≡ whole_atoms atom len)
            × (disk.tail ≡ tail_behind atom len)) }
        ensures refused { IfErr result (λ fault. fault ≡ BayFault.Failed → (error : Error)
            × OpensLocked (R.opens self.old.machine name.now) R.Opened.locks
            (R.checks self.old.machine) R.Opened.measures (Err error)) }
        ensures one { IfErr result (λ fault. CountsOne fault self.old.faults self.new.faults) }
        ensures cause { HasBayCause self.old.faults self.new.faults result }
    {
        match self.named(alloc, name, open_locked(&self.machine, name)) {
            Ok((file, len)) => Ok(FileDisk::new(file, len, atom)),
            Err(error) => Err(self.refused(alloc, name, &error)),
        }
    }

    /// The disk on the file of that name, opened for reading alone and not locked.
    fn disk_to_read(&mut self, alloc: Global, name: &str, atom: u32) -> Result<Self::Disk, BayFault>
        requires { IsAtom atom }
        ensures atom { IfOk result (λ disk. disk.atom ≡ atom) }
        ensures opened { IfOk result (λ disk. (len : ℕ)
            × OpensToRead (R.opens_to_read self.old.machine name.now)
            R.Opened.measures (Ok (disk.file.file, len))
            × (disk.atoms ≡ whole_atoms atom len)
            × (disk.tail ≡ tail_behind atom len)) }
        ensures refused { IfErr result (λ fault. fault ≡ BayFault.Failed → (error : Error)
            × OpensToRead (R.opens_to_read self.old.machine name.now)
            R.Opened.measures (Err error)) }
        ensures one { IfErr result (λ fault. CountsOne fault self.old.faults self.new.faults) }
        ensures cause { HasBayCause self.old.faults self.new.faults result }
    {
        match self.named(alloc, name, open_for_reading(&self.machine, name)) {
            Ok((file, len)) => Ok(FileDisk::new(file, len, atom)),
            Err(error) => Err(self.refused(alloc, name, &error)),
        }
    }

    fn key(&mut self, alloc: Global, name: &str) -> Result<Bytes, BayFault>
        ensures cut { IfOk result (λ bytes. length bytes ≤ 513) }
        ensures read { IfOk result
            (λ bytes. R.reads_front self.old.machine name.now 513 (Ok bytes)) }
        ensures refused { IfErr result (λ fault. fault ≡ BayFault.Failed → (error : Error)
            × R.reads_front self.old.machine name.now 513 (Err error)) }
        ensures one { IfErr result (λ fault. CountsOne fault self.old.faults self.new.faults) }
        ensures cause { HasBayCause self.old.faults self.new.faults result }
    {
        let read = self.machine.read_front(alloc, name, MAX_KEY);
        self.tell_length(name, &read);
        match read {
            Ok(key) => Ok(key),
            Err(error) => Err(self.refused(alloc, name, &error)),
        }
    }

    fn links(
        &mut self,
        alloc: Global,
        address: &str,
        workers: u32,
        sessions: u32,
        manner: Manner,
    ) -> Result<Vec<HostLink<R>>, BayFault>
        requires { 0 < workers }
        ensures count { IfOk result (λ links. length links.items ≡ workers) }
        ensures shared { IfOk result
            (λ links. AreShared (λ link. link.left) workers sessions links.items) }
        ensures listens { IfOk result (λ links. (listener : R.Listener)
            × R.listens self.old.machine address.now (Ok listener)
            × HaveHandles R.Listener.shares (λ link. link.listener) listener workers
            links.items) }
        ensures refused { IfErr result (λ fault. fault ≡ BayFault.Failed → (error : Error)
            × Listens (R.listens self.old.machine address.now) R.Listener.shares error) }
        ensures manner { IfOk result
            (λ links. HaveManner (λ link. link.manner) manner workers links.items) }
        ensures bound { IfOk result (λ links. AreBounded
            (λ link. untold_link link.left link.lent link.faults) workers sessions links.items) }
        ensures one { IfErr result (λ fault. CountsOne fault self.old.faults self.new.faults) }
        ensures cause { HasBayCause self.old.faults self.new.faults result }
    {
        match self.open_links(alloc, address, workers, sessions, manner) {
            Ok(links) => {
                announce_links(links.as_slice());
                Ok(links)
            }
            Err(error) => Err(self.refused(alloc, address, &error)),
        }
    }

    fn faults(&self) -> u64 {
        self.faults
    }
}
