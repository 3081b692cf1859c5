// A header as it was loaded.

ghost use Rattle.std.specs.Prelude.{◌≡◌, ◌<◌, ℕ, List, Some, IfErr, IfOk};
ghost use Rattle.base_terms.specs.declared.disk_sizes.Sizes.{Sizes as sizes_type};
ghost use Rattle.sector_disk.specs.JoinedDisks.Counts.{joint_in, sizes_of};
ghost use Rattle.luks_store.specs.Devices.{device_of, front_of, IsUnwritten};
ghost use Rattle.luks_store.specs.Loads.{judged, stored_in, Answers, HasCause, IsNoRead};
ghost use Rattle.luks_store.specs.Used.{AreCopies};

use crate::copies::{Copies, CopyPlace};
use crate::fault::{ReadFault, StoreFault};
use crate::reading::read_bytes;
use crate::used::read_copies;
use base_terms::Sizes;
use json_members::ReadError;
use luks_bin::{BinHeader, json_text};
use luks_json::JsonText;
use luks_meta::Meta;
use luks_rules::{CheckError, Valid, check};
use sector_disk::{Disk, JoinedDisk};
use std::alloc::Global;
use std::marker::Model;

/// A header that a disk holds: its copies, and its metadata, which break no rule.
#[derive(Drop)]
pub struct Stored {
    pub copies: Copies,
    pub valid: Valid,
}

/// A header as it was loaded, which contracts see as what the disk held.
pub struct Loaded {
    pub(crate) stored: Stored,
}

// By hand, so that a header that is dropped in place is one call to the prover.
impl Drop for Loaded {
    fn drop(self) {
        let Loaded { stored } = self;
        drop(stored);
    }
}

impl Model for Loaded {
    ghost use Rattle.luks_store.specs.declared.loaded.Stored.{Stored};

    ghost Value = { Stored };

    ghost use Rattle.luks_store.specs.contracts.loaded.Stored as stored_type;

    ghost coded = { stored_type.the_row.coded };

    ghost use Rattle.luks_store.specs.Loads.{IsStored};

    ghost view = { λ loaded. loaded.stored };

    ghost invariant = { λ loaded. IsStored loaded.stored };
}

/// The metadata in the copy that is used, where they break no rule for disks of these sizes.
#[tactic(auto, unfolding(crate::specs::Loads::judged))]
pub(crate) fn judge(alloc: Global, copies: Copies, sizes: Sizes) -> Result<Loaded, StoreFault>
    requires copies { AreCopies copies }
    requires atom { 0 < sizes.atom }
    ensures held { Answers result (judged sizes copies) }
    ensures sized { IfOk result (λ loaded. loaded.valid.sizes ≡ sizes) }
    ensures same { IfOk result (λ loaded. loaded.copies ≡ copies) }
    ensures no_read { IfErr result IsNoRead }
{
    let text = json_text(copies.used.bytes.as_slice());
    let meta = match Meta::read(alloc, text, copies.used.header.hdr_size) {
        Ok(meta) => meta,
        Err(ReadError::Memory) => return Err(StoreFault::Memory),
        Err(ReadError::Fault(fault)) => return Err(StoreFault::Json(fault)),
    };
    match check(alloc, meta, sizes) {
        Ok(valid) => Ok(Loaded {
            stored: Stored { copies, valid },
        }),
        Err(CheckError::Memory) => Err(StoreFault::Memory),
        Err(CheckError::Fault(fault)) => Err(StoreFault::Rule(fault)),
    }
}

/// The header that a disk holds: of its two copies the one that is used, and the metadata in it,
/// which break no rule for the sizes of this disk. It is read from the header's own disk alone, and
/// nothing is written. Where the disk tells what it holds, the answer is that of its current bytes;
/// `Memory` and
/// `Device`, which comes only where the count of the disk's faults rose, say nothing of them.
#[tactic(auto, unfolding(crate::specs::Loads::stored_in))]
pub fn load<D: Disk>(alloc: Global, disk: &mut JoinedDisk<D>) -> Result<Loaded, StoreFault>
    ensures held { (all : List ℕ) → (device_of disk.old).values ≡ Some all → Answers result
        (stored_in (sizes_of disk.old) (front_of (sizes_of disk.old) all)) }
    ensures sized { IfOk result (λ loaded. loaded.valid.sizes ≡ sizes_of disk.old) }
    ensures unwritten { IsUnwritten (joint_in disk.old) (joint_in disk.new) }
    ensures sizes { sizes_of disk.new ≡ sizes_of disk.old }
    ensures cause { IfErr result
        (λ fault. HasCause (device_of disk.old) (device_of disk.new) fault) }
{
    let sizes = disk.sizes();
    match read_copies(alloc, disk) {
        Ok(copies) => judge(alloc, copies, sizes),
        Err(fault) => Err(fault),
    }
}

impl Loaded {
    ghost use Rattle.std.specs.Prelude.{◌+◌, ◌*◌, ◌≤◌, None, take};
    ghost use Rattle.luks_bin.specs.Hidden.{hides_copy};
    ghost use Rattle.luks_rules.specs.Rules.{first_fault};
    ghost use Rattle.luks_store.specs.Devices.{header_room, IsCauseOf};
    ghost use Rattle.luks_store.specs.Loads.{IsStored};

    /// What the disk held: a law, with nothing to run. The metadata break no rule for these sizes,
    /// and state the size of the copy that is used, of which the header's disk has room for two.
    pub fn is_stored(&self)
        ensures stored { IsStored self.now }
        ensures rules { first_fault self.now.valid.meta self.now.valid.sizes ≡ None }
        ensures size { self.now.valid.meta.config.json_size + 4096
            ≡ self.now.copies.used.header.hdr_size }
        ensures room { 2 * self.now.copies.used.header.hdr_size
            ≤ header_room self.now.valid.sizes }
    {
        let _parts = self.stored.valid.meta().parts();
    }

    /// Whether the magic of a secondary stands within the copy that is used, where one could be
    /// found. Where none does, and the primary is used, no image that a stop leaves of a commit, or
    /// of a repair of the secondary, has a copy in front of the secondary but the primary.
    pub fn hides_copy(&self) -> bool
        ensures { result ≡ hides_copy self.now.copies.used.bytes }
    {
        luks_bin::hides_copy(self.stored.copies.used.bytes.as_slice())
    }

    /// Whether it stands in what the disk has at the primary's place, whatever that is. Where it
    /// stands neither there nor within the copy that is used, that is so of a repair of the primary
    /// as well. Nothing is written; want of memory, and a read that fails, say nothing.
    pub fn front_hides_copy<D: Disk>(
        &self,
        alloc: Global,
        disk: &mut JoinedDisk<D>,
    ) -> Result<bool, ReadFault>
        requires { sizes_of disk.old ≡ self.now.valid.sizes }
        ensures hides { IfOk result (λ hides. (all : List ℕ)
            → (device_of disk.old).values ≡ Some all
            → hides ≡ hides_copy (take self.now.copies.used.header.hdr_size all)) }
        ensures unwritten { IsUnwritten (joint_in disk.old) (joint_in disk.new) }
        ensures sizes { sizes_of disk.new ≡ sizes_of disk.old }
        ensures cause { IfErr result
            (λ fault. IsCauseOf (device_of disk.old) (device_of disk.new) fault) }
    {
        self.is_stored();
        match read_bytes(alloc, disk, 0, self.stored.copies.used.header.hdr_size) {
            Ok(bytes) => Ok(luks_bin::hides_copy(bytes.as_slice())),
            Err(fault) => Err(fault),
        }
    }

    /// The binary header of the copy that is used.
    pub fn header(&self) -> BinHeader
        ensures { result ≡ self.now.copies.used.header }
    {
        self.stored.copies.used.header
    }

    /// The metadata.
    pub fn valid(&self) -> &Valid
        ensures { result.now ≡ self.now.valid }
    {
        &self.stored.valid
    }

    /// What stands at 0.
    pub fn primary(&self) -> CopyPlace
        ensures { result ≡ self.now.copies.primary }
    {
        self.stored.copies.primary
    }

    /// What stands behind it.
    pub fn secondary(&self) -> CopyPlace
        ensures { result ≡ self.now.copies.secondary }
    {
        self.stored.copies.secondary
    }
}
