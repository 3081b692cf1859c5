// The key of a passphrase.

ghost use Rattle.std.specs.Prelude.{◌≡◌, true, List, ℕ, length, Some, IfOk, IfSome, IsErr, IsSome};
ghost use Rattle.std.specs.List.{AllByRecursion};
ghost use Rattle.base_terms.specs.Causes.{Rose};
ghost use Rattle.luks_meta.specs.Names.{is_iterations};
ghost use Rattle.luks_meta.specs.declared.digest.Digest.{Digest as digest_type};
ghost use Rattle.luks_rules.specs.References.{value_at};
ghost use Rattle.sector_disk.specs.JoinedDisks.Counts.{HasSizes};
ghost use Rattle.luks_slots.specs.Devices.{IsUnwritten};
ghost use Rattle.luks_slots.specs.Unlocks.{IsRight, IsUnlocked};

use crate::fault::SlotFault;
use crate::key::Key;
use crate::key_digest::is_key_of;
use crate::slots::{has_rank, list_refusals, opening_functions};
use crate::stripes::{MOST_STRIPES, unseal_key};
use base_terms::{Failed, zeros};
use json_members::Listed;
use luks_meta::{Derivation, Digest, Keyslot, Luks2, Parts, Priority};
use luks_rules::{Valid, lists_number};
use sector_disk::Disk;
use std::alloc::Global;

/// What keyslots are tried with: their header's objects, the digest of the key, and a passphrase.
#[derive(Clone, Copy)]
struct Attempt<'a> {
    parts: &'a Parts,
    digest: &'a Digest,
    pass: &'a [u8],
}

impl Attempt<'_> {
    ghost use Rattle.luks_slots.specs.Slots.{fits, IsReady, LiesOn};
    ghost use Rattle.luks_slots.specs.Unlocks.{first_key, if_matching, key_at, key_in};

    /// The key in a keyslot, if the digest is one of it.
    fn open<D: Disk>(
        &self,
        disk: &mut D,
        buffer: &mut [u8],
        slot: &Luks2,
    ) -> Result<Option<Key>, Failed>
        requires lies { LiesOn (D.device disk.old).size (D.device disk.old).atoms slot.now }
        requires digest { is_iterations self.now.digest.now.iterations ≡ true }
        requires buffer { length buffer.old ≡ MOST_STRIPES }
        ensures buffer { length buffer.new ≡ length buffer.old }
        ensures found { (image : List ℕ) → (D.device disk.old).values ≡ Some image →
            IfOk result (λ found. found ≡ if_matching self.now.digest.now
            (key_in self.now.parts.now self.now.digest.now image self.now.pass.now slot.now)) }
        ensures right { IfOk result
            (λ found. IfSome found (IsRight self.now.parts.now self.now.digest.now)) }
        ensures unwritten { IsUnwritten (D.device disk.old) (D.device disk.new) }
        ensures cause { IsErr result → Rose (D.device disk.old).faults (D.device disk.new).faults }
    {
        let Derivation::Pbkdf2(kdf) = &slot.kdf.derivation else {
            return Ok(None);
        };
        let Some(functions) = opening_functions(self.parts, self.digest, slot) else {
            return Ok(None);
        };
        match unseal_key(disk, buffer, self.pass, kdf, functions, slot) {
            Ok(key) => {
                if is_key_of(self.digest, &key) {
                    Ok(Some(key))
                } else {
                    Ok(None)
                }
            }
            Err(failed) => Err(failed),
        }
    }

    /// The key in a keyslot, if it is one of this priority that the digest lists.
    fn try_slot<D: Disk>(
        &self,
        disk: &mut D,
        buffer: &mut [u8],
        rank: Priority,
        entry: &(u64, Keyslot),
    ) -> Result<Option<Key>, Failed>
        requires ready { IsReady (D.device disk.old).size (D.device disk.old).atoms entry.now.1 }
        requires digest { is_iterations self.now.digest.now.iterations ≡ true }
        requires buffer { length buffer.old ≡ MOST_STRIPES }
        ensures buffer { length buffer.new ≡ length buffer.old }
        ensures found { (image : List ℕ) → (D.device disk.old).values ≡ Some image →
            IfOk result (λ found. found ≡ key_at self.now.parts.now self.now.digest.now image
            self.now.pass.now rank entry.now) }
        ensures right { IfOk result
            (λ found. IfSome found (IsRight self.now.parts.now self.now.digest.now)) }
        ensures unwritten { IsUnwritten (D.device disk.old) (D.device disk.new) }
        ensures cause { IsErr result → Rose (D.device disk.old).faults (D.device disk.new).faults }
    {
        let Keyslot::Luks2(slot) = &entry.1 else {
            return Ok(None);
        };
        if !has_rank(rank, &slot.priority) {
            return Ok(None);
        }
        if !lists_number(self.digest.keyslots.as_slice(), entry.0) {
            return Ok(None);
        }
        self.open(disk, buffer, slot)
    }

    /// The key of the first keyslot of this priority that gives one.
    fn try_all<D: Disk>(
        &self,
        disk: &mut D,
        buffer: &mut [u8],
        rank: Priority,
    ) -> Result<Option<Key>, Failed>
        requires ready { AllByRecursion (λ slot. IsReady (D.device disk.old).size
            (D.device disk.old).atoms slot.1) self.now.parts.now.keyslots }
        requires digest { is_iterations self.now.digest.now.iterations ≡ true }
        requires buffer { length buffer.old ≡ MOST_STRIPES }
        ensures buffer { length buffer.new ≡ length buffer.old }
        ensures found { (image : List ℕ) → (D.device disk.old).values ≡ Some image →
            IfOk result (λ found. found ≡ first_key self.now.parts.now self.now.digest.now image
            self.now.pass.now rank self.now.parts.now.keyslots) }
        ensures right { IfOk result
            (λ found. IfSome found (IsRight self.now.parts.now self.now.digest.now)) }
        ensures unwritten { IsUnwritten (D.device disk.old) (D.device disk.new) }
        ensures cause { IsErr result → Rose (D.device disk.old).faults (D.device disk.new).faults }
    {
        let slots = self.parts.keyslots.as_slice();
        for i in 0..slots.len() {
            match self.try_slot(disk, buffer, rank, &slots[i]) {
                Ok(None) => {}
                Ok(Some(key)) => return Ok(Some(key)),
                Err(failed) => return Err(failed),
            }
        }
        Ok(None)
    }

    /// The key of the first keyslot that gives one, or why each gave none.
    fn find<D: Disk>(&self, alloc: Global, disk: &mut D) -> Result<Key, SlotFault>
        requires ready { AllByRecursion (λ slot. IsReady (D.device disk.old).size
            (D.device disk.old).atoms slot.1) self.now.parts.now.keyslots }
        requires digest { is_iterations self.now.digest.now.iterations ≡ true }
        ensures unlocked { IsUnlocked self.now.parts.now self.now.digest.now self.now.pass.now
            (D.device disk.old) (D.device disk.new) result }
        ensures unwritten { IsUnwritten (D.device disk.old) (D.device disk.new) }
    {
        let mut buffer = match zeros(alloc, MOST_STRIPES) {
            Ok(buffer) => buffer,
            Err(_) => return Err(SlotFault::Memory),
        };
        let stripes = buffer.as_mut_slice();
        match self.try_all(disk, stripes, Priority::High) {
            Ok(None) => {}
            Ok(Some(key)) => return Ok(key),
            Err(_) => return Err(SlotFault::Device),
        }
        match self.try_all(disk, stripes, Priority::Normal) {
            Ok(None) => {}
            Ok(Some(key)) => return Ok(key),
            Err(_) => return Err(SlotFault::Device),
        }
        match list_refusals(alloc, self.parts, self.digest) {
            Ok(refusals) => Err(SlotFault::NoKey(Listed::new(refusals))),
            Err(_) => Err(SlotFault::Memory),
        }
    }
}

/// The key that a passphrase unseals for the digest with this number. Keyslots of priority 2 are
/// tried first, and then those of priority 1 or of none, each by rising number; those of priority 0
/// never. Each is tried by one read of its area, at most 258048 bytes, which take memory once for
/// all of them. Nothing is written.
///
/// The disk is that of the header: of the sizes that it was judged by, which are all its atoms, the
/// header's own in front. Where the disk tells what it holds the answer is that of its current
/// bytes; `Memory` and `Device`, which comes only where the count of the disk's faults rose, say
/// nothing of them. A digest of fewer than 20 bytes, or of more than 64, is that of no key.
pub fn unlock<D: Disk>(
    alloc: Global,
    valid: &Valid,
    disk: &mut D,
    pass: &[u8],
    digest: u64,
) -> Result<Key, SlotFault>
    requires digest { IsSome (value_at valid.now.meta.digests digest) }
    requires header { HasSizes valid.now.sizes (D.device disk.old) }
    ensures unlocked { (d : digest_type) → value_at valid.now.meta.digests digest ≡ Some d →
        IsUnlocked valid.now.meta d pass.now (D.device disk.old) (D.device disk.new) result }
    ensures unwritten { IsUnwritten (D.device disk.old) (D.device disk.new) }
{
    valid.is_sound();
    let Some(wanted) = valid.digest(digest) else {
        unreachable!()
    };
    let attempt = Attempt {
        parts: valid.meta().parts(),
        digest: wanted,
        pass,
    };
    attempt.find(alloc, disk)
}
