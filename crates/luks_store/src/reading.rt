// Copies as they are read from a disk.

ghost use Rattle.std.specs.Prelude.{◌≡◌, ◌+◌, ◌%◌, ◌≤◌, ℕ, List, length, take, drop, Some, IfErr};
ghost use Rattle.std.specs.Prelude.{IfOk, IfSome, IsTrue};
ghost use Rattle.sector_disk.specs.JoinedDisks.Counts.{joint_in, sizes_of};
ghost use Rattle.luks_rules.specs.Areas.{header_bytes};
ghost use Rattle.luks_store.specs.Devices.{are_pages, device_of, front_of, IsCauseOf, IsUnwritten};
ghost use Rattle.luks_store.specs.Found.{copy_at, copy_from, first_at, IsWholeAt, IsWholeBehind};

use crate::copies::HeaderCopy;
use crate::fault::ReadFault;
use base_terms::{Bytes, Failed, zeros};
use luks_bin::{
    BinFault, copies_are_spelt, copies_are_their_fronts, read_copy, read_size,
    sizes_are_told_by_heads,
};
use sector_disk::{Disk, JoinedDisk};
use std::alloc::Global;

/// So many bytes of a disk from a place on. Both are whole pages of 4096 bytes, and thus whole
/// atoms.
pub(crate) fn read_bytes<D: Disk>(
    alloc: Global,
    disk: &mut JoinedDisk<D>,
    place: u64,
    len: u64,
) -> Result<Bytes, ReadFault>
    requires place { place % 4096 ≡ 0 }
    requires len { len % 4096 ≡ 0 }
    requires within { place + len ≤ header_bytes (sizes_of disk.old) }
    ensures bytes { IfOk result (λ bytes. (all : List ℕ) → (device_of disk.old).values ≡ Some all
        → bytes ≡ take len (drop place all)) }
    ensures length { IfOk result (λ bytes. length bytes ≡ len) }
    ensures unwritten { IsUnwritten (joint_in disk.old) (joint_in disk.new) }
    ensures sizes { sizes_of disk.new ≡ sizes_of disk.old }
    ensures cause { IfErr result
        (λ fault. IsCauseOf (device_of disk.old) (device_of disk.new) fault) }
{
    let sizes = disk.sizes();
    let mut bytes = match zeros(alloc, len as usize) {
        Ok(bytes) => bytes,
        Err(_) => return Err(ReadFault::Memory),
    };
    match disk.read(place / sizes.atom as u64, bytes.as_mut_slice()) {
        Ok(()) => Ok(Bytes::new(bytes)),
        Err(Failed) => Err(ReadFault::Device),
    }
}

/// The copy that bytes from a place on begin with, or what is wrong with them first. What stands
/// behind the copy is cut off.
#[tactic(auto, unfolding(crate::specs::Found::copy_from))]
fn copy_in(bytes: Bytes, place: u64) -> Result<HeaderCopy, BinFault>
    ensures found { result ≡ copy_from place bytes }
    ensures whole { IfOk result (IsWholeAt place) }
{
    copies_are_spelt();
    match read_copy(bytes.as_slice(), place) {
        Ok(header) => {
            let mut bytes = bytes.into_vec();
            bytes.truncate(header.hdr_size as usize);
            Ok(HeaderCopy {
                header,
                bytes: Bytes::new(bytes),
            })
        }
        Err(fault) => Err(fault),
    }
}

/// The copy at a place of the header's disk, or what is wrong with it first. Its first 4096 bytes
/// are read, and where they tell the size of a copy that lies on the disk, as many bytes as that.
pub(crate) fn read_at<D: Disk>(
    alloc: Global,
    disk: &mut JoinedDisk<D>,
    place: u64,
) -> Result<Result<HeaderCopy, BinFault>, ReadFault>
    requires { place % 4096 ≡ 0 }
    ensures found { IfOk result (λ found. (all : List ℕ) → (device_of disk.old).values ≡ Some all
        → found ≡ copy_at place (front_of (sizes_of disk.old) all)) }
    ensures whole { IfOk result (λ found. IfOk found (IsWholeAt place)) }
    ensures unwritten { IsUnwritten (joint_in disk.old) (joint_in disk.new) }
    ensures sizes { sizes_of disk.new ≡ sizes_of disk.old }
    ensures cause { IfErr result
        (λ fault. IsCauseOf (device_of disk.old) (device_of disk.new) fault) }
{
    sizes_are_told_by_heads();
    copies_are_their_fronts();
    copies_are_spelt();
    let sizes = disk.sizes();
    let there = (sizes.header_atoms * sizes.atom as u64).saturating_sub(place);
    if there < 4096 {
        return Ok(Err(BinFault::Size(there)));
    }
    let head = match read_bytes(alloc, disk, place, 4096) {
        Ok(head) => head,
        Err(fault) => return Err(fault),
    };
    let size = match read_size(head.as_slice(), place, there) {
        Ok(size) => size,
        Err(fault) => return Ok(Err(fault)),
    };
    match read_bytes(alloc, disk, place, size) {
        Ok(bytes) => Ok(copy_in(bytes, place)),
        Err(fault) => Err(fault),
    }
}

/// The first copy that stands at one of these places of the header's disk, in this order.
pub(crate) fn read_first<D: Disk>(
    alloc: Global,
    disk: &mut JoinedDisk<D>,
    places: &[u64],
) -> Result<Option<HeaderCopy>, ReadFault>
    requires { IsTrue (are_pages places.now) }
    ensures found { IfOk result (λ found. (all : List ℕ) → (device_of disk.old).values ≡ Some all
        → found ≡ first_at places.now (front_of (sizes_of disk.old) all)) }
    ensures whole { IfOk result (λ found. IfSome found IsWholeBehind) }
    ensures unwritten { IsUnwritten (joint_in disk.old) (joint_in disk.new) }
    ensures sizes { sizes_of disk.new ≡ sizes_of disk.old }
    ensures cause { IfErr result
        (λ fault. IsCauseOf (device_of disk.old) (device_of disk.new) fault) }
{
    for i in 0..places.len() {
        match read_at(alloc, disk, places[i]) {
            Ok(Ok(copy)) => return Ok(Some(copy)),
            Ok(Err(_)) => {}
            Err(fault) => return Err(fault),
        }
    }
    Ok(None)
}
