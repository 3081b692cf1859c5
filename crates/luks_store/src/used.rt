// Which of the two copies is used.

ghost use Rattle.std.specs.Prelude.{◌≡◌, ℕ, List, Some, IfErr, IfOk};
ghost use Rattle.sector_disk.specs.JoinedDisks.Counts.{joint_in, sizes_of};
ghost use Rattle.luks_store.specs.Devices.{device_of, front_of, IsUnwritten};
ghost use Rattle.luks_store.specs.Found.{copy_at, IsWholeAt, IsWholeBehind};
ghost use Rattle.luks_store.specs.Loads.{Answers, HasCause, IsNoRead};
ghost use Rattle.luks_store.specs.Used.{at_nearest, beside, copies_in, kept, nearest, newer_of};
ghost use Rattle.luks_store.specs.Used.{primary_alone, secondary_alone, AreCopies};

use crate::copies::{Copies, CopyPlace, CopyState, HeaderCopy};
use crate::fault::StoreFault;
use crate::header_copies::copies_mean_what_they_share;
use crate::reading::{read_at, read_first};
use luks_bin::{BinFault, HEADER_SIZES, first_difference};
use sector_disk::{Disk, JoinedDisk};
use std::alloc::Global;

/// A place with a copy.
fn place_of(state: CopyState, copy: &HeaderCopy) -> CopyPlace
    ensures { result ≡ kept state copy.now }
{
    CopyPlace {
        state,
        salt: copy.header.salt,
    }
}

/// Of two copies that stand at their places the one of the higher number, or, of two with one
/// number that share all bytes that copies share, the primary.
#[tactic(auto, unfolding(crate::specs::Used::newer_of))]
fn newer(first: HeaderCopy, second: HeaderCopy) -> Result<Copies, StoreFault>
    requires first { IsWholeAt 0 first }
    requires second { IsWholeAt first.header.hdr_size second }
    ensures used { Answers result (newer_of first second) }
    ensures are { IfOk result AreCopies }
    ensures no_read { IfErr result IsNoRead }
{
    copies_mean_what_they_share();
    if second.header.seqid < first.header.seqid {
        let primary = place_of(CopyState::Good, &first);
        let secondary = place_of(CopyState::Older, &second);
        return Ok(Copies {
            used: first,
            primary,
            secondary,
        });
    }
    if first.header.seqid < second.header.seqid {
        let primary = place_of(CopyState::Older, &first);
        let secondary = place_of(CopyState::Good, &second);
        return Ok(Copies {
            used: second,
            primary,
            secondary,
        });
    }
    match first_difference(first.bytes.as_slice(), second.bytes.as_slice()) {
        Some(place) => Err(StoreFault::CopiesDiffer {
            seqid: first.header.seqid,
            place,
        }),
        None => {
            let primary = place_of(CopyState::Good, &first);
            let secondary = place_of(CopyState::Good, &second);
            Ok(Copies {
                used: first,
                primary,
                secondary,
            })
        }
    }
}

/// A primary without a secondary.
fn first_alone(copy: HeaderCopy) -> Copies
    requires { IsWholeAt 0 copy }
    ensures is { result ≡ primary_alone copy }
    ensures are { AreCopies result }
{
    let primary = place_of(CopyState::Good, &copy);
    let secondary = place_of(CopyState::Lacking, &copy);
    Copies {
        used: copy,
        primary,
        secondary,
    }
}

/// A secondary without a primary.
fn second_alone(copy: HeaderCopy) -> Copies
    requires { IsWholeBehind copy }
    ensures is { result ≡ secondary_alone copy }
    ensures are { AreCopies result }
{
    let primary = place_of(CopyState::Lacking, &copy);
    let secondary = place_of(CopyState::Good, &copy);
    Copies {
        used: copy,
        primary,
        secondary,
    }
}

/// The primary, and what stands at its size.
fn read_beside<D: Disk>(
    alloc: Global,
    disk: &mut JoinedDisk<D>,
    first: HeaderCopy,
) -> Result<Copies, StoreFault>
    requires { IsWholeAt 0 first }
    ensures used { (all : List ℕ) → (device_of disk.old).values ≡ Some all → Answers result
        (beside first (copy_at first.header.hdr_size (front_of (sizes_of disk.old) all))) }
    ensures are { IfOk result AreCopies }
    ensures unwritten { IsUnwritten (joint_in disk.old) (joint_in disk.new) }
    ensures sizes { sizes_of disk.new ≡ sizes_of disk.old }
    ensures cause { IfErr result
        (λ fault. HasCause (device_of disk.old) (device_of disk.new) fault) }
{
    match read_at(alloc, disk, first.header.hdr_size) {
        Ok(Ok(second)) => newer(first, second),
        Ok(Err(_)) => Ok(first_alone(first)),
        Err(fault) => Err(StoreFault::from(fault)),
    }
}

/// The first copy at the other places, where at 0 there is this fault.
fn read_behind<D: Disk>(
    alloc: Global,
    disk: &mut JoinedDisk<D>,
    fault: BinFault,
) -> Result<Copies, StoreFault>
    ensures used { (all : List ℕ) → (device_of disk.old).values ≡ Some all → Answers result
        (at_nearest fault (front_of (sizes_of disk.old) all)
        (copy_at nearest (front_of (sizes_of disk.old) all))) }
    ensures are { IfOk result AreCopies }
    ensures unwritten { IsUnwritten (joint_in disk.old) (joint_in disk.new) }
    ensures sizes { sizes_of disk.new ≡ sizes_of disk.old }
    ensures cause { IfErr result
        (λ fault. HasCause (device_of disk.old) (device_of disk.new) fault) }
{
    let near = match read_at(alloc, disk, HEADER_SIZES[0]) {
        Ok(Ok(copy)) => return Ok(second_alone(copy)),
        Ok(Err(near)) => near,
        Err(fault) => return Err(StoreFault::from(fault)),
    };
    match read_first(alloc, disk, &HEADER_SIZES[1..]) {
        Ok(Some(copy)) => Ok(second_alone(copy)),
        Ok(None) => Err(StoreFault::NoHeader {
            primary: fault,
            secondary: near,
        }),
        Err(fault) => Err(StoreFault::from(fault)),
    }
}

/// The copies of the header on a disk: which is used, and what stands at both places. Nothing is
/// written.
#[tactic(auto, unfolding(crate::specs::Used::copies_in))]
pub(crate) fn read_copies<D: Disk>(
    alloc: Global,
    disk: &mut JoinedDisk<D>,
) -> Result<Copies, StoreFault>
    ensures used { (all : List ℕ) → (device_of disk.old).values ≡ Some all →
        Answers result (copies_in (front_of (sizes_of disk.old) all)) }
    ensures are { IfOk result AreCopies }
    ensures unwritten { IsUnwritten (joint_in disk.old) (joint_in disk.new) }
    ensures sizes { sizes_of disk.new ≡ sizes_of disk.old }
    ensures cause { IfErr result
        (λ fault. HasCause (device_of disk.old) (device_of disk.new) fault) }
{
    match read_at(alloc, disk, 0) {
        Ok(Ok(first)) => read_beside(alloc, disk, first),
        Ok(Err(fault)) => read_behind(alloc, disk, fault),
        Err(fault) => Err(StoreFault::from(fault)),
    }
}
