ghost use Rattle.std.specs.Prelude.{◌≡◌, ◌<◌, ◌≤◌, ◌+◌, ◌^◌, ℕ, Bool, List, length, take};
ghost use Rattle.nbd_stream.specs.Counts.{capped};
ghost use Rattle.nbd_stream.specs.Taking.{DataIs, HeadIs, TakesUpTo};
ghost use Rattle.nbd_stream.specs.Traffic.{filled_of, reach};

use crate::Ending;
use crate::filling::{Filled, fill, skip};
use base_terms::{Buffer, Bytes};
use io_edge::Source;
use std::alloc::Global;
use std::mem;

/// The data behind a head: whole, not taken for want of memory, or cut short after so many bytes by
/// the end of the input, or by a fault of the source.
#[derive(Drop)]
pub enum Data {
    Whole(Bytes),
    NoMemory,
    Ended(usize),
    Fault,
}

/// Takes the head of a message, of the buffer's length, which decides what comes behind it.
pub fn take_head<S: Source>(source: &mut S, head: &mut [u8], taken: &mut u64) -> Result<(), Ending>
    requires { 0 < length head.old }
    ensures { (bytes : List ℕ) × (ended : Bool) × HeadIs
        (reach (S.intake source.old) taken.old)
        (reach (S.intake source.new) taken.new)
        (length head.old) head.new result bytes ended }
{
    match take_into(source, head, taken) {
        Filled::Whole => Ok(()),
        Filled::Ended(0) => Err(Ending::Closed),
        Filled::Ended(n) => Err(Ending::Truncated(n as u64)),
        Filled::Fault(_) => Err(Ending::ReadFault),
    }
}

/// Takes the data of so many bytes behind a head. Where there are any, they are put into the front
/// of the spare buffer, of which only what it grows by is zeroed before.
pub fn take_data<S: Source>(
    alloc: Global,
    source: &mut S,
    length: u32,
    spare: &mut Buffer,
    taken: &mut u64,
) -> Data
    ensures { (bytes : List ℕ) × DataIs
        (reach (S.intake source.old) taken.old)
        (reach (S.intake source.new) taken.new)
        length result bytes }
{
    if length == 0 {
        return Data::Whole(Bytes::new(Vec::new(alloc)));
    }
    let len = length as usize;
    if spare.grow(len).is_err() {
        return Data::NoMemory;
    }
    match take_front(source, spare, len, taken) {
        Filled::Whole => Data::Whole(mem::replace(spare, Buffer::empty(alloc)).into_text(len)),
        Filled::Ended(n) => Data::Ended(n),
        Filled::Fault(_) => Data::Fault,
    }
}

/// Fills so many bytes at a buffer's front, and counts those that came.
fn take_front<S: Source>(source: &mut S, buffer: &mut Buffer, len: usize, taken: &mut u64) -> Filled
    requires { len ≤ length buffer.old }
    ensures long { length buffer.new ≡ length buffer.old }
    ensures takes { TakesUpTo
        (reach (S.intake source.old) taken.old)
        (reach (S.intake source.new) taken.new)
        len result (take (filled_of len result) buffer.new) }
{
    take_first(source, buffer.as_mut_slice(), len, taken)
}

/// Fills the first bytes of a slice, and counts those that came.
fn take_first<S: Source>(source: &mut S, bytes: &mut [u8], len: usize, taken: &mut u64) -> Filled
    requires { len ≤ length bytes.old }
    ensures long { length bytes.new ≡ length bytes.old }
    ensures takes { TakesUpTo
        (reach (S.intake source.old) taken.old)
        (reach (S.intake source.new) taken.new)
        len result (take (filled_of len result) bytes.new) }
{
    take_into(source, &mut bytes[..len], taken)
}

/// Fills a buffer, and counts the bytes that came.
fn take_into<S: Source>(source: &mut S, buf: &mut [u8], taken: &mut u64) -> Filled
    ensures { TakesUpTo
        (reach (S.intake source.old) taken.old)
        (reach (S.intake source.new) taken.new)
        (length buf.new) result (take (filled_of (length buf.new) result) buf.new) }
{
    let filled = fill(source, buf);
    *taken = counted(*taken, filled, buf.len());
    filled
}

/// Takes so many bytes and drops them, and counts those that came.
pub fn take_past<S: Source>(source: &mut S, length: usize, taken: &mut u64) -> Filled
    ensures { (bytes : List ℕ) × TakesUpTo
        (reach (S.intake source.old) taken.old)
        (reach (S.intake source.new) taken.new)
        length result bytes }
{
    let filled = skip(source, length);
    *taken = counted(*taken, filled, length);
    filled
}

/// A count of bytes taken, with those that came of `wanted`. It stands still at its last value.
fn counted(count: u64, filled: Filled, wanted: usize) -> u64
    ensures { result ≡ capped (count + filled_of wanted filled) }
{
    let came = match filled {
        Filled::Whole => wanted,
        Filled::Ended(n) | Filled::Fault(n) => n,
    };
    count.saturating_add(came as u64)
}
