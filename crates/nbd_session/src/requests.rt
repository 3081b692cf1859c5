ghost use Rattle.std.specs.Prelude.{◌≡◌, ◌<◌, ◌≤◌, ◌+◌, ◌^◌, ℕ, Bool, true, List, length};
ghost use Rattle.std.specs.Prelude.{None};
ghost use Rattle.nbd_session.specs.Requests.{ending_of, data_length, operation_of, IsRefusal};
ghost use Rattle.nbd_session.specs.Taking.{BehindHead, NextIs};
ghost use Rattle.nbd_stream.specs.Traffic.{reach};
ghost use Rattle.nbd_wire.specs.Requests.{IsRequestHead, are_allowed};

use crate::forms::Form;
use base_terms::{Buffer, Bytes, INVALID, NO_MEMORY};
use io_edge::Source;
use nbd_stream::{Data, Ending, Filled, take_data, take_head, take_past};
use nbd_wire::{CommandType, RequestHead};
use plain_disk::{MAX_READ, Op};
use std::alloc::Global;

/// How many bytes the head of a request has.
const HEAD: usize = 28;

/// The most requests that one session may have.
pub(crate) const MAX_REQUESTS: u64 = 1 << 32;

/// The most bytes of data that a write may have.
const MAX_WRITE: u32 = MAX_READ;

/// What comes next from a client: a request with its operation, one that the session itself answers
/// with the number of an error, or the end.
#[derive(Drop)]
pub enum Next {
    Ask {
        cookie: u64,
        form: Form,
        op: Op,
    },
    Refuse {
        cookie: u64,
        form: Form,
        number: u32,
    },
    Stop(Ending),
}

/// Takes the next request from the source, a write's body into the spare buffer, and counts the
/// bytes that it took. Whether structured replies were agreed on decides which flags a read may
/// have, and how it is answered.
pub fn next_request<S: Source>(
    alloc: Global,
    source: &mut S,
    structured: bool,
    spare: &mut Buffer,
    taken: &mut u64,
) -> Next
    ensures { (bytes : List ℕ) × (ended : Bool) × NextIs structured
        (reach (S.intake source.old) taken.old)
        (reach (S.intake source.new) taken.new)
        result bytes ended }
{
    let mut bytes = [0u8; HEAD];
    match take_head(source, &mut bytes, taken) {
        Ok(()) => {}
        Err(ending) => return Next::Stop(ending),
    }
    let head = match RequestHead::read(&bytes) {
        Ok(head) => head,
        Err(bad) => return Next::Stop(Ending::BadMagic(bad.number)),
    };
    match ending(&head) {
        None => behind_head(alloc, source, &head, structured, spare, taken),
        Some(ending) => Next::Stop(ending),
    }
}

/// Takes what is behind the head of a request that doesn't end the session.
fn behind_head<S: Source>(
    alloc: Global,
    source: &mut S,
    head: &RequestHead,
    structured: bool,
    spare: &mut Buffer,
    taken: &mut u64,
) -> Next
    requires head { IsRequestHead head.now }
    requires goes_on { ending_of head.now ≡ None }
    ensures { (body : List ℕ) × (ended : Bool) × BehindHead structured head.now
        (reach (S.intake source.old) taken.old)
        (reach (S.intake source.new) taken.new)
        result body ended }
{
    let cookie = head.cookie;
    let form = Form::of(head, structured);
    if !head.flags.are_allowed(head.command, structured) {
        return refuse(source, head, structured, INVALID, taken);
    }
    match take_data(alloc, source, data_length(head), spare, taken) {
        Data::Whole(body) => match operation(head, structured, body) {
            Some(op) => Next::Ask { cookie, form, op },
            None => Next::Refuse {
                cookie,
                form,
                number: INVALID,
            },
        },
        Data::NoMemory => refuse(source, head, structured, NO_MEMORY, taken),
        Data::Ended(n) => Next::Stop(Ending::Truncated((HEAD + n) as u64)),
        Data::Fault => Next::Stop(Ending::ReadFault),
    }
}

/// Drops the data of a request that is answered with the number of an error.
fn refuse<S: Source>(
    source: &mut S,
    head: &RequestHead,
    structured: bool,
    number: u32,
    taken: &mut u64,
) -> Next
    requires head { IsRequestHead head.now }
    requires goes_on { ending_of head.now ≡ None }
    requires refused { (body : List ℕ) → length body ≡ data_length head.now →
        IsRefusal (operation_of structured head.now body) number }
    ensures { (body : List ℕ) × (ended : Bool) × BehindHead structured head.now
        (reach (S.intake source.old) taken.old)
        (reach (S.intake source.new) taken.new)
        result body ended }
{
    match take_past(source, data_length(head) as usize, taken) {
        Filled::Whole => Next::Refuse {
            cookie: head.cookie,
            form: Form::of(head, structured),
            number,
        },
        Filled::Ended(n) => Next::Stop(Ending::Truncated((HEAD + n) as u64)),
        Filled::Fault(_) => Next::Stop(Ending::ReadFault),
    }
}

/// The ending that a request's head brings, whatever its flags are.
#[tactic(auto, unfolding(crate::specs::Requests::ending_of))]
fn ending(head: &RequestHead) -> Option<Ending>
    ensures { result ≡ ending_of head.now }
{
    match head.command {
        CommandType::Disc => Some(Ending::Disconnected),
        CommandType::Write if head.length > MAX_WRITE => Some(Ending::TooLong(head.length)),
        _ => None,
    }
}

/// How many bytes of data are behind a request's head.
#[tactic(auto, unfolding(crate::specs::Requests::data_length))]
fn data_length(head: &RequestHead) -> u32
    ensures { result ≡ data_length head.now }
{
    match head.command {
        CommandType::Write => head.length,
        _ => 0,
    }
}

/// The operation of a request whose flags its type may have; None of a type that isn't served.
#[tactic(auto, unfolding(crate::specs::Requests::operation_of))]
fn operation(head: &RequestHead, structured: bool, body: Bytes) -> Option<Op>
    requires { are_allowed structured head.now.command head.now.flags.bits ≡ true }
    ensures { result ≡ operation_of structured head.now body }
{
    match head.command {
        CommandType::Read => Some(Op::Read {
            offset: head.offset,
            length: head.length,
        }),
        CommandType::Write => Some(Op::Write {
            offset: head.offset,
            body,
            fua: head.flags.has_fua(),
        }),
        CommandType::WriteZeroes => Some(Op::Zeroes {
            offset: head.offset,
            length: head.length,
            fua: head.flags.has_fua(),
        }),
        CommandType::Flush => Some(Op::Flush),
        _ => None,
    }
}
