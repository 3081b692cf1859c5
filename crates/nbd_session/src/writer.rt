//! The sink of a session, as a machine that puts the replies of the session's lanes.
ghost use Rattle.std.specs.Prelude.{◌≡◌, []};

use crate::forms::Form;
use crate::replies::put_reply;
use io_edge::Sink;
use plain_disk::Reply;
use std::snapshot::Snapshot;
use std::sync::Wait;
use std::thread::Threads;
use volume_cell::Machine;

/// A sink, and what was put to it.
#[derive(Drop)]
pub struct Writing<K: Sink> {
    pub(crate) sink: K,
    /// How many bytes of pieces were put whole.
    pub(crate) put: u64,
    /// Whether the sink failed.
    pub(crate) failed: bool,
}

impl<K: Sink> Writing<K> {
    ghost use Rattle.nbd_session.specs.Puts.{HasPut};
    ghost use Rattle.nbd_session.specs.Replies.{IsAnswerIn, reply_text};

    /// Puts a reply and lets it go out, and tells whether the sink took it.
    fn put(&mut self, form: Form, cookie: u64, reply: &Reply) -> bool
        requires { IsAnswerIn form reply.now }
        ensures { HasPut K.outlet self.old self.new (reply_text form cookie reply.now) result }
    {
        if self.failed {
            return false;
        }
        match put_reply(&mut self.sink, form, cookie, reply, &mut self.put) {
            Ok(()) => true,
            Err(_) => {
                self.failed = true;
                false
            }
        }
    }
}

/// What a lane asks of the writer: to put the reply to the request of this number.
#[derive(Drop)]
pub struct Put {
    pub number: u64,
    pub cookie: u64,
    pub form: Form,
    pub reply: Reply,
}

/// Whether a reply was put and has gone out, or the sink failed, at it or before. The reply comes
/// back, for its memory.
#[derive(Drop)]
pub enum Written {
    Done(Reply),
    SinkFailed(Reply),
}

/// The sink of a session, to which its lanes put their replies, and for the proofs alone what it was
/// at first. Once the sink has failed, nothing more is put.
#[derive(Drop)]
pub struct Writer<K: Sink> {
    pub(crate) writing: Writing<K>,
    opening: Snapshot<Writing<K>>,
}

impl<K: Sink> Writer<K> {
    ghost use Rattle.nbd_session.specs.Puts.{HasWritten};
    ghost use Rattle.nbd_stream.specs.Putting.{IsOut};

    /// The writer of a sink to which so many bytes were put before the replies.
    pub(crate) fn new(sink: K, put: u64) -> Writer<K>
        requires { IsOut (K.outlet sink) }
        ensures sink { result.writing.sink ≡ sink }
        ensures put { result.writing.put ≡ put }
        ensures opening { result.opening.value ≡ result.writing }
        ensures stands { HasWritten K.outlet result.opening.value result.writing [] }
    {
        let writing = Writing {
            sink,
            put,
            failed: false,
        };
        let opening = Snapshot::of(&writing);
        Writer { writing, opening }
    }
}

impl<K: Sink> Machine for Writer<K> {
    ghost use Rattle.nbd_session.specs.Puts.{HasWritten, MayPut};

    type Event = Put;

    type Outcome = Written;

    type Start = Writing<K>;

    ghost start = { λ machine. machine.opening.value };

    ghost stands_for = { λ machine history.
        HasWritten K.outlet machine.opening.value machine.writing history };

    ghost fits = { λ start name calls event. MayPut name event };

    fn is_long(_event: &Put) -> bool {
        false
    }

    fn act<R: Threads + Wait + Sync>(&mut self, _rt: &R, event: Put) -> Written {
        let Put {
            number: _,
            cookie,
            form,
            reply,
        } = event;
        if self.writing.put(form, cookie, &reply) {
            Written::Done(reply)
        } else {
            Written::SinkFailed(reply)
        }
    }
}
