//! The source of a session, as a machine that gives the session's lanes one request after the other.
ghost use Rattle.std.specs.Prelude.{◌≡◌, []};

use crate::requests::{MAX_REQUESTS, Next, next_request};
use base_terms::Buffer;
use io_edge::Source;
use nbd_stream::Ending;
use std::alloc::Global;
use std::snapshot::Snapshot;
use std::sync::Wait;
use std::thread::Threads;
use volume_cell::Machine;

/// A source, and how far its requests were taken.
#[derive(Drop)]
pub struct Reading<S: Source> {
    pub(crate) source: S,
    /// How many bytes were taken.
    pub(crate) taken: u64,
    /// Whether structured replies were agreed on.
    pub(crate) structured: bool,
    /// How many requests were given: the number of the next one.
    pub(crate) next: u64,
    /// How the requests ended, once they did.
    pub(crate) ending: Option<Ending>,
}

impl<S: Source> Reading<S> {
    ghost use Rattle.nbd_session.specs.Takes.{HasTaken};

    /// The next request, a write's body in the spare buffer's memory, or how the requests ended.
    fn take(&mut self, alloc: Global, spare: &mut Buffer) -> Next
        ensures { HasTaken S.intake self.old self.new result }
    {
        if let Some(ending) = self.ending {
            return Next::Stop(ending);
        }
        if self.next >= MAX_REQUESTS {
            let ending = Ending::TooMany(MAX_REQUESTS);
            self.ending = Some(ending);
            return Next::Stop(ending);
        }
        match next_request(
            alloc,
            &mut self.source,
            self.structured,
            spare,
            &mut self.taken,
        ) {
            Next::Stop(ending) => {
                self.ending = Some(ending);
                Next::Stop(ending)
            }
            Next::Ask { cookie, form, op } => {
                self.next += 1;
                Next::Ask { cookie, form, op }
            }
            Next::Refuse {
                cookie,
                form,
                number,
            } => {
                self.next += 1;
                Next::Refuse {
                    cookie,
                    form,
                    number,
                }
            }
        }
    }
}

/// What a lane asks of the reader: the next request. The memory of the spare buffer is for a write's
/// body; what is in it isn't to be used.
#[derive(Drop)]
pub struct Take {
    pub spare: Buffer,
}

/// What the reader gives: the next request, or how the requests ended; a request's number, of which
/// the first is 0; and the spare buffer, if it isn't the body's.
#[derive(Drop)]
pub struct Taken {
    pub number: u64,
    pub next: Next,
    pub spare: Buffer,
}

/// The source of a session, from which its lanes take the requests, and for the proofs alone what it
/// was at first. It numbers the requests from 0. Once they have ended it takes nothing more, and
/// answers that ending to each lane.
#[derive(Drop)]
pub struct Reader<S: Source> {
    pub(crate) reading: Reading<S>,
    opening: Snapshot<Reading<S>>,
    alloc: Global,
}

impl<S: Source> Reader<S> {
    ghost use Rattle.nbd_session.specs.Takes.{HasRead};

    /// The reader of a source from which so many bytes were taken before its requests.
    pub(crate) fn new(alloc: Global, source: S, taken: u64, structured: bool) -> Reader<S>
        ensures source { result.reading.source ≡ source }
        ensures taken { result.reading.taken ≡ taken }
        ensures structured { result.reading.structured ≡ structured }
        ensures opening { result.opening.value ≡ result.reading }
        ensures stands { HasRead S.intake result.opening.value result.reading [] }
    {
        let reading = Reading {
            source,
            taken,
            structured,
            next: 0,
            ending: None,
        };
        let opening = Snapshot::of(&reading);
        Reader {
            reading,
            opening,
            alloc,
        }
    }
}

impl<S: Source> Machine for Reader<S> {
    ghost use Rattle.nbd_session.specs.Takes.{HasRead, MayTake};

    type Event = Take;

    type Outcome = Taken;

    type Start = Reading<S>;

    ghost start = { λ machine. machine.opening.value };

    ghost stands_for = { λ machine history.
        HasRead S.intake machine.opening.value machine.reading history };

    ghost fits = { λ start name calls event. MayTake name };

    fn is_long(_event: &Take) -> bool {
        false
    }

    fn act<R: Threads + Wait + Sync>(&mut self, _rt: &R, event: Take) -> Taken {
        let Take { mut spare } = event;
        let number = self.reading.next;
        let next = self.reading.take(self.alloc, &mut spare);
        Taken {
            number,
            next,
            spare,
        }
    }
}
