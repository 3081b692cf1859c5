ghost use Rattle.std.specs.Prelude.{◌≡◌, ◌+◌, ◌^◌, ◌<◌, ◌⊎◌, [], None, Ok, Err, IfOk, IfErr};
ghost use Rattle.std.specs.Prelude.{IfSome, IfNone, IsErr, false};
ghost use Rattle.std.specs.Io.Buffered.{reader_buffer, reader_inner};
ghost use Rattle.std.specs.IoError.{error_kind};
ghost use Rattle.std.specs.declared.io.Error.{Error};
ghost use Rattle.base_terms.specs.Causes.{HasCause};
ghost use Rattle.bays.specs.Stories.{CountsGiven, HasNoneAhead};
ghost use Rattle.io_edge.specs.Faults.{Counts};
ghost use Rattle.host_edge.specs.Clients.{MeetsNobody};
ghost use Rattle.host_edge.specs.Untold.{untold_link};

use crate::client_stream::ClientStream;
use crate::client_writer::ClientWriter;
use crate::network::{Listener, Network, passes};
use crate::notices::{announce, complain};
use crate::streams::{HostReader, HostWriter, Peer};
use crate::watch::Watch;
use base_terms::Failed;
use bays::{Link, Manner};
use io_edge::{GatheringWriter, StdSink, StdSource};
use std::alloc::Global;
use std::io::{self, BufReader, ErrorKind, Stderr};
use std::thread::sleep;
use std::time::{Clock, Duration};

/// How many bytes a connection reads ahead and holds back at most.
const ROOM: usize = 8192;

/// The source of a connection. It reads ahead, so that a request and the beginning of its data come
/// by one call of the system.
pub type HostSource<C> = StdSource<ClientStream<BufReader<HostReader>, C>>;

/// The sink of a connection. It holds short pieces back until they are pushed out or a long one
/// follows, so that the head of a reply and its data leave together: a short piece is copied, a
/// long one is not.
pub type HostSink = StdSink<GatheringWriter<ClientWriter<HostWriter>>>;

/// How many milliseconds are waited at first, where the system wants descriptors or memory for a
/// client, and at most.
const FIRST_PAUSE: u64 = 100;

const LONGEST_PAUSE: u64 = 5_000;

/// A source and a sink over the two ends of a connection, of which nothing was read or written.
fn connection<C: Clock + Copy + Drop>(
    alloc: Global,
    reader: HostReader,
    writer: ClientWriter<HostWriter>,
    watch: Option<Watch<C>>,
) -> io::Result<(HostSource<C>, HostSink)>
    ensures reader { IfOk result (λ c. reader_inner c.0.inner.reader ≡ reader) }
    ensures writer { IfOk result (λ c. c.1.inner.writer ≡ writer) }
    ensures watch { IfOk result (λ c. c.0.inner.watch ≡ watch) }
    ensures unread { IfOk result (λ c. reader_buffer c.0.inner.reader ≡ []) }
    ensures holds_nothing { IfOk result (λ c. c.1.inner.held.items ≡ []) }
    ensures err { IfErr result (λ e. error_kind e ≡ ErrorKind.OutOfMemory) }
{
    let reader = BufReader::with_capacity(alloc, ROOM, reader)?;
    let source = StdSource::new(ClientStream::new(reader, watch));
    let sink = StdSink::new(GatheringWriter::new(alloc, ROOM, writer)?);
    Ok((source, sink))
}

/// A link of the machine. It gives as many connections as its sessions are, one after the other,
/// and then none. Where the system refuses one, that is said on standard error; a want of
/// descriptors or memory is waited out.
#[derive(Drop)]
pub struct HostLink<R: Network + Clock + Copy + Drop> {
    machine: R,
    listener: R::Listener,
    address: String,
    alloc: Global,
    errors: Stderr,
    manner: Manner,
    peer: Option<Peer>,
    left: u32,
    lent: u64,
    faults: u64,
    ghost few: { lent + left < 2 ^ 32 },
}

impl<R: Network + Clock + Copy + Drop> HostLink<R> {
    /// A link whose clients connect to this listener, `sessions` of them. The address is what is told
    /// of it on standard error.
    pub fn new(
        alloc: Global,
        machine: R,
        errors: Stderr,
        address: String,
        listener: R::Listener,
        sessions: u32,
        manner: Manner,
    ) -> HostLink<R>
        ensures listener { result.listener ≡ listener }
        ensures manner { result.manner ≡ manner }
        ensures bound { result.left ≡ sessions }
        ensures lent { result.lent ≡ 0 }
        ensures faults { result.faults ≡ 0 }
    {
        HostLink {
            machine,
            listener,
            address,
            alloc,
            errors,
            manner,
            peer: None,
            left: sessions,
            lent: 0,
            faults: 0,
        }
    }

    /// The connection of the next client of the listener.
    fn admit(&self) -> io::Result<(Option<Peer>, (HostSource<R>, HostSink))>
        ensures met { IfOk result (λ given. R.Listener.meets self.now.listener
            (Ok (reader_inner given.1.0.inner.reader, given.1.1.inner.writer.writer))) }
        ensures unread { IfOk result (λ given. reader_buffer given.1.0.inner.reader ≡ []) }
        ensures holds_nothing { IfOk result (λ given. given.1.1.inner.held.items ≡ []) }
        ensures watched { IfOk result (λ given. IfSome given.1.0.inner.watch
            (λ watch. (watch.idle_timeout ≡ self.now.manner.idle_timeout)
            × (watch.is_settled ≡ false))) }
        ensures err { IfErr result (MeetsNobody R.Listener.meets self.now.listener) }
    {
        let (reader, writer) = match self.listener.meet() {
            Ok(ends) => ends,
            Err(error) => return Err(error),
        };
        let peer = reader.peer();
        let watch = self.watch(peer);
        let writer = ClientWriter::new(writer, self.errors, peer);
        match connection(self.alloc, reader, writer, watch) {
            Ok(connection) => Ok((peer, connection)),
            Err(error) => Err(error),
        }
    }

    /// A watch on this client, where the clock can be read.
    fn watch(&self, peer: Option<Peer>) -> Option<Watch<R>>
        ensures { IfSome result (λ watch. (watch.idle_timeout ≡ self.now.manner.idle_timeout)
            × (watch.is_settled ≡ false)) }
    {
        let Some(peer) = peer else {
            return None;
        };
        Watch::new(self.machine, self.errors, peer, self.manner.idle_timeout).ok()
    }

    /// The connection of the next client of the listener, waited for as long as the system wants
    /// descriptors or memory for it. That is said once.
    fn wait_for_client(&self) -> io::Result<(Option<Peer>, (HostSource<R>, HostSink))>
        ensures met { IfOk result (λ given. R.Listener.meets self.now.listener
            (Ok (reader_inner given.1.0.inner.reader, given.1.1.inner.writer.writer))) }
        ensures unread { IfOk result (λ given. reader_buffer given.1.0.inner.reader ≡ []) }
        ensures holds_nothing { IfOk result (λ given. given.1.1.inner.held.items ≡ []) }
        ensures watched { IfOk result (λ given. IfSome given.1.0.inner.watch
            (λ watch. (watch.idle_timeout ≡ self.now.manner.idle_timeout)
            × (watch.is_settled ≡ false))) }
        ensures err { IfErr result (MeetsNobody R.Listener.meets self.now.listener) }
    {
        let mut pause = FIRST_PAUSE;
        for turn in 0..u64::MAX {
            match self.admit() {
                Ok(given) => return Ok(given),
                Err(error) => {
                    if !passes(&error) {
                        return Err(error);
                    }
                    if turn == 0 {
                        complain(self.alloc, self.errors, self.address.as_str(), &error);
                    }
                }
            }
            sleep(&self.machine, Duration::from_millis(pause));
            pause = pause.saturating_mul(2).min(LONGEST_PAUSE);
        }
        self.admit()
    }

    /// Says what came of a client, where that is wanted.
    fn tell(&self, what: &str) {
        if self.manner.verbose {
            let _ = match self.peer {
                Some(peer) => eprintln!(self.errors; "reencd: {peer}: {what}"),
                None => eprintln!(self.errors; "reencd: {}: {what}", self.address.as_str()),
            };
        }
    }
}

/// Says on standard error where the clients of these links may connect, which have one listener.
pub(crate) fn announce_links<R: Network + Clock + Copy + Drop>(links: &[HostLink<R>]) {
    if let Some(link) = links.first() {
        announce(link.errors, link.address.as_str(), &link.listener);
    }
}

impl<R: Network + Clock + Copy + Drop> Link for HostLink<R> {
    type In = HostSource<R>;

    type Out = HostSink;

    ghost state = { λ link. untold_link link.left link.lent link.faults };

    /// The next client of the link's listener. It fails only where the system refuses one there. Where
    /// descriptors or memory are wanted for a client, the next one is waited for, up to `2 ^ 64` times.
    /// One that was met, but for whose connection memory was wanted, is turned away.
    fn next(&mut self) -> Result<Option<(Self::In, Self::Out)>, Failed>
        ensures ends { self.old.left ≡ 0 → result ≡ Ok None }
        ensures at_end { IfOk result (λ given. IfNone given
            (HasNoneAhead (untold_link self.new.left self.new.lent self.new.faults))) }
        ensures counts { CountsGiven (untold_link self.old.left self.old.lent self.old.faults)
            (untold_link self.new.left self.new.lent self.new.faults) result }
        ensures cause { HasCause self.old.faults self.new.faults result }
        ensures faults { Counts self.old.faults self.new.faults result }
        ensures listener { self.new.listener ≡ self.old.listener }
        ensures met { IfOk result (λ given. IfSome given
            (λ c. R.Listener.meets self.old.listener
            (Ok (reader_inner c.0.inner.reader, c.1.inner.writer.writer)))) }
        ensures unread { IfOk result (λ given. IfSome given
            (λ c. reader_buffer c.0.inner.reader ≡ [])) }
        ensures holds_nothing { IfOk result (λ given. IfSome given
            (λ c. c.1.inner.held.items ≡ [])) }
        ensures watched { IfOk result (λ given. IfSome given (λ c. IfSome c.0.inner.watch
            (λ watch. (watch.idle_timeout ≡ self.old.manner.idle_timeout)
            × (watch.is_settled ≡ false)))) }
        ensures manner { self.new.manner ≡ self.old.manner }
        ensures refused { IsErr result →
            (error : Error) × MeetsNobody R.Listener.meets self.old.listener error }
    {
        if self.left == 0 {
            return Ok(None);
        }
        match self.wait_for_client() {
            Ok((peer, connection)) => {
                self.left -= 1;
                self.lent += 1;
                self.peer = peer;
                self.tell("connected");
                Ok(Some(connection))
            }
            Err(error) => {
                complain(self.alloc, self.errors, self.address.as_str(), &error);
                self.faults = self.faults.saturating_add(1);
                Err(Failed)
            }
        }
    }

    fn done(&mut self, _source: Self::In, _sink: Self::Out)
        requires { 0 < self.old.lent }
        ensures bound { self.new.left ≡ self.old.left }
        ensures lent { self.new.lent + 1 ≡ self.old.lent }
        ensures faults { self.new.faults ≡ self.old.faults }
        ensures listener { self.new.listener ≡ self.old.listener }
        ensures manner { self.new.manner ≡ self.old.manner }
    {
        self.tell("gone");
        self.lent -= 1;
    }

    fn faults(&self) -> u64 {
        self.faults
    }
}
