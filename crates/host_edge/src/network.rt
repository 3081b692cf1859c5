ghost use Rattle.std.specs.Prelude.{ℕ, ◌↔◌, List, Result, IsTrue};
ghost use Rattle.std.specs.declared.io.Error.{Error};
ghost use Rattle.host_edge.specs.Clients.{Passes};
ghost use Rattle.host_edge.specs.declared.streams.HostReader.{HostReader};
ghost use Rattle.host_edge.specs.declared.streams.HostWriter.{HostWriter};

use crate::socket_file::{SocketFile, listen_at};
use crate::streams::{HostReader, HostWriter};
use std::io::{self, ErrorKind};
use std::net::{OpenListener, SocketAddr, TcpListener};
use std::os::unix::net::UnixListener;
use std::sync::Arc;

/// Where clients come in. What its calls do is a matter of the system.
pub trait Listener: Drop {
    /// What waiting for the next client gives.
    ghost meets: { Self → Result (HostReader × HostWriter) Error → Type 0 };

    /// What taking another handle of it gives.
    ghost shares: { Self → Result Self Error → Type 0 };

    /// The two ends of the next client's connection, of which nothing was read or written.
    fn meet(&self) -> io::Result<(HostReader, HostWriter)>
        ensures { meets self.now result };

    /// Another handle of it, at which the same clients come in.
    fn share(&self) -> io::Result<Self>
        ensures { shares self.now result };

    /// Where it listens, if that is a host and a port.
    fn address(&self) -> io::Result<SocketAddr>;
}

/// Where addresses are listened at. What listening does is a matter of the system.
pub trait Network {
    type Listener: Listener;

    /// What listening at an address gives.
    ghost listens: { Self → List ℕ → Result Self.Listener Error → Type 0 };

    /// Listens at the address, `HOST:PORT` or `unix:PATH`.
    fn listen(&self, address: &str) -> io::Result<Self::Listener>
        ensures { listens self.now address.now result };
}

/// A listener of the machine.
#[derive(Drop)]
pub enum HostListener {
    /// At a host and a port, by TCP.
    Tcp(TcpListener),
    /// At a socket that has a file, which goes with the last handle.
    Unix(Arc<SocketFile>, UnixListener),
}

impl Listener for HostListener {
    ghost meets = { λ _ _. Unit {0} };

    ghost shares = { λ _ _. Unit {0} };

    fn meet(&self) -> io::Result<(HostReader, HostWriter)> {
        match self {
            HostListener::Tcp(listener) => meet_tcp(listener),
            HostListener::Unix(_, listener) => meet_unix(listener),
        }
    }

    fn share(&self) -> io::Result<HostListener> {
        match self {
            HostListener::Tcp(listener) => Ok(HostListener::Tcp(listener.try_clone()?)),
            HostListener::Unix(file, listener) => Ok(HostListener::Unix(
                Arc::try_clone(file)?,
                listener.try_clone()?,
            )),
        }
    }

    fn address(&self) -> io::Result<SocketAddr> {
        match self {
            HostListener::Tcp(listener) => listener.local_addr(),
            HostListener::Unix(..) => Err(io::Error::from(ErrorKind::Unsupported)),
        }
    }
}

/// The next client by TCP. A descriptor is kept for the second end while the client is waited for, so
/// that one that was met isn't turned away for want of it.
fn meet_tcp(listener: &TcpListener) -> io::Result<(HostReader, HostWriter)> {
    let kept = listener.try_clone()?;
    let stream = accept(listener)?;
    drop(kept);
    let _ = stream.set_nodelay(true);
    let reader = HostReader::Socket(stream.try_clone()?);
    Ok((reader, HostWriter::Socket(stream)))
}

/// Likewise the next one at a socket that has a file.
fn meet_unix(listener: &UnixListener) -> io::Result<(HostReader, HostWriter)> {
    let kept = listener.try_clone()?;
    let (stream, _) = listener.accept()?;
    drop(kept);
    let reader = HostReader::Local(stream.try_clone()?);
    Ok((reader, HostWriter::Local(stream)))
}

/// The next client of the listener. One that went away before it was met is passed over.
pub fn accept<L: OpenListener>(listener: &L) -> io::Result<L::Stream> {
    for _ in 0..u64::MAX {
        match listener.accept() {
            Ok((stream, _)) => return Ok(stream),
            Err(error) => {
                if error.kind() != ErrorKind::ConnectionAborted {
                    return Err(error);
                }
            }
        }
    }
    Err(io::Error::from(ErrorKind::ConnectionAborted))
}

/// The numbers of the errors by which the system says that it wants descriptors, in all or for this
/// program, or room for a socket (errno(3), Linux). Want of memory has a kind of its own.
const ENFILE: i32 = 23;

const EMFILE: i32 = 24;

const ENOBUFS: i32 = 105;

/// Whether the system wants what it may have again later: memory, descriptors or room.
pub(crate) fn passes(error: &io::Error) -> bool
    ensures { IsTrue result ↔ Passes error.now }
{
    if error.kind() == ErrorKind::OutOfMemory {
        return true;
    }
    match error.raw_os_error() {
        Some(number) => number == ENFILE || number == EMFILE || number == ENOBUFS,
        None => false,
    }
}

/// The network of the machine.
impl Network for HostRuntime {
    type Listener = HostListener;

    ghost listens = { λ _ _ _. Unit {0} };

    fn listen(&self, address: &str) -> io::Result<HostListener> {
        if let Some(path) = address.strip_prefix("unix:") {
            let (file, listener) = listen_at(self, path)?;
            return Ok(HostListener::Unix(file, listener));
        }
        match TcpListener::bind(self, address) {
            Ok(listener) => Ok(HostListener::Tcp(listener)),
            Err(error) if error.kind() == ErrorKind::InvalidInput => {
                let message = "no address: HOST:PORT, as 127.0.0.1:10809, or unix:PATH";
                Err(io::Error::new(ErrorKind::InvalidInput, message))
            }
            Err(error) => Err(error),
        }
    }
}
