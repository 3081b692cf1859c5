use io_edge::WritePair;
use std::fmt::{self, Display, Formatter};
use std::io::{self, BufReader, IoSlice, Read, Write};
use std::net::{Shutdown, SocketAddr, TcpStream};
use std::os::fd::{AsRawFd, RawFd};
use std::os::unix::net::UnixStream;
use std::time::Duration;

/// A stream of a connection, at which the system can be told how long to wait for the other side.
pub trait Patient {
    /// Has each read and each write of the connection wait so long at most, or without an end.
    /// Where the system refuses that, it waits as before.
    fn set_patience(&self, reads: Option<Duration>, writes: Option<Duration>);
}

/// A stream of a connection that can be ended for both sides.
pub trait HangUp {
    /// Ends the connection: nothing more is read from it or written to it.
    fn hang_up(&self);
}

/// How a client is told of: by its address or, where it has none, by the number of its descriptor here.
#[derive(Clone, Copy)]
pub enum Peer {
    Address(SocketAddr),
    Local(RawFd),
}

impl Display for Peer {
    fn fmt<W: fmt::Write>(&self, f: &mut Formatter<W>) -> fmt::Result {
        match self {
            Peer::Address(address) => write!(f, "{address}"),
            Peer::Local(number) => write!(f, "unix client {number}"),
        }
    }
}

/// What a connection is read from.
#[derive(Drop)]
pub enum HostReader {
    Socket(TcpStream),
    Local(UnixStream),
}

impl HostReader {
    /// How the client is told of, where that is known.
    pub fn peer(&self) -> Option<Peer> {
        match self {
            HostReader::Socket(stream) => Some(Peer::Address(stream.peer_addr().ok()?)),
            HostReader::Local(stream) => Some(Peer::Local(stream.as_raw_fd())),
        }
    }
}

/// Both ends of a socket are one to the system, so the times are set for its writes too.
impl Patient for HostReader {
    fn set_patience(&self, reads: Option<Duration>, writes: Option<Duration>) {
        let _ = match self {
            HostReader::Socket(stream) => stream
                .set_read_timeout(reads)
                .and(stream.set_write_timeout(writes)),
            HostReader::Local(stream) => stream
                .set_read_timeout(reads)
                .and(stream.set_write_timeout(writes)),
        };
    }
}

impl Patient for BufReader<HostReader> {
    fn set_patience(&self, reads: Option<Duration>, writes: Option<Duration>) {
        self.get_ref().set_patience(reads, writes);
    }
}

impl Read for HostReader {
    fn read(&mut self, buf: &mut [u8]) -> io::Result<usize> {
        match self {
            HostReader::Socket(stream) => stream.read(buf),
            HostReader::Local(stream) => stream.read(buf),
        }
    }
}

/// What a connection is written to.
#[derive(Drop)]
pub enum HostWriter {
    Socket(TcpStream),
    Local(UnixStream),
}

impl HangUp for HostWriter {
    fn hang_up(&self) {
        let _ = match self {
            HostWriter::Socket(stream) => stream.shutdown(Shutdown::Both),
            HostWriter::Local(stream) => stream.shutdown(Shutdown::Both),
        };
    }
}

impl WritePair for HostWriter {
    ghost writes = { λ _ _ _ _. Unit {0} };

    ghost flushes = { λ _ _ _. Unit {0} };

    fn write_pair(&mut self, first: &[u8], second: &[u8]) -> io::Result<usize> {
        match self {
            HostWriter::Socket(stream) => {
                TcpStream::write_vectored(stream, &[IoSlice::new(first), IoSlice::new(second)])
            }
            HostWriter::Local(stream) => {
                UnixStream::write_vectored(stream, &[IoSlice::new(first), IoSlice::new(second)])
            }
        }
    }

    fn flush(&mut self) -> io::Result<()> {
        match self {
            HostWriter::Socket(stream) => stream.flush(),
            HostWriter::Local(stream) => stream.flush(),
        }
    }
}
