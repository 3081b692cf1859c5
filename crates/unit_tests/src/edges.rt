// A file and a network that refuse what they are asked.

ghost use Rattle.std.specs.Prelude.{None};

use crate::same::same;
use base_terms::Failed;
use bays::{Link, Manner};
use file_disk::{FileDisk, PositionedFile};
use host_edge::{HostLink, HostReader, HostWriter, Listener, Network, accept};
use sector_disk::Disk;
use std::alloc::Global;
use std::cell::Cell;
use std::io::{self, ErrorKind, Stderr};
use std::net::{OpenListener, SocketAddr, TcpStream};
use std::os::fd::{AsRawFd, RawFd};
use std::process::Abort;
use std::rc::Rc;
use std::test::Fail;
use std::time::{Clock, Duration};

/// A file that refuses every call, or none.
#[derive(Drop)]
struct Refusing {
    refuses: bool,
}

impl Refusing {
    fn answer(&self) -> io::Result<()> {
        if self.refuses {
            return Err(io::Error::from(ErrorKind::StorageFull));
        }
        Ok(())
    }
}

impl PositionedFile for Refusing {
    ghost reads = { λ _ _ _ _ _. Unit {0} };

    ghost writes = { λ _ _ _ _ _. Unit {0} };

    ghost syncs = { λ _ _ _. Unit {0} };

    fn read_exact_at(&mut self, _buf: &mut [u8], _from: u64) -> io::Result<()> {
        self.answer()
    }

    fn write_all_at(&mut self, _bytes: &[u8], _from: u64) -> io::Result<()> {
        self.answer()
    }

    fn sync_data(&mut self) -> io::Result<()> {
        self.answer()
    }
}

/// Asserts that a read, a write and a sync of a disk of two atoms on such a file are refused, or none
/// is.
fn answers<R: Abort>(rt: &R, refuses: bool) {
    let mut disk = FileDisk::new(Refusing { refuses }, 1024, 512);
    let mut buf = [0; 512];
    same(rt, disk.read(1, &mut buf).is_err(), refuses);
    same(rt, disk.write(0, &buf).is_err(), refuses);
    same(rt, disk.sync().is_err(), refuses);
    same(rt, disk.faults(), if refuses { 3 } else { 0 });
}

#[test]
fn what_the_file_refuses_fails(rt: HostRuntime) {
    answers(&rt, true);
    answers(&rt, false);
}

/// A listener whose next clients went away, and that fails once they were met.
#[derive(Drop)]
struct Deaf {
    gone: Rc<Cell<u32>>,
}

impl AsRawFd for Deaf {
    ghost raw_fd = { λ _. None };

    fn as_raw_fd(&self) -> RawFd {
        -1
    }
}

impl OpenListener for Deaf {
    type Stream = TcpStream;

    fn accept(&self) -> io::Result<(TcpStream, SocketAddr)> {
        let gone = self.gone.get();
        if gone == 0 {
            return Err(io::Error::from(ErrorKind::PermissionDenied));
        }
        self.gone.set(gone - 1);
        Err(io::Error::from(ErrorKind::ConnectionAborted))
    }
}

impl Listener for Deaf {
    ghost meets = { λ _ _. Unit {0} };

    ghost shares = { λ _ _. Unit {0} };

    fn meet(&self) -> io::Result<(HostReader, HostWriter)> {
        let stream = accept(self)?;
        let reader = HostReader::Socket(stream.try_clone()?);
        Ok((reader, HostWriter::Socket(stream)))
    }

    fn share(&self) -> io::Result<Deaf> {
        Err(io::Error::from(ErrorKind::Unsupported))
    }

    fn address(&self) -> io::Result<SocketAddr> {
        Err(io::Error::from(ErrorKind::Unsupported))
    }
}

/// A network of such listeners, whose clock stands still.
#[derive(Clone, Copy)]
struct Silent;

impl Clock for Silent {
    fn monotonic(&self) -> io::Result<Duration> {
        Ok(Duration::from_secs(0))
    }

    fn since_1970(&self) -> io::Result<Duration> {
        Ok(Duration::from_secs(0))
    }
}

impl Network for Silent {
    type Listener = Deaf;

    ghost listens = { λ _ _ _. Unit {0} };

    fn listen(&self, _address: &str) -> io::Result<Deaf> {
        Err(io::Error::from(ErrorKind::Unsupported))
    }
}

/// Whether the link fails where it is asked for a client.
fn fails(link: &mut HostLink<Silent>) -> bool {
    match link.next() {
        Err(Failed) => true,
        Ok(_) => false,
    }
}

/// Asserts that a link of two sessions fails twice to whose listener so many came that went away, all
/// of whom it met.
fn is_unheard<R: Abort>(rt: &R, alloc: Global, errors: Stderr, gone: u32) -> Result<(), Fail> {
    let left = Rc::new(alloc, Cell::new(gone))?;
    let listener = Deaf {
        gone: left.clone()?,
    };
    let address = String::from_str(alloc, "somewhere")?;
    let mut link = HostLink::new(alloc, Silent, errors, address, listener, 2, Manner::QUIET);
    same(rt, (fails(&mut link), fails(&mut link)), (true, true));
    same(rt, (link.faults(), left.get()), (2, 0));
    drop(link);
    Ok(())
}

#[test]
fn a_listener_that_fails_is_a_fault_of_its_link(rt: HostRuntime) -> Result<(), Fail> {
    is_unheard(&rt, rt.alloc(), rt.stderr(), 3)?;
    is_unheard(&rt, rt.alloc(), rt.stderr(), 0)
}
