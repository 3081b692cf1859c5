// A socket that has a file: how it is made, and taken away.

ghost use Rattle.std.specs.Prelude.{◌↔◌, ◌≤ℤ◌, IsOk, pos};

use libc::net::listen;
use std::fs::{self, Files};
use std::io::{self, ErrorKind};
use std::net::Net;
use std::os::fd::{AsFd, AsRawFd};
use std::os::unix::fs::{FileTypeExt, MetadataExt};
use std::os::unix::net::{SocketAddr, UnixListener, UnixStream};
use std::sync::Arc;

/// The most bytes of a socket's path: `sun_path` has 108, of which a zero takes one (unix(7), Linux).
const LONGEST: usize = 107;

/// Its owner alone may read and write it.
const OWNER_ALONE: u32 = 0o600;

/// As many clients may wait to be met as the system allows.
const BACKLOG: i32 = -1;

/// The file of a socket that listens. It is taken away where this is dropped, if it is the one that
/// stands there then.
pub struct SocketFile {
    machine: HostRuntime,
    path: String,
    device: u64,
    node: u64,
}

impl SocketFile {
    /// The file that stands at this path now.
    fn at(machine: HostRuntime, path: String) -> io::Result<SocketFile> {
        let found = fs::symlink_metadata(&machine, path.as_str())?;
        Ok(SocketFile {
            machine,
            path,
            device: found.dev(),
            node: found.ino(),
        })
    }
}

impl Drop for SocketFile {
    fn drop(self) {
        let SocketFile {
            machine,
            path,
            device,
            node,
        } = self;
        if let Ok(found) = fs::symlink_metadata(&machine, path.as_str())
            && found.dev() == device
            && found.ino() == node
        {
            let _ = fs::remove_file(&machine, path.as_str());
        }
    }
}

/// Listens at a socket whose file is made at this path, and which only its owner may connect to from
/// the moment in which it is there. What stands at the path already is left as it is, but for the
/// file of a socket at which no process listens.
///
/// # Errors
///
/// Of the kind `InvalidInput` where the path is empty or too long; `AlreadyExists` where something
/// else than a socket stands there; `AddrInUse` where a process listens at that socket. Otherwise what
/// the system said.
pub(crate) fn listen_at(
    machine: &HostRuntime,
    path: &str,
) -> io::Result<(Arc<SocketFile>, UnixListener)> {
    let address = address_of(path)?;
    let owned = String::from_str(machine.alloc(), path)?;
    let made = machine.unix_socket()?;
    check(libc::fchmod(made.as_raw_fd(), OWNER_ALONE))?;
    if let Err(error) = machine.bind_unix(made.as_fd(), &address) {
        if error.kind() != ErrorKind::AddrInUse {
            return Err(error);
        }
        clear(machine, path)?;
        machine.bind_unix(made.as_fd(), &address)?;
    }
    let file = Arc::new(machine.alloc(), SocketFile::at(*machine, owned)?)?;
    check(listen(made.as_raw_fd(), BACKLOG))?;
    Ok((file, UnixListener::from(made)))
}

/// The socket address of a path.
fn address_of(path: &str) -> io::Result<SocketAddr> {
    if path.is_empty() {
        let message = "no path stands behind unix:";
        return Err(io::Error::new(ErrorKind::InvalidInput, message));
    }
    if path.len() > LONGEST {
        let message = "the path of a socket has 107 bytes at most";
        return Err(io::Error::new(ErrorKind::InvalidInput, message));
    }
    SocketAddr::from_pathname(path)
}

/// Takes away the file of a socket at which no process listens, and refuses all else at the path.
fn clear(machine: &HostRuntime, path: &str) -> io::Result<()> {
    let found = fs::symlink_metadata(machine, path)?;
    if !found.file_type().is_socket() {
        let message = "something else than a socket stands there";
        return Err(io::Error::new(ErrorKind::AlreadyExists, message));
    }
    if is_open(machine, path)? {
        let message = "Address already in use";
        return Err(io::Error::new(ErrorKind::AddrInUse, message));
    }
    fs::remove_file(machine, path)
}

/// Whether a process listens at the socket of this path. Whoever does meets a client that leaves at
/// once.
fn is_open(machine: &HostRuntime, path: &str) -> io::Result<bool> {
    match UnixStream::connect(machine, path) {
        Ok(_) => Ok(true),
        Err(error) if error.kind() == ErrorKind::ConnectionRefused => Ok(false),
        Err(error) => Err(error),
    }
}

/// The error of the call that has just answered so, if that is negative.
fn check(answer: i32) -> io::Result<()>
    ensures { IsOk result ↔ (pos 0 ≤ℤ answer) }
{
    if answer < 0 {
        Err(io::Error::from_raw_os_error(os::errno()))
    } else {
        Ok(())
    }
}
