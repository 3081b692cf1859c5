// The descriptors of the standard streams.

use std::fs::File;
use std::io;
use std::os::fd::{AsFd, AsRawFd, IntoRawFd};

/// Sees to it that no file that is opened later gets the number of a standard stream: each of these
/// that is closed is opened on `/dev/null`, and for the other direction, so that reading from it or
/// writing to it fails as before. It is to be called before any file is opened.
///
/// # Errors
///
/// One of them is closed, and `/dev/null` can't be opened.
pub fn keep_standard_streams(machine: &HostRuntime) -> io::Result<()> {
    if are_open(machine) {
        return Ok(());
    }
    for _ in 0..3 {
        let input = File::options().write(true).open(machine, "/dev/null")?;
        if input.as_raw_fd() == 0 {
            let _ = input.into_raw_fd();
            continue;
        }
        drop(input);
        let output = File::open(machine, "/dev/null")?;
        if output.as_raw_fd() > 2 {
            return Ok(());
        }
        let _ = output.into_raw_fd();
    }
    Ok(())
}

/// Whether all standard streams are open: one that is can be opened once more.
fn are_open(machine: &HostRuntime) -> bool {
    machine.stdin().as_fd().try_clone_to_owned().is_ok()
        && machine.stdout().as_fd().try_clone_to_owned().is_ok()
        && machine.stderr().as_fd().try_clone_to_owned().is_ok()
}
