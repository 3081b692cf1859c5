// Which files are disks, and whether a block device is in use already.

use std::fs::{self, File, TryLockError};
use std::io::{self, ErrorKind};
use std::os::fd::IntoRawFd;
use std::os::unix::fs::{DirBuilderExt, FileTypeExt, MetadataExt};

/// Refuses the file of a name that is neither a regular file nor a block device. A pipe would only
/// open once another program does.
pub(crate) fn check_kind(machine: &HostRuntime, path: &str) -> io::Result<()> {
    check_type(fs::metadata(machine, path)?.file_type())
}

fn check_type(kind: fs::FileType) -> io::Result<()> {
    if kind.is_file() || kind.is_block_device() {
        return Ok(());
    }
    if kind.is_dir() {
        return Err(io::Error::new(ErrorKind::IsADirectory, "Is a directory"));
    }
    let message = "neither a regular file nor a block device";
    Err(io::Error::new(ErrorKind::InvalidInput, message))
}

/// Refuses an open block device that is in use: one that is mounted, used as swap space or held by
/// another device, as a mapped one or a RAID. So it is where that holds of the disk that it is a
/// part of, or of one of its own parts. A regular file is never in use by these.
pub(crate) fn check_claims(machine: &HostRuntime, file: &File) -> io::Result<()> {
    let opened = file.metadata()?;
    check_type(opened.file_type())?;
    if !opened.file_type().is_block_device() {
        return Ok(());
    }
    match check_device(machine, opened.rdev()) {
        Err(error) if error.kind() == ErrorKind::NotFound => {
            let message = "whether it is in use isn't told by /sys and /proc";
            Err(io::Error::new(ErrorKind::Unsupported, message))
        }
        checked => checked,
    }
}

/// Refuses the block device of this number where it is in use.
fn check_device(machine: &HostRuntime, device: u64) -> io::Result<()> {
    let number = number_of(machine, device)?;
    let folder = format!(in machine.alloc(); "/sys/dev/block/{number}")?;
    check_folder(machine, folder.as_str())?;
    if is_part(machine, folder.as_str())? {
        let whole = format!(in machine.alloc(); "{folder}/..")?;
        check_folder(machine, whole.as_str())?;
    } else {
        check_parts(machine, folder.as_str())?;
    }
    lock_headers(machine, number.as_str())
}

/// Takes the lock of a block device under which cryptsetup reads and writes its header, and keeps it
/// until the program ends. Who may not make locks there goes without it.
fn lock_headers(machine: &HostRuntime, number: &str) -> io::Result<()> {
    let _ = fs::DirBuilder::new()
        .mode(0o700)
        .create(machine, "/run/cryptsetup");
    let path = format!(in machine.alloc(); "/run/cryptsetup/L_{number}")?;
    let mut how = File::options();
    how.read(true).write(true).create(true);
    let Ok(lock) = how.open(machine, path.as_str()) else {
        return Ok(());
    };
    if let Err(TryLockError::WouldBlock) = lock.try_lock() {
        return Err(in_use("device in use, locked by cryptsetup or another reencd"));
    }
    let _ = lock.into_raw_fd();
    Ok(())
}

/// Refuses a device of which a part is in use.
fn check_parts(machine: &HostRuntime, folder: &str) -> io::Result<()> {
    for entry in fs::read_dir(machine, folder)? {
        let entry = entry?;
        let part = format!(in machine.alloc(); "{folder}/{}", entry.file_name())?;
        if is_part(machine, part.as_str())? {
            check_folder(machine, part.as_str())?;
        }
    }
    Ok(())
}

/// Whether the folder in which the system tells of a device is that of a part of a disk.
fn is_part(machine: &HostRuntime, folder: &str) -> io::Result<bool> {
    let mark = format!(in machine.alloc(); "{folder}/partition")?;
    match fs::metadata(machine, mark.as_str()) {
        Ok(_) => Ok(true),
        Err(error) if error.kind() == ErrorKind::NotFound => Ok(false),
        Err(error) if error.kind() == ErrorKind::NotADirectory => Ok(false),
        Err(error) => Err(error),
    }
}

/// Refuses the device of which the system tells in that folder, where it is in use itself.
fn check_folder(machine: &HostRuntime, folder: &str) -> io::Result<()> {
    let alloc = machine.alloc();
    let holders = format!(in alloc; "{folder}/holders")?;
    for holder in fs::read_dir(machine, holders.as_str())? {
        let holder = holder?;
        return Err(held_by(machine, holders.as_str(), holder.file_name())?);
    }
    let number = format!(in alloc; "{folder}/dev")?;
    let number = fs::read_to_string(machine, number.as_str())?;
    check_mounts(machine, "/proc/self/mountinfo", number.trim_end())?;
    // the mounts outside, where this process has a view of its own
    match check_mounts(machine, "/proc/1/mountinfo", number.trim_end()) {
        Err(error) if error.kind() == ErrorKind::ResourceBusy => return Err(error),
        _ => {}
    }
    check_swaps(machine, number.trim_end())
}

/// Why a device isn't taken that is held by another one, whose name in use is told where it has one.
fn held_by(machine: &HostRuntime, holders: &str, holder: &str) -> io::Result<io::Error> {
    let alloc = machine.alloc();
    let name = format!(in alloc; "{holders}/{holder}/dm/name")?;
    let message = match fs::read_to_string(machine, name.as_str()) {
        Ok(name) => format!(in alloc; "device in use, held by {holder} ({})", name.trim_end())?,
        Err(_) => format!(in alloc; "device in use, held by {holder}")?,
    };
    Ok(in_use(message.as_str()))
}

fn in_use(message: &str) -> io::Error {
    io::Error::new(ErrorKind::ResourceBusy, message)
}

/// The number of a device as the system's tables have it, as `8:1`.
fn number_of(machine: &HostRuntime, device: u64) -> io::Result<String> {
    let major = device >> 32 & 0xffff_f000 | device >> 8 & 0xfff;
    let minor = device >> 12 & 0xffff_ff00 | device & 0xff;
    Ok(format!(in machine.alloc(); "{major}:{minor}")?)
}

/// Refuses the device of that number where a table of mounts has it, as that of a file system or as
/// what it was mounted from (proc_pid_mountinfo(5)).
fn check_mounts(machine: &HostRuntime, table: &str, number: &str) -> io::Result<()> {
    let alloc = machine.alloc();
    let bytes = fs::read(machine, table)?;
    let table = String::from_utf8_lossy(alloc, bytes.as_slice())?;
    for line in table.lines() {
        let of_number = line.split(' ').nth(2) == Some(number);
        if of_number || is_device(machine, source_of(line), number)? {
            let place = line.split(' ').nth(4).unwrap_or("");
            let message = format!(in alloc; "device in use, mounted at {place}")?;
            return Err(in_use(message.as_str()));
        }
    }
    Ok(())
}

/// What a line of a table of mounts says that was mounted.
fn source_of(line: &str) -> &str {
    match line.split_once(" - ") {
        Some((_, rest)) => rest.split(' ').nth(1).unwrap_or(""),
        None => "",
    }
}

/// Refuses the device of that number where it is used as swap space (proc_swaps(5)).
fn check_swaps(machine: &HostRuntime, number: &str) -> io::Result<()> {
    let bytes = match fs::read(machine, "/proc/swaps") {
        Ok(bytes) => bytes,
        Err(error) if error.kind() == ErrorKind::NotFound => return Ok(()),
        Err(error) => return Err(error),
    };
    let table = String::from_utf8_lossy(machine.alloc(), bytes.as_slice())?;
    for line in table.lines() {
        let path = line.split(' ').next().unwrap_or("");
        if is_device(machine, path, number)? {
            return Err(in_use("device in use, as swap space"));
        }
    }
    Ok(())
}

/// Whether a path is that of the device of this number. One that isn't there is no device.
fn is_device(machine: &HostRuntime, path: &str, number: &str) -> io::Result<bool> {
    if !path.starts_with('/') {
        return Ok(false);
    }
    match fs::metadata(machine, path) {
        Ok(found) if found.file_type().is_block_device() => {
            Ok(number_of(machine, found.rdev())?.as_str() == number)
        }
        _ => Ok(false),
    }
}
