//! A disk on a file or block device. It is opened by its name, in atoms of 512 or 4096 bytes, and
//! holds the file's exclusive advisory lock until it is dropped, so that a second server is refused
//! the same file. A block device that is mounted, or held by another device, isn't opened for
//! writing. Each call makes exactly one call of the file, at its place and with the caller's
//! buffer, and is done exactly where that one is; each that the file refuses is counted, and is a
//! failure. A file is a type that says by relations what its calls do: the system's own say
//! nothing, so that what a real file holds is not told. Of it is trusted that it fills a buffer or
//! fails, also where it ends before the buffer's last byte, writes all bytes or fails, and by a
//! sync (`fdatasync`) waits until the system says that the data is kept.
#![tactic(auto)]

mod claims;
mod file_disk;
mod file_system;
mod positioned_file;

pub use file_disk::FileDisk;
pub use file_system::{FileSystem, LockableFile, open_for_reading, open_locked};
pub use positioned_file::PositionedFile;
