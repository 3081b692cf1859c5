// The numbers of the errors that a client is answered, as the NBD protocol document gives them.

/// A device failed (`NBD_EIO`).
pub const DEVICE_ERROR: u32 = 5;

/// Memory is wanted (`NBD_ENOMEM`).
pub const NO_MEMORY: u32 = 12;

/// An argument is invalid (`NBD_EINVAL`).
pub const INVALID: u32 = 22;

/// There is no space: a write past the end (`NBD_ENOSPC`).
pub const NO_SPACE: u32 = 28;
