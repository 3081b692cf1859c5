/// The first magic number of the server's greeting, "NBDMAGIC".
pub const GREETING_MAGIC: u64 = 0x4e42_444d_4147_4943;

/// The magic number of an option, "IHAVEOPT", which the greeting has too.
pub const OPTION_MAGIC: u64 = 0x4948_4156_454f_5054;

/// The magic number of the reply to an option.
pub const OPTION_REPLY_MAGIC: u64 = 0x0003_e889_0455_65a9;

/// The magic number of a request.
pub const REQUEST_MAGIC: u32 = 0x2560_9513;

/// The magic number of a simple reply.
pub const SIMPLE_REPLY_MAGIC: u32 = 0x6744_6698;

/// The magic number of a chunk of a structured reply.
pub const CHUNK_MAGIC: u32 = 0x668e_33ef;

/// A message that hasn't its magic number: the number that stands there.
#[derive(Clone, Copy, Debug, PartialEq, Eq)]
pub struct BadMagic {
    pub number: u64,
}
