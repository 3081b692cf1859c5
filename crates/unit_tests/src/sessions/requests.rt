// Requests that are refused, and those that use a buffer again.

use super::cases::{Case, USUAL};
use super::messages::{
    BLOCK, CHUNK_FAILED_AT, CHUNK_INVALID, CHUNK_OF_BLOCK, CHUNK_OF_NOTHING, CHUNK_WANTS_MEMORY,
    DISCONNECT, EXPORT_NAME, FIRST_CHUNK, FLAGGED_DISCONNECT, FLAGGED_READ, FLAGGED_WRITE,
    FLAGGED_ZEROES, FLAGS, FLUSH, FLUSHED, FORCED_READ, FORCED_WRITE, FORCED_ZEROES, GREETING,
    HAS_READ, LAST_CHUNK, LONG_READ, LONG_ZEROES, NO_SPACE, OTHER_MAGIC, Part, READ, READ_BEHIND,
    READ_FAILED, READ_FAR, READ_INVALID, READ_LARGE, READ_LARGE_WHOLE, READ_LAST, READ_NO_HOLE,
    READ_OF_2048, READ_OF_NOTHING, STRUCTURED, STRUCTURED_REPLY, TOLD, TOLD_STRUCTURED,
    TOO_LONG_WRITE, TRIM, UNALIGNED_READ, UNKNOWN_TYPE, WHOLE_CHUNK, WHOLE_WRITE, WRITE,
    WRITE_BEHIND, WRITE_INVALID, WRITE_OF_1024, WRITE_OF_2048, WRITE_OF_NOTHING, WRITTEN, ZEROES,
    ZEROES_BEHIND, ZEROES_NO_HOLE, ZEROES_NO_SPACE, ZEROES_OF_NOTHING,
};
use nbd_session::Ending;

/// A request that is refused or has nothing to do, and a flush behind it.
const REFUSED: Case = Case {
    shows: "a request is refused and the next one served",
    left: &[WRITE],
    holds: &[("00", 2048)],
    ..USUAL
};

/// Writes of one length and another, each before a read.
const USING: &[Part] = &[
    FLAGS,
    EXPORT_NAME,
    WRITE_OF_1024,
    ("61", 1024),
    READ_OF_2048,
    WRITE,
    ("62", 512),
    READ_OF_2048,
    WRITE_OF_2048,
    ("63", 2048),
    READ_OF_2048,
    WRITE_OF_NOTHING,
    READ_OF_2048,
    WRITE,
    ("64", 512),
    READ_OF_2048,
    DISCONNECT,
];

const USED: &[Part] = &[
    GREETING,
    TOLD,
    WRITTEN,
    HAS_READ,
    ("61", 1024),
    ("00", 1024),
    WRITTEN,
    HAS_READ,
    ("62", 512),
    ("61", 512),
    ("00", 1024),
    WRITTEN,
    HAS_READ,
    ("63", 2048),
    WRITTEN,
    HAS_READ,
    ("63", 2048),
    WRITTEN,
    HAS_READ,
    ("64", 512),
    ("63", 1536),
];

/// Requests of ranges that are refused, or have nothing to do.
pub const REFUSED_RANGES: &[Case] = &[
    Case {
        taken: &[
            FLAGS,
            EXPORT_NAME,
            READ_OF_NOTHING,
            FLUSH,
            FLAGGED_DISCONNECT,
        ],
        put: &[GREETING, TOLD, HAS_READ, FLUSHED],
        ..REFUSED
    },
    Case {
        taken: &[FLAGS, EXPORT_NAME, READ_BEHIND, FLUSH, FLAGGED_DISCONNECT],
        put: &[GREETING, TOLD, READ_INVALID, FLUSHED],
        ..REFUSED
    },
    Case {
        taken: &[
            FLAGS,
            EXPORT_NAME,
            WRITE_BEHIND,
            BLOCK,
            FLUSH,
            FLAGGED_DISCONNECT,
        ],
        put: &[GREETING, TOLD, NO_SPACE, FLUSHED],
        ..REFUSED
    },
    Case {
        taken: &[FLAGS, EXPORT_NAME, READ_FAR, FLUSH, FLAGGED_DISCONNECT],
        put: &[GREETING, TOLD, READ_INVALID, FLUSHED],
        ..REFUSED
    },
    Case {
        taken: &[
            FLAGS,
            EXPORT_NAME,
            UNALIGNED_READ,
            FLUSH,
            FLAGGED_DISCONNECT,
        ],
        put: &[GREETING, TOLD, READ_INVALID, FLUSHED],
        ..REFUSED
    },
    Case {
        taken: &[FLAGS, EXPORT_NAME, LONG_READ, FLUSH, FLAGGED_DISCONNECT],
        put: &[GREETING, TOLD, READ_INVALID, FLUSHED],
        ..REFUSED
    },
    Case {
        taken: &[FLAGS, EXPORT_NAME, ZEROES_BEHIND, FLUSH, FLAGGED_DISCONNECT],
        put: &[GREETING, TOLD, ZEROES_NO_SPACE, FLUSHED],
        ..REFUSED
    },
    Case {
        taken: &[FLAGS, EXPORT_NAME, LONG_ZEROES, FLUSH, FLAGGED_DISCONNECT],
        put: &[GREETING, TOLD, ZEROES_NO_SPACE, FLUSHED],
        ..REFUSED
    },
    Case {
        taken: &[
            FLAGS,
            EXPORT_NAME,
            ZEROES_OF_NOTHING,
            FLUSH,
            FLAGGED_DISCONNECT,
        ],
        put: &[GREETING, TOLD, HAS_READ, FLUSHED],
        ..REFUSED
    },
];

/// Requests of other types and flags.
pub const REFUSED_TYPES: &[Case] = &[
    Case {
        taken: &[FLAGS, EXPORT_NAME, UNKNOWN_TYPE, FLUSH, FLAGGED_DISCONNECT],
        put: &[GREETING, TOLD, READ_INVALID, FLUSHED],
        ..REFUSED
    },
    Case {
        taken: &[FLAGS, EXPORT_NAME, TRIM, FLUSH, FLAGGED_DISCONNECT],
        put: &[GREETING, TOLD, READ_INVALID, FLUSHED],
        ..REFUSED
    },
    Case {
        taken: &[
            FLAGS,
            EXPORT_NAME,
            FLAGGED_ZEROES,
            FLUSH,
            FLAGGED_DISCONNECT,
        ],
        put: &[GREETING, TOLD, READ_INVALID, FLUSHED],
        ..REFUSED
    },
    Case {
        taken: &[FLAGS, EXPORT_NAME, FLAGGED_READ, FLUSH, FLAGGED_DISCONNECT],
        put: &[GREETING, TOLD, READ_INVALID, FLUSHED],
        ..REFUSED
    },
    Case {
        taken: &[
            FLAGS,
            EXPORT_NAME,
            FLAGGED_WRITE,
            BLOCK,
            FLUSH,
            FLAGGED_DISCONNECT,
        ],
        put: &[GREETING, TOLD, WRITE_INVALID, FLUSHED],
        ..REFUSED
    },
];

/// What is no request.
pub const NO_REQUESTS: &[Case] = &[
    Case {
        shows: "a message that is none ends the session",
        taken: &[FLAGS, EXPORT_NAME, TOO_LONG_WRITE],
        left: &[BLOCK],
        ending: Ending::TooLong(33_554_433),
        put: &[GREETING, TOLD],
        ..USUAL
    },
    Case {
        shows: "a message that is none ends the session",
        taken: &[FLAGS, EXPORT_NAME, OTHER_MAGIC],
        left: &[BLOCK],
        ending: Ending::BadMagic(627_086_612),
        put: &[GREETING, TOLD],
        ..USUAL
    },
];

/// Writes that are forced, or not.
pub const FORCED: &[Case] = &[
    Case {
        shows: "a forced write is submitted so",
        taken: &[FLAGS, EXPORT_NAME, WRITE, BLOCK, FORCED_READ],
        ending: Ending::Closed,
        put: &[GREETING, TOLD, WRITTEN, HAS_READ, BLOCK],
        forced: false,
        ..USUAL
    },
    Case {
        shows: "a forced write is submitted so",
        taken: &[FLAGS, EXPORT_NAME, FORCED_WRITE, BLOCK, FORCED_READ],
        ending: Ending::Closed,
        put: &[GREETING, TOLD, WRITTEN, HAS_READ, BLOCK],
        forced: true,
        ..USUAL
    },
];

/// Zeroes over what was written, with "no hole" or without, and forced or not.
pub const ZEROED: &[Case] = &[
    Case {
        shows: "zeroes are written",
        taken: &[
            FLAGS,
            EXPORT_NAME,
            WRITE_OF_2048,
            ("63", 2048),
            ZEROES,
            READ_OF_2048,
        ],
        ending: Ending::Closed,
        put: &[
            GREETING,
            TOLD,
            WRITTEN,
            HAS_READ,
            HAS_READ,
            ("00", 1024),
            ("63", 1024),
        ],
        ..USUAL
    },
    Case {
        shows: "zeroes are written without a hole",
        taken: &[
            FLAGS,
            EXPORT_NAME,
            WRITE_OF_2048,
            ("63", 2048),
            ZEROES_NO_HOLE,
            READ_OF_2048,
        ],
        ending: Ending::Closed,
        put: &[GREETING, TOLD, WRITTEN, HAS_READ, HAS_READ, ("00", 2048)],
        ..USUAL
    },
    Case {
        shows: "zeroes are forced",
        taken: &[
            FLAGS,
            EXPORT_NAME,
            WRITE_OF_2048,
            ("63", 2048),
            FORCED_ZEROES,
            READ_OF_2048,
        ],
        ending: Ending::Closed,
        put: &[
            GREETING,
            TOLD,
            WRITTEN,
            HAS_READ,
            HAS_READ,
            ("00", 512),
            ("63", 1536),
        ],
        forced: true,
        ..USUAL
    },
];

/// A client that agrees on structured replies, and one that doesn't.
pub const CHUNKED: &[Case] = &[
    Case {
        shows: "reads are answered by chunks, all else by simple replies",
        taken: &[
            FLAGS,
            STRUCTURED_REPLY,
            EXPORT_NAME,
            WRITE,
            BLOCK,
            READ,
            FLAGGED_READ,
            READ_OF_NOTHING,
            UNALIGNED_READ,
            READ_NO_HOLE,
            WHOLE_WRITE,
            BLOCK,
            FLUSH,
            DISCONNECT,
        ],
        put: &[
            GREETING,
            STRUCTURED,
            TOLD_STRUCTURED,
            WRITTEN,
            CHUNK_OF_BLOCK,
            BLOCK,
            CHUNK_OF_BLOCK,
            BLOCK,
            CHUNK_OF_NOTHING,
            CHUNK_INVALID,
            CHUNK_INVALID,
            WRITE_INVALID,
            FLUSHED,
        ],
        ..USUAL
    },
    Case {
        shows: "a read of more than a MiB comes in two chunks, or in one",
        taken: &[
            FLAGS,
            STRUCTURED_REPLY,
            EXPORT_NAME,
            READ_LARGE,
            READ_LARGE_WHOLE,
            DISCONNECT,
        ],
        put: &[
            GREETING,
            STRUCTURED,
            TOLD_STRUCTURED,
            FIRST_CHUNK,
            ("00", 1_048_576),
            LAST_CHUNK,
            ("00", 512),
            WHOLE_CHUNK,
            ("00", 1_049_088),
        ],
        room: 3_000_000,
        ..USUAL
    },
    Case {
        shows: "a read that failed says where",
        taken: &[FLAGS, STRUCTURED_REPLY, EXPORT_NAME, READ_LAST, DISCONNECT],
        put: &[GREETING, STRUCTURED, TOLD_STRUCTURED, CHUNK_FAILED_AT],
        ..USUAL
    },
    Case {
        shows: "a read for which memory is wanted",
        taken: &[FLAGS, STRUCTURED_REPLY, EXPORT_NAME, READ, DISCONNECT],
        put: &[GREETING, STRUCTURED, TOLD_STRUCTURED, CHUNK_WANTS_MEMORY],
        has_memory: false,
        ..USUAL
    },
    Case {
        shows: "a simple reply doesn't say where",
        taken: &[FLAGS, EXPORT_NAME, READ_LAST, DISCONNECT],
        put: &[GREETING, TOLD, READ_FAILED],
        ..USUAL
    },
];

/// Bodies of one length and another.
pub const BUFFERS: &[Case] = &[Case {
    shows: "a used buffer takes each body as it is",
    taken: USING,
    put: USED,
    capacity: Some(2048),
    ..USUAL
}];
