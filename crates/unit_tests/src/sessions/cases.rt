// Clients, and what their sessions come to.

use super::messages::{
    AGREED, BLOCK, BLOCK_SIZES, DISCONNECT, FLAGS, FLUSH, FLUSH_WANTS_MEMORY, FLUSHED, GO, GO_DATA,
    GO_HEAD, GREETING, HAS_READ, PLAIN_FLUSH, Part, READ, READ_OF_9216, READ_WANTS_MEMORY, SIZE,
    WRITE, WRITE_WANTS_MEMORY, WRITTEN,
};
use nbd_session::Ending;

/// A client and its session.
#[derive(Clone, Copy)]
pub struct Case {
    pub shows: &'static str,
    /// What the client sends: the session takes this,
    pub taken: &'static [Part],
    /// and leaves that.
    pub left: &'static [Part],
    /// The most bytes that come at once.
    pub piece: usize,
    /// How many bytes the client takes.
    pub room: usize,
    /// The call of the source, and of the sink, that fails.
    pub source_call: u64,
    pub sink_call: u64,
    /// Whether the port has memory, and how many operations it takes.
    pub has_memory: bool,
    pub operations: u32,
    pub ending: Ending,
    pub put: &'static [Part],
    /// How often the sink was put to, and let out, where it is told.
    pub calls: Option<(u32, u32)>,
    /// What the disk behind the port begins with, and whether its last write was forced.
    pub holds: &'static [Part],
    pub forced: bool,
    /// How many bytes the buffer of the last body could hold, where it is told.
    pub capacity: Option<usize>,
}

/// The number of no call.
const NEVER: u64 = u64::MAX;

/// A client that writes the first block, reads it, flushes and disconnects.
pub const CLIENT: &[Part] = &[FLAGS, GO, WRITE, BLOCK, READ, PLAIN_FLUSH, DISCONNECT];

/// What it gets.
pub const SERVER: &[Part] = &[
    GREETING,
    SIZE,
    BLOCK_SIZES,
    AGREED,
    WRITTEN,
    HAS_READ,
    BLOCK,
    FLUSHED,
];

/// That client, who is served.
pub const USUAL: Case = Case {
    shows: "each request is answered",
    taken: CLIENT,
    left: &[],
    piece: 4096,
    room: 20000,
    source_call: NEVER,
    sink_call: NEVER,
    has_memory: true,
    operations: 99,
    ending: Ending::Disconnected,
    put: SERVER,
    calls: None,
    holds: &[],
    forced: false,
    capacity: None,
};

/// However the bytes come, and however many go.
pub const PIECES: &[Case] = &[
    Case {
        shows: "each request is answered however the bytes come",
        piece: 1,
        room: 664,
        calls: Some((6, 5)),
        holds: &[BLOCK],
        ..USUAL
    },
    Case {
        shows: "each request is answered however the bytes come",
        piece: 7,
        room: 664,
        calls: Some((6, 5)),
        holds: &[BLOCK],
        ..USUAL
    },
    Case {
        shows: "each request is answered however the bytes come",
        piece: 4096,
        room: 664,
        calls: Some((6, 5)),
        holds: &[BLOCK],
        ..USUAL
    },
    Case {
        shows: "much data goes out behind its head",
        taken: &[FLAGS, GO, READ_OF_9216, DISCONNECT],
        put: &[GREETING, SIZE, BLOCK_SIZES, AGREED, HAS_READ, ("00", 9216)],
        calls: Some((4, 3)),
        ..USUAL
    },
];

/// A port without memory, and one that is spent.
pub const PORTS: &[Case] = &[
    Case {
        shows: "a request without memory is answered so",
        left: &[GO],
        has_memory: false,
        put: &[
            GREETING,
            SIZE,
            BLOCK_SIZES,
            AGREED,
            WRITE_WANTS_MEMORY,
            READ_WANTS_MEMORY,
            FLUSH_WANTS_MEMORY,
        ],
        ..USUAL
    },
    Case {
        shows: "a spent port ends the session",
        taken: &[FLAGS, GO, WRITE, BLOCK, READ],
        left: &[FLUSH],
        operations: 1,
        ending: Ending::PortSpent,
        put: &[GREETING, SIZE, BLOCK_SIZES, AGREED, WRITTEN],
        ..USUAL
    },
];

/// A sink that fails.
pub const SINKS: &[Case] = &[
    Case {
        shows: "a session ends by a fault",
        room: 17,
        ending: Ending::WriteFault,
        taken: &[],
        left: &[FLAGS, GO, WRITE, BLOCK, READ, PLAIN_FLUSH, DISCONNECT],
        put: &[],
        ..USUAL
    },
    Case {
        shows: "a session ends by a fault",
        room: 103,
        ending: Ending::WriteFault,
        taken: &[FLAGS, GO],
        left: &[WRITE, BLOCK, READ, PLAIN_FLUSH, DISCONNECT],
        put: &[GREETING],
        ..USUAL
    },
    Case {
        shows: "a session ends by a fault",
        room: 135,
        ending: Ending::WriteFault,
        taken: &[FLAGS, GO, WRITE, BLOCK, READ],
        left: &[PLAIN_FLUSH, DISCONNECT],
        put: &[GREETING, SIZE, BLOCK_SIZES, AGREED, WRITTEN],
        ..USUAL
    },
    Case {
        shows: "a session ends by a fault",
        room: 136,
        ending: Ending::WriteFault,
        taken: &[FLAGS, GO, WRITE, BLOCK, READ],
        left: &[PLAIN_FLUSH, DISCONNECT],
        put: &[GREETING, SIZE, BLOCK_SIZES, AGREED, WRITTEN, HAS_READ],
        ..USUAL
    },
    Case {
        shows: "a session ends by a fault",
        room: 647,
        ending: Ending::WriteFault,
        taken: &[FLAGS, GO, WRITE, BLOCK, READ],
        left: &[PLAIN_FLUSH, DISCONNECT],
        put: &[GREETING, SIZE, BLOCK_SIZES, AGREED, WRITTEN, HAS_READ],
        ..USUAL
    },
    Case {
        shows: "a session ends by a fault",
        room: 663,
        ending: Ending::WriteFault,
        taken: &[FLAGS, GO, WRITE, BLOCK, READ, PLAIN_FLUSH],
        left: &[DISCONNECT],
        put: &[
            GREETING,
            SIZE,
            BLOCK_SIZES,
            AGREED,
            WRITTEN,
            HAS_READ,
            BLOCK,
        ],
        ..USUAL
    },
    Case {
        shows: "a session ends by a fault",
        room: 664,
        sink_call: 1,
        ending: Ending::WriteFault,
        taken: &[],
        left: &[FLAGS, GO, WRITE, BLOCK, READ, PLAIN_FLUSH, DISCONNECT],
        put: &[GREETING],
        ..USUAL
    },
];

/// A source that fails.
pub const SOURCES: &[Case] = &[
    Case {
        shows: "a session ends by a fault",
        room: 664,
        source_call: 0,
        ending: Ending::ReadFault,
        taken: &[],
        left: &[FLAGS, GO, WRITE, BLOCK, READ, PLAIN_FLUSH, DISCONNECT],
        put: &[GREETING],
        ..USUAL
    },
    Case {
        shows: "a session ends by a fault",
        room: 664,
        source_call: 1,
        ending: Ending::ReadFault,
        taken: &[FLAGS],
        left: &[GO, WRITE, BLOCK, READ, PLAIN_FLUSH, DISCONNECT],
        put: &[GREETING],
        ..USUAL
    },
    Case {
        shows: "a session ends by a fault",
        room: 664,
        source_call: 2,
        ending: Ending::ReadFault,
        taken: &[FLAGS, GO_HEAD],
        left: &[GO_DATA, WRITE, BLOCK, READ, PLAIN_FLUSH, DISCONNECT],
        put: &[GREETING],
        ..USUAL
    },
    Case {
        shows: "a session ends by a fault",
        room: 664,
        source_call: 3,
        ending: Ending::ReadFault,
        taken: &[FLAGS, GO],
        left: &[WRITE, BLOCK, READ, PLAIN_FLUSH, DISCONNECT],
        put: &[GREETING, SIZE, BLOCK_SIZES, AGREED],
        ..USUAL
    },
    Case {
        shows: "a session ends by a fault",
        room: 664,
        source_call: 4,
        ending: Ending::ReadFault,
        taken: &[FLAGS, GO, WRITE],
        left: &[BLOCK, READ, PLAIN_FLUSH, DISCONNECT],
        put: &[GREETING, SIZE, BLOCK_SIZES, AGREED],
        ..USUAL
    },
    Case {
        shows: "a session ends by a fault",
        room: 664,
        source_call: 7,
        ending: Ending::ReadFault,
        taken: &[FLAGS, GO, WRITE, BLOCK, READ, PLAIN_FLUSH],
        left: &[DISCONNECT],
        put: &[
            GREETING,
            SIZE,
            BLOCK_SIZES,
            AGREED,
            WRITTEN,
            HAS_READ,
            BLOCK,
            FLUSHED,
        ],
        ..USUAL
    },
];
