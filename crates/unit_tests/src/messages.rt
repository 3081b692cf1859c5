use crate::same::same;
use nbd_wire::{
    BadMagic, BlockSizes, ClientFlags, CommandFlags, CommandType, ExportData, Greeting,
    HandshakeFlags, InfoData, InfoReplies, ListReplies, OptionHead, OptionReplyHead, OptionType,
    ReplyType, RequestHead, SimpleReplyHead, TransmissionFlags, listed_name,
};

const GREETING: &[u8; 18] = b"NBDMAGICIHAVEOPT\0\x03";

const GO: &[u8; 16] = b"IHAVEOPT\0\0\0\x07\0\0\0\x06";

const GO_REPLIES: &[u8; 86] = b"\0\x03\xe8\x89\x04\x55\x65\xa9\0\0\0\x07\0\0\0\x03\0\0\0\x0c\
    \0\0\0\0\0\0\0\0\x20\0\x01\x0d\
    \0\x03\xe8\x89\x04\x55\x65\xa9\0\0\0\x07\0\0\0\x03\0\0\0\x0e\
    \0\x03\0\0\x02\0\0\0\x10\0\x02\0\0\0\
    \0\x03\xe8\x89\x04\x55\x65\xa9\0\0\0\x07\0\0\0\x01\0\0\0\0";

const LIST_REPLIES: &[u8; 50] = b"\0\x03\xe8\x89\x04\x55\x65\xa9\0\0\0\x03\0\0\0\x02\0\0\0\x0a\
    \0\0\0\x06volume\
    \0\x03\xe8\x89\x04\x55\x65\xa9\0\0\0\x03\0\0\0\x01\0\0\0\0";

/// What INFO and GO ask of `volume`: the sizes of its blocks, and its name.
const ASKED: &[u8; 16] = b"\0\0\0\x06volume\0\x02\0\x03\0\x01";

const UNSUP: &[u8; 20] = b"\0\x03\xe8\x89\x04\x55\x65\xa9\0\0\0\x05\x80\0\0\x01\0\0\0\0";

const WRITE: &[u8; 28] =
    b"\x25\x60\x95\x13\0\x01\0\x01\0\0\0\0\0\0\0\x01\0\0\0\0\0\0\x02\0\0\0\x10\0";

/// The same behind another magic.
const OTHER: &[u8; 28] =
    b"\x25\x60\x95\x14\0\x01\0\x01\0\0\0\0\0\0\0\x01\0\0\0\0\0\0\x02\0\0\0\x10\0";

const REPLY: &[u8; 16] = b"\x67\x44\x66\x98\0\0\0\x0c\0\0\0\0\0\0\0\x02";

/// The answer to EXPORT_NAME.
const TOLD: [u8; 10] = [0, 0, 0, 0, 0, 0, 0x20, 0, 1, 0x0d];

const BLOCKS: BlockSizes = BlockSizes {
    minimum: 512,
    preferred: 4096,
    maximum: 33_554_432,
};

/// An export of 8192 bytes that is flushed, forced and shared.
fn export() -> ExportData {
    ExportData {
        size: 8192,
        flags: TransmissionFlags::HAS_FLAGS
            .union(TransmissionFlags::SEND_FLUSH)
            .union(TransmissionFlags::SEND_FUA)
            .union(TransmissionFlags::CAN_MULTI_CONN),
    }
}

/// The greeting's bytes, and what they are read as.
fn greeted() -> ([u8; 18], Result<Greeting, BadMagic>) {
    let greeting = Greeting {
        flags: HandshakeFlags::FIXED_NEWSTYLE.union(HandshakeFlags::NO_ZEROES),
    };
    (greeting.write(), Greeting::read(GREETING))
}

/// The number in place of the magic of what is no greeting.
fn misread(bytes: &[u8; 18]) -> Option<u64> {
    match Greeting::read(bytes) {
        Ok(_) => None,
        Err(bad) => Some(bad.number),
    }
}

/// A client's flags as they are written again, and whether they have the two that are named and
/// others.
fn client_flags(byte: u8) -> ([u8; 4], [bool; 3]) {
    let flags = ClientFlags::read(&[0, 0, 0, byte]);
    let has = [
        flags.has_fixed_newstyle(),
        flags.has_no_zeroes(),
        flags.has_other(),
    ];
    (flags.write(), has)
}

#[test]
fn both_sides_greet(rt: HostRuntime) {
    let (bytes, read) = greeted();
    same(&rt, bytes, *GREETING);
    let flags = HandshakeFlags { bits: 3 };
    same(&rt, read, Ok(Greeting { flags }));
    let wrong = [
        misread(b"NBDMAGICIHAVEOPU\0\x03"),
        misread(b"NBDMAGIDIHAVEOPU\0\x03"),
    ];
    same(
        &rt,
        wrong,
        [Some(0x4948_4156_454f_5055), Some(0x4e42_444d_4147_4944)],
    );
    same(&rt, client_flags(0), ([0, 0, 0, 0], [false, false, false]));
    same(&rt, client_flags(1), ([0, 0, 0, 1], [true, false, false]));
    same(&rt, client_flags(3), ([0, 0, 0, 3], [true, true, false]));
    same(&rt, client_flags(4), ([0, 0, 0, 4], [false, false, true]));
}

/// The head of a GO, as it is read, and its bytes.
fn go() -> (Result<OptionHead, BadMagic>, [u8; 16]) {
    let head = OptionHead {
        option: OptionType::Go,
        length: 6,
    };
    (OptionHead::read(GO), head.write())
}

/// What a GO is answered.
fn go_replies() -> [u8; 86] {
    let replies = InfoReplies {
        option: OptionType::Go,
        export: export(),
        blocks: BLOCKS,
    };
    replies.write()
}

/// What an option is answered that isn't known.
const REFUSAL: OptionReplyHead = OptionReplyHead {
    option: OptionType::StartTls,
    reply: ReplyType::Unsup,
    length: 0,
};

#[test]
fn an_option_is_read_and_answered(rt: HostRuntime) {
    let (read, written) = go();
    let head = OptionHead {
        option: OptionType::Go,
        length: 6,
    };
    same(&rt, read, Ok(head));
    same(&rt, written, *GO);
    same(&rt, go_replies(), *GO_REPLIES);
    same(&rt, REFUSAL.write(), *UNSUP);
    same(&rt, OptionReplyHead::read(UNSUP), Ok(REFUSAL));
}

fn list_replies() -> [u8; 50] {
    let mut replies = [0; 50];
    ListReplies { name: b"volume" }.write(&mut replies);
    replies
}

#[test]
fn an_export_is_listed_by_its_name(rt: HostRuntime) {
    let replies = list_replies();
    same(&rt, replies, *LIST_REPLIES);
    let name = Some(b"volume".as_slice());
    same(&rt, listed_name(&replies[20..30]), name);
    same(&rt, listed_name(&replies[20..29]), None);
    same(&rt, listed_name(&replies[20..31]), None);
    same(&rt, listed_name(&replies[..3]), None);
}

fn asking() -> [u8; 16] {
    let mut bytes = [0; 16];
    let asked = InfoData {
        name: b"volume",
        types: &[0, 3, 0, 1],
    };
    asked.write(&mut bytes);
    bytes
}

/// The name and the types that data asks about.
fn asked(bytes: &[u8]) -> Option<(&[u8], &[u8])> {
    let data = InfoData::read(bytes)?;
    Some((data.name, data.types))
}

#[test]
fn an_export_is_asked_about(rt: HostRuntime) {
    same(&rt, asking(), *ASKED);
    let whole = Some((b"volume".as_slice(), [0, 3, 0, 1].as_slice()));
    let data = ASKED.as_slice();
    same(&rt, asked(data), whole);
    same(&rt, asked(&data[..15]), None);
    same(&rt, asked(&data[..5]), None);
}

/// The data that tells an export, as it is read, and as it is read where its type is another.
fn info_of_export() -> [Option<ExportData>; 2] {
    let mut info = export().write_info();
    let told = ExportData::read_info(&info);
    info[1] = 1;
    [told, ExportData::read_info(&info)]
}

/// The same of the sizes of blocks.
fn info_of_blocks() -> [Option<BlockSizes>; 2] {
    let mut info = BLOCKS.write_info();
    let told = BlockSizes::read_info(&info);
    info[1] = 0;
    [told, BlockSizes::read_info(&info)]
}

#[test]
fn an_export_is_told_with_and_without_zeroes(rt: HostRuntime) {
    same(&rt, export().write(), TOLD);
    same(&rt, ExportData::read(&TOLD), export());
    same(&rt, info_of_export(), [Some(export()), None]);
    same(&rt, info_of_blocks(), [Some(BLOCKS), None]);
    let padded = export().write_with_zeroes();
    same(&rt, &padded[..10], TOLD.as_slice());
    same(&rt, &padded[10..], [0; 124].as_slice());
}

const HEAD: RequestHead = RequestHead {
    flags: CommandFlags { bits: 1 },
    command: CommandType::Write,
    cookie: 1,
    offset: 512,
    length: 4096,
};

#[test]
fn a_request_is_read_and_answered(rt: HostRuntime) {
    same(&rt, RequestHead::read(WRITE), Ok(HEAD));
    same(&rt, HEAD.write(), *WRITE);
    same(
        &rt,
        [HEAD.flags.has_fua(), HEAD.flags.has_df()],
        [true, false],
    );
    let number = 627_086_612;
    same(&rt, RequestHead::read(OTHER), Err(BadMagic { number }));
    let reply = SimpleReplyHead {
        error: 12,
        cookie: 2,
    };
    same(&rt, SimpleReplyHead::read(REPLY), Ok(reply));
    same(&rt, reply.write(), *REPLY);
}

const COMMANDS: &[(u16, CommandType)] = &[
    (0, CommandType::Read),
    (1, CommandType::Write),
    (2, CommandType::Disc),
    (3, CommandType::Flush),
    (4, CommandType::Trim),
    (5, CommandType::Other(5)),
    (6, CommandType::WriteZeroes),
    (9, CommandType::Other(9)),
];

const OPTIONS: &[(u32, OptionType)] = &[
    (0, OptionType::Other(0)),
    (1, OptionType::ExportName),
    (2, OptionType::Abort),
    (3, OptionType::List),
    (4, OptionType::Other(4)),
    (5, OptionType::StartTls),
    (6, OptionType::Info),
    (7, OptionType::Go),
    (8, OptionType::StructuredReply),
    (9, OptionType::Other(9)),
];

const REPLIES: &[(u32, ReplyType)] = &[
    (1, ReplyType::Ack),
    (2, ReplyType::Server),
    (3, ReplyType::Info),
    (4, ReplyType::Other(4)),
    (2_147_483_649, ReplyType::Unsup),
    (2_147_483_650, ReplyType::Policy),
    (2_147_483_651, ReplyType::Invalid),
    (2_147_483_654, ReplyType::Unknown),
    (2_147_483_657, ReplyType::TooBig),
];

const EXPORT_FLAGS: &[(u16, TransmissionFlags)] = &[
    (0x01, TransmissionFlags::HAS_FLAGS),
    (0x02, TransmissionFlags::READ_ONLY),
    (0x04, TransmissionFlags::SEND_FLUSH),
    (0x08, TransmissionFlags::SEND_FUA),
    (0x20, TransmissionFlags::SEND_TRIM),
    (0x40, TransmissionFlags::SEND_WRITE_ZEROES),
    (0x80, TransmissionFlags::SEND_DF),
    (0x100, TransmissionFlags::CAN_MULTI_CONN),
];

/// The first number that isn't its command's, or that is another command.
fn wrong_command() -> Option<u16> {
    for (number, command) in COMMANDS {
        if CommandType::from_number(*number) != *command || command.number() != *number {
            return Some(*number);
        }
    }
    None
}

fn wrong_option() -> Option<u32> {
    for (number, option) in OPTIONS {
        if OptionType::from_number(*number) != *option || option.number() != *number {
            return Some(*number);
        }
    }
    None
}

fn wrong_reply() -> Option<u32> {
    for (number, reply) in REPLIES {
        if ReplyType::from_number(*number) != *reply || reply.number() != *number {
            return Some(*number);
        }
    }
    None
}

fn wrong_flags() -> Option<u16> {
    for (bits, flags) in EXPORT_FLAGS {
        if flags.bits != *bits {
            return Some(*bits);
        }
    }
    None
}

#[test]
fn each_name_has_its_number(rt: HostRuntime) {
    same(&rt, wrong_command(), None);
    same(&rt, wrong_option(), None);
    same(&rt, wrong_reply(), None);
    same(&rt, wrong_flags(), None);
}
