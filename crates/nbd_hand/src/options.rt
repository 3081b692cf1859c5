ghost use Rattle.std.specs.Prelude.{◌≡◌, ◌≢◌, ℕ, Bool, List, IsTrue, false};
ghost use Rattle.nbd_hand.specs.Options.{course_of, is_ours, verdict_of, verdict_on_info};
ghost use Rattle.nbd_hand.specs.Options.{verdict_on_name, verdict_without_data};
ghost use Rattle.nbd_wire.specs.InfoData.{info_name};
ghost use Rattle.nbd_hand.specs.Taking.{OptionIs};
ghost use Rattle.nbd_stream.specs.Traffic.{reach};

use base_terms::{Buffer, Bytes};
use io_edge::Source;
use nbd_stream::{Data, Ending, take_data, take_head};
use nbd_wire::{InfoData, OptionHead, OptionType, ReplyType};
use std::alloc::Global;

/// The most bytes of data that an option may have.
const MAX_DATA: u32 = 65536;

/// The most bytes that the name of an export may have.
const MAX_NAME: usize = 4096;

/// The name of the one export, which the empty name stands for too.
pub const NAME: &[u8; 6] = b"volume";

/// How many bytes the head of an option has.
const HEAD: usize = 16;

/// An option that a client sent whole.
#[derive(Drop)]
pub struct ClientOption {
    pub option: OptionType,
    pub body: Bytes,
}

/// What becomes of an option.
#[derive(Clone, Copy, PartialEq, Eq)]
pub enum Verdict {
    /// EXPORT_NAME: the export is told.
    Tell,
    /// LIST: the export is named.
    Names,
    /// INFO: the export is told, with its sizes of blocks, and acknowledged.
    Inform,
    /// GO: the same, and the requests begin.
    Agree,
    /// STRUCTURED_REPLY: it is acknowledged, and reads will be answered by chunks.
    Structure,
    /// It is refused by this reply.
    Refuse(ReplyType),
    /// ABORT: it is acknowledged, and the session ends.
    Abort,
    /// EXPORT_NAME of an export that isn't there, for which there is no reply.
    Unknown,
}

/// What comes after an option: the next one, the requests, or the end.
#[derive(Clone, Copy, PartialEq, Eq)]
pub enum Course {
    GoesOn,
    Begins,
    Ends(Ending),
}

impl Verdict {
    /// What comes after the answer.
    pub fn course(self) -> Course
        ensures { result ≡ course_of self }
    {
        match self {
            Verdict::Tell | Verdict::Agree => Course::Begins,
            Verdict::Names | Verdict::Inform | Verdict::Structure | Verdict::Refuse(_) => {
                Course::GoesOn
            }
            Verdict::Abort => Course::Ends(Ending::Aborted),
            Verdict::Unknown => Course::Ends(Ending::UnknownExport),
        }
    }
}

/// Takes the next option from the source, and counts the bytes that it took.
pub fn next_option<S: Source>(
    alloc: Global,
    source: &mut S,
    taken: &mut u64,
) -> Result<ClientOption, Ending>
    ensures { (bytes : List ℕ) × (ended : Bool) × OptionIs
        (reach (S.intake source.old) taken.old)
        (reach (S.intake source.new) taken.new)
        result bytes ended }
{
    let mut bytes = [0u8; HEAD];
    take_head(source, &mut bytes, taken)?;
    let head = match OptionHead::read(&bytes) {
        Ok(head) => head,
        Err(bad) => return Err(Ending::BadMagic(bad.number)),
    };
    if head.length > MAX_DATA {
        return Err(Ending::TooLong(head.length));
    }
    match take_data(alloc, source, head.length, &mut Buffer::empty(alloc), taken) {
        Data::Whole(body) => Ok(ClientOption {
            option: head.option,
            body,
        }),
        Data::NoMemory => Err(Ending::Memory),
        Data::Ended(n) => Err(Ending::Truncated((HEAD + n) as u64)),
        Data::Fault => Err(Ending::ReadFault),
    }
}

/// What becomes of an option with this data.
pub fn judge(option: OptionType, body: &[u8]) -> Verdict
    ensures { result ≡ verdict_of option body.now }
{
    match option {
        OptionType::ExportName => {
            if is_ours(body) {
                Verdict::Tell
            } else {
                Verdict::Unknown
            }
        }
        OptionType::Abort => Verdict::Abort,
        OptionType::List => judge_without_data(body, Verdict::Names),
        OptionType::Info => judge_info(body, Verdict::Inform),
        OptionType::Go => judge_info(body, Verdict::Agree),
        OptionType::StructuredReply => judge_without_data(body, Verdict::Structure),
        _ => Verdict::Refuse(ReplyType::Unsup),
    }
}

/// What becomes of LIST or STRUCTURED_REPLY, which has no data and is granted by that verdict.
fn judge_without_data(body: &[u8], granted: Verdict) -> Verdict
    ensures { result ≡ verdict_without_data granted body.now }
{
    if body.is_empty() {
        granted
    } else {
        Verdict::Refuse(ReplyType::Invalid)
    }
}

/// What becomes of INFO or GO, which is granted by that verdict.
fn judge_info(body: &[u8], granted: Verdict) -> Verdict
    ensures { result ≡ verdict_on_info granted (info_name body.now) }
{
    match InfoData::read(body) {
        None => Verdict::Refuse(ReplyType::Invalid),
        Some(data) => judge_name(data.name, granted),
    }
}

fn judge_name(name: &[u8], granted: Verdict) -> Verdict
    ensures { result ≡ verdict_on_name granted name.now }
{
    if name.len() > MAX_NAME {
        Verdict::Refuse(ReplyType::TooBig)
    } else if is_ours(name) {
        granted
    } else {
        Verdict::Refuse(ReplyType::Unknown)
    }
}

/// Whether the name is that of the export.
fn is_ours(name: &[u8]) -> bool
    ensures { result ≡ is_ours name.now }
{
    name.is_empty() || is_same(name, NAME)
}

fn is_same(left: &[u8], right: &[u8]) -> bool
    ensures same { IsTrue result → left.now ≡ right.now }
    ensures other { result ≡ false → left.now ≢ right.now }
{
    left == right
}
