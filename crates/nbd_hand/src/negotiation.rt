ghost use Rattle.std.specs.Prelude.{◌≡◌, ◌<◌, ◌⊎◌, ℕ, Bool, List, codes, length, Option};
ghost use Rattle.std.specs.Prelude.{Err, IfOk, IsOk, OnOk};
ghost use Rattle.nbd_stream.specs.Moments.{moment};
ghost use Rattle.nbd_hand.specs.Negotiation.{Agrees, Answers, FlagsAre, Negotiates};
ghost use Rattle.nbd_hand.specs.Grammar.{agreed_after};
ghost use Rattle.nbd_hand.specs.Options.{answer_of, verdict_of};
ghost use Rattle.nbd_stream.specs.Putting.{IsOut, Puts};
ghost use Rattle.nbd_hand.specs.Handshakes.{Handshake};
ghost use Rattle.nbd_stream.specs.Traffic.{reach};
ghost use Rattle.nbd_stream.specs.declared.ending.Ending.{Ending};
ghost use Rattle.nbd_hand.specs.declared.options.ClientOption.{ClientOption};
ghost use Rattle.nbd_hand.specs.declared.options.Course.{Course};
ghost use Rattle.nbd_wire.specs.InfoReplies.{reply_head};
ghost use Rattle.nbd_wire.specs.ListReplies.{list_replies_text};
ghost use Rattle.nbd_wire.specs.OptionReplies.{option_reply_text};

use crate::Export;
use crate::options::{Course, NAME, Verdict, judge, next_option};
use base_terms::Failed;
use io_edge::{Sink, Source};
use nbd_stream::{Ending, Tally, put_message, take_head};
use nbd_wire::{
    ClientFlags, Greeting, HandshakeFlags, InfoReplies, ListReplies, OptionReplyHead, OptionType,
    ReplyType,
};
use std::alloc::Global;

/// The most options that one session may have.
const MAX_OPTIONS: u64 = 65536;

/// What a client and the server agreed on.
#[derive(Clone, Copy, PartialEq, Eq)]
pub struct Agreed {
    /// The zeros behind the answer to EXPORT_NAME were to be left out.
    pub no_zeroes: bool,
    /// READs are answered by chunks ("structured replies").
    pub structured: bool,
}

impl Agreed {
    ghost use Rattle.nbd_hand.specs.Options.{agreed_by};

    /// What is agreed on after an option of which this became.
    fn with(self, verdict: Verdict) -> Agreed
        ensures { result ≡ agreed_by verdict self }
    {
        match verdict {
            Verdict::Structure => Agreed {
                structured: true,
                ..self
            },
            _ => self,
        }
    }
}

/// Greets the client, takes its flags, and answers its options up to the one by which it chooses
/// the export. What was put is the greeting and the answers to the options that came whole, in
/// order, each out before the next is asked for; of the source the bytes up to the end of the last
/// option were taken, or of its head where that decides, and no more. Both are counted.
///
/// It ends with `ReadFault` exactly where the source's count of faults rose, and with `WriteFault`
/// exactly where the sink's did; then at most the last message, or a rear of it, is missing. With
/// `TooMany` it ends exactly after the answer to the 65536th option that goes on; with `Memory`
/// only where memory was wanted for an option's data, and then the option's head was taken.
pub fn negotiate<S: Source, K: Sink>(
    alloc: Global,
    source: &mut S,
    sink: &mut K,
    export: &Export,
    tally: &mut Tally,
) -> Result<Agreed, Ending>
    ensures out { (result ≡ Err Ending.WriteFault) ⊎ IsOut (K.outlet sink.new) }
    ensures negotiates { (hand : Handshake) × Negotiates export.now
        (moment (S.intake source.old) (K.outlet sink.old) tally.old.taken tally.old.put)
        (moment (S.intake source.new) (K.outlet sink.new) tally.new.taken tally.new.put)
        result hand }
{
    let greeting = Greeting {
        flags: HandshakeFlags::FIXED_NEWSTYLE.union(HandshakeFlags::NO_ZEROES),
    };
    match put_message(sink, &greeting.write(), &mut tally.put) {
        Ok(()) => {}
        Err(_) => return Err(Ending::WriteFault),
    }
    match take_flags(source, &mut tally.taken) {
        Ok(flags) => {
            let agreed = Agreed {
                no_zeroes: flags.has_no_zeroes(),
                structured: false,
            };
            agree(alloc, source, sink, export, agreed, tally)
        }
        Err(ending) => Err(ending),
    }
}

/// Takes the client's flags.
fn take_flags<S: Source>(source: &mut S, taken: &mut u64) -> Result<ClientFlags, Ending>
    ensures { (bytes : List ℕ) × (ended : Bool) × FlagsAre
        (reach (S.intake source.old) taken.old)
        (reach (S.intake source.new) taken.new)
        result bytes ended }
{
    let mut bytes = [0u8; 4];
    take_head(source, &mut bytes, taken)?;
    let flags = ClientFlags::read(&bytes);
    if flags.has_other() {
        return Err(Ending::BadFlags(flags.bits));
    }
    Ok(flags)
}

/// Answers options up to the one that begins the requests or ends the session.
fn agree<S: Source, K: Sink>(
    alloc: Global,
    source: &mut S,
    sink: &mut K,
    export: &Export,
    first: Agreed,
    tally: &mut Tally,
) -> Result<Agreed, Ending>
    requires { IsOut (K.outlet sink.old) }
    ensures out { (result ≡ Err Ending.WriteFault) ⊎ IsOut (K.outlet sink.new) }
    ensures agrees { (options : List ClientOption) × (last : Option ClientOption) × (taken : List ℕ)
        × (whole : List ℕ) × (front : List ℕ) × (ended : Bool)
        × IfOk result (λ agreed. agreed ≡ agreed_after first options)
        × Agrees export.now first
        (moment (S.intake source.old) (K.outlet sink.old) tally.old.taken tally.old.put)
        (moment (S.intake source.new) (K.outlet sink.new) tally.new.taken tally.new.put)
        result options last taken whole front ended }
{
    let mut agreed = first;
    for number in 0..MAX_OPTIONS {
        match answer_next(alloc, source, sink, export, &mut agreed, tally) {
            Course::GoesOn => {}
            Course::Begins => return Ok(agreed),
            Course::Ends(ending) => return Err(ending),
        }
    }
    Err(Ending::TooMany(MAX_OPTIONS))
}

/// Takes the next option and answers it.
fn answer_next<S: Source, K: Sink>(
    alloc: Global,
    source: &mut S,
    sink: &mut K,
    export: &Export,
    agreed: &mut Agreed,
    tally: &mut Tally,
) -> Course
    requires { IsOut (K.outlet sink.old) }
    ensures out { (result ≡ Course.Ends Ending.WriteFault) ⊎ IsOut (K.outlet sink.new) }
    ensures answers { (options : List ClientOption) × (last : Option ClientOption)
        × (taken : List ℕ) × (whole : List ℕ) × (front : List ℕ) × (ended : Bool)
        × (result ≡ Course.GoesOn → length options ≡ 1)
        × (agreed.new ≡ agreed_after agreed.old options)
        × ((n : ℕ) → n < 65536 → Answers export.now agreed.old n
        (moment (S.intake source.old) (K.outlet sink.old) tally.old.taken tally.old.put)
        (moment (S.intake source.new) (K.outlet sink.new) tally.new.taken tally.new.put)
        result options last taken whole front ended) }
{
    let option = match next_option(alloc, source, &mut tally.taken) {
        Ok(option) => option,
        Err(ending) => return Course::Ends(ending),
    };
    let verdict = judge(option.option, option.body.as_slice());
    let before = *agreed;
    *agreed = before.with(verdict);
    match put_answer(sink, export, before, option.option, verdict, &mut tally.put) {
        Ok(()) => verdict.course(),
        Err(_) => Course::Ends(Ending::WriteFault),
    }
}

/// Puts the answer to an option, by what was agreed on before it.
fn put_answer<K: Sink>(
    sink: &mut K,
    export: &Export,
    agreed: Agreed,
    option: OptionType,
    verdict: Verdict,
    put: &mut u64,
) -> Result<(), Failed>
    requires { IsOut (K.outlet sink.old) }
    ensures out { OnOk result (IsOut (K.outlet sink.new)) }
    ensures answer { (whole : List ℕ) × (front : List ℕ)
        × Puts (K.outlet sink.old) (K.outlet sink.new) put.old put.new
        (answer_of export.now agreed option verdict) result whole front }
    ensures silent { verdict ≡ Verdict.Unknown → IsOk result }
{
    match verdict {
        Verdict::Tell => {
            let data = export.data(agreed.structured);
            if agreed.no_zeroes {
                put_message(sink, &data.write(), put)
            } else {
                put_message(sink, &data.write_with_zeroes(), put)
            }
        }
        Verdict::Names => put_message(sink, &list_replies(), put),
        Verdict::Inform | Verdict::Agree => {
            let replies = InfoReplies {
                option,
                export: export.data(agreed.structured),
                blocks: export.blocks(),
            };
            put_message(sink, &replies.write(), put)
        }
        Verdict::Refuse(reply) => put_option_reply(sink, option, reply, put),
        Verdict::Structure | Verdict::Abort => {
            put_option_reply(sink, option, ReplyType::Ack, put)
        }
        Verdict::Unknown => Ok(()),
    }
}

/// The answer to LIST.
fn list_replies() -> [u8; 50]
    ensures { result ≡ list_replies_text (codes "volume") }
{
    let mut bytes = [0; 50];
    ListReplies { name: NAME }.write(&mut bytes);
    bytes
}

/// Puts a reply without data to an option.
fn put_option_reply<K: Sink>(
    sink: &mut K,
    option: OptionType,
    reply: ReplyType,
    put: &mut u64,
) -> Result<(), Failed>
    ensures out { OnOk result (IsOut (K.outlet sink.new)) }
    ensures puts { (whole : List ℕ) × (front : List ℕ)
        × Puts (K.outlet sink.old) (K.outlet sink.new) put.old put.new
        (option_reply_text (reply_head option reply 0)) result whole front }
{
    let head = OptionReplyHead {
        option,
        reply,
        length: 0,
    };
    put_message(sink, &head.write(), put)
}
