ghost use Rattle.std.specs.Prelude.{◌≡◌, ◌≢◌, true, false};
ghost use Rattle.reenc_tool.specs.Status.{cause_of_format, cause_of_refusal, cause_of_slots};
ghost use Rattle.reenc_tool.specs.Status.{cause_of_store, cause_of_volume, passphrase_limit};
ghost use Rattle.reenc_tool.specs.Status.{status_of};
ghost use Rattle.reenc_tool.specs.Texts.{fault_line};

use crate::history::Pass;
use crate::volume_refusal::VolumeRefusal;
use block_server::VolumePass;
use luks_format::FormatFault;
use luks_rules::RuleFault;
use luks_slots::SlotFault;
use luks_store::StoreFault;
use memory_disks::RamDisk;
use nbd_session::SessionEnd;
use reenc_recovery::OpenCause;
use sector_disk::Disk;
use std::alloc::Global;
use volume_opening::Refusal;

/// The most bytes of a passphrase.
const MOST_PASSPHRASE_BYTES: u64 = 512;

/// Why a command ended as it did. Where several causes hold, it is the first in the order of the
/// command's steps; `Output` comes only in place of `Fine`.
#[derive(Clone, Copy, Debug, PartialEq, Eq)]
pub enum Cause<'w> {
    /// It did what it was asked: status 0. A session that failed, or a client's failed read,
    /// changes nothing in that.
    Fine,
    /// These words ask for nothing: status 1.
    Usage { words: &'w [String] },
    /// This failed, which ended the command: status 2. Of the bay, or of the disk that it gave, so
    /// many calls had failed then.
    Device { failing: Failing, faults: u64 },
    /// The disk has no valid copy of a header: status 3.
    NoHeader,
    /// The copies of the header differ, its text has a fault, or its objects break a rule: status
    /// 4.
    Header,
    /// No keyslot gives the passphrase a key of the volume, or of one side of its conversion: status
    /// 5.
    NoKey,
    /// The volume is in a state in which the command can't be done: status 6.
    WrongState,
    /// The header is another program's: status 7.
    Foreign,
    /// Something doesn't fit: the counted number is beyond its limit. Status 8.
    NoFit { what: Fit, number: u64, limit: u64 },
    /// An old atom of this block and its new one have this digest both, so that a checksum doesn't
    /// tell them: status 9.
    Clash { block: u64, digest: [u8; 32] },
    /// So many links failed, the first of them at so many calls: status 10.
    Link { failed: u32, faults: u64 },
    /// The text could not be put and pushed out; so many calls of the output had failed then:
    /// status 11.
    Output { faults: u64 },
    /// The seeds gave no random bytes; so many of their calls had failed then: status 12.
    Seeds { faults: u64 },
    /// Memory was wanted: status 13.
    Memory,
    /// Besides the keyslot that the passphrase opens others hold the volume's key, which a conversion
    /// would drop, and it isn't asked for: status 15. The refusal has them.
    Keyslots,
}

/// What failed of the outside.
#[derive(Clone, Copy, Debug, PartialEq, Eq)]
pub enum Failing {
    /// The bay gave no disk.
    Opening,
    /// The bay gave no key file.
    Keying,
    /// The bay gave no links.
    Listening,
    /// A read of the disk failed.
    Reading,
    /// A call of the disk failed by which its volume was opened: the first sync, a read of the
    /// header, the repair of a copy of it, or one by which an open zone is written again.
    Starting,
    /// The volume is broken: a write or a sync of the disk failed, or a read of a zone that is open by
    /// the header.
    Writing,
    /// A call of a conversion that was led on failed: a read, a write or a sync of the disk; of `serve`
    /// one that gave its zone up and left the volume in use.
    Converting,
}

/// What doesn't fit.
#[derive(Clone, Copy, Debug, PartialEq, Eq)]
pub enum Fit {
    /// The keyslot's area has more bytes than the keyslots area; or that ends at a byte which the
    /// disk of a detached header doesn't have; or an area of a conversion has more bytes than are
    /// free there at one place.
    Area,
    /// The header's text has more bytes than its area less one.
    Json,
    /// The disk has fewer blocks than one.
    Blocks,
    /// The passphrase has no byte, or more than 512.
    Passphrase,
    /// The header has the last number, which no other follows.
    Seqid,
    /// The header has fewer numbers left than a zone of a conversion, or its end, has headers to be
    /// written.
    Numbers,
    /// A conversion has more steps than are counted, or the history of `serve` is full.
    Events,
    /// So many bytes that may be sectors of a volume lie behind the last whole atom of its disk, and there
    /// are to be none.
    Tail,
}

impl<'w> Cause<'w> {
    /// Whether the command did what it was asked.
    pub fn is_fine(self) -> bool
        ensures fine { result ≡ true → self.entry ≡ Cause.Fine }
        ensures other { result ≡ false → self.entry ≢ Cause.Fine }
    {
        matches!(self, Cause::Fine)
    }

    /// The cause of a command whose header wasn't read from a disk of which so many calls failed.
    pub(crate) fn of_store(fault: &StoreFault, faults: u64) -> Cause<'w>
        ensures { result ≡ cause_of_store fault.now faults }
    {
        match fault {
            StoreFault::Memory => Cause::Memory,
            StoreFault::Device => Cause::Device {
                failing: Failing::Reading,
                faults,
            },
            StoreFault::NoHeader { .. } => Cause::NoHeader,
            StoreFault::Rule(RuleFault::Foreign(_)) => Cause::Foreign,
            StoreFault::CopiesDiffer { .. } | StoreFault::Json(_) | StoreFault::Rule(_) => {
                Cause::Header
            }
        }
    }

    /// The cause of a command whose disk, of which so many calls failed, opened no volume.
    pub(crate) fn of_opening(refusal: &Refusal, faults: u64) -> Cause<'w>
        ensures { result ≡ cause_of_refusal refusal.now faults }
    {
        match refusal {
            Refusal::Header(fault) => Cause::of_store(fault, faults),
            Refusal::InProgress => Cause::WrongState,
            Refusal::Passphrase(length) => Cause::of_passphrase(*length as u64),
            Refusal::Slots(fault) => Cause::of_slots(fault, faults),
            Refusal::Opening(cause) => Cause::of_volume(cause, faults),
        }
    }

    /// The cause of a command whose passphrase has no byte, or too many.
    pub(crate) fn of_passphrase(length: u64) -> Cause<'w>
        ensures { result ≡ Cause.NoFit Fit.Passphrase length (passphrase_limit length) }
    {
        Cause::NoFit {
            what: Fit::Passphrase,
            number: length,
            limit: if length == 0 {
                1
            } else {
                MOST_PASSPHRASE_BYTES
            },
        }
    }

    /// The cause of a command by which so many bytes would be lost that may be sectors of a volume, and
    /// lie behind the last whole atom of its disk.
    pub(crate) fn of_tail(bytes: u64) -> Cause<'w>
        ensures { result ≡ Cause.NoFit Fit.Tail bytes 0 }
    {
        Cause::NoFit {
            what: Fit::Tail,
            number: bytes,
            limit: 0,
        }
    }

    /// The cause of a command that made no volume.
    pub(crate) fn of_format(fault: FormatFault) -> Cause<'w>
        ensures { result ≡ cause_of_format fault }
    {
        match fault {
            FormatFault::Memory => Cause::Memory,
            FormatFault::Area { wanted, gap } => Cause::NoFit {
                what: Fit::Area,
                number: wanted,
                limit: gap,
            },
            FormatFault::Json { len, limit } => Cause::NoFit {
                what: Fit::Json,
                number: len,
                limit,
            },
            FormatFault::Passphrase { len } => Cause::of_passphrase(len),
            FormatFault::Blocks => Cause::NoFit {
                what: Fit::Blocks,
                number: 0,
                limit: 1,
            },
        }
    }

    /// The cause of a command that was given no key by the keyslots of such a disk.
    pub(crate) fn of_slots(fault: &SlotFault, faults: u64) -> Cause<'w>
        ensures { result ≡ cause_of_slots fault.now faults }
    {
        match fault {
            SlotFault::Memory => Cause::Memory,
            SlotFault::Device => Cause::Device {
                failing: Failing::Reading,
                faults,
            },
            SlotFault::NoKey(_) | SlotFault::NoRoom(..) => Cause::NoKey,
        }
    }

    /// The cause of a command that was given no volume by the header and a key of such a disk.
    pub(crate) fn of_volume(cause: &OpenCause, faults: u64) -> Cause<'w>
        ensures { result ≡ cause_of_volume cause.now faults }
    {
        match cause {
            OpenCause::Memory => Cause::Memory,
            OpenCause::Device => Cause::Device {
                failing: Failing::Starting,
                faults,
            },
            OpenCause::NoHeader { .. } => Cause::NoHeader,
            OpenCause::Rule(RuleFault::Foreign(_)) => Cause::Foreign,
            OpenCause::CopiesDiffer { .. } | OpenCause::Json(_) | OpenCause::Rule(_) => {
                Cause::Header
            }
            OpenCause::InProgress => Cause::WrongState,
            OpenCause::KeyDiffers { .. } => Cause::NoKey,
        }
    }

    /// The exit status.
    pub fn status(self) -> u8
        ensures { result ≡ status_of self.entry }
    {
        match self {
            Cause::Fine => 0,
            Cause::Usage { .. } => 1,
            Cause::Device { .. } => 2,
            Cause::NoHeader => 3,
            Cause::Header => 4,
            Cause::NoKey => 5,
            Cause::WrongState => 6,
            Cause::Foreign => 7,
            Cause::NoFit { .. } => 8,
            Cause::Clash { .. } => 9,
            Cause::Link { .. } => 10,
            Cause::Output { .. } => 11,
            Cause::Seeds { .. } => 12,
            Cause::Memory => 13,
            Cause::Keyslots => 15,
        }
    }

    /// The line of a refusal, with its line feed; empty where there is none.
    pub fn line(self) -> &'static str
        ensures { result.now ≡ fault_line self.entry }
    {
        match self {
            Cause::Fine | Cause::Output { .. } => "",
            Cause::Usage { .. } => "fault 1 Usage\n",
            Cause::Device { .. } => "fault 2 Device\n",
            Cause::NoHeader => "fault 3 NoHeader\n",
            Cause::Header => "fault 4 Header\n",
            Cause::NoKey => "fault 5 NoKey\n",
            Cause::WrongState => "fault 6 WrongState\n",
            Cause::Foreign => "fault 7 Foreign\n",
            Cause::NoFit { .. } => "fault 8 NoFit\n",
            Cause::Clash { .. } => "fault 9 Clash\n",
            Cause::Link { .. } => "fault 10 Link\n",
            Cause::Seeds { .. } => "fault 12 Seeds\n",
            Cause::Memory => "fault 13 Memory\n",
            Cause::Keyslots => "fault 15 Keyslots\n",
        }
    }
}

/// A command that ended. What the bay gave is handed back.
#[derive(Drop)]
pub struct Ended<'w, D: Disk, L> {
    /// The exit status, which the cause determines.
    pub status: u8,
    pub cause: Cause<'w>,
    /// Why no header was shown, where that is the cause.
    pub fault: Option<StoreFault>,
    /// Why no volume was opened, where that is the cause.
    pub refusal: Option<VolumeRefusal>,
    /// Whether memory was wanted for a session's end: then clients may have been left, of each
    /// link.
    pub memory: bool,
    /// The disk that the bay gave.
    pub disk: Option<D>,
    /// The disk of a detached header, where the bay gave one. `format` alone asks for it yet.
    pub header: Option<D>,
    /// The pass of the volume whose sessions were served, where some volume's were.
    pub pass: Option<Pass<D>>,
    /// The pass of the volume in memory whose sessions `demo` served.
    pub demo: Option<Pass<RamDisk>>,
    /// The ends of the sessions of each link, in their order; no list where none was served.
    pub sessions: Vec<Vec<SessionEnd>>,
    /// The links that the bay gave.
    pub links: Vec<L>,
}

/// What came of sessions: why they ended, whether memory was wanted for a session's end, the pass of
/// the volume where they were served, the ends of each link's sessions, and the links.
#[derive(Drop)]
pub struct Sessions<'w, D: Disk, L> {
    pub cause: Cause<'w>,
    pub memory: bool,
    pub pass: Option<VolumePass<D>>,
    pub ends: Vec<Vec<SessionEnd>>,
    pub links: Vec<L>,
}

impl<'w, D: Disk, L> Sessions<'w, D, L> {
    ghost use Rattle.reenc_tool.specs.Outcomes.{came_of, ended_by, none_came, outcome_of};

    /// None was served, for this cause.
    pub fn none(alloc: Global, cause: Cause<'w>, links: Vec<L>) -> Sessions<'w, D, L>
        ensures { came_of result ≡ none_came cause.entry links.items }
    {
        Sessions {
            cause,
            memory: false,
            pass: None,
            ends: Vec::new(alloc),
            links,
        }
    }

    /// The end of a command whose sessions these are, on a disk as it is where they were served, and
    /// that hands back a disk and the one of a detached header, where it has them.
    pub fn ended(self, disk: Option<D>, header: Option<D>) -> Ended<'w, D, L>
        ensures status { result.status ≡ status_of result.cause }
        ensures outcome { outcome_of result ≡ ended_by (came_of self.entry) disk header }
    {
        let Sessions {
            cause,
            memory,
            pass,
            ends,
            links,
        } = self;
        Ended {
            status: cause.status(),
            cause,
            fault: None,
            refusal: None,
            memory,
            disk,
            header,
            pass: Pass::of_plain(pass),
            demo: None,
            sessions: ends,
            links,
        }
    }
}

impl<'w, D: Disk, L> Ended<'w, D, L> {
    /// The same with another cause, and its status.
    pub fn ending_by(self, cause: Cause<'w>) -> Ended<'w, D, L>
        ensures status { result.status ≡ status_of cause.entry }
        ensures cause { result.cause ≡ cause.entry }
        ensures fault { result.fault ≡ self.entry.fault }
        ensures refusal { result.refusal ≡ self.entry.refusal }
        ensures memory { result.memory ≡ self.entry.memory }
        ensures disk { result.disk ≡ self.entry.disk }
        ensures sessions { result.sessions ≡ self.entry.sessions }
        ensures links { result.links ≡ self.entry.links }
        ensures header { result.header ≡ self.entry.header }
        ensures pass { result.pass ≡ self.entry.pass }
        ensures demo { result.demo ≡ self.entry.demo }
    {
        let Ended {
            fault,
            refusal,
            memory,
            disk,
            header,
            pass,
            demo,
            sessions,
            links,
            ..
        } = self;
        Ended {
            status: cause.status(),
            cause,
            fault,
            refusal,
            memory,
            disk,
            header,
            pass,
            demo,
            sessions,
            links,
        }
    }
}
