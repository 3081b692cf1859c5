// Why a volume isn't opened, for people.

use crate::header_text::HeaderText;
use crate::volume_refusal::VolumeRefusal;
use luks_slots::{Refusal as SlotRefusal, SlotFault, SlotKind};
use reenc_recovery::OpenCause;
use resume_disk::{ConversionCause, Refusal as ResumeRefusal};
use segment_map::Side;
use std::fmt;
use volume_opening::Refusal as OpeningRefusal;

/// Why a volume isn't opened by a passphrase, as it is told to people: one line, without its line
/// feed.
#[derive(Clone, Copy)]
pub struct RefusalText<'a>(pub &'a VolumeRefusal);

impl fmt::Display for RefusalText<'_> {
    fn fmt<W: fmt::Write>(&self, f: &mut fmt::Formatter<W>) -> fmt::Result {
        match self.0 {
            VolumeRefusal::Opening(refusal) => write!(f, "{}", UnopenedText(refusal)),
            VolumeRefusal::Resuming(refusal) => write!(f, "{}", UnresumedText(refusal)),
            VolumeRefusal::Keyslots(slots) => write!(f, "{}", HoldersText(slots.as_slice())),
        }
    }
}

/// Why a volume isn't opened of which nothing is being converted.
#[derive(Clone, Copy)]
struct UnopenedText<'a>(&'a OpeningRefusal);

impl fmt::Display for UnopenedText<'_> {
    fn fmt<W: fmt::Write>(&self, f: &mut fmt::Formatter<W>) -> fmt::Result {
        match self.0 {
            OpeningRefusal::Header(fault) => write!(f, "{}", HeaderText(fault)),
            OpeningRefusal::InProgress => write!(f, "a conversion is under way"),
            OpeningRefusal::Passphrase(length) => write!(f, "{}", LengthText(*length)),
            OpeningRefusal::Slots(fault) => write!(f, "{}", SlotsText(fault, "the volume's key")),
            OpeningRefusal::Opening(cause) => write!(f, "{}", OpeningText(cause)),
        }
    }
}

/// Why a volume isn't opened of which a conversion is under way.
#[derive(Clone, Copy)]
struct UnresumedText<'a>(&'a ResumeRefusal);

impl fmt::Display for UnresumedText<'_> {
    fn fmt<W: fmt::Write>(&self, f: &mut fmt::Formatter<W>) -> fmt::Result {
        match self.0 {
            ResumeRefusal::Header(fault) => write!(f, "{}", HeaderText(fault)),
            ResumeRefusal::Idle => write!(f, "{IDLE}"),
            ResumeRefusal::Passphrase(length) => write!(f, "{}", LengthText(*length)),
            ResumeRefusal::Slots(side, fault) => {
                write!(f, "{}: {}", key_of(*side), SlotsText(fault, "this key"))
            }
            ResumeRefusal::Tail(bytes) => {
                write!(f, "the last {bytes} bytes of the disk are in no whole atom")
            }
            ResumeRefusal::Unopened(cause) => write!(f, "{}", ConversionText(cause)),
        }
    }
}

/// What a volume is told of which nothing is being converted.
const IDLE: &str = "nothing is being converted";

/// What the key of a conversion's side is called.
fn key_of(side: Side) -> &'static str {
    match side {
        Side::Old | Side::Zone => "the old key",
        Side::New => "the new key",
    }
}

/// That a passphrase has so many bytes, which are none or too many.
#[derive(Clone, Copy)]
struct LengthText(usize);

impl fmt::Display for LengthText {
    fn fmt<W: fmt::Write>(&self, f: &mut fmt::Formatter<W>) -> fmt::Result {
        write!(
            f,
            "a passphrase of {} bytes, which are to be 1 to 512",
            self.0
        )
    }
}

/// Why a header and the keys of a conversion open no volume.
#[derive(Clone, Copy)]
struct ConversionText<'a>(&'a ConversionCause);

impl fmt::Display for ConversionText<'_> {
    fn fmt<W: fmt::Write>(&self, f: &mut fmt::Formatter<W>) -> fmt::Result {
        match self.0 {
            ConversionCause::Opening(cause) => write!(f, "{}", OpeningText(cause)),
            ConversionCause::Idle => write!(f, "{IDLE}"),
            ConversionCause::NotBuilt => {
                write!(
                    f,
                    "a conversion whose blocks are shifted, which is not built yet"
                )
            }
            ConversionCause::SeqEnd { left, wanted } => {
                write!(
                    f,
                    "{wanted} headers are to follow, and the header has {left} numbers left"
                )
            }
            ConversionCause::JsonFull { length, limit } => {
                write!(
                    f,
                    "a header's text of {length} bytes, for which there are {limit}"
                )
            }
        }
    }
}

/// Why the keyslots don't give the key that is called so: of each why it doesn't.
#[derive(Clone, Copy)]
struct SlotsText<'a>(&'a SlotFault, &'static str);

impl fmt::Display for SlotsText<'_> {
    fn fmt<W: fmt::Write>(&self, f: &mut fmt::Formatter<W>) -> fmt::Result {
        match self.0 {
            SlotFault::Memory => write!(f, "out of memory"),
            SlotFault::Device => write!(f, "a read failed"),
            SlotFault::NoRoom(..) => write!(f, "no keyslot has room"),
            SlotFault::NoKey(slots) => {
                write!(f, "the passphrase opens no keyslot")?;
                for (number, refusal) in slots.as_slice() {
                    write!(f, "; slot {number}: {}", SlotText(*refusal, self.1))?;
                }
                Ok(())
            }
        }
    }
}

/// Why a keyslot doesn't give the key that is called so.
#[derive(Clone, Copy)]
struct SlotText(SlotRefusal, &'static str);

impl fmt::Display for SlotText {
    fn fmt<W: fmt::Write>(&self, f: &mut fmt::Formatter<W>) -> fmt::Result {
        match self.0 {
            SlotRefusal::NotAssigned => write!(f, "it isn't bound to {}", self.1),
            SlotRefusal::Priority => write!(f, "it is to be ignored"),
            SlotRefusal::Unsupported(kind) => write!(f, "{}", UnsupportedText(kind)),
            SlotRefusal::DigestDiffers => {
                write!(f, "it holds no key of the volume under this passphrase")
            }
        }
    }
}

/// Why a keyslot of a kind isn't opened here.
#[derive(Clone, Copy)]
struct UnsupportedText(SlotKind);

impl fmt::Display for UnsupportedText {
    fn fmt<W: fmt::Write>(&self, f: &mut fmt::Formatter<W>) -> fmt::Result {
        match self.0 {
            SlotKind::Argon2i | SlotKind::Argon2id => write!(
                f,
                "{} isn't supported: `cryptsetup luksConvertKey --pbkdf pbkdf2` makes it PBKDF2",
                kind_name(self.0)
            ),
            SlotKind::Pbkdf2 => write!(
                f,
                "its hash, its cipher, its key size or its stripes aren't supported"
            ),
            SlotKind::OtherDerivation | SlotKind::Reencrypt | SlotKind::Other => {
                write!(f, "it isn't supported")
            }
        }
    }
}

/// What a kind of keyslots is called.
fn kind_name(kind: SlotKind) -> &'static str {
    match kind {
        SlotKind::Pbkdf2 => "pbkdf2",
        SlotKind::Argon2i => "argon2i",
        SlotKind::Argon2id => "argon2id",
        SlotKind::OtherDerivation => "of another derivation",
        SlotKind::Reencrypt => "reencrypt",
        SlotKind::Other => "of another type",
    }
}

/// Which keyslots hold a volume's key, of which all but one would go.
#[derive(Clone, Copy)]
struct HoldersText<'a>(&'a [(u64, SlotKind)]);

impl fmt::Display for HoldersText<'_> {
    fn fmt<W: fmt::Write>(&self, f: &mut fmt::Formatter<W>) -> fmt::Result {
        write!(
            f,
            "more keyslots than this passphrase's hold the volume's key:"
        )?;
        for (number, kind) in self.0 {
            write!(f, " slot {number} {};", kind_name(*kind))?;
        }
        write!(
            f,
            " the conversion keeps one, for this passphrase, and drops the others: \
            --drop-keyslots allows it"
        )
    }
}

/// Why a header and a key open no volume.
#[derive(Clone, Copy)]
struct OpeningText<'a>(&'a OpenCause);

impl fmt::Display for OpeningText<'_> {
    fn fmt<W: fmt::Write>(&self, f: &mut fmt::Formatter<W>) -> fmt::Result {
        match self.0 {
            OpenCause::Memory => write!(f, "out of memory"),
            OpenCause::Device => write!(f, "a call of the disk failed"),
            _ => write!(f, "the header changed while it was read"),
        }
    }
}
