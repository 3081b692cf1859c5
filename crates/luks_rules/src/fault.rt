use json_members::Text;
use std::alloc::AllocError;
use std::error::Error;
use std::fmt;

/// A rule that metadata break, in the order of the tests.
#[derive(Debug, Drop)]
pub enum RuleFault {
    /// This string is mandatory, and isn't the profile's: the header is another program's.
    Foreign(Text),
    /// A keyslot's area isn't within the keyslots area, or that area passes the first segment, or,
    /// where the header is detached, the end of its disk.
    AreaBounds,
    /// Two areas of keyslots share a byte.
    AreaOverlap,
    /// A digest lists a keyslot or segment that isn't there, or a crypt segment is in no digest or
    /// in two.
    DigestRef,
    /// Without a conversion there isn't exactly one segment; in one, a live segment has no size of
    /// its own; or a segment passes the disk's end; or the volume has no block.
    SegmentGap,
    /// A sector size doesn't divide the atom.
    SectorSize,
    /// A place or size in bytes of a segment or an area isn't a multiple of the atom.
    NotAtomMultiple,
    /// A crypt segment's IV offset and its length in units of 512 bytes add up to more than
    /// `2^64 - 1`.
    TweakRange,
    /// Segments, digests and reencrypt keyslot aren't those of any state of a conversion.
    ReencryptShape,
    /// The area that guards a zone is too small for one block, or for the zone that is open.
    ResilTooSmall,
    /// A conversion that shifts its data doesn't have exactly the shift between its two segments.
    ShiftRoom,
}

impl RuleFault {
    /// The rule's number, its name and what it asks for, as a fault is told to people.
    fn described(&self) -> (u8, &'static str, &'static str) {
        match self {
            RuleFault::AreaBounds => (1, "AreaBounds", "an area isn't within its bounds"),
            RuleFault::AreaOverlap => (2, "AreaOverlap", "two areas share a byte"),
            RuleFault::DigestRef => (3, "DigestRef", "digests don't list what they should"),
            RuleFault::SegmentGap => (4, "SegmentGap", "the segments hold no whole volume"),
            RuleFault::SectorSize => (5, "SectorSize", "sectors don't divide the atom"),
            RuleFault::NotAtomMultiple => (6, "NotAtomMultiple", "not in whole atoms"),
            RuleFault::Foreign(_) => (7, "Foreign", "another program's header"),
            RuleFault::ReencryptShape => (8, "ReencryptShape", "no state of a conversion"),
            RuleFault::ResilTooSmall => (9, "ResilTooSmall", "the saved area is too small"),
            RuleFault::ShiftRoom => (10, "ShiftRoom", "the shift isn't between the segments"),
            RuleFault::TweakRange => (11, "TweakRange", "sectors' numbers pass 64 bits"),
        }
    }
}

/// One line, as `rule 2 AreaOverlap: two areas share a byte`. That of another program's header ends
/// with the string, in which what can't be printed is escaped.
impl fmt::Display for RuleFault {
    fn fmt<W: fmt::Write>(&self, f: &mut fmt::Formatter<W>) -> fmt::Result {
        let (number, name, meaning) = self.described();
        match self {
            RuleFault::Foreign(text) => {
                let text = text.as_str().escape_debug();
                write!(f, "rule {number} {name}: {meaning}, {text}")
            }
            _ => write!(f, "rule {number} {name}: {meaning}"),
        }
    }
}

impl Error for RuleFault {}

/// Why metadata aren't valid.
#[derive(Debug, Drop)]
pub enum CheckError {
    /// Memory ran out.
    Memory,
    /// This is the first rule that they break.
    Fault(RuleFault),
}

impl fmt::Display for CheckError {
    fn fmt<W: fmt::Write>(&self, f: &mut fmt::Formatter<W>) -> fmt::Result {
        match self {
            CheckError::Memory => write!(f, "out of memory"),
            CheckError::Fault(fault) => write!(f, "{fault}"),
        }
    }
}

impl Error for CheckError {}

impl From<AllocError> for CheckError {
    ghost use Rattle.std.specs.Prelude.{◌≡◌};
    ghost use Rattle.luks_rules.specs.declared.fault.CheckError.TheVariants.{Memory};

    ghost from_gives = { λ _ e. e ≡ Memory };

    fn from(_: AllocError) -> CheckError {
        CheckError::Memory
    }
}
