use json_members::JsonFaultKind;
use luks_bin::BinFault;
use luks_rules::RuleFault;
use luks_store::StoreFault;
use std::fmt;

/// Why a header isn't read, as it is told to people: one line, without its line feed.
#[derive(Clone, Copy)]
pub struct FaultText<'a>(pub &'a StoreFault);

impl fmt::Display for FaultText<'_> {
    fn fmt<W: fmt::Write>(&self, f: &mut fmt::Formatter<W>) -> fmt::Result {
        match self.0 {
            StoreFault::Memory => write!(f, "out of memory"),
            StoreFault::Device => write!(f, "a read failed"),
            StoreFault::NoHeader { primary, secondary } => {
                let primary = CopyFault(primary);
                let secondary = CopyFault(secondary);
                write!(f, "primary: {primary}; secondary: {secondary}")
            }
            StoreFault::CopiesDiffer { seqid, place } => {
                write!(
                    f,
                    "CopiesDiffer: both have seqid {seqid}, and differ at byte {place}"
                )
            }
            StoreFault::Json(fault) => {
                write!(f, "{fault}")?;
                match fault.kind {
                    JsonFaultKind::Unsupported => write!(f, "{SUPPORTED}"),
                    _ => Ok(()),
                }
            }
            StoreFault::Rule(fault) => write!(f, "{fault}{}", cure_of(fault)),
        }
    }
}

/// What is read where a name may be another one.
const SUPPORTED: &str =
    ": ciphers aes-xts-plain64 and aes-cbc-essiv:sha256 and digests by sha256 and sha512 are";

/// What may be behind a rule that is broken, and what helps.
fn cure_of(fault: &RuleFault) -> &'static str {
    match fault {
        RuleFault::AreaBounds | RuleFault::SegmentGap => {
            " (a detached header, a header backup, a disk that was cut short, or another --atom?)"
        }
        RuleFault::SectorSize | RuleFault::NotAtomMultiple => " (another --atom may help)",
        _ => "",
    }
}

/// What is wrong with a copy.
#[derive(Clone, Copy)]
struct CopyFault<'a>(&'a BinFault);

impl fmt::Display for CopyFault<'_> {
    fn fmt<W: fmt::Write>(&self, f: &mut fmt::Formatter<W>) -> fmt::Result {
        match self.0 {
            BinFault::Magic => write!(f, "Magic"),
            BinFault::Version(1) => write!(
                f,
                "Version 1: LUKS1 isn't supported, and `cryptsetup convert --type luks2` makes it LUKS2"
            ),
            BinFault::Version(version) => write!(f, "Version {version}"),
            BinFault::Size(size) => write!(f, "Size {size}"),
            BinFault::Place(place) => write!(f, "Place {place}"),
            BinFault::Algorithm => write!(f, "Algorithm"),
            BinFault::Checksum { stored, computed } => {
                let stored = Digits(sum_in(stored));
                let computed = Digits(computed);
                write!(f, "Checksum (stored {stored}, computed {computed})")
            }
            BinFault::Text(place) => write!(f, "Text without a NUL at byte {place}"),
        }
    }
}

/// The field of a checksum without the zeros that stand behind its 32 bytes, where there are none
/// but zeros.
fn sum_in(field: &[u8; 64]) -> &[u8] {
    if field[32..].iter().all(|byte| *byte == 0) {
        &field[..32]
    } else {
        field
    }
}

/// Bytes in hexadecimal.
#[derive(Clone, Copy)]
struct Digits<'a>(&'a [u8]);

impl fmt::Display for Digits<'_> {
    fn fmt<W: fmt::Write>(&self, f: &mut fmt::Formatter<W>) -> fmt::Result {
        for byte in self.0 {
            write!(f, "{byte:02x}")?;
        }
        Ok(())
    }
}
