// Why a header isn't read, for people.

use header_report::FaultText;
use luks_bin::BinFault;
use luks_store::StoreFault;
use std::fmt;

/// Why a header isn't read, as it is told to people: one line, without its line feed. Where neither copy
/// begins as one of LUKS does, that there is none is said first.
#[derive(Clone, Copy)]
pub struct HeaderText<'a>(pub &'a StoreFault);

impl fmt::Display for HeaderText<'_> {
    fn fmt<W: fmt::Write>(&self, f: &mut fmt::Formatter<W>) -> fmt::Result {
        let fault = FaultText(self.0);
        if is_missing(self.0) {
            write!(f, "no LUKS2 header is found ({fault})")
        } else {
            write!(f, "header: {fault}")
        }
    }
}

/// The bytes of a header's binary part (On-Disk Format 1.1, section 2.1): where fewer are there, none
/// is looked at.
const BINARY_BYTES: u64 = 4096;

/// Whether neither copy begins as one of LUKS does.
fn is_missing(fault: &StoreFault) -> bool {
    match fault {
        StoreFault::NoHeader { primary, secondary } => {
            is_no_copy(primary) && is_no_copy(secondary)
        }
        _ => false,
    }
}

/// Whether the bytes at a copy's place have no magic number of LUKS, or are too few for one.
fn is_no_copy(fault: &BinFault) -> bool {
    match fault {
        BinFault::Magic => true,
        BinFault::Size(bytes) => *bytes < BINARY_BYTES,
        _ => false,
    }
}
