use reenc_tool::{
    Cause, Failing, Fit, HeaderText, OpeningRefusal, RefusalText, ResumeRefusal, StoreFault,
    VolumeRefusal, explain_words,
};
use std::alloc::Global;
use std::io::Stderr;

/// Why a command ended as it did, and why no header was shown or no volume opened.
#[derive(Drop)]
pub struct Reason<'w> {
    pub cause: Cause<'w>,
    pub fault: Option<StoreFault>,
    pub refusal: Option<VolumeRefusal>,
    /// Whether it was to make a new volume.
    pub is_format: bool,
}

impl Reason<'_> {
    /// What is wrong with the header, where the command ended for that.
    pub fn header_fault(&self) -> Option<&StoreFault> {
        match &self.refusal {
            Some(VolumeRefusal::Opening(OpeningRefusal::Header(fault))) => Some(fault),
            Some(VolumeRefusal::Resuming(ResumeRefusal::Header(fault))) => Some(fault),
            _ => self.fault.as_ref(),
        }
    }
}

/// Says on standard error what was wrong with the words of a command, with its disk, with the
/// header on it or with its passphrase, and how many calls failed. What the system refused was told
/// when it did.
pub fn explain(alloc: Global, errors: Stderr, reason: &Reason<'_>) {
    match reason.cause {
        Cause::Usage { words } => explain_usage(alloc, errors, words),
        Cause::NoFit {
            what,
            number,
            limit,
        } => explain_fit(errors, what, number, limit, reason),
        Cause::NoHeader
        | Cause::Header
        | Cause::Foreign
        | Cause::NoKey
        | Cause::WrongState
        | Cause::Keyslots => explain_volume(errors, reason),
        Cause::Device {
            failing: Failing::Reading | Failing::Starting | Failing::Writing | Failing::Converting,
            faults,
        } => {
            let _ = eprintln!(errors; "reencd: failed calls of the disk: {faults}");
        }
        Cause::Clash { block, digest } => explain_clash(alloc, errors, block, digest),
        Cause::Link { failed, faults } => {
            let _ = eprintln!(errors;
                "reencd: failed links: {failed}; failed calls of the first: {faults}"
            );
        }
        Cause::Output { faults } => {
            let _ = eprintln!(errors; "reencd: failed calls of standard output: {faults}");
        }
        Cause::Seeds { faults } => {
            let _ = eprintln!(errors; "reencd: failed calls for random bytes: {faults}");
        }
        Cause::Fine | Cause::Device { .. } | Cause::Memory => {}
    }
}

/// Says what was wrong with the words, or the help that they ask for.
fn explain_usage(alloc: Global, errors: Stderr, words: &[String]) {
    if let Ok(Some(text)) = explain_words(alloc, words) {
        let _ = eprint!(errors; "{}", text.as_str());
    }
}

/// Says in one line what doesn't fit, by the counted number and its limit.
fn explain_fit(errors: Stderr, what: Fit, number: u64, limit: u64, reason: &Reason<'_>) {
    let _ = match what {
        Fit::Area => eprintln!(errors;
            "reencd: no room in the header's keyslots area: {number} bytes are wanted at one place, \
            and there are {limit} ({})",
            area_cure(reason.is_format)
        ),
        Fit::Json => eprintln!(errors;
            "reencd: a header's text of {number} bytes, for which there are {limit}"
        ),
        Fit::Seqid => eprintln!(errors;
            "reencd: the header's number is {number}, which no other follows"
        ),
        Fit::Numbers => eprintln!(errors;
            "reencd: {number} headers are to follow, and the header has {limit} numbers left"
        ),
        Fit::Events => eprintln!(errors;
            "reencd: more events of clients and steps of the conversion than {limit}"
        ),
        Fit::Blocks => eprintln!(errors;
            "reencd: the disk has no room for a block{}",
            blocks_cure(reason.is_format)
        ),
        Fit::Tail => eprintln!(errors;
            "reencd: tail: the disk has {number} bytes behind its last whole atom, which a conversion \
            wouldn't reach: {}",
            tail_cure(reason.refusal.is_some())
        ),
        Fit::Passphrase => eprintln!(errors;
            "reencd: the key file has {}, and a passphrase has 1 to 512",
            passphrase_length(number)
        ),
    };
}

/// Where the data of a new volume would begin that has no room for a block.
fn blocks_cure(is_format: bool) -> &'static str {
    if is_format {
        " (format begins the data at --data-offset, by default byte 16777216)"
    } else {
        ""
    }
}

/// What helps where an area has no room. A volume that there is can't be given another data offset.
fn area_cure(is_format: bool) -> &'static str {
    if is_format {
        "a larger --data-offset, or a longer disk of the header, gives more"
    } else {
        "for the zones, of which a smaller --hotzone-size asks for less, or for the new keyslot, of \
        which a smaller --key-size does"
    }
}

/// What helps where the disk has a tail. Atoms of another size are no help once a conversion is under
/// way.
fn tail_cure(is_midway: bool) -> &'static str {
    if is_midway {
        "give it the size that it had when the conversion was begun, or whole atoms by a loop device \
        (`losetup --sizelimit`)"
    } else {
        "lengthen the disk to whole atoms, or take --atom 512, where sectors have 512 bytes and the \
        disk writes 512 bytes whole"
    }
}

/// How long a passphrase is that has no byte, or too many: no more than 513 bytes are read of it.
fn passphrase_length(bytes: u64) -> &'static str {
    if bytes == 0 {
        "no byte"
    } else {
        "more than 512 bytes"
    }
}

/// Says in one line which block has an old atom and a new one of which digest both.
fn explain_clash(alloc: Global, errors: Stderr, block: u64, digest: [u8; 32]) {
    if let Ok(digits) = hex::encode(alloc, digest) {
        let _ = eprintln!(errors;
            "reencd: the old and the new atom of block {block} have the digest {digits} both"
        );
    }
}

/// Says in one line what is wrong with a header, or why a volume isn't opened.
fn explain_volume(errors: Stderr, reason: &Reason<'_>) {
    if let Some(fault) = &reason.fault {
        let _ = eprintln!(errors; "reencd: {}", HeaderText(fault));
    }
    if let Some(refusal) = &reason.refusal {
        let _ = eprintln!(errors; "reencd: {}", RefusalText(refusal));
    } else if let Cause::WrongState = reason.cause {
        let _ = eprintln!(errors; "reencd: the volume isn't encrypted");
    }
}
