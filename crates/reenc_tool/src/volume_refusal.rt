// Why no volume is opened, by the command that wanted one.

use json_members::Listed;
use luks_slots::SlotKind;
use resume_disk::Refusal as ResumeRefusal;
use volume_opening::Refusal as OpeningRefusal;

/// Why no volume was opened.
#[derive(Drop)]
pub enum VolumeRefusal {
    /// One of which nothing is being converted, which is served, or begins to be converted.
    Opening(OpeningRefusal),
    /// One of which a conversion is under way, which was to be led to its end, or is served.
    Resuming(ResumeRefusal),
    /// One of which nothing is being converted, which was to begin: these keyslots hold its key, by
    /// number and kind, and all but one would go.
    Keyslots(Listed<(u64, SlotKind)>),
}
