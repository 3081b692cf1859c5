// Areas of a disk, and the header that lies in two of them. An area is a run of atoms that one
// writer has for itself: of each of its atoms it is known what it holds while nothing has failed,
// and what a stop may leave there. A header has two copies (LUKS2 On-Disk Format Specification
// 1.1, section 2.1), one at the front of the disk and one behind it; a commit leads both to the
// next header by a write, a sync, a write and a sync, and a repair writes one of them anew.
//
// There is nothing to run here: the layers above, which know what a copy is and make the device
// calls, rely on the laws. Each image that a stop leaves during a commit or a repair has the
// header from before or the next one, as long as no torn copy is valid; none is asked to be
// readable. What a copy means is a parameter, so that what speaks of places doesn't look into a
// header.

mod laws;

pub use laws::{
    commits_keep_headers, disks_have_one_header, first_headers_are_kept, fronts_are_kept,
    images_are_taken, openings_are_dated, repairs_keep_headers,
};
