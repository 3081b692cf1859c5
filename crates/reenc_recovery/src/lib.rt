//! The opening of an encrypted volume (LUKS2 On-Disk Format Specification 1.1), and what an image
//! of its disks stands for.
//!
//! The layer above may rely on one relation, `StandsFor`: an image of the disks stands for a
//! content under a passphrase, block by block. Nothing of its volume is being converted, or a
//! conversion is under way of which no zone is open; which of both is said by `RestsIn`. No code
//! computes them. An image stands for at most one content, [`images_stand_for_one`]. What is written
//! in front of the keyslots' areas leaves it, under the same keys and under the same passphrase, as
//! long as the header says the same, by which nothing is being converted,
//! [`contents_stay_behind_headers`]. So it is with each image that a stop leaves of a repair,
//! [`repairs_keep_contents`], and of an opening from its first sync on, [`openings_keep_contents`],
//! as long as no torn copy of the header is valid and none stands in front of the second one. A
//! volume that was opened by the header and a key of its disks is one from which runs start as from
//! the plain disk of that content, [`opened_volumes_start`]; where the key is that of a passphrase
//! it is the one that the disks stood for under this, [`opened_volumes_go_by_passphrases`].
//!
//! [`open_volume`] makes a volume of joined disks of which nothing is being converted: a sync, the
//! reads of the header with all checks of it and of the key, and where a copy of the header lacks
//! or is older the write of that copy, and a sync. Nothing is written before all checks have
//! passed. Where no volume is opened it says why, and what is left of the disks. The reads with all
//! checks and the repair are public calls of their own, [`check`] and [`mend`], for those who have
//! more to check before anything is written; behind both the header is certain,
//! [`openings_mend_headers`]. What the calls of an opening leave of a header, whatever it says of a
//! conversion, is said by [`openings_keep_headers`]; and the cipher of any one segment under the key
//! that was handed in for it is [`segment_cipher`].
#![tactic(auto)]

mod checking;
mod fault;
mod judging;
mod keys;
mod laws;
mod opening;
mod repairing;
mod telling;

pub use checking::{Checked, check};
pub use fault::{OpenCause, OpenFault};
pub use judging::{Opening, first_number};
pub use keys::{SideKeys, segment_cipher};
pub use laws::{
    contents_stay_behind_headers, images_stand_for_one, opened_volumes_go_by_passphrases,
    opened_volumes_start, openings_keep_contents, openings_keep_headers, openings_mend_headers,
    repairs_keep_contents,
};
pub use opening::open_volume;
pub use repairing::mend;
pub use telling::disks_tell_lawfully;
