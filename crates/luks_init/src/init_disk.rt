// A conversion that is begun on a disk: an encrypted volume of which nothing is being converted
// becomes one that is to be encrypted anew under another key, and none of which is converted yet
// (LUKS2 On-Disk Format Specification 1.1, sections 2 and 3).
//
// The layer above may rely on [`begin_conversion`]. The header is read and the keyslots are tried;
// then the disk is synced, the header is read once more, and all is checked and made: only then a
// copy of the header that lacks or is older is written anew, the new keyslot's area is written, and
// then both copies of the next header, each write synced before the next one. Where the disk tells
// what it holds, what it held stands for the same content under the same passphrase as what it
// holds at each moment from the first sync on: each image that a stop leaves does, as long as no
// torn copy of a header is valid and none stands in front of the second one. Else it says why no
// conversion is begun, with the disk; and unless a device call failed nothing was written. By the
// header with which one is begun nothing is lost: at most one keyslot holds the volume's key, unless
// they may go, and no bytes that may be sectors of the volume lie behind the last whole atom of its
// disk.

mod beginning;
mod changes;
mod checking;
mod laws;
mod making;
mod refusal;
mod slips;
mod starting;
mod unlocking;

pub use beginning::begin_conversion;
pub use laws::slots_keep_contents;
pub use making::MakeFault;
pub use refusal::{Refusal, Started, Unstarted};
