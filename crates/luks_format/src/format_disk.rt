// A new volume on a disk: all that is written of it, and the six device calls that write it.
//
// The layer above may rely on [`make_volume`]: of what is wished, the sizes of its disk, a
// passphrase and 32 drawn bytes it makes both copies of the header and the keyslot's area, from
// which the passphrase unseals the volume's key; or it says what doesn't fit, the first in the
// stated order, exactly where it doesn't. And on [`write_volume`]: the keyslot's area is written
// and synced, and then both copies of the header, each synced, and nothing else; where a call
// fails none follows; what was made has room on its disk, [`new_volumes_fit_their_disk`]. The data
// is what it was in any case, [`new_volumes_leave_the_rest`]. Where all calls succeed the disk
// holds what was made and nothing else is changed, [`new_volumes_are_written`], and the passphrase
// opens it, [`new_volumes_are_opened`].
//
// Where the header has a disk of its own, the disk is both as one, the header's in front, of which
// no byte behind the header's is written.

mod fault;
mod laws;
mod volume;
mod writing;

pub use fault::FormatFault;
pub use laws::{
    new_volumes_are_opened, new_volumes_are_written, new_volumes_fit_their_disk,
    new_volumes_leave_the_rest,
};
pub use volume::{NewVolume, make_volume};
pub use writing::write_volume;
