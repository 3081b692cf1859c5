// A new keyslot on a disk, and the header that names it: the six device calls that write both.
//
// The layer above may rely on [`write_slot`]: the keyslot's area is written and synced, and then
// both copies of the header, each synced, and nothing else; where a call fails none follows. So it
// is with the first header of a volume, over whatever stood there.
//
// Over a header that stands, [`slot_commits_keep_headers`]: on a disk that holds its bytes for
// certain, and in them both copies of the header to which the commit is the next, each image that
// a stop leaves, after whichever call, done or failed, holds the metadata from before, or it holds
// the next ones and the keyslot's area stands; and but for that area it holds, behind both copies,
// what was there. So it is as long as no torn copy is valid and none stands in front of the second
// one. That the next metadata come only behind the area is why the area is synced before the
// commit begins. Where all calls succeeded the disk holds the next header for certain.

mod laws;
mod writing;

pub use laws::slot_commits_keep_headers;
pub use writing::{SlotCommit, write_slot};
