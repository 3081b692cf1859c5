// What the images of a volume's disks stand for while a zone of a conversion is led from the old
// segment to the new one, and behind each step by which an open zone is written again (LUKS2 On-Disk
// Format Specification 1.1, section 3.4), guarded by a journal or by checksum: laws alone, with
// nothing to run.
//
// The layer above may rely on two laws. While a zone is saved, opened, written and moved over, each
// image that a stop leaves stands for what the bytes stood for from which it is led, by the header
// that it has itself, as long as no torn copy of a header is valid, [`leadings_keep_images`]: it goes
// by the laws of zones alone, and names no step of `hotzone`.
//
// [`mendings_stand`]: a disk holds its bytes for certain, and in them both copies of a header by
// which a zone is open, and by checksum they stand for something; steps of `zone_mending` write it
// again, in a run of any length whose last step was done or failed. Then each image of each table told
// since stands for what the bytes stood for, by the header that it has itself, as long as no torn copy
// of a header is valid; and once the last step was made the disk, where it tells its tables, holds for
// certain the header with the boundary moved, and stands for the same by it: under the keys of the
// volume's sides, and under each passphrase that gives them.

mod laws;

pub use laws::{leadings_keep_images, mendings_stand};
