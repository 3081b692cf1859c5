// Two disks as one: a header's own disk, where there is one, and behind it the disk that the
// header speaks of. Wherever a header is read, it is read from such a disk, so that the layers
// above need not know whether it lies on a disk of its own.
//
// The layer above may rely on `JoinedDisk` being a disk as any other, whose tables tell of both
// disks at every call: it counts its calls and marks each disk with the call's number before it
// calls it, so that the tables of both stand in one order, also once they are apart again. A main
// disk alone is called and marked as it is, and its own tables are told. How many atoms each has,
// and whether there is a head, is told by `sizes`.

mod calls;
mod joined;

pub use joined::JoinedDisk;
