// A disk as runs of device calls see it: one read, write or sync by what it did to all that the
// disk tells, and, atom by atom, what each place holds now and what a stop may leave there.
// Whatever stands on a disk, a volume's blocks or a header's copies, says by these words what its
// calls leave at its own places and beside them; nothing here knows what the atoms mean.

mod buffers;

pub use buffers::read_into;
