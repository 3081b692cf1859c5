// Zones of a conversion: a run of blocks that is led from the old segment of a LUKS2 volume to the
// new one while a stop may come at any moment. What the disk shows of it is known after each of
// its device calls: the old places of its blocks, the new ones, what is saved, and both copies of
// the header. By journal the old atoms are saved before they are written over, by checksum digests
// of them; by datashift the new atoms have other places. The blocks' side is the header's: a
// commit 'zone open' stands before the write, where something is saved, and 'boundary moved'
// behind it.
//
// There is nothing to run here: the layers above, which make the device calls, rely on the laws.
// Each image that a stop leaves has a header by which each block of the zone stands for the same,
// as long as no torn copy is valid; what others do beside the zone leaves that as it is. What the
// atoms of a block are on either side, what a copy means and which hash is used are parameters.

mod laws;

pub use laws::{
    zones_are_resumed, zones_are_told_by_atoms, zones_go_by_calls, zones_keep_contents, zones_stay,
};
