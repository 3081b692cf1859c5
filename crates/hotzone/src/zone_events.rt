// Each step of a conversion's zone is a step of the volume's worker. A volume that is converted
// while it is in use holds a zone, whose steps are those of its worker that make a device call, or
// are refused before one: this module says which state of the volume's machine a zone's state is, and
// that what the zone does is what the machine allows. It says besides what such a volume knows of
// its zone between two steps: that the blocks that come next may be taken, where all blocks lie, and
// that it begins in order.

mod laws;

pub use laws::{
    maps_follow, sides_are_told, sizes_are_told, steps_are_works, zones_are_planned,
    zones_begin_in_order,
};
