// Laws of new volumes, with nothing to run.

ghost use Rattle.luks_format.specs.Places.{BreakNone, TakeLowest};

/// The metadata of a new volume break no rule, for each disk on which its keyslot's area and a
/// block of its data have room; or for each two, where the header has a disk of its own.
pub fn new_metadata_break_no_rule()
    ensures { BreakNone }
{}

/// The area of a new volume's keyslot lies where `luks_slots::add` would put the first one: at the
/// lowest place of an empty keyslots area.
pub fn new_volumes_take_the_lowest_place()
    ensures { TakeLowest }
{}
