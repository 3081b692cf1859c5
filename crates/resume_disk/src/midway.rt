// The opening of a volume of which a conversion is under way (LUKS2 On-Disk Format Specification
// 1.1, sections 3.3 and 3.4), guarded by a journal or by checksum.
//
// [`open_conversion`] makes a volume of joined disks: a sync, the reads of the header with all
// checks of it and of the keys of both sides, the repair of a copy of the header that lacks or is
// older, and where a stop left a zone open the steps by which it is written again. The volume lies
// where the header says that stands then, with no zone open, and has what its conversion takes, so
// that it may be led on while clients use it. Nothing is written before all checks have passed.
// Where no volume is opened it says why, which device call was the last, and hands the disks back.
//
// Its parts are public calls for those who have more to check: [`check_conversion`] makes the
// checks, [`find_sides`] finds the ciphers of both sides, and [`make_steps`] leads the steps of a
// zone that is written again to their end.

mod arming;
mod checking;
mod fault;
mod opening;
mod sides;
mod stepping;

pub use checking::{Begun, Course, check_conversion};
pub use fault::{ConversionCause, ConversionFault};
pub use opening::open_conversion;
pub use sides::find_sides;
pub use stepping::make_steps;
