// A law of new volumes, with nothing to run.

ghost use Rattle.image_laws.specs.Made.Standing.{NewVolumesStand};

use luks_format::{new_volumes_are_opened, new_volumes_are_written, new_volumes_leave_the_rest};
use seed_stream::streams_go_on;

/// Where all calls succeed that write a new volume its disk holds what was made, and behind it what
/// was there; and these bytes stand, under the passphrase, for what the new key unseals from the
/// data that was there, and nothing is being converted by their header.
pub fn new_volumes_stand()
    ensures { NewVolumesStand }
{
    streams_go_on();
    new_volumes_leave_the_rest();
    new_volumes_are_written();
    new_volumes_are_opened();
}
