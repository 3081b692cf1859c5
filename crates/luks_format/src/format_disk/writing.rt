// The device calls that write a new volume.

ghost use Rattle.luks_format.specs.DiskFormat.Calls.{FitsNew, WritesVolume};

use crate::format_disk::volume::NewVolume;
use base_terms::Failed;
use luks_store::write_slot;
use sector_disk::Disk;

/// Writes a new volume, over whatever stood in the place of its header and of its keyslot's area: a
/// write of the area, a sync, and the four calls of its first commit. Its data is untouched.
///
/// # Errors
///
/// A call failed, and none was made behind it.
pub fn write_volume<D: Disk>(disk: &mut D, volume: &mut NewVolume) -> Result<(), Failed>
    requires { FitsNew volume.old (D.device disk.old) }
    ensures { WritesVolume volume.old (D.device disk.old) (D.device disk.new) result }
{
    write_slot(disk, &mut volume.slot)
}
