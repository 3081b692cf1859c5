// Laws of new volumes on their disks, with nothing to run.

ghost use Rattle.luks_format.specs.DiskFormat.Rests.{LeaveTheRest};
ghost use Rattle.luks_format.specs.DiskFormat.Written.{AreOpened, AreWritten, FitTheirDisk};

/// What is made of a new volume lies on each disk of the sizes that it is made for, so that it may
/// be written there.
pub fn new_volumes_fit_their_disk()
    ensures { FitTheirDisk }
{}

/// Whatever the calls that write a new volume answer, the disk's bytes behind its header and its
/// keyslot's area are what they were.
pub fn new_volumes_leave_the_rest()
    ensures { LeaveTheRest }
{}

/// Where all of these calls succeed the disk holds both copies of the header, the keyslot's area,
/// and behind them what it held before.
pub fn new_volumes_are_written()
    ensures { AreWritten }
{}

/// The header that is loaded from what then stands there has the new volume's metadata, and from
/// its keyslot the passphrase unseals the volume's key.
pub fn new_volumes_are_opened()
    ensures { AreOpened }
{}
