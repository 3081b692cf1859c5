// Laws of the copies that are used, with nothing to run.

ghost use Rattle.luks_store.specs.Promises.{AreasBeginBehind, BothAreGood, CommitsBegin};
ghost use Rattle.luks_store.specs.Promises.{FrontsAreLoaded, GivenIsUsed};
ghost use Rattle.luks_store.specs.Promises.{LoadsByMeaning, MetaByMeaning, NoneStands, UsedIsGiven};
ghost use Rattle.luks_store.specs.Promises.{UsedStands};

use crate::header_copies::{copies_are_read, copies_mean_what_they_share};
use luks_bin::copies_are_spelt;

/// The copy that is used means the header that the disk's bytes have, as `crash_laws` speaks of it,
/// and where they have one it is used; it stands on the disk as it was read; and where both copies
/// of a header stand both are good. So its laws on commits, repairs and stops hold of what is
/// loaded.
pub fn used_copies_are_headers()
    ensures used { UsedIsGiven }
    ensures stands { UsedStands }
    ensures given { GivenIsUsed }
    ensures none { NoneStands }
    ensures both { BothAreGood }
{
    copies_are_spelt();
}

/// Copies that mean the same hold the same metadata, and so bytes that have a header hold its
/// metadata: each image that a stop leaves of a commit is loaded as the header from before or as
/// the next one.
pub fn metadata_go_by_meaning()
    ensures copies { MetaByMeaning }
    ensures loads { LoadsByMeaning }
{
    copies_are_spelt();
    copies_mean_what_they_share();
}

/// What stands behind both copies isn't read, where the primary stands at 0: disks whose bytes are
/// the same up to there hold the same header. Where it lacks, a disk is searched for a secondary at
/// each place. The keyslots' areas begin behind both.
pub fn headers_stand_in_front()
    ensures loads { FrontsAreLoaded }
    ensures areas { AreasBeginBehind }
{
    copies_are_spelt();
}

/// A disk that holds for certain both copies of the header that its bytes have shows the beginning
/// of a commit, as `crash_laws` speaks of it: so its laws hold of each image that a stop leaves
/// during a [`crate::Commit`] on a disk that was synced, and loaded with both copies good.
pub fn commits_begin()
    ensures { CommitsBegin }
{
    copies_are_spelt();
    copies_are_read();
}
