// Volumes that go to threads. A volume may go to another thread, and be lent to others, where its
// disk and its cipher may; a zone of a conversion where its cipher may; and a header that was
// loaded always.
//
// Of most types this is found where a thread is started. It isn't of these, since they hold JSON
// values, which reach themselves: so it is shown here, once, and a proof above that starts a thread
// cites it.

use cipher_laws::SectorCipher;
use hotzone::Zone;
use luks_store::Loaded;
use sector_disk::Disk;
use volume_core::Volume;

fn may_go<T: Send + Sync>() {}

/// A header that was loaded may go to another thread, and be lent to others.
pub fn headers_may_go() {
    may_go::<Loaded>();
}

/// A zone of a conversion may go to another thread, and be lent to others, where its cipher may.
pub fn zones_may_go<C: SectorCipher + Copy + Send + Sync>() {
    may_go::<Zone<C>>();
}

/// A volume may go to another thread, and be lent to others, where its disk and its cipher may.
pub fn volumes_may_go<D: Disk + Send + Sync, C: SectorCipher + Copy + Send + Sync>() {
    may_go::<Volume<D, C>>();
}
