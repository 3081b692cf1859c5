// Laws of conversions that came to their end beside clients.

ghost use Rattle.volume_laws.specs.BesideConverted.Ends.{ConvertedVolumesHoldNewest};

use crate::{conversions_stand_where_they_stop, every_conversion_is_served};
use cipher_laws::SectorCipher;

/// Where the worker of a volume comes to the end of its conversion, whatever clients did beside it and
/// since, the disk's bytes have the last header, by which nothing is converted, and each block is on the
/// new side and holds the newest value of the plain disk that was asked the clients' operations: as long
/// as no write or sync failed, and no operation is under way.
pub fn conversions_end_beside_clients<C: SectorCipher>()
    ensures { ConvertedVolumesHoldNewest C }
{
    every_conversion_is_served::<C>();
    conversions_stand_where_they_stop::<C>();
}
