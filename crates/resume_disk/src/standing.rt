// Laws of conversions that stand, with nothing to run.

ghost use Rattle.resume_disk.specs.Complete.{ConversionsEnd};
ghost use Rattle.resume_disk.specs.Standing.{ConversionsAreLedOn};

use cipher_laws::SectorCipher;
use sector_cipher::Context;
use sector_disk::Disk;

/// A conversion that stands is led to its end: where a disk tells its bytes, these stand for a content
/// under a passphrase of 1 to 512 bytes, with a zone open or not, and by their header a conversion is
/// under way by journal or by checksum, [`crate::resume_conversion`] refuses it only where memory was
/// wanted or a device call failed, or where a zone was open and the header with the boundary moved can't
/// be made; else it was led on, up to the end that its worker tells.
pub fn standing_conversions_are_led_on<D: Disk>()
    ensures { ConversionsAreLedOn ⟦<Context as SectorCipher>⟧.sector
        ⟦<Context as SectorCipher>⟧.sealed ⟦<Context as SectorCipher>⟧.opened D.device }
{}

/// And where no device call failed besides, it is at its end, unless something is wanting: memory, a number
/// or room for a header that is to follow, of zones guarded by checksum a digest that tells the old atom
/// of a block from the new one, or a number for one step more.
pub fn standing_conversions_end<D: Disk>()
    ensures { ConversionsEnd ⟦<Context as SectorCipher>⟧.sector
        ⟦<Context as SectorCipher>⟧.sealed ⟦<Context as SectorCipher>⟧.opened D.device }
{
    standing_conversions_are_led_on::<D>();
}
