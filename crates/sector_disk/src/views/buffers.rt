// Reads into buffers.

ghost use Rattle.std.specs.Prelude.{◌≡◌, ◌≤◌, length, take, IfOk, IfErr};
ghost use Rattle.cipher_laws.specs.Bytes.{AreBytes};
ghost use Rattle.sector_disk.specs.Geometry.{IsInDisk};
ghost use Rattle.sector_disk.specs.Devices.{ReadCall};
ghost use Rattle.sector_disk.specs.Devices.{succeeded, failed_call};

use crate::Disk;
use base_terms::{Buffer, Failed, bytes_are_below_256};

/// Reads whole atoms from atom `at` on into the front of a buffer, `len` bytes, and gives the
/// buffer back, as long as it was.
pub fn read_into<D: Disk>(
    disk: &mut D,
    at: u64,
    buffer: Buffer,
    len: usize,
) -> Result<Buffer, Buffer>
    requires front { len ≤ length buffer }
    requires inside { IsInDisk (D.device disk.old).size (D.device disk.old).atoms at len }
    ensures read { IfOk result (λ same. ReadCall (D.device disk.old).size at (take len same)
        (D.device disk.old) (D.device disk.new) succeeded) }
    ensures missed { IfErr result (λ same. ReadCall (D.device disk.old).size at (take len same)
        (D.device disk.old) (D.device disk.new) failed_call) }
    ensures length { IfOk result (λ same. length same ≡ length buffer) }
    ensures missed_length { IfErr result (λ same. length same ≡ length buffer) }
    ensures bytes { IfOk result (λ same. AreBytes (take len same)) }
{
    let mut buffer = buffer;
    match read_front(disk, at, buffer.as_mut_slice(), len) {
        Ok(()) => {
            bytes_are_below_256(buffer.front(len));
            Ok(buffer)
        }
        Err(Failed) => Err(buffer),
    }
}

fn read_front<D: Disk>(disk: &mut D, at: u64, bytes: &mut [u8], len: usize) -> Result<(), Failed>
    requires front { len ≤ length bytes.old }
    requires inside { IsInDisk (D.device disk.old).size (D.device disk.old).atoms at len }
    ensures call { ReadCall (D.device disk.old).size at (take len bytes.new)
        (D.device disk.old) (D.device disk.new) result }
    ensures length { length bytes.new ≡ length bytes.old }
{
    disk.read(at, &mut bytes[..len])
}
