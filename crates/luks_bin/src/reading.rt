ghost use Rattle.std.specs.Prelude.{◌≡◌, ◌≤◌, ◌+◌, length};
ghost use Rattle.luks_bin.specs.Copies.{copy_of, header_of, size_of};

use crate::fields::{ends, field_at, magic, padded, sum, u16_at, u64_at};
use crate::header::{BinFault, BinHeader, is_header_size};

/// How many bytes the copy at a place has, by the first 4096 bytes from there on, of `there` that
/// the disk has from there on: what is to be read before [`read_copy`]. The place is the byte of
/// the disk: 0 for the primary. A fault is the one that `read_copy` gives for all those bytes; the
/// checksum, its algorithm and the texts aren't tested yet.
#[tactic(auto, unfolding(crate::specs::Copies::size_of))]
pub fn read_size(head: &[u8], place: u64, there: u64) -> Result<u64, BinFault>
    requires { 4096 ≤ there → 4096 ≤ length head.now }
    ensures { result ≡ size_of place there head.now }
{
    if there < 4096 {
        return Err(BinFault::Size(there));
    }
    if field_at::<6>(head, 0) != magic(place) {
        return Err(BinFault::Magic);
    }
    let version = u16_at(head, 6);
    if version != 2 {
        return Err(BinFault::Version(version));
    }
    let size = u64_at(head, 8);
    if !is_header_size(size) {
        return Err(BinFault::Size(size));
    }
    if there < size {
        return Err(BinFault::Size(there));
    }
    let stated = u64_at(head, 256);
    if stated != place || (place != 0 && size != place) {
        return Err(BinFault::Place(stated));
    }
    Ok(size)
}

/// The header of a whole copy, of which magic, version, size and place are right.
#[tactic(auto, unfolding(crate::specs::Copies::header_of))]
fn read_header(copy: &[u8]) -> Result<BinHeader, BinFault>
    requires { 4096 ≤ length copy.now }
    ensures { result ≡ header_of copy.now }
{
    if field_at::<7>(copy, 72) != *b"sha256\0" {
        return Err(BinFault::Algorithm);
    }
    let computed = sum(copy);
    let stored = field_at::<64>(copy, 448);
    if stored != padded(&computed) {
        return Err(BinFault::Checksum { stored, computed });
    }
    let label = field_at::<48>(copy, 24);
    if !ends(&label) {
        return Err(BinFault::Text(24));
    }
    let uuid = field_at::<40>(copy, 168);
    if !ends(&uuid) {
        return Err(BinFault::Text(168));
    }
    let subsystem = field_at::<48>(copy, 208);
    if !ends(&subsystem) {
        return Err(BinFault::Text(208));
    }
    Ok(BinHeader {
        hdr_size: u64_at(copy, 8),
        seqid: u64_at(copy, 16),
        label,
        salt: field_at(copy, 104),
        uuid,
        subsystem,
        hdr_offset: u64_at(copy, 256),
    })
}

/// The header of the copy that stands at a place of the disk, 0 for the primary: `bytes` are those
/// from there on, all that the disk has or as many as the copy. Bytes behind the copy and its
/// padding aren't tested. Else the first fault, in the order of [`BinFault`].
#[tactic(auto, unfolding(crate::specs::Copies::copy_of))]
pub fn read_copy(bytes: &[u8], place: u64) -> Result<BinHeader, BinFault>
    ensures { result ≡ copy_of place bytes.now }
{
    match read_size(bytes, place, bytes.len() as u64) {
        Ok(size) => read_header(&bytes[..size as usize]),
        Err(fault) => Err(fault),
    }
}
