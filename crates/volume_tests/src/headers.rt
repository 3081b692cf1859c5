ghost use Rattle.std.specs.Prelude.{◌≡◌, ◌≤◌, length, IfOk};
ghost use Rattle.luks_bin.specs.Writing.{IsWritable};

use crate::same::same;
use base_terms::zeros;
use luks_bin::{
    BinFault, BinHeader, first_difference, hides_copy, json_text, move_copy, read_copy, read_size,
    write_copy,
};
use sha2::{Digest, Sha256};
use std::alloc::{AllocError, Global};
use std::test::Fail;

const LABEL: [u8; 48] =
    *b"a volume\0\0\0\0\0\0\0\0\0\0\0\0\0\0\0\0\0\0\0\0\0\0\0\0\0\0\0\0\0\0\0\0\0\0\0\0\0\0\0\0";

const UUID: [u8; 40] = *b"00112233-4455-6677-8899-aabbccddeeff\0\0\0\0";

const SUBSYSTEM: [u8; 48] =
    *b"backup\0\0\0\0\0\0\0\0\0\0\0\0\0\0\0\0\0\0\0\0\0\0\0\0\0\0\0\0\0\0\0\0\0\0\0\0\0\0\0\0\0\0";
// the sums of the sample's primary with the texts `{}` and `[]`, and of its secondary, by Python's
// hashlib
const SUM: [u8; 32] =
    *b"\x53\x5d\xc8\x41\x1f\x7e\x7a\xdd\xc7\x29\xc6\x96\x77\x8c\xf5\xd1\x37\x96\xdb\x29\x47\x94\x69\xdc\x76\x8d\xa3\x29\xaf\x81\x47\x51";

const SUM_OF_A_LIST: [u8; 32] =
    *b"\x14\x8b\xf4\xc5\x3c\x3b\x35\x57\x2a\xb7\x88\xfc\x82\x32\x7e\x51\xf3\x39\x7d\xea\x12\x3c\x32\xf4\xbb\xa9\xff\xb8\x6d\x20\xd9\x85";

const SUM_OF_SECONDARY: [u8; 32] =
    *b"\x7c\xc4\xa0\x56\x1a\xa8\x4f\x85\x64\xaf\x3a\xcd\x97\xec\x47\xcb\x56\xf8\x53\x7b\x76\x1c\xf0\x8b\x33\x8b\xeb\x9c\x19\xa2\x10\x17";

/// A primary's header of 16384 bytes, with this number.
#[tactic(auto, unfolding(luks_bin::specs::Fields::is_size))]
pub(crate) fn header(seqid: u64) -> BinHeader
    ensures right { IsWritable result }
    ensures size { result.hdr_size ≡ 16384 }
{
    BinHeader {
        hdr_size: 16384,
        seqid,
        label: LABEL,
        salt: [7; 64],
        uuid: UUID,
        subsystem: SUBSYSTEM,
        hdr_offset: 0,
    }
}

/// A header of 16384 bytes.
fn sample(hdr_offset: u64) -> BinHeader {
    let mut header = header(3);
    header.hdr_offset = hdr_offset;
    header
}

/// Its primary with the text `{}`.
#[tactic(auto, unfolding(luks_bin::specs::Fields::is_size))]
fn primary(alloc: Global) -> Result<Vec<u8>, AllocError>
    ensures { IfOk result (λ copy. length copy.items ≡ 16384) }
{
    let header = header(3);
    let mut copy = zeros(alloc, header.hdr_size as usize)?;
    write_copy(&header, b"{}", &mut copy);
    Ok(copy)
}

/// Puts bytes where they have room.
fn put_if_within(copy: &mut [u8], at: usize, bytes: &[u8])
    ensures { length copy.new ≡ length copy.old }
{
    if at <= copy.len() && bytes.len() <= copy.len() - at {
        copy[at..at + bytes.len()].copy_from_slice(bytes);
    }
}

/// Puts a copy's sum, that of its bytes with zeros in the sum's own place.
fn put_sum(copy: &mut [u8])
    requires { length copy.old ≡ 16384 }
    ensures { length copy.new ≡ length copy.old }
{
    copy[448..512].fill(0);
    let sum = Sha256::digest(&*copy);
    copy[448..480].copy_from_slice(&sum);
}

/// The first bytes, so many where there are as many.
fn front(bytes: &[u8], len: usize) -> &[u8]
    ensures { len ≤ length bytes.now → length result.now ≡ len }
{
    if len <= bytes.len() {
        &bytes[..len]
    } else {
        bytes
    }
}

#[test]
fn a_written_copy_is_read_and_has_its_sum(rt: HostRuntime) -> Result<(), Fail> {
    let copy = primary(rt.alloc())?;
    same(&rt, read_copy(&copy, 0), Ok(sample(0)));
    same(&rt, read_size(front(&copy, 4096), 0, 16384), Ok(16384));
    same(&rt, json_text(&copy), b"{}".as_slice());
    same(&rt, &copy[448..480], SUM.as_slice());
    Ok(())
}

#[test]
fn a_moved_copy_is_that_of_its_place(rt: HostRuntime) -> Result<(), Fail> {
    let copy = primary(rt.alloc())?;
    let mut secondary = primary(rt.alloc())?;
    move_copy(&mut secondary, 16384, &[7; 64]);
    same(&rt, read_copy(&secondary, 16384), Ok(sample(16384)));
    same(&rt, &secondary[448..480], SUM_OF_SECONDARY.as_slice());
    same(&rt, read_copy(&secondary, 0), Err(BinFault::Magic));
    same(
        &rt,
        read_copy(&secondary, 32768),
        Err(BinFault::Place(16384)),
    );
    same(&rt, copy.len(), secondary.len());
    same(&rt, first_difference(&copy, &secondary), None);
    Ok(())
}

/// A field's place, other bytes of it, and what is wrong then.
const CHANGES: &[(usize, &[u8], BinFault)] = &[
    (0, b"SKUL\xba\xbe", BinFault::Magic),
    (6, b"\0\x01", BinFault::Version(1)),
    (8, b"\0\0\0\0\0\0\x20\0", BinFault::Size(8192)),
    (8, b"\0\0\0\0\0\0\x60\0", BinFault::Size(24576)),
    (8, b"\0\0\0\0\0\0\x80\0", BinFault::Size(16384)),
    (256, b"\0\0\0\0\0\0\x40\0", BinFault::Place(16384)),
    (72, b"sha512", BinFault::Algorithm),
    (24, &[b'A'; 48], BinFault::Text(24)),
    (168, &[b'A'; 40], BinFault::Text(168)),
    (208, &[b'A'; 48], BinFault::Text(208)),
];

/// What is wrong with a primary that has other bytes in one place, and their sum.
fn fault_of(alloc: Global, at: usize, bytes: &[u8]) -> Result<Option<BinFault>, AllocError> {
    let mut copy = primary(alloc)?;
    put_if_within(&mut copy, at, bytes);
    put_sum(&mut copy);
    match read_copy(&copy, 0) {
        Ok(_) => Ok(None),
        Err(fault) => Ok(Some(fault)),
    }
}

#[test]
fn a_changed_field_is_the_fault_with_what_stood_there(rt: HostRuntime) {
    for (at, bytes, fault) in CHANGES {
        same(&rt, fault_of(rt.alloc(), *at, bytes), Ok(Some(*fault)));
    }
}

#[test]
fn a_changed_text_is_told_by_both_sums(rt: HostRuntime) -> Result<(), Fail> {
    let mut copy = primary(rt.alloc())?;
    put_if_within(&mut copy, 4096, b"[]");
    let mut stored = [0; 64];
    stored[..32].copy_from_slice(&SUM);
    let fault = BinFault::Checksum {
        stored,
        computed: SUM_OF_A_LIST,
    };
    same(&rt, read_copy(&copy, 0), Err(fault));
    Ok(())
}

#[test]
fn too_few_bytes_are_told_before_the_magic_where_the_binary_header_is_cut(
    rt: HostRuntime,
) -> Result<(), Fail> {
    let copy = primary(rt.alloc())?;
    same(
        &rt,
        read_copy(front(&copy, 8192), 0),
        Err(BinFault::Size(8192)),
    );
    same(
        &rt,
        read_copy(front(&copy, 4095), 16384),
        Err(BinFault::Size(4095)),
    );
    same(&rt, read_copy(&[], 16384), Err(BinFault::Size(0)));
    same(
        &rt,
        read_copy(&zeros(rt.alloc(), 16384)?, 0),
        Err(BinFault::Magic),
    );
    Ok(())
}

/// The place of a changed bit, and where copies are found to differ.
const PLACES: &[(usize, Option<usize>)] = &[
    (0, None),
    (5, None),
    (6, Some(6)),
    (103, Some(103)),
    (104, None),
    (167, None),
    (168, Some(168)),
    (255, Some(255)),
    (256, None),
    (263, None),
    (264, Some(264)),
    (447, Some(447)),
    (448, None),
    (511, None),
    (512, Some(512)),
    (4096, Some(4096)),
    (16383, Some(16383)),
];

/// Where a primary and one with another bit in this place are found to differ.
fn difference(alloc: Global, at: usize) -> Result<Option<usize>, AllocError> {
    let copy = primary(alloc)?;
    let mut other = primary(alloc)?;
    if at < other.len() {
        other[at] ^= 1;
    }
    Ok(first_difference(&copy, &other))
}

#[test]
fn copies_differ_first_outside_what_is_their_own(rt: HostRuntime) {
    for (at, found) in PLACES {
        same(&rt, difference(rt.alloc(), *at), Ok(*found));
    }
}

// Written by `cryptsetup luksFormat` 2.6.1 (tests/data/headers/xts_pbkdf2_16k.header).
const REAL_LABEL: &[u8] = b"archive";

const REAL_SUM: &[u8] =
    b"\xed\x54\x69\x70\x84\x19\x6e\xef\x0d\xf1\x76\x87\xb4\x3c\xa6\xcd\x2f\x9a\x78\x45\x96\x41\x31\x00\xc2\xfc\xad\x6d\x67\x14\xda\xac";

const REAL_SALT: [u8; 64] =
    *b"\x3c\xd3\xe9\xb7\x12\x83\x9f\x48\xa3\x49\xab\x93\xe9\x62\x3b\x65\x55\xf1\x36\x86\x97\xa2\x48\xe8\xcc\x08\x74\x32\x54\xdf\x0b\xcb\x86\xa1\x1a\x62\x54\xba\xc4\xa9\xe7\x10\xed\x00\x2c\x9e\x97\xfd\xc0\x0d\x70\x15\xf7\xb5\x0c\xe8\xa7\xe4\x20\x54\x00\xb2\xa6\xce";

const REAL_UUID: &[u8] = b"3be97bf2-7ee4-4fa9-a549-eb60153f78b8";

const REAL_TEXT: &[u8] =
    b"{\"keyslots\":{\"0\":{\"type\":\"luks2\",\"key_size\":64,\"af\":{\"type\":\"luks1\",\"stripes\":4000,\"hash\":\"sha256\"},\"area\":{\"type\":\"raw\",\"offset\":\"32768\",\"size\":\"258048\",\"encryption\":\"aes-xts-plain64\",\"key_size\":64},\"kdf\":{\"type\":\"pbkdf2\",\"hash\":\"sha256\",\"iterations\":1000,\"salt\":\"bqNgXLWMRK45GIy39DFoI7aUZRlz0WRnuaV9IaTsxU0=\"}}},\"tokens\":{},\"segments\":{\"0\":{\"type\":\"crypt\",\"offset\":\"16777216\",\"size\":\"dynamic\",\"iv_tweak\":\"0\",\"encryption\":\"aes-xts-plain64\",\"sector_size\":4096}},\"digests\":{\"0\":{\"type\":\"pbkdf2\",\"keyslots\":[\"0\"],\"segments\":[\"0\"],\"hash\":\"sha256\",\"iterations\":1000,\"salt\":\"L7M4YVJryX7rSsWDe7krdqtBxhDO046n11ISPmL5810=\",\"digest\":\"CDT72Ybcwt/mrl0U2X/acx44/egVMQjVLnd4a/MMOnw=\"}},\"config\":{\"json_size\":\"12288\",\"keyslots_size\":\"16744448\"}}";

/// The text of a copy that has its binary header.
fn text_if_whole(copy: &[u8]) -> &[u8] {
    if copy.len() < 4096 {
        return b"";
    }
    json_text(copy)
}

/// The places of its fields.
const REAL_FIELDS: &[(usize, &[u8])] = &[
    (0, b"LUKS\xba\xbe\0\x02\0\0\0\0\0\0\x40\0\0\0\0\0\0\0\0\x03"),
    (24, REAL_LABEL),
    (72, b"sha256"),
    (104, &REAL_SALT),
    (168, REAL_UUID),
    (208, b"backup"),
    (448, REAL_SUM),
    (4096, REAL_TEXT),
];

/// A copy with these fields.
fn real_copy(alloc: Global) -> Result<Vec<u8>, AllocError> {
    let mut copy = zeros(alloc, 16384)?;
    for (at, bytes) in REAL_FIELDS {
        put_if_within(&mut copy, *at, bytes);
    }
    Ok(copy)
}

/// The number and the salt of a primary that can be read.
fn number_and_salt(copy: &[u8]) -> Option<(u64, [u8; 64])> {
    match read_copy(copy, 0) {
        Ok(header) => {
            let salt = header.salt;
            Some((header.seqid, salt))
        }
        Err(_) => None,
    }
}

#[test]
fn a_header_by_cryptsetup_is_read(rt: HostRuntime) -> Result<(), Fail> {
    let copy = real_copy(rt.alloc())?;
    same(&rt, number_and_salt(&copy), Some((3, REAL_SALT)));
    same(&rt, text_if_whole(&copy), REAL_TEXT);
    Ok(())
}

/// Whether a magic hides at this place in so many zeros.
fn hides(alloc: Global, length: usize, at: usize, magic: &[u8]) -> Result<bool, AllocError> {
    let mut copy = zeros(alloc, length)?;
    put_if_within(&mut copy, at, magic);
    Ok(hides_copy(&copy))
}

#[test]
fn a_magic_is_found_at_the_places_of_a_secondary_alone(rt: HostRuntime) {
    let alloc = rt.alloc();
    let magic = b"SKUL\xba\xbe";
    same(&rt, hides(alloc, 32774, 16384, magic), Ok(true));
    same(&rt, hides(alloc, 32774, 32768, magic), Ok(true));
    same(&rt, hides(alloc, 32774, 20480, magic), Ok(false));
    same(&rt, hides(alloc, 32774, 0, magic), Ok(false));
    same(&rt, hides(alloc, 32774, 16384, b"LUKS\xba\xbe"), Ok(false));
    same(&rt, hides(alloc, 32774, 16384, b"SKUL\xba\xbf"), Ok(false));
    same(&rt, hides(alloc, 16389, 0, b""), Ok(false));
}
