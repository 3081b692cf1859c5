ghost use Rattle.std.specs.Prelude.{◌≡◌, ◌⊎◌, ◌≤◌, ◌<◌, ◌+◌, ◌^◌, ℕ, length, replicate, true};
ghost use Rattle.std.specs.Prelude.{false, Ok};
ghost use Rattle.std.specs.Str.{is_utf8};
ghost use Rattle.luks_bin.specs.Copies.{copy_of, text_of, sum_of, sum_field, IsCopy};
ghost use Rattle.luks_bin.specs.Hidden.{hides_copy};
ghost use Rattle.luks_bin.specs.Shares.{Agree};
ghost use Rattle.luks_bin.specs.Writing.{paste_all, common_pieces, own_pieces, common, summed};
ghost use Rattle.luks_bin.specs.Writing.{moved, written, IsWritable, FitsArea};
ghost use Rattle.luks_bin.specs.declared.header.BinHeader.{BinHeader};

use crate::fields::{magic, padded, put, sum};
use crate::header::BinHeader;

/// Puts what both copies of a header have.
fn put_common(header: &BinHeader, json: &[u8], buf: &mut [u8])
    requires room { 4096 + length json.now ≤ length buf.old }
    ensures { buf.new ≡ paste_all (common_pieces header.now json.now) buf.old }
{
    put(buf, 6, &2u16.to_be_bytes());
    put(buf, 8, &header.hdr_size.to_be_bytes());
    put(buf, 16, &header.seqid.to_be_bytes());
    put(buf, 24, &header.label);
    put(buf, 72, b"sha256\0");
    put(buf, 168, &header.uuid);
    put(buf, 208, &header.subsystem);
    put(buf, 4096, json);
}

/// Puts what one copy has for itself, its sum aside.
fn put_own(place: u64, salt: &[u8; 64], buf: &mut [u8])
    requires { 4096 ≤ length buf.old }
    ensures { buf.new ≡ paste_all (own_pieces place salt.now) buf.old }
{
    put(buf, 0, &magic(place));
    put(buf, 104, salt);
    put(buf, 256, &place.to_be_bytes());
}

/// Puts a copy's sum.
#[tactic(auto, unfolding(crate::specs::Writing::summed))]
pub(crate) fn put_sum(copy: &mut [u8])
    requires { 4096 ≤ length copy.old }
    ensures { copy.new ≡ summed copy.old }
{
    let sum = sum(copy);
    put(copy, 448, &padded(&sum));
}

/// Makes of a whole copy the one that stands at another place, with the salt given: magic, salt,
/// hdr_offset and checksum are put, all else stays. The place is the byte of the disk, 0 for the
/// primary. It hides a copy exactly where the copy did that was moved.
#[tactic(auto, unfolding(crate::specs::Writing::moved))]
pub fn move_copy(copy: &mut [u8], place: u64, salt: &[u8; 64])
    requires { 4096 ≤ length copy.old }
    ensures bytes { copy.new ≡ moved place salt.now copy.old }
    ensures back { (from : ℕ) (h : BinHeader) → copy_of from copy.old ≡ Ok h
        → length copy.old ≡ h.hdr_size
        → (place ≡ 0) ⊎ (place ≡ h.hdr_size)
        → copy_of place copy.new ≡ Ok (record h { hdr_offset = place; salt = salt.now }) }
    ensures text { text_of copy.new ≡ text_of copy.old }
    ensures shared { Agree copy.new copy.old }
    ensures hidden { hides_copy copy.new ≡ hides_copy copy.old }
{
    put_own(place, salt, copy);
    put_sum(copy);
}

/// A law, with nothing to run: a header's number has 64 bits.
fn seqid_fits(header: &BinHeader)
    ensures { header.now.seqid < 2 ^ 64 }
{
    let _seqid = header.seqid;
}

/// Writes the copy of a header with this JSON text into a buffer of its size: zeros stand behind
/// the text and in the padding. A text that is UTF-8 hides no copy: no magic is part of one.
#[tactic(auto, unfolding(crate::specs::Writing::written, crate::specs::Writing::common))]
pub fn write_copy(header: &BinHeader, json: &[u8], buf: &mut [u8])
    requires right { IsWritable header.now }
    requires text { FitsArea header.now.hdr_size json.now }
    requires size { length buf.old ≡ header.now.hdr_size }
    ensures bytes { buf.new ≡ written header.now json.now }
    ensures back { copy_of header.now.hdr_offset buf.new ≡ Ok header.now }
    ensures text { text_of buf.new ≡ json.now }
    ensures shared { Agree buf.new (common header.now json.now) }
    ensures hidden { is_utf8 json.now ≡ true → hides_copy buf.new ≡ false }
{
    seqid_fits(header);
    buf.fill(0);
    put_common(header, json, buf);
    move_copy(buf, header.hdr_offset, &header.salt);
}
