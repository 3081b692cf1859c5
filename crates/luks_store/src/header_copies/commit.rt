// A commit of a header: both copies, and how far their writing is.

ghost use Rattle.std.specs.Prelude.{◌≡◌, ◌≢◌, ◌↔◌, ◌+◌, ◌≤◌, true, false, length, Ok, IfOk};
ghost use Rattle.std.specs.Prelude.{IsTrue, MatchResult};
ghost use Rattle.std.specs.Str.{is_utf8};
ghost use Rattle.crash_laws.specs.HeaderAreas.Headers.{IsHeader};
ghost use Rattle.luks_bin.specs.Copies.{copy_of, holds_nul, text_of};
ghost use Rattle.luks_bin.specs.Hidden.{hides_copy};
ghost use Rattle.luks_bin.specs.Shares.{Agree};
ghost use Rattle.luks_bin.specs.Writing.{common, written, FitsArea, IsWritable};
ghost use Rattle.luks_store.specs.Copying.Meanings.{header_of, header_reader, meaning_of, seqid_in};
ghost use Rattle.luks_store.specs.Copying.Meanings.{size_in};
ghost use Rattle.luks_store.specs.Copying.Steps.{CopyCall, FitDisk, HasNext, IsRefusal, copy_header};
ghost use Rattle.luks_store.specs.Copying.Steps.{done_of, is_last, next_of, stage_after};
ghost use Rattle.luks_store.specs.declared.header_copies.commit.Stage.TheVariants.{Begun, Ended};

use base_terms::{Bytes, Failed, zeros};
use luks_bin::{BinHeader, copies_are_spelt, write_copy};
use sector_disk::Disk;
use std::alloc::{AllocError, Global};

/// How many of a commit's four device calls are done.
#[derive(Clone, Copy, PartialEq, Eq)]
pub enum Stage {
    /// None.
    Begun,
    /// The primary is written.
    FirstWritten,
    /// The primary is certain to be kept.
    FirstKept,
    /// The secondary is written.
    SecondWritten,
    /// All, or one has failed.
    Ended,
}

/// Why a commit isn't made.
#[derive(Clone, Copy, Debug, PartialEq, Eq)]
pub enum CommitError {
    /// There is no memory.
    Memory,
    /// The header's number is the last one.
    SeqEnd,
    /// The text has so many bytes, and its area room for so many.
    JsonFull {
        /// The text's bytes.
        len: u64,
        /// The most that it may have: the area's less one.
        limit: u64,
    },
}

/// A commit of a header: the bytes of both copies of the next one, and how far their writing is. It
/// is four device calls: write the primary, sync, write the secondary, sync.
pub struct Commit {
    first: Bytes,
    second: Bytes,
    size: u64,
    stage: Stage,
}

// By hand, so that a value that is dropped in place is one call to the prover.
impl Drop for Commit {
    fn drop(self) {
        let Commit {
            first,
            second,
            size: _,
            stage: _,
        } = self;
        drop(first);
        drop(second);
    }
}

/// The bytes of a header's copy with this text.
fn copy_with(alloc: Global, header: &BinHeader, json: &[u8]) -> Result<Bytes, AllocError>
    requires right { IsWritable header.now }
    requires text { FitsArea header.now.hdr_size json.now }
    ensures is { IfOk result (λ copy. copy ≡ written header.now json.now) }
    ensures size { IfOk result (λ copy. length copy ≡ header.now.hdr_size) }
    ensures back { IfOk result (λ copy. copy_of header.now.hdr_offset copy ≡ Ok header.now) }
    ensures text { IfOk result (λ copy. text_of copy ≡ json.now) }
    ensures shared { IfOk result (λ copy. Agree copy (common header.now json.now)) }
    ensures hidden { IfOk result (λ copy. is_utf8 json.now ≡ true → hides_copy copy ≡ false) }
{
    let mut copy = zeros(alloc, header.hdr_size as usize)?;
    write_copy(header, json, &mut copy);
    Ok(Bytes::new(copy))
}

impl Commit {
    ghost use Rattle.luks_store.specs.Copying.Held.{primary_of, secondary_of};

    /// A commit of this text under the next number, with the loaded header's other fields and the
    /// salts of the primary and the secondary. The text has no NUL; behind it, and in the padding,
    /// stand zeros, so that the primary hides no copy where the text is UTF-8. There is none,
    /// `SeqEnd`, exactly where the number is `2^64 - 1`, else none, `JsonFull`, exactly where the
    /// text is longer than its area less one byte. The first commit of a new header is made of one
    /// with the number 0, which stands on no disk, and has the number 1.
    #[tactic(auto, using(crate::proofs::Copying::MeaningLemmas::least_size))]
    pub fn new(
        alloc: Global,
        header: &BinHeader,
        first_salt: &[u8; 64],
        second_salt: &[u8; 64],
        json: &[u8],
    ) -> Result<Commit, CommitError>
        requires right { IsWritable header.now }
        requires plain { holds_nul json.now ≢ true }
        ensures refused { MatchResult result (λ _. HasNext header.now json.now)
            (λ error. IsRefusal header.now json.now error) }
        ensures begun { IfOk result (λ commit. commit.stage ≡ Begun) }
        ensures size { IfOk result (λ commit. commit.size ≡ header.now.hdr_size) }
        ensures valid { IfOk result
            (λ commit. IsHeader header_reader (header_of commit.first commit.second)) }
        ensures first_bytes { IfOk result (λ commit. commit.first ≡ written
            (copy_header header.now (header.now.seqid + 1) first_salt.now 0) json.now) }
        ensures second_bytes { IfOk result (λ commit. commit.second ≡ written
            (copy_header header.now (header.now.seqid + 1) second_salt.now header.now.hdr_size)
            json.now) }
        ensures primary { IfOk result (λ commit. copy_of 0 commit.first ≡ Ok (record header.now {
          seqid = header.now.seqid + 1;
          salt = first_salt.now;
          hdr_offset = 0;
        })) }
        ensures secondary { IfOk result (λ commit. copy_of header.now.hdr_size commit.second
            ≡ Ok (record header.now {
              seqid = header.now.seqid + 1;
              salt = second_salt.now;
              hdr_offset = header.now.hdr_size;
            })) }
        ensures follows { IfOk result (λ commit.
            seqid_in (meaning_of commit.first) ≡ header.now.seqid + 1) }
        ensures same_size { IfOk result (λ commit.
            size_in (meaning_of commit.first) ≡ header.now.hdr_size) }
        ensures first_size { IfOk result (λ commit. length commit.first ≡ header.now.hdr_size) }
        ensures second_size { IfOk result (λ commit. length commit.second ≡ header.now.hdr_size) }
        ensures text { IfOk result (λ commit. text_of commit.first ≡ json.now) }
        ensures hidden { IfOk result
            (λ commit. is_utf8 json.now ≡ true → hides_copy commit.first ≡ false) }
    {
        if header.seqid == u64::MAX {
            return Err(CommitError::SeqEnd);
        }
        let limit = header.hdr_size - 4097;
        let len = json.len() as u64;
        if limit < len {
            return Err(CommitError::JsonFull { len, limit });
        }
        match both_copies(
            alloc,
            header,
            header.seqid + 1,
            first_salt,
            second_salt,
            json,
        ) {
            Ok((first, second)) => Ok(Commit {
                first,
                second,
                size: header.hdr_size,
                stage: Stage::Begun,
            }),
            Err(AllocError) => Err(CommitError::Memory),
        }
    }

    /// The bytes of the primary.
    pub fn first(&self) -> &[u8]
        ensures { result.now ≡ primary_of self.now }
    {
        self.first.as_slice()
    }

    /// The bytes of the secondary.
    pub fn second(&self) -> &[u8]
        ensures { result.now ≡ secondary_of self.now }
    {
        self.second.as_slice()
    }

    /// How many of its device calls are done.
    pub fn stage(&self) -> Stage
        ensures { result ≡ self.now.stage }
    {
        self.stage
    }

    /// Whether no device call may follow: all are made, or one has failed.
    pub fn is_over(&self) -> bool
        ensures { IsTrue result ↔ (self.now.stage ≡ Ended) }
    {
        self.stage == Stage::Ended
    }

    /// The next device call. It answers true exactly at the last one; after a call that failed none
    /// may follow.
    pub fn step<D: Disk>(&mut self, disk: &mut D) -> Result<bool, Failed>
        requires under_way { self.old.stage ≢ Ended }
        requires fits { FitDisk self.old.first self.old.second self.old.size (D.device disk.old) }
        ensures call { CopyCall self.old.stage self.old.first self.old.second self.old.size
            (D.device disk.old) (D.device disk.new) (done_of result) }
        ensures disk_size { (D.device disk.new).size ≡ (D.device disk.old).size }
        ensures disk_atoms { (D.device disk.new).atoms ≡ (D.device disk.old).atoms }
        ensures last { IfOk result (λ last. last ≡ is_last self.old.stage) }
        ensures next { self.new ≡ record self.old { stage = stage_after self.old.stage result } }
    {
        let stage = self.stage;
        match self.call(disk) {
            Ok(()) => {
                self.stage = stage.next();
                Ok(stage.is_last())
            }
            Err(Failed) => {
                self.stage = Stage::Ended;
                Err(Failed)
            }
        }
    }

    /// The device call that comes next.
    fn call<D: Disk>(&self, disk: &mut D) -> Result<(), Failed>
        requires under_way { self.now.stage ≢ Ended }
        requires fits { FitDisk self.now.first self.now.second self.now.size (D.device disk.old) }
        ensures call { CopyCall self.now.stage self.now.first self.now.second self.now.size
            (D.device disk.old) (D.device disk.new) result }
        ensures disk_size { (D.device disk.new).size ≡ (D.device disk.old).size }
        ensures disk_atoms { (D.device disk.new).atoms ≡ (D.device disk.old).atoms }
    {
        match self.stage {
            Stage::Begun => disk.write(0, self.first.as_slice()),
            Stage::FirstWritten => disk.sync(),
            Stage::FirstKept => {
                let atom = disk.atom() as u64;
                disk.write(self.size / atom, self.second.as_slice())
            }
            Stage::SecondWritten => disk.sync(),
            Stage::Ended => unreachable!(),
        }
    }
}

impl Stage {
    /// The stage after a call that is done.
    fn next(self) -> Stage
        ensures { result ≡ next_of self }
    {
        match self {
            Stage::Begun => Stage::FirstWritten,
            Stage::FirstWritten => Stage::FirstKept,
            Stage::FirstKept => Stage::SecondWritten,
            Stage::SecondWritten => Stage::Ended,
            Stage::Ended => Stage::Ended,
        }
    }

    /// Whether one call is left.
    fn is_last(self) -> bool
        ensures { result ≡ is_last self }
    {
        match self {
            Stage::SecondWritten => true,
            _ => false,
        }
    }
}

/// The primary and the secondary of a header of this number with this text.
fn both_copies(
    alloc: Global,
    header: &BinHeader,
    seqid: u64,
    first_salt: &[u8; 64],
    second_salt: &[u8; 64],
    json: &[u8],
) -> Result<(Bytes, Bytes), AllocError>
    requires right { IsWritable header.now }
    requires text { FitsArea header.now.hdr_size json.now }
    ensures valid { IfOk result (λ copies. IsHeader header_reader (header_of copies.0 copies.1)) }
    ensures first_bytes { IfOk result (λ copies. copies.0 ≡ written
        (copy_header header.now seqid first_salt.now 0) json.now) }
    ensures second_bytes { IfOk result (λ copies. copies.1 ≡ written
        (copy_header header.now seqid second_salt.now header.now.hdr_size) json.now) }
    ensures primary { IfOk result (λ copies. copy_of 0 copies.0 ≡ Ok (record header.now {
      seqid = seqid;
      salt = first_salt.now;
      hdr_offset = 0;
    })) }
    ensures secondary { IfOk result (λ copies. copy_of header.now.hdr_size copies.1
        ≡ Ok (record header.now {
          seqid = seqid;
          salt = second_salt.now;
          hdr_offset = header.now.hdr_size;
        })) }
    ensures number { IfOk result (λ copies. seqid_in (meaning_of copies.0) ≡ seqid) }
    ensures size { IfOk result (λ copies. size_in (meaning_of copies.0) ≡ header.now.hdr_size) }
    ensures first_size { IfOk result (λ copies. length copies.0 ≡ header.now.hdr_size) }
    ensures second_size { IfOk result (λ copies. length copies.1 ≡ header.now.hdr_size) }
    ensures text { IfOk result (λ copies. text_of copies.0 ≡ json.now) }
    ensures hidden { IfOk result
        (λ copies. is_utf8 json.now ≡ true → hides_copy copies.0 ≡ false) }
{
    copies_are_spelt();
    let primary = BinHeader {
        hdr_size: header.hdr_size,
        seqid,
        label: header.label,
        salt: *first_salt,
        uuid: header.uuid,
        subsystem: header.subsystem,
        hdr_offset: 0,
    };
    let secondary = BinHeader {
        hdr_size: header.hdr_size,
        seqid,
        label: header.label,
        salt: *second_salt,
        uuid: header.uuid,
        subsystem: header.subsystem,
        hdr_offset: header.hdr_size,
    };
    let first = copy_with(alloc, &primary, json)?;
    let second = copy_with(alloc, &secondary, json)?;
    Ok((first, second))
}
