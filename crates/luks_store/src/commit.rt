// A commit of a header's next metadata.

ghost use Rattle.std.specs.Prelude.{◌≡◌, ◌≢◌, ◌+◌, ◌++◌, ◌<◌, ◌↔◌, ℕ, List, None, Ok, true, IfOk};
ghost use Rattle.std.specs.Prelude.{IsTrue, MatchResult};
ghost use Rattle.crash_laws.specs.HeaderAreas.Headers.{IsHeader};
ghost use Rattle.sector_disk.specs.JoinedDisks.Counts.{HasSizes};
ghost use Rattle.luks_bin.specs.Copies.{holds_nul, text_of};
ghost use Rattle.luks_bin.specs.Fields.{is_size};
ghost use Rattle.luks_bin.specs.Writing.{IsWritable};
ghost use Rattle.luks_store.specs.Copying.Meanings.{header_of, header_reader, meaning_of, seqid_in};
ghost use Rattle.luks_store.specs.Copying.Meanings.{size_in};
ghost use Rattle.luks_store.specs.Copying.Steps.{CopyCall, FitDisk, HasNext, done_of, is_last};
ghost use Rattle.luks_store.specs.Copying.Steps.{stage_after};
ghost use Rattle.luks_store.specs.Copying.Held.{primary_of, secondary_of, size_in_bytes, stage_in};
ghost use Rattle.luks_store.specs.declared.header_copies.commit.Stage.TheVariants.{Begun, Ended};
ghost use Rattle.luks_json.specs.Metas.{meta_from};
ghost use Rattle.luks_rules.specs.Rules.{first_fault};
ghost use Rattle.luks_store.specs.Commits.{committed, header_before, text_for};
ghost use Rattle.luks_store.specs.Commits.{HoldsText, IsNext, IsRefused};
ghost use Rattle.luks_store.specs.Loads.{stored_in};

use crate::copies::{Copies, CopyPlace, CopyState, HeaderCopy};
use crate::fault::memory_of;
use crate::header_copies::{CommitError, Stage};
use crate::loaded::{Loaded, judge};
use base_terms::{Bytes, Failed, Sizes};
use luks_bin::{BinHeader, copies_are_spelt};
use luks_json::JsonText;
use luks_meta::Meta;
use sector_disk::Disk;
use std::alloc::{AllocError, Global};
use std::marker::Model;

/// Both copies of the next header, how far their writing is, and what they hold.
#[derive(Drop)]
pub struct Prepared {
    pub copies: crate::header_copies::Commit,
    /// The binary header of the primary.
    pub header: BinHeader,
    pub second_salt: [u8; 64],
    pub sizes: Sizes,
}

/// A commit of a header: both copies, which hold metadata that break no rule, and how far their
/// writing is. It is four device calls: write the primary, sync, write the secondary, sync.
pub struct Commit {
    prepared: Prepared,
}

// By hand, so that a value that is dropped in place is one call to the prover.
impl Drop for Commit {
    fn drop(self) {
        let Commit { prepared } = self;
        drop(prepared);
    }
}

impl Model for Commit {
    ghost use Rattle.luks_store.specs.declared.commit.Prepared.{Prepared};

    ghost Value = { Prepared };

    ghost use Rattle.luks_store.specs.contracts.commit.Prepared as prepared_type;

    ghost coded = { prepared_type.the_row.coded };

    ghost use Rattle.luks_store.specs.Commits.{IsPrepared};

    ghost view = { λ commit. commit.prepared };

    ghost invariant = { λ commit. IsPrepared commit.prepared };
}

/// Both copies of these metadata under the number that follows a header's.
fn prepare(
    alloc: Global,
    header: &BinHeader,
    first_salt: &[u8; 64],
    second_salt: &[u8; 64],
    meta: &Meta,
    sizes: Sizes,
) -> Result<Commit, CommitError>
    requires right { IsWritable header.now }
    requires atom { 0 < sizes.atom }
    requires rules { first_fault meta.now sizes ≡ None }
    requires size { meta.now.config.json_size + 4096 ≡ header.now.hdr_size }
    ensures refused { MatchResult result (λ _. HasNext header.now (text_for meta.now))
        (λ error. IsRefused header.now (text_for meta.now) error) }
    ensures begun { IfOk result (λ commit. stage_in commit.copies ≡ Begun) }
    ensures header { IfOk result (λ commit. commit.header ≡ record header.now {
      seqid = header.now.seqid + 1;
      salt = first_salt.now;
      hdr_offset = 0;
    }) }
    ensures second_salt { IfOk result (λ commit. commit.second_salt ≡ second_salt.now) }
    ensures sizes { IfOk result (λ commit. commit.sizes ≡ sizes) }
    ensures bytes { IfOk result (HoldsText (text_for meta.now)) }
    ensures meta { IfOk result (λ commit.
        meta_from header.now.hdr_size (text_of (primary_of commit.copies)) ≡ Ok meta.now) }
    ensures whole { IfOk result (λ commit.
        IsHeader header_reader
        (header_of (primary_of commit.copies) (secondary_of commit.copies))) }
    ensures number { IfOk result (λ commit.
        seqid_in (meaning_of (primary_of commit.copies)) ≡ header.now.seqid + 1) }
    ensures same_size { IfOk result (λ commit.
        size_in (meaning_of (primary_of commit.copies)) ≡ header.now.hdr_size) }
{
    copies_are_spelt();
    let _parts = meta.parts();
    let text = match meta.write(alloc) {
        Ok(text) => text,
        Err(AllocError) => return Err(CommitError::Memory),
    };
    match crate::header_copies::Commit::new(
        alloc,
        header,
        first_salt,
        second_salt,
        text.as_slice(),
    ) {
        Ok(copies) => Ok(Commit {
            prepared: Prepared {
                copies,
                header: BinHeader {
                    hdr_size: header.hdr_size,
                    seqid: header.seqid + 1,
                    label: header.label,
                    salt: *first_salt,
                    uuid: header.uuid,
                    subsystem: header.subsystem,
                    hdr_offset: 0,
                },
                second_salt: *second_salt,
                sizes,
            },
        }),
        Err(error) => Err(error),
    }
}

impl Commit {
    ghost use Rattle.luks_store.specs.Commits.{CopiesFit, IsNextStored, IsPrepared};
    ghost use Rattle.luks_store.specs.declared.loaded.Stored.{Stored as stored_type};

    /// A commit of these metadata, which break no rule for the sizes of the header's disk, after a
    /// header that was loaded: under the next number, with its other fields, and each place with
    /// its own salt. There is none, `SeqEnd`, exactly where the number is `2^64 - 1`, else none,
    /// `JsonFull`, exactly where the text is longer than its area less one byte. Both copies on the
    /// disk must hold the loaded header at the first step; a [`Loaded::repair`] sees to that.
    pub fn new(alloc: Global, loaded: &Loaded, meta: &Meta) -> Result<Commit, CommitError>
        requires rules { first_fault meta.now loaded.now.valid.sizes ≡ None }
        requires size { meta.now.config.json_size + 4096 ≡ loaded.now.copies.used.header.hdr_size }
        ensures refused { MatchResult result
            (λ _. HasNext loaded.now.copies.used.header (text_for meta.now))
            (λ error. IsRefused loaded.now.copies.used.header (text_for meta.now) error) }
        ensures begun { IfOk result (λ commit. stage_in commit.copies ≡ Begun) }
        ensures next { IfOk result (λ commit. IsNext loaded.now meta.now commit) }
    {
        loaded.is_stored();
        prepare(
            alloc,
            &loaded.header(),
            &loaded.primary().salt,
            &loaded.secondary().salt,
            meta,
            loaded.valid().sizes(),
        )
    }

    /// A commit of the first header of a volume, with the number 1, this identifier, no label and
    /// these salts. The size of its copies is that of which the metadata speak. There is none,
    /// `JsonFull`, exactly where the text is longer than its area less one byte.
    pub fn first(
        alloc: Global,
        uuid: [u8; 40],
        first_salt: &[u8; 64],
        second_salt: &[u8; 64],
        meta: &Meta,
        sizes: Sizes,
    ) -> Result<Commit, CommitError>
        requires uuid { holds_nul uuid ≡ true }
        requires atom { 0 < sizes.atom }
        requires rules { first_fault meta.now sizes ≡ None }
        requires size { is_size (meta.now.config.json_size + 4096) ≡ true }
        ensures refused { MatchResult result
            (λ _. HasNext (header_before uuid first_salt.now meta.now) (text_for meta.now))
            (λ error. IsRefused (header_before uuid first_salt.now meta.now) (text_for meta.now)
            error) }
        ensures begun { IfOk result (λ commit. stage_in commit.copies ≡ Begun) }
        ensures header { IfOk result (λ commit.
            commit.header ≡ record (header_before uuid first_salt.now meta.now) { seqid = 1 }) }
        ensures second_salt { IfOk result (λ commit. commit.second_salt ≡ second_salt.now) }
        ensures sizes { IfOk result (λ commit. commit.sizes ≡ sizes) }
        ensures bytes { IfOk result (HoldsText (text_for meta.now)) }
        ensures meta { IfOk result (λ commit.
            meta_from commit.header.hdr_size (text_of (primary_of commit.copies)) ≡ Ok meta.now) }
        ensures whole { IfOk result (λ commit.
            IsHeader header_reader
            (header_of (primary_of commit.copies) (secondary_of commit.copies))) }
    {
        let before = BinHeader {
            hdr_size: meta.parts().config.json_size + 4096,
            seqid: 0,
            label: [0; 48],
            salt: *first_salt,
            uuid,
            subsystem: [0; 48],
            hdr_offset: 0,
        };
        prepare(alloc, &before, first_salt, second_salt, meta, sizes)
    }

    /// What both copies are: a law, with nothing to run. They lie on each disk of the sizes for
    /// which the metadata were judged, and a header that is stored follows from them: the one that
    /// is loaded from each disk in front of which both stand, whatever stands behind them. No magic
    /// of a secondary stands within the primary, where one could be found: a text is UTF-8, and
    /// zeros stand behind it.
    pub fn is_prepared(&self)
        ensures prepared { IsPrepared self.now }
        ensures fit { CopiesFit self.now }
        ensures stored { (next : stored_type) × IsNextStored self.now next }
    {
        copies_are_spelt();
        let _prepared = &self.prepared;
    }

    /// How many of its device calls are done.
    pub fn stage(&self) -> Stage
        ensures { result ≡ stage_in self.now.copies }
    {
        self.prepared.copies.stage()
    }

    /// Whether no device call may follow: all are made, or one has failed.
    pub fn is_over(&self) -> bool
        ensures { IsTrue result ↔ (stage_in self.now.copies ≡ Ended) }
    {
        self.prepared.copies.is_over()
    }

    /// The next device call, on a disk of the sizes for which the metadata were judged. It answers
    /// true exactly at the last one; after a call that failed none may follow.
    pub fn step<D: Disk>(&mut self, disk: &mut D) -> Result<bool, Failed>
        requires under_way { stage_in self.old.copies ≢ Ended }
        requires sizes { HasSizes self.old.sizes (D.device disk.old) }
        ensures call { CopyCall (stage_in self.old.copies) (primary_of self.old.copies)
            (secondary_of self.old.copies) self.old.header.hdr_size
            (D.device disk.old) (D.device disk.new) (done_of result) }
        ensures sizes { HasSizes self.new.sizes (D.device disk.new) }
        ensures last { IfOk result (λ last. last ≡ is_last (stage_in self.old.copies)) }
        ensures stage { stage_in self.new.copies ≡ stage_after (stage_in self.old.copies) result }
        ensures first { primary_of self.new.copies ≡ primary_of self.old.copies }
        ensures second { secondary_of self.new.copies ≡ secondary_of self.old.copies }
        ensures same { committed self.new ≡ committed self.old }
    {
        self.prepared.copies.step(disk)
    }

    /// The header that is loaded from a disk once both copies stand there, whatever stands behind
    /// them. It can be asked for at any time.
    pub fn next(&self, alloc: Global) -> Result<Loaded, AllocError>
        ensures copies { IfOk result (λ next. next.copies ≡ committed self.now) }
        ensures loads { IfOk result (λ next. (rest : List ℕ) → stored_in self.now.sizes
            (primary_of self.now.copies ++ (secondary_of self.now.copies ++ rest)) ≡ Ok next) }
    {
        let prepared = &self.prepared;
        copies_are_spelt();
        let bytes = Vec::from_slice(alloc, prepared.copies.first())?;
        let copies = Copies {
            used: HeaderCopy {
                header: prepared.header,
                bytes: Bytes::new(bytes),
            },
            primary: CopyPlace {
                state: CopyState::Good,
                salt: prepared.header.salt,
            },
            secondary: CopyPlace {
                state: CopyState::Good,
                salt: prepared.second_salt,
            },
        };
        match judge(alloc, copies, prepared.sizes) {
            Ok(loaded) => Ok(loaded),
            Err(fault) => Err(memory_of(fault)),
        }
    }
}
