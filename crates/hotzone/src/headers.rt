// The headers of a zone, made before its first write.

ghost use Rattle.std.specs.Prelude.{◌≡◌, ◌<◌, ◌+◌, None, Some, IfErr, IfOk};
ghost use Rattle.hotzone.specs.Headings.{AreMade, Follows, IsUnmade, Opens, Turns};
ghost use Rattle.hotzone.specs.Headings.{IsOpening, IsToCome, IsTurning, MayOpenFrom, MayTurn};
ghost use Rattle.luks_store.specs.Copying.Steps.{last_seqid};
ghost use Rattle.luks_rules.specs.Rules.{first_fault};
ghost use Rattle.reenc_meta.specs.Placements.{all_atoms};
ghost use Rattle.sector_disk.specs.Geometry.{IsDisk};

use crate::worker::{Headers, NextHeader, ZoneFault};
use luks_meta::Meta;
use luks_store::{Commit, CommitError, Loaded};
use reenc_meta::Reenc;
use std::alloc::{AllocError, Global};

impl From<AllocError> for ZoneFault {
    ghost use Rattle.std.specs.Prelude.{◌≡◌};
    ghost use Rattle.hotzone.specs.declared.worker.ZoneFault.TheVariants.{Memory};

    ghost from_gives = { λ _ e. e ≡ Memory };

    fn from(_: AllocError) -> ZoneFault {
        ZoneFault::Memory
    }
}

impl From<CommitError> for ZoneFault {
    ghost use Rattle.std.specs.Prelude.{◌≡◌};
    ghost use Rattle.hotzone.specs.Headings.{fault_of};

    ghost from_gives = { λ error e. e ≡ fault_of error };

    fn from(error: CommitError) -> ZoneFault {
        match error {
            CommitError::Memory => ZoneFault::Memory,
            CommitError::SeqEnd => ZoneFault::SeqEnd { left: 0, wanted: 1 },
            CommitError::JsonFull { len, limit } => ZoneFault::JsonFull { length: len, limit },
        }
    }
}

/// How many numbers a header has left.
pub(crate) fn numbers_left(before: &Loaded) -> u64
    ensures { before.now.copies.used.header.seqid + result ≡ last_seqid }
{
    u64::MAX - before.header().seqid
}

/// The header with these metadata that follows one that was loaded.
fn follow(alloc: Global, before: &Loaded, meta: &Meta) -> Result<NextHeader, ZoneFault>
    requires rules { first_fault meta.now before.now.valid.sizes ≡ None }
    requires size { meta.now.config.json_size ≡ before.now.valid.meta.config.json_size }
    ensures follows { IfOk result (Follows before.now) }
    ensures meta { IfOk result (λ next. next.loaded.valid.meta ≡ meta.now) }
    ensures unmade { IfErr result (IsUnmade before.now 1 (λ text. text ≡ meta.now)) }
{
    before.is_stored();
    // The header's number is at most 2^64 - 1, which is told by what is left.
    let _left = numbers_left(before);
    let commit = Commit::new(alloc, before, meta)?;
    commit.is_prepared();
    let loaded = commit.next(alloc)?;
    loaded.is_stored();
    Ok(NextHeader { commit, loaded })
}

/// The header with a zone open of so many blocks.
pub fn open_header(alloc: Global, before: &Loaded, blocks: u64) -> Result<NextHeader, ZoneFault>
    requires disk { IsDisk before.now.valid.sizes.atom (all_atoms before.now.valid.sizes) }
    requires may { MayOpenFrom before.now blocks }
    ensures opens { IfOk result (Opens before.now blocks) }
    ensures follows { IfOk result (Follows before.now) }
    ensures unmade { IfErr result (IsUnmade before.now 1 (IsOpening before.now blocks)) }
{
    match Reenc::of(before.valid()) {
        Some(reenc) => {
            let meta = reenc.open_zone(alloc, blocks)?;
            follow(alloc, before, &meta)
        }
        None => unreachable!(),
    }
}

/// The header with the boundary moved over the open zone.
pub fn turn_header(alloc: Global, middle: &Loaded, blocks: u64) -> Result<NextHeader, ZoneFault>
    requires disk { IsDisk middle.now.valid.sizes.atom (all_atoms middle.now.valid.sizes) }
    requires may { MayTurn middle.now blocks }
    ensures turns { IfOk result (Turns middle.now blocks) }
    ensures follows { IfOk result (Follows middle.now) }
    ensures unmade { IfErr result (IsUnmade middle.now 1 (IsTurning middle.now blocks)) }
{
    match Reenc::of(middle.valid()) {
        Some(reenc) => {
            let meta = reenc.move_boundary(alloc, blocks)?;
            follow(alloc, middle, &meta)
        }
        None => unreachable!(),
    }
}

/// The commits of a zone.
const COMMITS: u64 = 2;

/// The headers of a zone of so many blocks behind one that was loaded.
pub fn make_headers(alloc: Global, before: &Loaded, blocks: u64) -> Result<Headers, ZoneFault>
    requires disk { IsDisk before.now.valid.sizes.atom (all_atoms before.now.valid.sizes) }
    requires may { MayOpenFrom before.now blocks }
    ensures made { IfOk result (AreMade before.now blocks) }
    ensures unmade { IfErr result (IsUnmade before.now 2 (IsToCome before.now blocks)) }
{
    let left = numbers_left(before);
    if left < COMMITS {
        return Err(ZoneFault::SeqEnd {
            left,
            wanted: COMMITS,
        });
    }
    let NextHeader { commit, loaded } = open_header(alloc, before, blocks)?;
    let moved = turn_header(alloc, &loaded, blocks)?;
    Ok(Headers {
        opened: commit,
        moved,
    })
}
