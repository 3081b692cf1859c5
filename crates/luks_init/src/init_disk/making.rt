// All that is written of a volume as its conversion begins.

ghost use Rattle.std.specs.Prelude.{◌≡◌, ◌-◌, ◌≤◌, None, IfErr, IfOk};
ghost use Rattle.luks_init.specs.DiskInit.Makings.{IsMade, IsSlotOf, IsUncommitted, IsUnmade};
ghost use Rattle.luks_init.specs.Metadata.{text_len};
ghost use Rattle.luks_init.specs.Wishes.{IsWish};
ghost use Rattle.luks_rules.specs.Rules.{first_fault};
ghost use Rattle.reenc_meta.specs.Placements.{all_atoms};
ghost use Rattle.sector_disk.specs.Geometry.{IsDisk};

use crate::{Begun, InitFault, Wish, begin};
use luks_slots::{NewSlot, drawn_len, split_drawn};
use luks_store::{Commit, CommitError, Loaded, SlotCommit};
use seed_stream::{streams_go_on, stretch};
use std::alloc::{AllocError, Global};

/// Why what is to be written can't be made: the first in this order.
#[derive(Clone, Copy, PartialEq, Eq)]
pub enum MakeFault {
    /// No conversion can begin; or memory was wanted, which may come before any.
    Unready(InitFault),
    /// The header has this number, `2^64 - 1`, and no commit follows it.
    SeqEnd(u64),
}

/// The commit of the next header, for which its text has room, behind the keyslot's area.
fn commit_slot(alloc: Global, header: &Loaded, begun: Begun) -> Result<SlotCommit, MakeFault>
    requires rules { first_fault begun.meta header.now.valid.sizes ≡ None }
    requires size { begun.meta.config.json_size ≡ header.now.valid.meta.config.json_size }
    requires room { text_len begun.meta ≤ header.now.valid.meta.config.json_size - 1 }
    ensures made { IfOk result (IsSlotOf header.now begun) }
    ensures unmade { IfErr result (IsUncommitted header.now) }
{
    let Begun { meta, slot, places } = begun;
    let NewSlot { area, keyslot: _ } = slot;
    header.is_stored();
    match Commit::new(alloc, header, &meta) {
        Ok(commit) => {
            commit.is_prepared();
            Ok(SlotCommit {
                area_offset: places.key,
                area,
                commit,
            })
        }
        Err(CommitError::Memory) => Err(MakeFault::Unready(InitFault::Memory)),
        Err(CommitError::SeqEnd) => Err(MakeFault::SeqEnd(header.header().seqid)),
        Err(CommitError::JsonFull { .. }) => unreachable!(),
    }
}

/// The new keyslot and the next header of a header's volume, for a passphrase of 1 to 512 bytes; all
/// that is random of it is stretched from the 32 bytes of `seed`.
///
/// # Errors
///
/// What stands in the way, the first in the order of [`MakeFault`], exactly where it does.
pub(crate) fn make_slot(
    alloc: Global,
    header: &Loaded,
    wish: &Wish,
    pass: &[u8],
    seed: &[u8; 32],
) -> Result<SlotCommit, MakeFault>
    requires disk { IsDisk header.now.valid.sizes.atom (all_atoms header.now.valid.sizes) }
    requires wish { IsWish wish.now header.now.valid.sizes.atom }
    ensures made { IfOk result (IsMade header.now wish.now pass.now seed.now) }
    ensures unmade { IfErr result (IsUnmade header.now wish.now pass.now seed.now) }
{
    streams_go_on();
    let key_size = wish.key_size as usize;
    let bytes = match stretch(alloc, seed, drawn_len(key_size)) {
        Ok(bytes) => bytes,
        Err(AllocError) => return Err(MakeFault::Unready(InitFault::Memory)),
    };
    let (drawn, _) = split_drawn(key_size, bytes.as_slice());
    match begin(alloc, header.valid(), wish, pass, drawn) {
        Ok(begun) => commit_slot(alloc, header, begun),
        Err(fault) => Err(MakeFault::Unready(fault)),
    }
}
