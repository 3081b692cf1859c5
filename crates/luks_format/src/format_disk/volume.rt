// A new volume.

ghost use Rattle.std.specs.Prelude.{◌≡◌, ◌+◌, ◌-◌, ◌^◌, ◌<◌, ◌≤◌, true, length, None, IfOk};
ghost use Rattle.std.specs.Prelude.{MatchResult};
ghost use Rattle.luks_format.specs.DiskFormat.Fitting.{IsUnfit, unfit_by};
ghost use Rattle.luks_format.specs.DiskFormat.Volumes.{IsFirst, IsNewVolume};
ghost use Rattle.luks_bin.specs.Fields.{is_size};
ghost use Rattle.luks_format.specs.Drawings.{draw};
ghost use Rattle.luks_format.specs.Wishes.{FitsDisk, IsWish};
ghost use Rattle.luks_rules.specs.Areas.{header_bytes};
ghost use Rattle.luks_rules.specs.Rules.{first_fault};
ghost use Rattle.luks_store.specs.Commits.{text_for};

use crate::format_disk::fault::FormatFault;
use crate::{
    Drawn, Wish, drawn_len, identifier_field, identifier_for, make_meta,
    new_metadata_break_no_rule, split_drawn,
};
use base_terms::Sizes;
use luks_json::JsonText;
use luks_meta::Meta;
use luks_slots::{Key, NewSlot, area_size, slot_at};
use luks_store::header_copies::CommitError;
use luks_store::{Commit, SlotCommit};
use seed_stream::{streams_go_on, stretch};
use std::alloc::{AllocError, Global};
use uuid::Uuid;

/// The most bytes of a passphrase.
const MOST_PASSPHRASE: usize = 512;

/// All that is written of a new volume.
#[derive(Drop)]
pub struct NewVolume {
    pub identifier: Uuid,
    /// Its keyslot, and both copies of its header, of which none is written yet.
    pub slot: SlotCommit,
}

impl From<AllocError> for FormatFault {
    ghost use Rattle.std.specs.Prelude.{◌≡◌};
    ghost use Rattle.luks_format.specs.declared.format_disk.fault.FormatFault.TheVariants.{Memory};

    ghost from_gives = { λ _ e. e ≡ Memory };

    fn from(_: AllocError) -> FormatFault {
        FormatFault::Memory
    }
}

/// The first that doesn't fit of a volume, the text of whose header has so many bytes.
#[tactic(auto, unfolding(crate::specs::DiskFormat::Fitting::unfit_by))]
fn find_unfit(wish: &Wish, sizes: &Sizes, pass: &[u8], text_len: u64) -> Option<FormatFault>
    requires wish { IsWish wish.now }
    requires atom { 0 < sizes.now.atom }
    requires header { header_bytes sizes.now < 2 ^ 63 }
    ensures { result ≡ unfit_by wish.now sizes.now pass.now text_len }
{
    let wanted = area_size(wish.key_size as usize);
    let gap = wish.keyslots_size();
    if gap < wanted {
        return Some(FormatFault::Area { wanted, gap });
    }
    let wanted = wish.areas_end();
    let gap = sizes.header_atoms * sizes.atom as u64;
    if wish.detached && gap < wanted {
        return Some(FormatFault::Area { wanted, gap });
    }
    let limit = wish.metadata_size - 4097;
    if limit < text_len {
        let len = text_len;
        return Some(FormatFault::Json { len, limit });
    }
    if pass.is_empty() || MOST_PASSPHRASE < pass.len() {
        let len = pass.len() as u64;
        return Some(FormatFault::Passphrase { len });
    }
    if sizes.main_atoms <= wish.data_offset / sizes.atom as u64 {
        return Some(FormatFault::Blocks);
    }
    None
}

/// Both copies of the first header, whose text has room.
fn first_commit(
    alloc: Global,
    identifier: Uuid,
    drawn: &Drawn<'_>,
    meta: &Meta,
    sizes: Sizes,
) -> Result<Commit, AllocError>
    requires first_salt { length (draw drawn.now).first_salt ≡ 64 }
    requires second_salt { length (draw drawn.now).second_salt ≡ 64 }
    requires atom { 0 < sizes.atom }
    requires rules { first_fault meta.now sizes ≡ None }
    requires size { is_size (meta.now.config.json_size + 4096) ≡ true }
    requires room { length (text_for meta.now) ≤ meta.now.config.json_size + 4096 - 4097 }
    ensures { IfOk result (λ commit. IsFirst identifier (draw drawn.now) meta.now sizes commit) }
{
    let mut first_salt = [0; 64];
    first_salt.copy_from_slice(drawn.first_salt);
    let mut second_salt = [0; 64];
    second_salt.copy_from_slice(drawn.second_salt);
    let field = identifier_field(identifier);
    match Commit::first(alloc, field, &first_salt, &second_salt, meta, sizes) {
        Ok(commit) => {
            commit.is_prepared();
            Ok(commit)
        }
        Err(CommitError::Memory) => Err(AllocError),
        Err(_) => unreachable!(),
    }
}

/// A new volume for a disk of these sizes, or for two where its header has one of its own, which
/// this passphrase, of 1 to 512 bytes, opens; all that is random of it is stretched from the 32
/// bytes of `seed`.
///
/// # Errors
///
/// What doesn't fit, the first in the order of [`FormatFault`], exactly where it doesn't; or
/// `Memory`.
pub fn make_volume(
    alloc: Global,
    wish: &Wish,
    sizes: Sizes,
    pass: &[u8],
    seed: &[u8; 32],
) -> Result<NewVolume, FormatFault>
    requires wish { IsWish wish.now }
    requires disk { FitsDisk wish.now sizes }
    ensures { MatchResult result
        (λ volume. IsNewVolume wish.now sizes pass.now seed.now volume)
        (λ fault. IsUnfit wish.now sizes pass.now seed.now fault) }
{
    streams_go_on();
    let bytes = stretch(alloc, seed, drawn_len(wish))?;
    let drawn = split_drawn(wish, bytes.as_slice());
    let meta = make_meta(alloc, wish, &drawn)?;
    let text_len = meta.write(alloc)?.len() as u64;
    if let Some(fault) = find_unfit(wish, &sizes, pass, text_len) {
        return Err(fault);
    }
    new_metadata_break_no_rule();
    let identifier = identifier_for(wish, drawn.identifier);
    let commit = first_commit(alloc, identifier, &drawn, &meta, sizes)?;
    let area_offset = wish.area_offset();
    let key = Key::new(drawn.key);
    let NewSlot { area, keyslot: _ } = slot_at(
        alloc,
        area_offset,
        sizes.atom,
        pass,
        wish.iterations,
        &key,
        drawn.slot,
    )?;
    Ok(NewVolume {
        identifier,
        slot: SlotCommit {
            area_offset,
            area,
            commit,
        },
    })
}
