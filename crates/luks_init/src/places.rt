// Where the areas of a conversion lie.

ghost use Rattle.std.specs.Prelude.{◌≡◌, ◌<◌, MatchResult};
ghost use Rattle.luks_init.specs.Places.{AreLowest, IsNoPlace, IsNoRoom};
ghost use Rattle.luks_init.specs.Wishes.{IsWish};
ghost use Rattle.luks_slots.specs.Gaps.{IsLowest};
ghost use Rattle.sector_disk.specs.Geometry.{IsAtom};

use crate::fault::InitFault;
use crate::wish::Wish;
use luks_rules::{Area, Valid};
use luks_slots::{SlotFault, area_size, find_gap};
use std::alloc::Global;

/// Where the two areas that a conversion adds to a header begin, in bytes.
#[derive(Clone, Copy, Debug, PartialEq, Eq)]
pub struct Places {
    /// That of the new key's keyslot.
    pub key: u64,
    /// That which guards zones.
    pub guard: u64,
}

/// The lowest place of so many bytes, in no area of a keyslot and in none of `besides`.
fn find_place(alloc: Global, valid: &Valid, besides: &[Area], wanted: u64) -> Result<u64, InitFault>
    requires { 0 < wanted }
    ensures { MatchResult result
        (λ offset. IsLowest valid.now.meta besides.now valid.now.sizes.atom wanted offset)
        (λ e. IsNoPlace valid.now.meta besides.now valid.now.sizes.atom wanted e) }
{
    match find_gap(alloc, valid, besides, wanted) {
        Ok(offset) => Ok(offset),
        Err(SlotFault::NoRoom(wanted, gap)) => Err(InitFault::Area { wanted, gap }),
        Err(SlotFault::Memory) => Err(InitFault::Memory),
        Err(SlotFault::Device | SlotFault::NoKey(_)) => unreachable!(),
    }
}

/// The lowest place of the new keyslot's area, and then that of the area which guards zones besides
/// it.
pub(crate) fn find_places(alloc: Global, valid: &Valid, wish: &Wish) -> Result<Places, InitFault>
    requires wish { IsWish wish.now valid.now.sizes.atom }
    requires atom { IsAtom valid.now.sizes.atom }
    ensures { MatchResult result
        (λ places. AreLowest valid.now.meta valid.now.sizes.atom wish.now places)
        (λ e. IsNoRoom valid.now.meta valid.now.sizes.atom wish.now e) }
{
    let size = area_size(wish.key_size as usize);
    let offset = match find_place(alloc, valid, &[], size) {
        Ok(offset) => offset,
        Err(fault) => return Err(fault),
    };
    let besides = [Area { offset, size }];
    match find_place(alloc, valid, &besides, wish.guard_size(valid.sizes().atom)) {
        Ok(guard) => Ok(Places { key: offset, guard }),
        Err(fault) => Err(fault),
    }
}
