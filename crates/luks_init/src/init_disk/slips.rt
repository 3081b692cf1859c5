// What an operator would lose by a conversion without knowing it.

ghost use Rattle.std.specs.Prelude.{◌≡◌, ℕ, IfOk, MatchResult};
ghost use Rattle.luks_init.specs.DiskInit.Slips.{KeepsOthers, LosesNothing, WouldLose, key_holders};

use crate::Wish;
use crate::init_disk::refusal::Refusal;
use json_members::Listed;
use luks_rules::Valid;
use luks_slots::{SlotKind, holders};
use std::alloc::{AllocError, Global};

/// The keyslots that hold the key of a volume of which nothing is being converted.
fn key_holders(alloc: Global, valid: &Valid) -> Result<Vec<(u64, SlotKind)>, AllocError>
    ensures { IfOk result (λ list. list.items ≡ key_holders valid.now.meta valid.now.sizes) }
{
    let Some(idle) = valid.idle() else {
        return Ok(Vec::new(alloc));
    };
    let Some(number) = idle.segment.digest else {
        return Ok(Vec::new(alloc));
    };
    match valid.digest(number) {
        Some(digest) => holders(alloc, valid.meta().parts(), digest),
        None => Ok(Vec::new(alloc)),
    }
}

/// Refuses to drop keyslots unasked where more than one holds the volume's key.
#[tactic(auto, using(crate::proofs::DiskInit::SlipLemmas::few_kept, crate::proofs::DiskInit::SlipLemmas::others_go))]
fn keep_others(alloc: Global, valid: &Valid, wish: &Wish) -> Result<(), Refusal>
    ensures { MatchResult result
        (λ _. KeepsOthers wish.now valid.now.meta valid.now.sizes)
        (λ refusal. (tail : ℕ) → WouldLose wish.now valid.now.meta valid.now.sizes tail refusal) }
{
    if wish.drop_keyslots {
        return Ok(());
    }
    let Ok(list) = key_holders(alloc, valid) else {
        return Err(Refusal::Memory);
    };
    if 1 < list.len() {
        return Err(Refusal::Keyslots(Listed::new(list)));
    }
    Ok(())
}

/// Refuses a conversion of a volume whose key more than one keyslot holds, unless they may go. It
/// refuses one by which bytes would be lost that may be sectors of the volume: they lie behind the
/// last whole atom of the disk, which has so many there.
#[tactic(auto, using(crate::proofs::DiskInit::SlipLemmas::nothing_lost, crate::proofs::DiskInit::SlipLemmas::tail_lost))]
pub(crate) fn lose_nothing(
    alloc: Global,
    valid: &Valid,
    tail: u64,
    wish: &Wish,
) -> Result<(), Refusal>
    ensures { MatchResult result
        (λ _. LosesNothing wish.now valid.now.meta valid.now.sizes tail)
        (λ refusal. WouldLose wish.now valid.now.meta valid.now.sizes tail refusal) }
{
    match keep_others(alloc, valid, wish) {
        Ok(()) => {}
        Err(refusal) => return Err(refusal),
    }
    if valid.has_tail(tail) {
        return Err(Refusal::Tail(tail));
    }
    Ok(())
}
