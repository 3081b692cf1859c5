// The metadata with which a conversion ends.

ghost use Rattle.std.specs.Prelude.{◌≡◌, ◌*◌, ◌<◌, ◌^◌, IfOk, map, not};
ghost use Rattle.std.specs.List.{filter};
ghost use Rattle.luks_meta.specs.Configs.{is_foreign};
ghost use Rattle.luks_rules.specs.Plans.{blocks_in};
ghost use Rattle.reenc_meta.specs.Finishes.{finished_digest, finished_numbers, finished_segment};
ghost use Rattle.reenc_meta.specs.Finishes.{finished_size, token_kept};
ghost use Rattle.reenc_meta.specs.Finishes.{is_dropped, is_new_whole, is_old_digest, old_lists};
ghost use Rattle.reenc_meta.specs.Finishes.{other_lists, requirements_after, unless_empty};

use crate::layout::is_number;
use crate::reenc::Reenc;
use crate::token::keep_token;
use base_terms::Sizes;
use json_members::{Entry, Listed, Object, Text};
use luks_meta::{
    Config, Digest, Keyslot, Meta, PROFILE, Parts, Requirements, Resilience, Segment, SegmentSize,
    Token,
};
use luks_rules::{Progress, lists_number};
use std::alloc::{AllocError, Global};

fn is_old(progress: &Progress, digest: &(u64, Digest)) -> bool
    ensures { result ≡ is_old_digest progress.now digest.now }
{
    is_number(progress.old.digest, digest.0)
}

fn old_digest_lists(progress: &Progress, digests: &[(u64, Digest)], slot: u64) -> bool
    ensures { result ≡ old_lists progress.now digests.now slot }
{
    digests.iter().any(|d| is_old(progress, d) && lists_number(d.1.keyslots.as_slice(), slot))
}

fn other_digest_lists(progress: &Progress, digests: &[(u64, Digest)], slot: u64) -> bool
    ensures { result ≡ other_lists progress.now digests.now slot }
{
    digests.iter().any(|d| !is_old(progress, d) && lists_number(d.1.keyslots.as_slice(), slot))
}

/// Whether a keyslot goes with the conversion: its own, and one that the old digest alone lists.
#[tactic(auto, unfolding(crate::specs::Finishes::is_dropped))]
pub(crate) fn is_dropped_slot(progress: &Progress, digests: &[(u64, Digest)], slot: u64) -> bool
    ensures { result ≡ is_dropped progress.now digests.now slot }
{
    slot == progress.conversion.keyslot
        || (old_digest_lists(progress, digests, slot)
            && !other_digest_lists(progress, digests, slot))
}

/// The keyslots that stay.
fn keep_slots(
    alloc: Global,
    progress: &Progress,
    digests: &[(u64, Digest)],
    slots: &[(u64, Keyslot)],
) -> Result<Listed<(u64, Keyslot)>, AllocError>
    ensures { IfOk result (λ kept. kept
        ≡ filter (λ slot. not (is_dropped progress.now digests.now slot.0)) slots.now) }
{
    let mut kept = Vec::new(alloc);
    for slot in slots {
        if !is_dropped_slot(progress, digests, slot.0) {
            kept.push((slot.0, slot.1.copy(alloc)?))?;
        }
    }
    Ok(Listed::new(kept))
}

/// The tokens, which don't name a keyslot that goes.
fn keep_tokens(
    alloc: Global,
    progress: &Progress,
    digests: &[(u64, Digest)],
    tokens: &[(u64, Token)],
) -> Result<Listed<(u64, Token)>, AllocError>
    ensures { IfOk result (λ kept. kept
        ≡ map (λ t. (t.0, token_kept (is_dropped progress.now digests.now) t.1)) tokens.now) }
{
    let mut kept = Vec::new(alloc);
    for token in tokens {
        kept.push((token.0, keep_token(alloc, progress, digests, &token.1)?))?;
    }
    Ok(Listed::new(kept))
}

/// The size of the new segment as the volume.
fn final_size(sizes: &Sizes, progress: &Progress) -> SegmentSize
    requires few { blocks_in progress.now.plan < 2 ^ 64 }
    requires bytes { blocks_in progress.now.plan * sizes.now.atom < 2 ^ 64 }
    ensures { result ≡ finished_size sizes.now progress.now }
{
    let plan = &progress.plan;
    let bytes = (plan.first + plan.zone + plan.last) * sizes.atom as u64;
    let reached = progress.new.offset as u128 + bytes as u128;
    let last = sizes.main_atoms as u128 * sizes.atom as u128;
    match (progress.conversion.resilience, progress.old.size) {
        (Resilience::Journal | Resilience::Checksum(_), SegmentSize::Dynamic) if last <= reached =>
            SegmentSize::Dynamic,
        (_, _) => SegmentSize::Sized(bytes),
    }
}

/// The new segment alone.
fn keep_segment(
    alloc: Global,
    sizes: &Sizes,
    progress: &Progress,
    segments: &[(u64, Segment)],
) -> Result<Listed<(u64, Segment)>, AllocError>
    requires few { blocks_in progress.now.plan < 2 ^ 64 }
    requires bytes { blocks_in progress.now.plan * sizes.now.atom < 2 ^ 64 }
    ensures { IfOk result (λ kept. kept
        ≡ map (finished_segment sizes.now progress.now)
        (filter (is_new_whole progress.now) segments.now)) }
{
    let mut kept = Vec::new(alloc);
    for segment in segments {
        if segment.0 == progress.new.number {
            let mut copy = segment.1.copy(alloc)?;
            copy.size = final_size(sizes, progress);
            copy.flags = None;
            kept.push((0, copy))?;
        }
    }
    Ok(Listed::new(kept))
}

/// The segments that a digest lists now: the new one's is the only one.
fn final_numbers(
    alloc: Global,
    progress: &Progress,
    digest: &(u64, Digest),
) -> Result<Listed<u64>, AllocError>
    ensures { IfOk result (λ numbers. numbers ≡ finished_numbers progress.now digest.now) }
{
    let mut numbers = Vec::new(alloc);
    if is_number(progress.new.digest, digest.0) {
        numbers.push(0)?;
    }
    Ok(Listed::new(numbers))
}

/// The digests but the old one.
fn keep_digests(
    alloc: Global,
    progress: &Progress,
    digests: &[(u64, Digest)],
) -> Result<Listed<(u64, Digest)>, AllocError>
    ensures { IfOk result (λ kept. kept
        ≡ map (finished_digest progress.now)
        (filter (λ d. not (is_old_digest progress.now d)) digests.now)) }
{
    let mut kept = Vec::new(alloc);
    for digest in digests {
        if !is_old(progress, digest) {
            let mut copy = digest.1.copy(alloc)?;
            copy.segments = final_numbers(alloc, progress, digest)?;
            kept.push((digest.0, copy))?;
        }
    }
    Ok(Listed::new(kept))
}

fn is_foreign_text(text: &Text) -> bool
    ensures { result ≡ is_foreign text.now }
{
    text.as_str() != PROFILE
}

/// The texts but the profile's.
fn keep_texts(alloc: Global, texts: &[Text]) -> Result<Vec<Text>, AllocError>
    ensures { IfOk result (λ kept. kept.items ≡ filter is_foreign texts.now) }
{
    let mut kept = Vec::new(alloc);
    for text in texts {
        if is_foreign_text(text) {
            kept.push(text.copy(alloc)?)?;
        }
    }
    Ok(kept)
}

/// The requirements, but none where they have no member but an empty list of texts.
fn none_if_empty(requirements: Requirements) -> Option<Requirements>
    ensures { result ≡ unless_empty requirements }
{
    if requirements.mandatory.len() != 0 {
        return Some(requirements);
    }
    let Requirements { mandatory, rest } = requirements;
    let members = rest.into_map();
    if members.is_empty() {
        return None;
    }
    Some(Requirements {
        mandatory,
        rest: Object::new(members),
    })
}

/// What a reader must know then; nothing where nothing is left.
fn keep_requirements(
    alloc: Global,
    requirements: &Option<Requirements>,
) -> Result<Option<Requirements>, AllocError>
    ensures { IfOk result (λ kept. kept ≡ requirements_after requirements.now) }
{
    let Some(requirements) = requirements else {
        return Ok(None);
    };
    let mandatory = keep_texts(alloc, requirements.mandatory.as_slice())?;
    let rest = requirements.rest.copy(alloc)?;
    Ok(none_if_empty(Requirements {
        mandatory: Listed::new(mandatory),
        rest,
    }))
}

impl<'a> Reenc<'a> {
    ghost use Rattle.reenc_meta.specs.ConversionMaps.{IsMapAt, MakesAllNew};
    ghost use Rattle.reenc_meta.specs.Finishes.{IsFinished, MayFinish};
    ghost use Rattle.reenc_meta.specs.Placements.{IsPlacementOf};
    ghost use Rattle.reenc_meta.specs.declared.placement.Placement.{Placement as placement_type};
    ghost use Rattle.segment_map.specs.declared.map.Map.{Map as map_type};

    /// The metadata of the volume that the conversion has made, when no block is left to convert:
    /// the new segment alone, without the old digest, the keyslots that it alone lists, and what
    /// guarded the zones.
    ///
    /// # Errors
    ///
    /// Memory was wanted.
    #[tactic(auto, unfolding(crate::specs::Finishes::finished))]
    pub fn finish(&self, alloc: Global) -> Result<Meta, AllocError>
        requires { MayFinish self.now.progress }
        ensures is { IfOk result (IsFinished self.now.valid.now.meta self.now.valid.now.sizes
            self.now.progress) }
        ensures map { IfOk result (λ next. (before : map_type) (after : placement_type)
            → IsMapAt self.now.valid.now.sizes self.now.progress before
            → IsPlacementOf next self.now.valid.now.sizes after → MakesAllNew before after) }
    {
        self.valid.is_sound();
        let parts = self.valid.meta().parts();
        let progress = &self.progress;
        let digests = parts.digests.as_slice();
        let sizes = self.valid.sizes();
        Ok(Meta::new(Parts {
            keyslots: keep_slots(alloc, progress, digests, parts.keyslots.as_slice())?,
            tokens: keep_tokens(alloc, progress, digests, parts.tokens.as_slice())?,
            segments: keep_segment(alloc, &sizes, progress, parts.segments.as_slice())?,
            digests: keep_digests(alloc, progress, digests)?,
            config: Config {
                json_size: parts.config.json_size,
                keyslots_size: parts.config.keyslots_size,
                requirements: keep_requirements(alloc, &parts.config.requirements)?,
                rest: parts.config.rest.copy(alloc)?,
            },
            rest: parts.rest.copy(alloc)?,
        }))
    }
}
