// The metadata with which a conversion begins.

ghost use Rattle.std.specs.Prelude.{◌≡◌, ◌+◌, ◌<◌, ◌≤◌, ◌^◌, ◌++◌, [], ◌∷◌, IfOk, IfSome};
ghost use Rattle.std.specs.Prelude.{IsSomeAnd};
ghost use Rattle.std.specs.Prelude.{OnOk, length, option_map, true};
ghost use Rattle.luks_meta.specs.Metas.{IsMeta};
ghost use Rattle.luks_rules.specs.Idles.{idle_of};
ghost use Rattle.luks_rules.specs.Shapes.{stays_dynamic};
ghost use Rattle.reenc_meta.specs.Layouts.{HasPlace, numbers_under};
ghost use Rattle.reenc_meta.specs.Placements.{all_atoms};
ghost use Rattle.reenc_meta.specs.Runs.{run_of};
ghost use Rattle.reenc_meta.specs.Starts.{HaveNumbers, HaveSizes, IsStarted, IsStartedFrom};
ghost use Rattle.reenc_meta.specs.Starts.{conversion_slot, lowest_free};
ghost use Rattle.reenc_meta.specs.Starts.{new_for, nothing_new, old_whole, progress_to, started_to};
ghost use Rattle.reenc_meta.specs.Starts.{with_digest, with_new, with_slot};
ghost use Rattle.reenc_meta.specs.Unconverted.{IsUnconverted, whole_disk};
ghost use Rattle.reenc_meta.specs.Wishes.{HasOffset, IsWish, asked_by, config_by, encryption_for};
ghost use Rattle.reenc_meta.specs.Wishes.{header_or, new_whole, offset_by, size_by, unencrypted};
ghost use Rattle.sector_disk.specs.Geometry.{IsDisk};
ghost use Rattle.segment_map.specs.declared.Side.TheVariants.{Old};

use crate::layout::{list_digests, list_numbers, list_segments, only_text};
use crate::reenc::Reenc;
use crate::runs::{list_runs, list_sides};
use crate::wish::Wish;
use base_terms::Sizes;
use json_members::{Entry, Listed, Object, Text, copy_entries};
use luks_meta::{
    Config, Digest, Direction, Encryption, Keyslot, Luks2, Meta, Mode, PROFILE, Parts, Reencrypt,
    ReencryptArea, Requirements, Resilience, Segment, SegmentSize,
};
use luks_rules::{Area, Conversion, Extent, Idle, Mark, Plan, Progress, Valid};
use segment_map::Side;
use std::alloc::{AllocError, Global};

/// The lowest number that none of some entries by rising numbers has.
fn lowest_number<T>(entries: &[(u64, T)]) -> u64
    ensures is { result ≡ lowest_free entries.now }
    ensures within { result ≤ length entries.now }
    ensures few { lowest_free entries.now < 2 ^ 64 }
{
    let mut lowest: u64 = 0;
    for entry in entries {
        if entry.0 != lowest {
            return lowest;
        }
        lowest += 1;
    }
    lowest
}

/// The entries with a new one of the lowest number that is free.
fn add_entry<T: Drop>(entries: &mut Vec<(u64, T)>, entry: T) -> Result<(), AllocError>
    ensures { OnOk result (entries.new.items ≡ with_new entry entries.old.items) }
{
    let number = lowest_number(entries.as_slice());
    entries.insert(number as usize, (number, entry))?;
    Ok(())
}

/// The keyslot of the conversion.
fn make_reencrypt(alloc: Global, wish: &Wish) -> Result<Keyslot, AllocError>
    ensures { IfOk result (λ slot. slot ≡ conversion_slot wish.now) }
{
    let area = &wish.area;
    Ok(Keyslot::Reencrypt(Reencrypt {
        mode: wish.mode,
        direction: wish.direction,
        area: ReencryptArea {
            resilience: area.resilience,
            offset: area.offset,
            size: area.size,
            rest: area.rest.copy(alloc)?,
        },
        rest: Object::empty(alloc),
    }))
}

/// The keyslots with that of the new key, if there is one.
fn make_slots(
    alloc: Global,
    wish: &Wish,
    slots: &[(u64, Keyslot)],
) -> Result<Vec<(u64, Keyslot)>, AllocError>
    ensures { IfOk result (λ made. made.items ≡ with_slot wish.now.key slots.now) }
{
    let mut made = copy_entries(alloc, slots)?.into_vec();
    match &wish.key {
        Some(key) => add_entry(&mut made, Keyslot::Luks2(key.0.copy(alloc)?))?,
        None => {}
    }
    Ok(made)
}

/// The digest of the new key, of its keyslot and of the segments on its side.
fn make_digest(
    alloc: Global,
    digest: &Digest,
    slot: u64,
    sides: &[Side],
) -> Result<Digest, AllocError>
    ensures { IfOk result (λ made. made
        ≡ record digest.now { keyslots = slot ∷ []; segments = numbers_under true 0 sides.now }) }
{
    let mut keyslots = Vec::new(alloc);
    keyslots.push(slot)?;
    let mut made = digest.copy(alloc)?;
    made.keyslots = Listed::new(keyslots);
    made.segments = list_numbers(alloc, true, sides)?;
    Ok(made)
}

/// The digests with that of the new key, if there is one.
fn make_digests(
    alloc: Global,
    wish: &Wish,
    slot: u64,
    sides: &[Side],
    digests: Vec<(u64, Digest)>,
) -> Result<Listed<(u64, Digest)>, AllocError>
    ensures { IfOk result (λ made. made
        ≡ with_digest wish.now.key slot (numbers_under true 0 sides.now) digests.items) }
{
    let mut made = digests;
    match &wish.key {
        Some(key) => add_entry(&mut made, make_digest(alloc, &key.1, slot, sides)?)?,
        None => {}
    }
    Ok(Listed::new(made))
}

/// Where the new segment begins.
fn new_offset(wish: &Wish, old: u64) -> u64
    requires { HasOffset wish.now.direction wish.now.area.resilience old }
    ensures { result ≡ offset_by wish.now.direction wish.now.area.resilience old }
{
    match wish.area.resilience {
        Resilience::Journal | Resilience::Checksum(_) => old,
        Resilience::Datashift(shift) => match wish.direction {
            Direction::Forward => old - shift,
            Direction::Backward => old + shift,
        },
    }
}

/// How the new segment is encrypted.
fn new_encryption(wish: &Wish) -> Option<Encryption>
    ensures { result ≡ encryption_for wish.now wish.now.mode }
{
    match wish.mode {
        Mode::Reencrypt | Mode::Encrypt => Some(Encryption {
            iv_tweak: 0,
            cipher: wish.encryption,
            sector_size: wish.sector_size as u64,
        }),
        Mode::Decrypt => None,
    }
}

/// How long the new segment is, of so many bytes.
fn new_size(resilience: Resilience, old: SegmentSize, bytes: u64) -> SegmentSize
    ensures { result ≡ size_by (stays_dynamic resilience old) bytes }
{
    match (resilience, old) {
        (Resilience::Journal | Resilience::Checksum(_), SegmentSize::Dynamic) =>
            SegmentSize::Dynamic,
        (_, _) => SegmentSize::Sized(bytes),
    }
}

/// The whole segment that the volume becomes.
#[tactic(auto, unfolding(crate::specs::Wishes::new_whole))]
fn make_new_whole(
    alloc: Global,
    wish: &Wish,
    old: &Segment,
    bytes: u64,
) -> Result<Segment, AllocError>
    requires { HasOffset wish.now.direction wish.now.area.resilience old.now.offset }
    ensures { IfOk result (λ new. new ≡ new_whole wish.now old.now bytes) }
{
    Ok(Segment {
        offset: new_offset(wish, old.offset),
        size: new_size(wish.area.resilience, old.size, bytes),
        encryption: new_encryption(wish),
        flags: Some(only_text(alloc, "backup-final")?),
        rest: Object::empty(alloc),
    })
}

/// The whole segment that the volume was.
fn make_old_whole(alloc: Global, old: &Segment) -> Result<Segment, AllocError>
    ensures { IfOk result (λ whole. whole ≡ old_whole old.now) }
{
    let mut whole = old.copy(alloc)?;
    whole.flags = Some(only_text(alloc, "backup-previous")?);
    Ok(whole)
}

/// Texts with one more.
fn with_text(alloc: Global, texts: Listed<Text>, text: &str) -> Result<Listed<Text>, AllocError>
    ensures { IfOk result (λ more. more ≡ texts ++ text.now ∷ []) }
{
    let mut more = texts.into_vec();
    more.push(Text::new(String::from_str(alloc, text)?))?;
    Ok(Listed::new(more))
}

/// What a reader must know now.
fn ask(alloc: Global, requirements: &Option<Requirements>) -> Result<Requirements, AllocError>
    ensures { IfOk result (λ asked. asked ≡ asked_by requirements.now) }
{
    match requirements {
        Some(requirements) => {
            let asked = requirements.copy(alloc)?;
            Ok(Requirements {
                mandatory: with_text(alloc, asked.mandatory, PROFILE)?,
                rest: asked.rest,
            })
        }
        None => Ok(Requirements {
            mandatory: only_text(alloc, PROFILE)?,
            rest: Object::empty(alloc),
        }),
    }
}

/// The sizes and requirements of the next header.
#[tactic(auto, unfolding(crate::specs::Wishes::config_by))]
fn make_config(alloc: Global, wish: &Wish, config: &Config) -> Result<Config, AllocError>
    requires { 4096 ≤ wish.now.header_size }
    ensures { IfOk result (λ made. made ≡ config_by wish.now config.now) }
{
    Ok(Config {
        json_size: wish.header_size - 4096,
        keyslots_size: wish.keyslots_size,
        requirements: Some(ask(alloc, &config.requirements)?),
        rest: config.rest.copy(alloc)?,
    })
}

fn start_plan(direction: Direction, blocks: u64) -> Plan
    ensures is { result ≡ nothing_new direction blocks }
    ensures few { result.first + result.zone < 2 ^ 64 }
{
    match direction {
        Direction::Forward => Plan {
            first: 0,
            zone: 0,
            last: blocks,
        },
        Direction::Backward => Plan {
            first: blocks,
            zone: 0,
            last: 0,
        },
    }
}

/// The number of the new digest, if there is one.
fn new_digest(wish: &Wish, digests: &[(u64, Digest)]) -> Option<u64>
    ensures is { result ≡ option_map (λ key. lowest_free digests.now) wish.now.key }
    ensures few { lowest_free digests.now < 2 ^ 64 }
{
    let number = lowest_number(digests);
    match wish.key {
        Some(_) => Some(number),
        None => None,
    }
}

/// How far the conversion is: the new segment has no block yet.
#[tactic(auto, unfolding(crate::specs::Starts::progress_to))]
fn make_progress(wish: &Wish, parts: &Parts, idle: &Idle, keyslot: u64, new: &Segment) -> Progress
    requires { keyslot ≡ lowest_free (with_slot wish.now.key parts.now.keyslots) }
    ensures is { result ≡ progress_to wish.now parts.now idle.now new.now }
    ensures plan { result.plan.first + result.plan.zone < 2 ^ 64 }
    ensures keyslot { lowest_free (with_slot wish.now.key parts.now.keyslots) < 2 ^ 64 }
    ensures digest { lowest_free parts.now.digests < 2 ^ 64 }
{
    Progress {
        conversion: Conversion {
            keyslot,
            mode: wish.mode,
            direction: wish.direction,
            resilience: wish.area.resilience,
            area: Area {
                offset: wish.area.offset,
                size: wish.area.size,
            },
        },
        old: Extent {
            number: 1,
            offset: idle.segment.offset,
            size: idle.segment.size,
            encryption: idle.segment.encryption,
            mark: Mark::Previous,
            digest: idle.segment.digest,
        },
        new: Extent {
            number: 2,
            offset: new.offset,
            size: new.size,
            encryption: new.encryption,
            mark: Mark::Final,
            digest: new_digest(wish, parts.digests.as_slice()),
        },
        plan: start_plan(wish.direction, idle.blocks),
    }
}

/// The whole old and the whole new segment.
fn make_wholes(alloc: Global, old: &Segment, new: Segment) -> Result<Vec<Segment>, AllocError>
    ensures { IfOk result (λ wholes. wholes.items ≡ old_whole old.now ∷ new ∷ []) }
{
    let mut wholes = Vec::new(alloc);
    wholes.push(make_old_whole(alloc, old)?)?;
    wholes.push(new)?;
    Ok(wholes)
}

/// The parts of metadata with one segment, of which nothing is converted, with the conversion.
#[tactic(auto, unfolding(crate::specs::Starts::started_by))]
fn begin(
    alloc: Global,
    atom: u32,
    wish: &Wish,
    parts: &Parts,
    idle: &Idle,
    old: &Segment,
) -> Result<Parts, AllocError>
    requires header { 4096 ≤ wish.now.header_size }
    requires offset { HasOffset wish.now.direction wish.now.area.resilience old.now.offset }
    requires place { HasPlace atom idle.now.segment (run_of Old 0 idle.now.blocks) }
    ensures is { IfOk result (λ begun. begun
        ≡ started_to atom wish.now parts.now idle.now old.now
        (new_for atom wish.now idle.now old.now)) }
    ensures numbers { IfOk result (λ begun. HaveNumbers wish.now parts.now) }
{
    let new = make_new_whole(alloc, wish, old, idle.blocks * atom as u64)?;
    let mut slots = make_slots(alloc, wish, parts.keyslots.as_slice())?;
    let progress = make_progress(wish, parts, idle, lowest_number(slots.as_slice()), &new);
    add_entry(&mut slots, make_reencrypt(alloc, wish)?)?;
    let runs = list_runs(alloc, wish.direction, &progress.plan)?;
    let sides = list_sides(alloc, runs.as_slice())?;
    let wholes = make_wholes(alloc, old, new)?;
    let listed = list_digests(alloc, &progress, sides.as_slice(), parts.digests.as_slice())?;
    let slot = lowest_number(parts.keyslots.as_slice());
    Ok(Parts {
        keyslots: Listed::new(slots),
        tokens: copy_entries(alloc, parts.tokens.as_slice())?,
        segments: list_segments(alloc, atom, &progress, runs.as_slice(), wholes)?,
        digests: make_digests(alloc, wish, slot, sides.as_slice(), listed)?,
        config: make_config(alloc, wish, &parts.config)?,
        rest: parts.rest.copy(alloc)?,
    })
}

/// A list with one object, of the number 0.
fn first<T: Drop>(alloc: Global, object: T) -> Result<Listed<(u64, T)>, AllocError>
    ensures { IfOk result (λ objects. objects ≡ (0, object) ∷ []) }
{
    let mut objects = Vec::new(alloc);
    objects.push((0, object))?;
    Ok(Listed::new(objects))
}

/// A header for a volume that has none.
#[tactic(auto, unfolding(crate::specs::Wishes::unencrypted))]
pub(crate) fn make_unencrypted(alloc: Global, wish: &Wish) -> Result<Parts, AllocError>
    requires { 4096 ≤ wish.now.header_size }
    ensures { IfOk result (λ parts. parts ≡ unencrypted wish.now) }
{
    let whole = Segment {
        offset: 0,
        size: SegmentSize::Dynamic,
        encryption: None,
        flags: None,
        rest: Object::empty(alloc),
    };
    Ok(Parts {
        keyslots: Listed::new(Vec::new(alloc)),
        tokens: Listed::new(Vec::new(alloc)),
        segments: first(alloc, whole)?,
        digests: Listed::new(Vec::new(alloc)),
        config: Config {
            json_size: wish.header_size - 4096,
            keyslots_size: wish.keyslots_size,
            requirements: None,
            rest: Object::empty(alloc),
        },
        rest: Object::empty(alloc),
    })
}

/// The main disk as the volume of such a header.
fn unencrypted_volume(sizes: &Sizes) -> Idle
    ensures { result ≡ whole_disk sizes.now }
{
    Idle {
        segment: Extent {
            number: 0,
            offset: 0,
            size: SegmentSize::Dynamic,
            encryption: None,
            mark: Mark::Plain,
            digest: None,
        },
        blocks: sizes.main_atoms,
    }
}

/// A law, with nothing to run: the sizes that are wished have 64 bits.
fn sizes_fit(wish: &Wish)
    ensures { HaveSizes wish.now }
{
    let _header = wish.header_size;
    let _keyslots = wish.keyslots_size;
}

/// The metadata of a volume of which nothing is converted, with the conversion.
fn begin_from(
    alloc: Global,
    sizes: &Sizes,
    wish: &Wish,
    parts: &Parts,
    idle: &Idle,
) -> Result<Meta, AllocError>
    requires disk { IsDisk sizes.now.atom (all_atoms sizes.now) }
    requires parts { IsMeta parts.now }
    requires idle { IsUnconverted parts.now sizes.now idle.now }
    requires wish { IsWish wish.now idle.now }
    ensures { IfOk result (IsStarted sizes.now wish.now parts.now idle.now) }
{
    sizes_fit(wish);
    match parts.segments.as_slice() {
        [segment] => Ok(Meta::new(begin(alloc, sizes.atom, wish, parts, idle, &segment.1)?)),
        _ => unreachable!(),
    }
}

/// The same of a header.
fn begin_in(alloc: Global, valid: &Valid, wish: &Wish) -> Result<Meta, AllocError>
    requires disk { IsDisk valid.now.sizes.atom (all_atoms valid.now.sizes) }
    requires wish { IsSomeAnd (idle_of valid.now.meta valid.now.sizes) (IsWish wish.now) }
    ensures { IfOk result (IsStartedFrom valid.now.sizes wish.now valid.now.meta) }
{
    valid.is_sound();
    match valid.idle() {
        Some(idle) => begin_from(alloc, &valid.sizes(), wish, valid.meta().parts(), &idle),
        None => unreachable!(),
    }
}

/// The same of the whole main disk, which has no header.
fn begin_without(alloc: Global, sizes: &Sizes, wish: &Wish) -> Result<Meta, AllocError>
    requires disk { IsDisk sizes.now.atom (all_atoms sizes.now) }
    requires wish { IsSomeAnd (idle_of (unencrypted wish.now) sizes.now) (IsWish wish.now) }
    ensures { IfOk result (IsStartedFrom sizes.now wish.now (unencrypted wish.now)) }
{
    sizes_fit(wish);
    let parts = make_unencrypted(alloc, wish)?;
    begin_from(alloc, sizes, wish, &parts, &unencrypted_volume(sizes))
}

impl<'a> Reenc<'a> {
    /// The metadata with which the conversion of a volume begins, of which nothing is converted
    /// yet: that of a header or, where there is none, of the whole main disk as it is.
    ///
    /// # Errors
    ///
    /// Memory was wanted.
    pub fn start(
        alloc: Global,
        header: Option<&Valid>,
        sizes: Sizes,
        wish: &Wish,
    ) -> Result<Meta, AllocError>
        requires disk { IsDisk sizes.atom (all_atoms sizes) }
        requires sizes { IfSome header (λ valid. valid.now.sizes ≡ sizes) }
        requires wish { IsSomeAnd (idle_of (header_or wish.now
            (option_map (λ valid. valid.now.meta) header)) sizes) (IsWish wish.now) }
        ensures { IfOk result (IsStartedFrom sizes wish.now (header_or wish.now
            (option_map (λ valid. valid.now.meta) header.entry))) }
    {
        match header {
            Some(valid) => begin_in(alloc, valid, wish),
            None => begin_without(alloc, &sizes, wish),
        }
    }
}
