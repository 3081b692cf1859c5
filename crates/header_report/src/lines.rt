ghost use Rattle.std.specs.Prelude.{◌≡◌, ◌++◌, ◌∷◌, [], IfOk, codes, map, option_map};
ghost use Rattle.std.specs.Prelude.{string_bytes};
ghost use Rattle.uuid.specs.Text.{hyphenated_text, lower};
ghost use Rattle.luks_meta.specs.Reencrypts.{area_type_name};
ghost use Rattle.header_report.specs.Reports.{
  boundary,
  boundary_line,
  derivation_name,
  function_name,
  identifier,
  segment_line,
  seqid_line,
  slot_line,
  state_line,
  uuid_line,
  zone_line,
};

use luks_meta::{Derivation, Direction, Keyslot, Resilience};
use luks_rules::{Extent, Plan, Progress};
use std::alloc::{AllocError, Global};
use uuid::Uuid;

/// The identifier in the header's field, if it is one of 36 characters.
#[tactic(auto, unfolding(crate::specs::Reports::identifier))]
fn identifier(field: &[u8; 40]) -> Option<Uuid>
    ensures { option_map (hyphenated_text lower) result ≡ identifier field.now }
{
    if field[36] != 0 {
        return None;
    }
    match Uuid::try_parse_ascii(&field[..36]) {
        Ok(id) => Some(id),
        Err(_) => None,
    }
}

/// `uuid: U`, with a line feed, or `none` where there is no identifier.
#[tactic(auto, unfolding(crate::specs::Reports::uuid_line))]
pub fn uuid_line(alloc: Global, field: &[u8; 40]) -> Result<String, AllocError>
    ensures { IfOk result (λ line. string_bytes line ≡ uuid_line field.now) }
{
    let Some(id) = identifier(field) else {
        return String::from_str(alloc, "uuid: none\n");
    };
    let mut buffer = Uuid::encode_buffer();
    let text = id.hyphenated().encode_lower(&mut buffer);
    format!(in alloc; "uuid: {text}\n")
}

/// `seqid: n`.
#[tactic(auto, unfolding(crate::specs::Reports::seqid_line))]
pub fn seqid_line(alloc: Global, seqid: u64) -> Result<String, AllocError>
    ensures { IfOk result (λ line. string_bytes line ≡ seqid_line seqid) }
{
    format!(in alloc; "seqid: {seqid}\n")
}

/// How a segment is encrypted, and where it begins, between two texts.
#[tactic(auto, unfolding(crate::specs::Reports::segment_line))]
pub fn segment_line(
    alloc: Global,
    head: &str,
    segment: &Extent,
    tail: &str,
) -> Result<String, AllocError>
    ensures { IfOk result
        (λ line. string_bytes line ≡ segment_line head.now segment.now tail.now) }
{
    let offset = segment.offset;
    match segment.encryption {
        None => format!(in alloc; "{head}linear offset {offset}{tail}\n"),
        Some(encryption) => {
            let cipher = encryption.cipher.name();
            let size = encryption.sector_size;
            format!(in alloc; "{head}{cipher} sector {size} offset {offset}{tail}\n")
        }
    }
}

fn resilience_name(resilience: Resilience) -> &'static str
    ensures { result.now ≡ area_type_name resilience }
{
    match resilience {
        Resilience::Journal => "journal",
        Resilience::Checksum(_) => "checksum",
        Resilience::Datashift(_) => "datashift",
    }
}

/// `state: MODE DIRECTION RESILIENCE`.
#[tactic(auto, unfolding(crate::specs::Reports::state_line))]
pub fn state_line(alloc: Global, progress: &Progress) -> Result<String, AllocError>
    ensures { IfOk result (λ line. string_bytes line ≡ state_line progress.now) }
{
    let mode = progress.conversion.mode.name();
    let direction = progress.conversion.direction.name();
    let resilience = resilience_name(progress.conversion.resilience);
    format!(in alloc; "state: {mode} {direction} {resilience}\n")
}

/// The block at which those that are converted and the others meet.
fn boundary(direction: Direction, plan: &Plan) -> u128
    ensures { result ≡ boundary direction plan.now }
{
    match direction {
        Direction::Forward => plan.first as u128,
        Direction::Backward => plan.first as u128 + plan.zone as u128,
    }
}

/// `boundary: b of N`.
#[tactic(auto, unfolding(crate::specs::Reports::boundary_line))]
pub fn boundary_line(alloc: Global, progress: &Progress) -> Result<String, AllocError>
    ensures { IfOk result (λ line. string_bytes line ≡ boundary_line progress.now) }
{
    let plan = &progress.plan;
    let at = boundary(progress.conversion.direction, plan);
    let blocks = plan.first as u128 + plan.zone as u128 + plan.last as u128;
    format!(in alloc; "boundary: {at} of {blocks}\n")
}

/// `zone: none`, or `zone: b + len`.
#[tactic(auto, unfolding(crate::specs::Reports::zone_line))]
pub fn zone_line(alloc: Global, plan: &Plan) -> Result<String, AllocError>
    ensures { IfOk result (λ line. string_bytes line ≡ zone_line plan.now) }
{
    if plan.zone == 0 {
        return String::from_str(alloc, "zone: none\n");
    }
    let first = plan.first;
    let zone = plan.zone;
    format!(in alloc; "zone: {first} + {zone}\n")
}

fn function_name(name: &str) -> &'static str
    ensures { result.now ≡ function_name name.now }
{
    if name == "argon2i" {
        "argon2i"
    } else if name == "argon2id" {
        "argon2id"
    } else {
        "other"
    }
}

fn derivation_name(derivation: &Derivation) -> &'static str
    ensures { result.now ≡ derivation_name derivation.now }
{
    match derivation {
        Derivation::Pbkdf2(_) => "pbkdf2",
        Derivation::Unknown(name) => function_name(name.as_str()),
    }
}

/// `slot k: ..`.
#[tactic(auto, unfolding(crate::specs::Reports::slot_line))]
pub fn slot_line(alloc: Global, slot: &(u64, Keyslot)) -> Result<String, AllocError>
    ensures { IfOk result (λ line. string_bytes line ≡ slot_line slot.now) }
{
    let number = slot.0;
    match &slot.1 {
        Keyslot::Luks2(luks2) => {
            let name = derivation_name(&luks2.kdf.derivation);
            format!(in alloc; "slot {number}: luks2 {name}\n")
        }
        Keyslot::Reencrypt(_) => format!(in alloc; "slot {number}: reencrypt\n"),
        Keyslot::Unknown(_) => format!(in alloc; "slot {number}: other\n"),
    }
}
