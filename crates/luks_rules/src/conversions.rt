ghost use Rattle.std.specs.Prelude.{◌≡◌, IfOk};
ghost use Rattle.luks_rules.specs.Conversions.{conversion_of, conversions_of, only};

use crate::areas::Area;
use luks_meta::{Direction, Keyslot, Mode, Resilience};
use std::alloc::{AllocError, Global};

/// How a conversion goes on: what its keyslot says.
#[derive(Clone, Copy, PartialEq, Eq)]
pub struct Conversion {
    /// The number of its keyslot.
    pub keyslot: u64,
    /// What is converted into what.
    pub mode: Mode,
    /// In which order blocks are converted.
    pub direction: Direction,
    /// How an open zone is kept safe.
    pub resilience: Resilience,
    /// Where what keeps it safe is written.
    pub area: Area,
}

/// The conversion that a keyslot is of, if it is of one.
#[tactic(auto, unfolding(crate::specs::Conversions::conversion_of))]
fn conversion_of_slot(slot: &(u64, Keyslot)) -> Option<Conversion>
    ensures { result ≡ conversion_of slot.now }
{
    match &slot.1 {
        Keyslot::Reencrypt(reencrypt) => Some(Conversion {
            keyslot: slot.0,
            mode: reencrypt.mode,
            direction: reencrypt.direction,
            resilience: reencrypt.area.resilience,
            area: Area {
                offset: reencrypt.area.offset,
                size: reencrypt.area.size,
            },
        }),
        Keyslot::Luks2(_) | Keyslot::Unknown(_) => None,
    }
}

/// The conversions that keyslots are of.
pub(crate) fn list_conversions(
    alloc: Global,
    slots: &[(u64, Keyslot)],
) -> Result<Vec<Conversion>, AllocError>
    ensures { IfOk result (λ found. found.items ≡ conversions_of slots.now) }
{
    let mut found = Vec::new(alloc);
    for slot in slots {
        match conversion_of_slot(slot) {
            Some(conversion) => found.push(conversion)?,
            None => {}
        }
    }
    Ok(found)
}

/// The conversion, where there is exactly one.
pub(crate) fn only_conversion(conversions: &[Conversion]) -> Option<Conversion>
    ensures { result ≡ only conversions.now }
{
    match conversions {
        [conversion] => Some(*conversion),
        _ => None,
    }
}
