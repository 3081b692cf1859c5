ghost use Rattle.std.specs.Prelude.{◌≡◌, ◌<◌};
ghost use Rattle.luks_rules.specs.Rooms.{breaks_capacity, breaks_shift, capacity, is_shifted};
ghost use Rattle.luks_rules.specs.Rooms.{lacks_shift};

use crate::shape::Progress;
use luks_meta::{Direction, Resilience};

impl Progress {
    /// How many blocks a zone may have, where a disk has atoms of so many bytes.
    pub fn capacity(&self, atom: u32) -> u64
        requires { 0 < atom }
        ensures { result ≡ capacity atom self.now }
    {
        match self.conversion.resilience {
            Resilience::Journal => self.conversion.area.size / atom as u64,
            Resilience::Checksum(_) => self.conversion.area.size / 32,
            Resilience::Datashift(shift) => shift / atom as u64,
        }
    }
}

/// Whether there is no room for one block, or for the zone that is open.
pub(crate) fn has_no_capacity(atom: u32, progress: &Option<Progress>) -> bool
    requires { 0 < atom }
    ensures { result ≡ breaks_capacity atom progress.now }
{
    match progress {
        Some(progress) => {
            let capacity = progress.capacity(atom);
            capacity == 0 || capacity < progress.plan.zone
        }
        None => false,
    }
}

fn is_shifted_so(direction: Direction, shift: u64, old: u64, new: u64) -> bool
    ensures { result ≡ is_shifted direction shift old new }
{
    match direction {
        Direction::Forward => old as u128 == new as u128 + shift as u128,
        Direction::Backward => new as u128 == old as u128 + shift as u128,
    }
}

fn is_not_shifted(direction: Direction, resilience: Resilience, old: u64, new: u64) -> bool
    ensures { result ≡ lacks_shift direction resilience old new }
{
    match resilience {
        Resilience::Journal | Resilience::Checksum(_) => false,
        Resilience::Datashift(shift) => shift == 0 || !is_shifted_so(direction, shift, old, new),
    }
}

/// Whether a shift isn't between the two segments.
pub(crate) fn has_no_shift(progress: &Option<Progress>) -> bool
    ensures { result ≡ breaks_shift progress.now }
{
    match progress {
        Some(progress) => is_not_shifted(
            progress.conversion.direction,
            progress.conversion.resilience,
            progress.old.offset,
            progress.new.offset,
        ),
        None => false,
    }
}
