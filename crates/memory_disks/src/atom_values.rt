ghost use Rattle.std.specs.Prelude.{◌≡◌, ◌/◌, ◌<◌, [], length, OnOk, IfOk, slice_index_or};
ghost use Rattle.sector_disk.specs.Cells.{Cell, sure, synced};
ghost use Rattle.memory_disks.specs.Images.{added};

use base_terms::Bytes;
use std::alloc::{AllocError, Global};
use std::marker::Model;

/// What one atom holds, in memory: its current value, and its candidates, the oldest first.
#[derive(Drop)]
pub(crate) struct AtomValues {
    current: Bytes,
    candidates: Vec<Bytes>,
}

impl Model for AtomValues {
    ghost use Rattle.std.specs.Prelude.{◌<◌, length};
    ghost use Rattle.sector_disk.specs.Cells.{Cell};

    ghost Value = { Cell };

    ghost view = { λ a. record { current = a.current; candidates = a.candidates.items } };

    ghost invariant = { λ a. 0 < length a.candidates.items };
}

impl AtomValues {
    /// An atom that holds this value for certain.
    pub(crate) fn new(alloc: Global, value: &[u8]) -> Result<AtomValues, AllocError>
        ensures { IfOk result (λ a. a ≡ sure value.now) }
    {
        let mut candidates = Vec::with_capacity(alloc, 1)?;
        candidates.push(copy(alloc, value)?)?;
        Ok(AtomValues {
            current: copy(alloc, value)?,
            candidates,
        })
    }

    /// Adds a candidate, and makes it current or not.
    pub(crate) fn add(
        &mut self,
        alloc: Global,
        value: &[u8],
        is_current: bool,
    ) -> Result<(), AllocError>
        ensures { OnOk result (self.new ≡ added is_current self.old value.now) }
    {
        self.candidates.push(copy(alloc, value)?)?;
        if is_current {
            self.current = copy(alloc, value)?;
        }
        Ok(())
    }

    /// Leaves the current value as the only candidate.
    pub(crate) fn settle(&mut self, alloc: Global) -> Result<(), AllocError>
        ensures { OnOk result (self.new ≡ synced self.old) }
    {
        let value = copy(alloc, self.current.as_slice())?;
        let mut candidates = Vec::with_capacity(alloc, 1)?;
        candidates.push(value)?;
        self.candidates = candidates;
        Ok(())
    }

    /// How many candidates there are, at least one.
    pub(crate) fn count(&self) -> usize
        ensures count { result ≡ length self.now.candidates }
        ensures some { 0 < result }
    {
        self.candidates.len()
    }

    /// A candidate, the oldest being 0.
    pub(crate) fn candidate(&self, place: usize) -> &[u8]
        requires { place < length self.now.candidates }
        ensures { result.now ≡ slice_index_or self.now.candidates place [] }
    {
        self.candidates[place].as_slice()
    }
}

/// The same bytes in memory of their own.
fn copy(alloc: Global, bytes: &[u8]) -> Result<Bytes, AllocError>
    ensures { IfOk result (λ copied. copied ≡ bytes.now) }
{
    Ok(Bytes::new(Vec::from_slice(alloc, bytes)?))
}
