// A volume that is handed to threads.

ghost use Rattle.std.specs.Prelude.{◌≡◌, ◌-◌, ◌^◌, ◌<◌, ◌≤◌, suc, length, ℕ, IfOk, IfErr, IsSome};
ghost use Rattle.std.specs.Prelude.{IsSomeAnd};
ghost use Rattle.shared_volume.specs.Ciphers.{sector_of};
ghost use Rattle.shared_volume.specs.Histories.{MayBeShared};
ghost use Rattle.shared_volume.specs.Lanes.{IsOn};
ghost use Rattle.shared_volume.specs.Working.{HasWorker};
ghost use Rattle.volume_cell.specs.Knowing.{beginning};
ghost use Rattle.volume_cell.specs.Passes.{IsPassOf, known};
ghost use Rattle.volume_core.specs.WorkerLoop.Telling.{converted_in};

use crate::departures::Departures;
use crate::machine::SharedVolume;
use gates::Converted;
use lane_plan::Shape;
use sector_cipher::Context;
use sector_disk::Disk;
use segment_map::Map;
use std::alloc::{AllocFailed, Global};
use volume_cell::{Cell, Pass};
use volume_core::{Volume, converted_of};
use volume_machine::{Keys, Sealers};

/// A volume in its cell, where lanes and the worker wait for its blocks, and how many long pieces
/// of it are being sealed or opened. All threads have it.
#[derive(Drop)]
pub struct SharedCell<D: Disk> {
    pub cell: Cell<SharedVolume<D>>,
    pub departures: Departures,
    pub sealers: Sealers,
}

/// A volume that is shared, the first pass, off which a lane's is split and the worker's behind all
/// of them, what of the volume never changes, and how far it was converted when it was handed in.
#[derive(Drop)]
pub struct Sharing<D: Disk> {
    pub shared: SharedCell<D>,
    pub first: Pass<SharedVolume<D>>,
    pub keys: Keys<Context>,
    pub shape: Shape,
    pub converted: Converted,
}

/// Puts a volume on which no operation is under way into a cell whose history can get `limit` entries
/// long: each call on it is one, and each step of its worker, where it has what its conversion takes.
/// The steps take memory by the same allocator. Without memory the volume comes back.
pub fn share<D: Disk>(
    alloc: Global,
    volume: Volume<D, Context>,
    limit: u64,
) -> Result<Sharing<D>, Volume<D, Context>>
    requires shared { MayBeShared volume }
    requires limit { (1 ≤ limit) × (limit < 2 ^ 63 - 1) }
    ensures pass { IfOk result (λ sharing. IsPassOf sharing.shared.cell sharing.first) }
    ensures first { IfOk result (λ sharing. known sharing.first ≡ beginning volume) }
    ensures on { IfOk result (λ sharing. (number : ℕ) → suc number < length volume.lanes →
        IsSomeAnd (known sharing.first).start
        (IsOn sector_of number sharing.keys sharing.shape)) }
    ensures has { IfOk result (λ sharing. IsSome volume.work → (number : ℕ) →
        suc number ≡ length volume.lanes →
        IsSomeAnd (known sharing.first).start (HasWorker number)) }
    ensures converted { IfOk result (λ sharing. sharing.converted ≡ converted_in volume.map) }
    ensures limit { IfOk result (λ sharing. sharing.shared.cell.limit ≡ limit) }
    ensures back { IfErr result (λ same. same ≡ volume) }
{
    let keys = volume.keys();
    let Map { atom, blocks, .. } = volume.map();
    let shape = Shape { atom, blocks };
    let converted = converted_of(&volume);
    let cuts = !keys.old.is_linear() || !keys.new.is_linear();
    match Cell::new(alloc, SharedVolume::of(alloc, volume), limit) {
        Ok((cell, first)) => Ok(Sharing {
            shared: SharedCell {
                cell,
                departures: Departures::new(),
                sealers: Sealers::new(cuts),
            },
            first,
            keys,
            shape,
            converted,
        }),
        Err(AllocFailed { value }) => Err(value.into_volume()),
    }
}
