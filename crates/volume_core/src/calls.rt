// What an event of an operation under way does on the disk, and what it leaves of the operation.

ghost use Rattle.std.specs.Prelude.{◌≡◌, ◌<◌, ◌≤◌, ◌||◌, length, take};
ghost use Rattle.volume_core.specs.Answers.{buffer_of_read, buffer_of_written, KeepsBuffer};
ghost use Rattle.volume_core.specs.Answers.{outcome_of_read, outcome_of_settled};
ghost use Rattle.volume_core.specs.Answers.{outcome_of_written};
ghost use Rattle.volume_core.specs.Calls.{Fetches, Reads, Syncs, Writes};
ghost use Rattle.volume_machine.specs.Edges.{edge_at};
ghost use Rattle.volume_machine.specs.Effects.{is_fault};
ghost use Rattle.volume_machine.specs.Sound.{MapFits};
ghost use Rattle.volume_machine.specs.Steps.{CanFetch, CanRead, CanWrite};

use crate::answers::{PieceRead, PieceWritten, Settled};
use base_terms::{Buffer, Failed};
use sector_disk::{Disk, read_into};
use segment_map::Map;
use volume_machine::{Open, Prepared};

/// Reads the next piece of an operation into the front of a buffer. A read that fails breaks
/// nothing.
pub fn read_next<D: Disk>(
    disk: &mut D,
    map: Map,
    is_broken: bool,
    operation: &mut Open,
    buffer: Buffer,
    len: usize,
) -> PieceRead
    requires fits { MapFits map (D.device disk.old).atoms }
    requires atom { map.atom ≡ (D.device disk.old).size }
    requires inside { operation.old.range.end ≤ map.blocks }
    requires can { CanRead map len operation.old }
    requires front { len ≤ length buffer }
    ensures reads { Reads map is_broken operation.old (outcome_of_read len result) operation.new
        (D.device disk.old) (D.device disk.new) }
    ensures buffer { length (buffer_of_read result) ≡ length buffer }
    ensures kept { KeepsBuffer buffer result }
{
    if is_broken {
        *operation = operation.failing();
        return PieceRead::Broken(buffer);
    }
    let piece = map.next_piece(operation.rest());
    match read_into(disk, map.place(piece.first), buffer, len) {
        Ok(buffer) => {
            *operation = operation.moved(piece);
            PieceRead::Got(buffer)
        }
        Err(buffer) => {
            *operation = operation.failing();
            PieceRead::Device(buffer)
        }
    }
}

/// Reads an edge of an operation into the front of a buffer. A read that fails breaks nothing.
pub fn read_edge<D: Disk>(
    disk: &mut D,
    map: Map,
    is_broken: bool,
    operation: &mut Open,
    which: u32,
    buffer: Buffer,
) -> PieceRead
    requires fits { MapFits map (D.device disk.old).atoms }
    requires atom { map.atom ≡ (D.device disk.old).size }
    requires inside { edge_at map.atom operation.old.ask which < map.blocks }
    requires can { CanFetch map which operation.old }
    requires front { map.atom ≤ length buffer }
    ensures reads { Fetches map is_broken operation.old which (outcome_of_read map.atom result)
        operation.new (D.device disk.old) (D.device disk.new) }
    ensures buffer { length (buffer_of_read result) ≡ length buffer }
    ensures kept { KeepsBuffer buffer result }
{
    if is_broken {
        *operation = operation.failing();
        return PieceRead::Broken(buffer);
    }
    let block = operation.ask.edge(map.atom, which);
    match read_into(disk, map.place(block), buffer, map.atom as usize) {
        Ok(buffer) => {
            *operation = operation.fetching();
            PieceRead::Got(buffer)
        }
        Err(buffer) => {
            *operation = operation.failing();
            PieceRead::Device(buffer)
        }
    }
}

/// Writes the next piece of an operation. A write that fails breaks the volume.
pub fn write_next<D: Disk>(
    disk: &mut D,
    map: Map,
    broken: &mut bool,
    operation: &mut Open,
    prepared: Prepared,
) -> PieceWritten
    requires fits { MapFits map (D.device disk.old).atoms }
    requires atom { map.atom ≡ (D.device disk.old).size }
    requires inside { operation.old.range.end ≤ map.blocks }
    requires can { CanWrite map prepared.bytes operation.old }
    ensures writes { Writes map broken.old operation.old prepared.bytes (outcome_of_written result)
        operation.new (D.device disk.old) (D.device disk.new) }
    ensures breaks { broken.new ≡ (broken.old || is_fault (outcome_of_written result)) }
    ensures buffer { length (buffer_of_written result) ≡ prepared.room }
    ensures kept { take (length prepared.bytes) (buffer_of_written result) ≡ prepared.bytes }
{
    if *broken {
        *operation = operation.failing();
        return PieceWritten::Broken(prepared.into_buffer());
    }
    let piece = map.next_piece(operation.rest());
    match disk.write(map.place(piece.first), prepared.as_slice()) {
        Ok(()) => {
            *operation = operation.moved(piece);
            PieceWritten::Done(prepared.into_buffer())
        }
        Err(Failed) => {
            *broken = true;
            *operation = operation.failing();
            PieceWritten::Device(prepared.into_buffer())
        }
    }
}

/// Waits until every write so far is certain to be kept. A sync that fails breaks the volume.
pub fn sync_all<D: Disk>(disk: &mut D, broken: &mut bool, operation: &mut Open) -> Settled
    ensures syncs { Syncs broken.old operation.old (outcome_of_settled result) operation.new
        (D.device disk.old) (D.device disk.new) }
    ensures breaks { broken.new ≡ (broken.old || is_fault (outcome_of_settled result)) }
{
    if *broken {
        *operation = operation.failing();
        return Settled::Broken;
    }
    match disk.sync() {
        Ok(()) => {
            *operation = operation.settling();
            Settled::Done
        }
        Err(Failed) => {
            *broken = true;
            *operation = operation.failing();
            Settled::Device
        }
    }
}
