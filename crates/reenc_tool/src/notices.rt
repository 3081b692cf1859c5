// What people are told while a command goes on.

use gates::Gate;
use sector_disk::Disk;
use std::alloc::Global;

/// Says how many bytes lie behind the last whole atom of a disk, which clients and volumes never
/// reach; nothing where there are none, or where there is no memory for the line.
pub fn note_tail<D: Disk, G: Gate>(alloc: Global, gate: &G, name: &str, disk: &D) {
    let tail = disk.tail();
    if tail == 0 {
        return;
    }
    let atom = disk.atom();
    let line = if tail % 512 == 0 {
        format!(in alloc;
            "{name}: the last {tail} bytes aren't used: no whole atom of {atom} bytes \
            (--atom 512 uses them, where sectors have 512 bytes and the disk writes 512 bytes whole)"
        )
    } else {
        format!(in alloc;
            "{name}: the last {tail} bytes aren't used: no whole atom of {atom} bytes"
        )
    };
    if let Ok(line) = line {
        gate.notify(line.as_str());
    }
}

/// Says of a copy of the header that isn't as the other one that it is written anew by a command that
/// opens the volume, which this one doesn't.
pub fn note_copy<G: Gate>(alloc: Global, gate: &G, notice: Option<&'static str>) {
    let Some(notice) = notice else {
        return;
    };
    if let Ok(line) = format!(in alloc; "{notice}: serve, init and resume write it anew") {
        gate.notify(line.as_str());
    }
}
