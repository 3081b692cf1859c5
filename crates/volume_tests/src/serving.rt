use crate::same::same;
use bays::{Bay, Manner, MemBay, MemLink};
use block_server::{Served, Standing, serve};
use gates::OpenGate;
use io_edge::{ListSink, ListSource};
use memory_disks::RamDisk;
use nbd_session::{Ending, SessionEnd};
use std::alloc::{AllocError, Global};
use std::sync::Wait;
use std::test::Fail;
use std::thread::Threads;
use volume_core::Volume;

/// By the NBD protocol document: the client's flags, its option GO without a name, and the head of a
/// write of the second block of 512 bytes.
const OPENING: &[u8] = &[
    0, 0, 0, 3, 0x49, 0x48, 0x41, 0x56, 0x45, 0x4f, 0x50, 0x54, 0, 0, 0, 7, 0, 0, 0, 6, 0, 0, 0, 0,
    0, 0, 0x25, 0x60, 0x95, 0x13, 0, 0, 0, 1, 0, 0, 0, 0, 0, 0, 0, 5, 0, 0, 0, 0, 0, 0, 2, 0, 0, 0,
    2, 0,
];

/// A read of this block, and a disconnect.
const CLOSING: &[u8] = &[
    0x25, 0x60, 0x95, 0x13, 0, 0, 0, 0, 0, 0, 0, 0, 0, 0, 0, 6, 0, 0, 0, 0, 0, 0, 2, 0, 0, 0, 2, 0,
    0x25, 0x60, 0x95, 0x13, 0, 0, 0, 2, 0, 0, 0, 0, 0, 0, 0, 7, 0, 0, 0, 0, 0, 0, 0, 0, 0, 0, 0, 0,
];

/// The replies to the write and to the read, whose bytes follow.
const REPLIES: &[u8] = &[
    0x67, 0x44, 0x66, 0x98, 0, 0, 0, 0, 0, 0, 0, 0, 0, 0, 0, 5, 0x67, 0x44, 0x66, 0x98, 0, 0, 0, 0,
    0, 0, 0, 0, 0, 0, 0, 6,
];

/// A bay with one client, which writes a block and reads it.
fn make_bay(alloc: Global) -> Result<MemBay, Fail> {
    let mut script = Vec::new(alloc);
    script.extend_from_slice(OPENING)?;
    script.extend_from_slice(&[7; 512])?;
    script.extend_from_slice(CLOSING)?;
    let mut connections = Vec::new(alloc);
    connections.push((
        ListSource::new(alloc, script.as_slice(), 100, &[])?,
        ListSink::new(alloc, 4096, &[])?,
    ))?;
    let address = String::from_str(alloc, "a")?;
    Ok(MemBay::new(
        alloc,
        Vec::new(alloc),
        Vec::new(alloc),
        address,
        connections,
        Vec::new(alloc),
    ))
}

/// Serves it over one link on a plain disk.
fn serve_one<R: AllocGlobal + Threads + Wait + Sync>(
    rt: &R,
) -> Result<Served<RamDisk, MemLink>, Fail> {
    let alloc = rt.alloc();
    let mut bay = make_bay(alloc)?;
    let Ok(links) = bay.links(alloc, "a", 1, 1, Manner::QUIET) else {
        return Err(Fail::new("no links"));
    };
    let Ok(volume) = Volume::plain(alloc, RamDisk::new(alloc, 512, 8)?, 2) else {
        return Err(Fail::new("no volume"));
    };
    match serve(rt, alloc, volume, links, &OpenGate, 1 << 60, true) {
        Ok(served) => Ok(served),
        Err(_) => Err(Fail::new("no memory")),
    }
}

/// How many clients were served, and whether each of them disconnected and was put bytes that end so.
fn told(served: &Served<RamDisk, MemLink>, wanted: &[u8]) -> (u32, bool) {
    let (mut count, mut as_wanted) = (0_u32, true);
    for (link, ends) in served.links.iter().zip(&served.sessions) {
        for (client, end) in link.handed().iter().zip(ends) {
            as_wanted = as_wanted && is_usual(end) && client.1.as_slice().ends_with(wanted);
            count = count.wrapping_add(1);
        }
    }
    (count, as_wanted)
}

fn is_usual(end: &SessionEnd) -> bool {
    end.number == 0 && end.ending == Ending::Disconnected
}

/// The replies, with the block that is read.
fn replies(alloc: Global) -> Result<Vec<u8>, AllocError> {
    let mut replies = Vec::new(alloc);
    replies.extend_from_slice(REPLIES)?;
    replies.extend_from_slice(&[7; 512])?;
    Ok(replies)
}

#[test]
fn a_session_over_one_link_is_served(rt: HostRuntime) -> Result<(), Fail> {
    let served = serve_one(&rt)?;
    let replies = replies(rt.alloc())?;
    assert!(rt; served.standings.as_slice() == [Standing::Ended].as_slice());
    same(&rt, served.worker.is_none(), true);
    same(&rt, told(&served, &replies), (1, true));
    Ok(())
}
