// One link's worker.

ghost use Rattle.std.specs.Prelude.{◌≡◌, ◌<◌, ◌≤◌, [], None};
ghost use Rattle.block_server.specs.Workers.{HasWorked, IsReady};

use crate::link::{Standing, serve_link};
use crate::port::LanePort;
use base_terms::Buffer;
use bays::Link;
use gates::Gate;
use lane_plan::Shape;
use nbd_session::{Export, SessionEnd};
use sector_disk::Disk;
use shared_volume::{Lane, SharedCell};
use std::alloc::Global;
use std::sync::Wait;
use std::thread::Threads;

/// A link with its lane of the volume, and the ends of its sessions.
#[derive(Drop)]
pub struct Worker<D: Disk, L: Drop> {
    pub lane: Lane<D>,
    pub link: L,
    pub ends: Vec<SessionEnd>,
    pub standing: Standing,
    /// The session whose operation found the history full, once one did.
    pub left_by: Option<u64>,
}

impl<D: Disk, L: Drop> Worker<D, L> {
    /// A worker that has served nothing yet.
    pub fn new(alloc: Global, lane: Lane<D>, link: L) -> Worker<D, L>
        ensures lane { result.lane ≡ lane }
        ensures link { result.link ≡ link }
        ensures none { result.ends.items ≡ [] }
        ensures left { result.left_by ≡ None }
    {
        Worker {
            lane,
            link,
            ends: Vec::new(alloc),
            standing: Standing::Live,
            left_by: None,
        }
    }
}

impl<D: Disk, L: Link + Drop> Worker<D, L> {
    /// Serves the sessions of the link, which is the one of this number among so many, on the
    /// worker's lane of a volume of this shape. The first session has the number of the link, and
    /// each other one so many more than the one before.
    pub fn work<R: Threads + Wait + Sync, G: Gate>(
        self,
        rt: &R,
        alloc: Global,
        shared: &SharedCell<D>,
        gate: &G,
        shape: Shape,
        links: u32,
        number: u32,
    ) -> Worker<D, L>
        requires links { (number < links) × (links ≤ 16) }
        requires ready { IsReady L.state shared.now.cell links shape number self }
        ensures worked { HasWorked L.state shared.now.cell links shape number self result }
    {
        let Worker {
            lane,
            mut link,
            mut ends,
            ..
        } = self;
        let export = Export {
            number: u64::from(number),
            size: shape.blocks * u64::from(shape.atom),
            atom: shape.atom,
        };
        let mut port = LanePort {
            rt,
            shared,
            gate,
            lane,
            session: export.number,
            part: Buffer::empty(alloc),
            left_by: None,
        };
        let step = u64::from(links);
        let standing = serve_link(alloc, &mut link, &mut ends, &mut port, &export, step);
        let LanePort { lane, left_by, .. } = port;
        Worker {
            lane,
            link,
            ends,
            standing,
            left_by,
        }
    }
}
