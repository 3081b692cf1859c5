//! A conversion on its way: one zone of a volume after the other is led from the old segment to the
//! new one, while the volume is in use, one device call a step (LUKS2 On-Disk Format Specification
//! 1.1, section 3.4). A zone is the run of old blocks beside the boundary for which what guards it
//! has room. It is synced, its old atoms are read, and they or their digests are saved, part by part
//! of at most 1 MiB, where no digest is that of the new atom too; a commit opens it; its atoms are
//! written anew under the new segment's key; and a commit moves the boundary over it. Behind the last
//! zone the finished metadata are committed, and the areas of dropped keyslots, but for the one that
//! guarded zones, are filled with zeros.
//!
//! The layer above may rely on [`Zone`]: [`Zone::range`] are the blocks that it must keep for the
//! zone while its steps go on, and [`Zone::step`] makes exactly the device call that the state names,
//! with the bytes that it names, and leads to the next state. [`Zone::map`] is where the volume's
//! blocks lie between two steps, and [`Zone::is_working`] what is known of the state then. All that
//! takes memory is made before the first write of a zone, or of the finish. A step that isn't made,
//! or has failed, leaves its call in the state, and how it left the conversion ([`Halt`]); one that
//! was given up may begin [`Zone::again`]. And it may rely on the laws of `zone_events`: each step of a
//! zone is one that the volume's machine allows its worker.
#![tactic(auto)]

mod beside;
mod digests;
mod ending;
mod finish;
mod headers;
mod laws;
mod parts;
mod saving;
mod scratch;
mod site;
mod steps;
mod worker;
mod zone;
mod zone_events;

pub use headers::{make_headers, open_header, turn_header};
pub use laws::steps_are_of_zones;
pub use parts::reseal;
pub use site::{Guard, Site, next_site};
pub use worker::{Ending, Halt, Headers, NextCall, NextHeader, Stepped, Wipes, Worker, ZoneFault};
pub use zone::Zone;
pub use zone_events::{
    maps_follow, sides_are_told, sizes_are_told, steps_are_works, zones_are_planned,
    zones_begin_in_order,
};
