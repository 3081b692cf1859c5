//! Laws of crashes: what a kill or a loss of power leaves of a header's two copies, and of the
//! blocks of a conversion's zone, whichever device call it comes after. `areas` speaks of the
//! copies of a header while they are written, `zones` of a zone while it is converted and while it
//! is written again. Nothing here knows what the copies mean or which cipher a block is under.
#![tactic(auto)]

mod areas;
mod zones;

pub use areas::{
    commits_keep_headers, disks_have_one_header, first_headers_are_kept, fronts_are_kept,
    images_are_taken, openings_are_dated, repairs_keep_headers,
};
pub use zones::{
    zones_are_resumed, zones_are_told_by_atoms, zones_go_by_calls, zones_keep_contents, zones_stay,
};
