//! What follows for every run of events of a volume, on whatever lanes and in whatever order. Each
//! law is the contract of a function that does nothing; a proof above cites it by its call. They
//! speak of the machine of events alone, so they hold of any code whose calls are its steps.
//!
//! `laws` speaks of runs of clients' events, `worker_laws` of a conversion's worker alone. The modules
//! whose names end in `beside` speak of both, in any order.
#![tactic(auto)]

mod conversions_beside;
mod converted_beside;
mod lanes_beside;
mod laws;
pub mod served_beside;
mod worker_laws;

pub use conversions_beside::conversions_end_beside;
pub use converted_beside::conversions_end_beside_clients;
pub use lanes_beside::{
    executions_join_beside, lanes_are_alone_beside, runs_are_deeds, workers_leave_clients,
};
pub use laws::{
    contents_are_one, conversions_keep_held_blocks, conversions_stand_where_they_stop,
    device_errors_are_exact, events_leave_other_lanes, events_leave_the_zone,
    every_conversion_is_served, every_run_is_served, executions_join, failures_go_by_events,
    images_stand, keys_seal_lawfully, lanes_are_alone, maps_are_apart, plain_volumes_start,
    runs_fail_by_faults, runs_leave_the_rest, runs_stop_anywhere, settled_volumes_are_covered,
    tables_are_of_events, volumes_start, workers_break_by_faults,
};
pub use worker_laws::{conversions_end, deeds_leave_the_rest, works_leave_the_rest};
