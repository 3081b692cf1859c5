// What follows for the operations of clients whose volume a worker converts meanwhile, for every history
// of deeds, in which steps of the worker stand between the clients' events: which operations have
// failed and which reply they get, when the volume breaks, that all are served where no count of faults
// moves, what a stop leaves behind each of the deeds, and which tables the disk tells. Each law is the
// contract of a function that does nothing; a proof above cites it by its call. `volume_laws` says this
// of runs of clients' events alone.

mod laws;

pub use laws::{
    deeds_fail_by_faults, deeds_stop_anywhere, device_errors_are_exact, failures_go_by_deeds,
    tables_are_of_deeds,
};
