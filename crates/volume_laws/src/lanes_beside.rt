// What follows for lanes of clients on a volume that is converted meanwhile: a lane is known by its
// own calls alone, whatever steps of the worker stand between them. Each law is the contract of a
// function that does nothing; a proof above cites it by its call. They speak of histories of deeds,
// events of clients and steps of the worker in any order, as `volume_laws` speaks of runs of events
// alone, so they hold of any code whose calls are these.

mod laws;

pub use laws::{
    executions_join_beside, lanes_are_alone_beside, runs_are_deeds, workers_leave_clients,
};
