// What follows for a conversion that is led beside clients, by the answers of its worker: once the
// worker was told that no step is left, every block is new by a header that converts nothing, whatever
// clients did meanwhile and since. Each law is the contract of a function that does nothing; a proof
// above cites it by its call. They speak of deeds, events of clients and steps of the worker in any
// order, so they hold of any code whose calls are these.

mod laws;

pub use laws::conversions_end_beside;
