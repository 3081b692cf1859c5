// What follows for every run of a volume's worker alone, step after step up to an end: by that end
// the volume is converted, stays in use as far as it is, or is broken. And what is left of the rest of
// the disk behind each deed of a conversion, also where events of clients stand between the worker's
// steps. Each law is the contract of a function that does nothing; a proof above cites it by its call.
// How the steps come about, by a volume at hand or by one that threads share, is not said here.

mod laws;

pub use laws::{conversions_end, deeds_leave_the_rest, works_leave_the_rest};
