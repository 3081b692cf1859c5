//! A volume as a machine of events, without its code: its state between two events, what each event
//! asks of it and leaves of it (`Meets` and `Step` of `specs/`), runs of events, and the operations
//! that are answered in them. Beside these stand the types that the state is made of: what an
//! operation asks for, an operation under way, the keys of the two sides, and a piece that is
//! sealed for a write. The crate that has the disk in hand shows that each of its calls is a
//! `Step`; the laws on runs are shown beside it from `Step` alone.
#![tactic(auto)]

mod ask;
mod grant;
mod keys;
mod laws;
mod open;
mod prepared;
mod sealers;

pub use ask::Ask;
pub use grant::Grant;
pub use keys::Keys;
pub use laws::{events_have_effects, volumes_stay_sound};
pub use open::{Open, open_of, set_lane};
pub use prepared::Prepared;
pub use sealers::Sealers;
