//! What a JSON format over `serde_json` is read and written by. An `Object` holds the members of a
//! JSON object: a reader of a format takes the members that the format names out of it, each by
//! the reader of its kind, and keeps the object with all others, so that writing gives them back
//! as they were read. A number of 64 bits may stand as a text of decimal digits, bytes as a text in
//! base64 (RFC 4648, section 4), and a list of objects as an object whose keys are their numbers.
//! JSON itself is read and written by `serde_json` (RFC 8259).
//!
//! The layer above may rely on one definition a kind: what the members of an object are read as,
//! or the first fault in them with its path. A reader returns exactly that, or `Memory`. And it may
//! rely on one way back: what is put is found, and taken out again.
#![tactic(auto)]

mod decimal;
mod entries;
mod faults;
mod fields;
mod floats;
mod laws;
mod listed;
mod object;
mod optional;
mod text;
mod writing;

pub use decimal::{decimal_number, decimal_text};
pub use entries::{Entry, copy_entries};
pub use faults::{JsonFault, JsonFaultKind, ReadError, fault_at, path_of};
pub use fields::{
    bytes_at, decimal_at, decimals_at, number_at, object_at, own_text_at, take_object, text_at,
    texts_at, word_at,
};
pub use floats::{any_float, first_float};
pub use laws::{members_are_read_by_form, other_members_are_kept, put_members_are_found};
pub use listed::Listed;
pub use object::{Object, copy_members};
pub use optional::{optional_object_at, optional_texts_at};
pub use text::{Text, copy_bytes, copy_numbers, copy_texts};
pub use writing::{
    put_bytes, put_decimal, put_decimals, put_number, put_object, put_text, put_texts,
};
