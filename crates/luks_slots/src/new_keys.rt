// A new key of a LUKS2 volume (LUKS2 On-Disk Format Specification 1.1): which of the drawn bytes
// are spent for it, for the salt and the stripes of its keyslot and for the salt of its digest,
// and that digest.
//
// The layer above may rely on two definitions. `drawn_by` deals the drawn bytes out, in one order
// from the front, and [`split_drawn`] spends each of the first of them once and hands the others
// back. `digest_for` is the digest of a key, under a salt, for the keyslots that hold the key and
// the segments that are under it, which [`make_digest`] makes exactly: the key is told right by
// it, and it has a text. Nothing is read, written or drawn here.

mod digest;
mod drawn;

pub use digest::make_digest;
pub use drawn::{Drawn, drawn_len, split_drawn};
