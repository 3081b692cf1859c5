// The keys of a conversion's sides by the headers that come one after another: laws alone. Where a
// header tells of a side what another one tells ([`hotzone::sides_are_told`]), and the areas of
// the keyslots that give its key hold the same, they give the same key to each passphrase, which is
// one of its digest by both, and seals the same in the same place. So a passphrase that opens a
// volume before a conversion goes on opens it behind that. Each law is the contract of a function
// that does nothing; a proof above cites it by its call.

mod laws;

pub use laws::sides_give_their_keys;
