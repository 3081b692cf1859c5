// What the end of a conversion leaves of a volume that clients used meanwhile: laws alone. Once the
// worker came to its end the disk's bytes have the last header, by which nothing is converted, and each
// block is on the new side and holds the newest value that clients gave it. Each law is the contract of
// a function that does nothing; a proof above cites it by its call. `volume_laws` says of this end
// what the map and the header are, `volume_laws` what a stop leaves before it.

mod laws;

pub use laws::conversions_end_beside_clients;
