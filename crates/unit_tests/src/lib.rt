//! The tests of the lower crates' public functions, in one crate, so that each crate is proved once: a
//! crate that has tests is proved once more, with them. There is nothing to run but the tests. Those of
//! the crates of headers and volumes stand in volume_tests.
//!
//! Each module has those of one crate.
//!
//! - `bytes`: base_terms, bytes that are made, put in place and used again.
//! - `cells`: volume_cell, turns of one thread, of two passes and of many threads.
//! - `checksums`: resil_checksum, digests beside another implementation's.
//! - `ciphers`: aes_core, the vectors and the S-box of the cipher's standard.
//! - `courses`: host_edge, what people are told of a conversion on its way, and when.
//! - `demonstrations`: demo_clients, its sessions on a plain disk, which holds then what `demo` tells.
//! - `edges`: file_disk and host_edge, over a file and a network that refuse.
//! - `joining`: sector_disk, two disks as one: calls over the seam, each of either disk's failing in turn.
//! - `journals`: resil_journal, old atoms and the room for them.
//! - `locks`: range_lock, entries that are held and that wait.
//! - `maps`: segment_map, pieces, places and how far a conversion has come.
//! - `messages`: nbd_wire, the protocol's messages and the numbers of its names.
//! - `ranges`: base_terms, ranges that share a block.
//! - `sectors`: cipher_laws, blocks of a sector.
//! - `seeds`: seed_stream, the test vectors of the cipher's standard.
//! - `sessions`: nbd_session, whole sessions by a table, in `sessions/`, and one cut at each byte.
//! - `streams`: io_edge, streams of the system that fail in mid-stream.
//! - `workers`: reenc_worker, each end of a conversion behind calls that went on.
//!
//! `same` has what all of them assert.
#![tactic(auto)]

#[cfg(test)]
mod bytes;
#[cfg(test)]
mod cells;
#[cfg(test)]
mod checksums;
#[cfg(test)]
mod ciphers;
#[cfg(test)]
mod courses;
#[cfg(test)]
mod demonstrations;
#[cfg(test)]
mod edges;
#[cfg(test)]
mod joining;
#[cfg(test)]
mod journals;
#[cfg(test)]
mod locks;
#[cfg(test)]
mod maps;
#[cfg(test)]
mod messages;
#[cfg(test)]
mod ranges;
#[cfg(test)]
mod same;
#[cfg(test)]
mod sectors;
#[cfg(test)]
mod seeds;
#[cfg(test)]
mod sessions;
#[cfg(test)]
mod streams;
#[cfg(test)]
mod workers;
