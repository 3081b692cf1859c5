//! The tests of the public functions that headers and volumes in use need, in one crate, so that each
//! of their crates is proved once. There is nothing to run but the tests. Those of the crates below
//! them stand in unit_tests, which is proved long before these crates are.
//!
//! - `beginnings`: luks_init, where a conversion's areas come to lie and what stands in its way.
//! - `copies`: luks_store, commits and repairs on a disk, each call failing in turn.
//! - `formats`: luks_format, a new volume's header beside another implementation's.
//! - `headers`: luks_bin, copies that are written, changed and read, also one by cryptsetup.
//! - `placements`: reenc_meta, where the blocks of a volume lie.
//! - `serving`: block_server, one session over one link.
//!
//! `same` has what all of them assert.
#![tactic(auto)]

#[cfg(test)]
mod beginnings;
#[cfg(test)]
mod copies;
#[cfg(test)]
mod formats;
#[cfg(test)]
mod headers;
#[cfg(test)]
mod placements;
#[cfg(test)]
mod same;
#[cfg(test)]
mod serving;
