use crate::same::same;
use base_terms::Judged;
use resil_checksum::{capacity, clash, judge, save, saved_len};
use sha2::{Digest, Sha256};
use std::alloc::AllocError;

// What is saved of "abc" and "abd", by the digests that another implementation prints, in two lines
// of 32 bytes, and with the two that fill the last atom.
const SAVED: &str = "\
    ba7816bf8f01cfea414140de5dae2223b00361a396177a9cb410ff61f20015ad\
    a52d159f262b2c6ddb724a61840befc36eb30c88877a4030b65cbe86298449c9\
    0000";

#[test]
fn a_zone_has_a_block_for_each_whole_digest(rt: HostRuntime) {
    let blocks = [
        capacity(4096, 4096),
        capacity(4096, 512),
        capacity(63, 4096),
        capacity(31, 512),
        capacity(0, 512),
    ];
    same(&rt, blocks, [128, 128, 1, 0, 0]);
}

#[test]
fn digests_take_whole_atoms(rt: HostRuntime) {
    let lengths = [
        saved_len(0, 512),
        saved_len(1, 512),
        saved_len(16, 512),
        saved_len(17, 512),
        saved_len(128, 4096),
    ];
    same(&rt, lengths, [0, 512, 512, 1024, 4096]);
}

#[test]
fn saved_digests_are_those_of_another_implementation(rt: HostRuntime) -> Result<(), AllocError> {
    for parts in 1..4 {
        let mut out = [7; 66];
        save(&rt, b"abcabd", 3, &mut out, parts);
        same(&rt, hex::encode(rt.alloc(), &out)?.as_str(), SAVED);
    }
    Ok(())
}

#[test]
fn atoms_are_judged_by_their_digests(rt: HostRuntime) {
    same(&rt, judge(b"abd", &Sha256::digest(b"abd")), Judged::Old);
    same(&rt, judge(b"abd", &Sha256::digest(b"abc")), Judged::New);
}

#[test]
fn lowest_clash_is_found(rt: HostRuntime) {
    for parts in 1..5 {
        same(
            &rt,
            clash(&rt, b"abcabdabe", b"abxabdabe", 3, parts),
            Some(1),
        );
        same(&rt, clash(&rt, b"abcabd", b"abdabc", 3, parts), None);
        same(&rt, clash(&rt, b"", b"", 3, parts), None);
    }
}
