// The stream of known seeds, from the cipher's own standard.

use crate::same::{same, same_bytes};
use seed_stream::stretch;
use std::alloc::{AllocError, Global};
use std::process::Abort;
use std::test::Fail;

struct Case {
    // bytes 1 and 31 of a seed of zeros
    second: u8,
    last: u8,
    block: usize,
    bytes: &'static str,
}

// RFC 8439, appendix A.1, test vectors 1 to 4: a block under a key.
const CASES: [Case; 4] = [
    Case {
        second: 0,
        last: 0,
        block: 0,
        bytes: "76b8e0ada0f13d90405d6ae55386bd28bdd219b8a08ded1aa836efcc8b770dc7da41597c5157488d7724e03fb8d84a376a43b8f41518a11cc387b669b2ee6586",
    },
    Case {
        second: 0,
        last: 0,
        block: 1,
        bytes: "9f07e7be5551387a98ba977c732d080dcb0f29a048e3656912c6533e32ee7aed29b721769ce64e43d57133b074d839d531ed1f28510afb45ace10a1f4b794d6f",
    },
    Case {
        second: 0,
        last: 1,
        block: 1,
        bytes: "3aeb5224ecf849929b9d828db1ced4dd832025e8018b8160b82284f3c949aa5a8eca00bbb4a73bdad192b5c42f73f2fd4e273644c8b36125a64addeb006c13a0",
    },
    Case {
        second: 0xff,
        last: 0,
        block: 2,
        bytes: "72d54dfbf12ec44b362692df94137f328fea8da73990265ec1bbbea1ae9af0ca13b25aa26cb4a648cb9b9d1be65b2c0924a66c54d545ec1b7374f4872e99f096",
    },
];

fn seed_of(case: &Case) -> [u8; 32] {
    let mut seed = [0; 32];
    seed[1] = case.second;
    seed[31] = case.last;
    seed
}

/// The hexadecimal digits of the bytes behind so many.
fn digits(alloc: Global, bytes: &[u8], before: usize) -> Result<String, AllocError> {
    hex::encode(alloc, &bytes[before.min(bytes.len())..])
}

/// Asserts that a stream under the case's seed has its block, and that of a block's last word what is
/// over is dropped.
fn has_block<R: Abort>(rt: &R, alloc: Global, case: &Case) -> Result<(), AllocError> {
    let (seed, before) = (seed_of(case), case.block % 3 * 64);
    let bytes = stretch(alloc, &seed, before + 64)?;
    same(rt, bytes.len(), before + 64);
    same(rt, digits(alloc, &bytes, before)?.as_str(), case.bytes);
    let front = bytes.as_slice().get(..before + 61).unwrap_or(b"");
    same_bytes(rt, stretch(alloc, &seed, before + 61), front);
    Ok(())
}

#[test]
fn stretch_gives_the_blocks_of_the_standard(rt: HostRuntime) -> Result<(), Fail> {
    for case in &CASES {
        has_block(&rt, rt.alloc(), case)?;
    }
    Ok(())
}
