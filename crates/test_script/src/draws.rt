// Requests of a client that are drawn (NBD protocol document, "Transmission phase").

use anyhow::{Result, anyhow};
use std::alloc::Global;

const WRITE: u16 = 1;

/// How many requests are drawn, and how many blocks the disk has.
const REQUESTS: u64 = 500;

const BLOCKS: u64 = 16;

/// The types of requests, each as often as it is to come: reads, writes, zeroes and flushes; the last
/// two aren't served.
const TYPES: [u16; 16] = [0, 0, 0, 0, 0, 0, 1, 1, 1, 1, 6, 6, 3, 3, 4, 65535];

/// No flag, FUA, NO_HOLE, DF, two of them, and one that isn't known.
const FLAGS: [u16; 16] = [0, 0, 0, 0, 0, 0, 0, 0, 1, 1, 1, 2, 4, 3, 5, 32768];

/// What is added to whole blocks, in bytes.
const STRAYS: [u16; 16] = [0, 0, 0, 0, 0, 0, 0, 0, 0, 0, 0, 0, 0, 0, 1, 512];

/// How many blocks a range has.
const LENGTHS: [u16; 16] = [0, 1, 1, 1, 2, 2, 3, 4, 0, 1, 1, 1, 2, 2, 3, 4];

/// Linear congruential numbers, which are the same in each run.
#[derive(Drop)]
struct Draws {
    state: u64,
}

impl Draws {
    fn word(&mut self) -> u64 {
        self.state = self
            .state
            .wrapping_mul(6_364_136_223_846_793_005)
            .wrapping_add(1_442_695_040_888_963_407);
        self.state
    }

    /// A number below 256, of the best bits.
    fn byte(&mut self) -> u8 {
        (self.word() >> 56) as u8
    }

    fn of(&mut self, choices: &[u16; 16]) -> u16 {
        choices[usize::from(self.byte() % 16)]
    }

    /// How many bytes so many blocks have, at times with a few more.
    fn bytes_of(&mut self, blocks: u64, atom: u64) -> u64 {
        let more = self.of(&STRAYS);
        blocks.wrapping_mul(atom).wrapping_add(u64::from(more))
    }

    /// Adds a request to a disk of blocks of `atom` bytes: mostly a range of it, or one that doesn't
    /// begin or end at a block, that passes the end, or that lies far beyond it.
    fn add_request(&mut self, atom: u64, bytes: &mut Vec<u8>) -> Result<()> {
        let place = u64::from(self.byte()) % (BLOCKS + 2);
        let near = self.bytes_of(place, atom);
        let is_far = self.byte() == 0;
        let blocks = self.of(&LENGTHS);
        let Ok(length) = u32::try_from(self.bytes_of(u64::from(blocks), atom)) else {
            return Err(anyhow!("a range of too many bytes"));
        };
        let flags = self.of(&FLAGS);
        let kind = self.of(&TYPES);
        let cookie = self.word();
        let offset = if is_far { u64::MAX - 4095 } else { near };
        bytes.extend_from_slice(&0x2560_9513_u32.to_be_bytes())?;
        bytes.extend_from_slice(&flags.to_be_bytes())?;
        bytes.extend_from_slice(&kind.to_be_bytes())?;
        bytes.extend_from_slice(&cookie.to_be_bytes())?;
        bytes.extend_from_slice(&offset.to_be_bytes())?;
        bytes.extend_from_slice(&length.to_be_bytes())?;
        if kind == WRITE {
            for _ in 0..length {
                bytes.push(self.byte())?;
            }
        }
        Ok(())
    }
}

/// Requests to a disk of 16 blocks of `atom` bytes.
pub(crate) fn drawn_requests(alloc: Global, seed: u64, atom: u64) -> Result<Vec<u8>> {
    if atom != 512 && atom != 4096 {
        return Err(anyhow!("blocks of {atom} bytes"));
    }
    let mut draws = Draws { state: seed };
    let mut bytes = Vec::new(alloc);
    for _ in 0..REQUESTS {
        draws.add_request(atom, &mut bytes)?;
    }
    Ok(bytes)
}
