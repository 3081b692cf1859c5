// One cipher, measured in short bursts, the best of which counts: another job on the machine makes
// a burst longer and never shorter.

ghost use Rattle.std.specs.Prelude.{◌≡◌, ◌%◌, ◌<◌, ◌≤◌, length};

use bulk_seal::{seal_many, unseal_many};
use cipher_laws::SectorCipher;
use sector_cipher::Context;
use std::io;
use std::thread::Threads;
use std::time::{Clock, Duration, Instant};

/// How long the best burst of sealing took, and the best of unsealing.
#[derive(Clone, Copy)]
pub struct Times {
    pub sealed: Duration,
    pub unsealed: Duration,
}

/// The rounds in a burst in one thread.
pub const ROUNDS: u32 = 4;

/// Seals and unseals the bytes again and again, [`ROUNDS`] times in a burst.
pub fn time_alone(
    clock: &impl Clock,
    cipher: &Context,
    bytes: &mut [u8],
    bursts: u32,
) -> io::Result<Times>
    requires { length bytes.old % ⟦<Context as SectorCipher>⟧.sector cipher.now ≡ 0 }
{
    let mut best = Times {
        sealed: Duration::MAX,
        unsealed: Duration::MAX,
    };
    for _ in 0..bursts {
        let start = Instant::now(clock)?;
        for _ in 0..ROUNDS {
            cipher.seal_atom(0, bytes);
        }
        let middle = Instant::now(clock)?;
        for _ in 0..ROUNDS {
            cipher.unseal_atom(0, bytes);
        }
        let unsealed = middle.elapsed(clock)?;
        best = better(best, middle.duration_since(start), unsealed);
    }
    Ok(best)
}

/// Seals and unseals the bytes, which are atoms of 4096, in so many parts.
pub fn time_parts<R: Clock + Threads + Sync>(
    rt: &R,
    cipher: &Context,
    bytes: &mut [u8],
    bursts: u32,
    parts: usize,
) -> io::Result<Times>
    requires sectors { 4096 % ⟦<Context as SectorCipher>⟧.sector cipher.now ≡ 0 }
    requires whole { length bytes.old % 4096 ≡ 0 }
    requires parts { (0 < parts) × (parts ≤ 16) }
{
    let mut best = Times {
        sealed: Duration::MAX,
        unsealed: Duration::MAX,
    };
    for _ in 0..bursts {
        let start = Instant::now(rt)?;
        seal_many(rt, cipher, 0, 4096, bytes, parts);
        let middle = Instant::now(rt)?;
        unseal_many(rt, cipher, 0, 4096, bytes, parts);
        let unsealed = middle.elapsed(rt)?;
        best = better(best, middle.duration_since(start), unsealed);
    }
    Ok(best)
}

// The better times of the two.
fn better(best: Times, sealed: Duration, unsealed: Duration) -> Times {
    Times {
        sealed: best.sealed.min(sealed),
        unsealed: best.unsealed.min(unsealed),
    }
}

/// The MiB in a second, where so many bytes took so long.
pub fn rate(bytes: u64, time: Duration) -> u128 {
    u128::from(bytes) * 1_000_000_000 / (1024 * 1024) / time.as_nanos().max(1)
}
