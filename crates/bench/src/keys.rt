// Key derivation.

ghost use Rattle.std.specs.Prelude.{◌≤◌, ◌↔◌, IsTrue};

use anyhow::{Result, anyhow};
use pbkdf2_hmac::{Hash, MOST_ROUNDS, derive};
use std::io;
use std::time::Instant;

/// The rounds of the run without an argument.
const FEW_ROUNDS: u32 = 10;

const PASSWORD: &[u8] = b"correct horse battery staple";

const SALT: &[u8] = b"salt of thirty-two bytes, always";

/// Derives one block under `hash`, and prints it with the function's name.
fn show(rt: &HostRuntime, name: &str, hash: Hash) -> io::Result<()> {
    let mut key = [0u8; 64];
    let key = &mut key[..hash.digest_len()];
    derive(hash, PASSWORD, SALT, FEW_ROUNDS, key);
    let text = hex::encode(rt.alloc(), &*key)?;
    println!(rt; "{name} {FEW_ROUNDS} rounds {text}")
}

/// Derives one block under `hash` in `rounds` rounds, and prints the rounds a second.
fn measure(rt: &HostRuntime, name: &str, hash: Hash, rounds: u32) -> io::Result<()>
    requires some { 1 ≤ rounds }
    requires most { rounds ≤ MOST_ROUNDS }
{
    let mut key = [0u8; 64];
    let start = Instant::now(rt)?;
    derive(hash, PASSWORD, SALT, rounds, &mut key[..hash.digest_len()]);
    let seconds = start.elapsed(rt)?.as_secs_f64();
    let rate = rounds as f64 / seconds;
    println!(rt; "{name} {rate:.0} rounds a second")
}

/// Whether `derive` takes as many rounds.
fn is_taken(rounds: u32) -> bool
    ensures { IsTrue result ↔ ((1 ≤ rounds) × (rounds ≤ MOST_ROUNDS)) }
{
    1 <= rounds && rounds <= MOST_ROUNDS
}

/// Derives two short keys, and prints them.
pub(crate) fn try_both(rt: &HostRuntime) -> io::Result<()> {
    show(rt, "sha256", Hash::Sha256)?;
    show(rt, "sha512", Hash::Sha512)
}

/// Derives one block under each hash function in so many rounds, and prints the rounds a second.
pub(crate) fn measure_both(rt: &HostRuntime, rounds: u32) -> Result<()> {
    if !is_taken(rounds) {
        return Err(anyhow!("1 to {MOST_ROUNDS} rounds"));
    }
    measure(rt, "sha256", Hash::Sha256, rounds)?;
    measure(rt, "sha512", Hash::Sha512, rounds)?;
    Ok(())
}
