// Each cipher, key size and sector size in turn.

ghost use Rattle.std.specs.Prelude.{◌≡◌, ◌<◌, ◌≤◌, ◌%◌, IfOk};

use crate::measure::{ROUNDS, rate, time_alone, time_parts};
use anyhow::{Result, anyhow};
use cipher_laws::SectorCipher;
use sector_cipher::{Context, Spec};
use std::alloc::Global;
use std::io::Print;
use std::thread::Threads;
use std::time::Clock;

const KEY: [u8; 64] = *b"0123456789abcdefghijklmnopqrstuvwxyzABCDEFGHIJKLMNOPQRSTUVWXYZ-_";

// The names, and the bytes of a key.
const CIPHERS: [(&str, usize); 4] = [
    ("aes-xts-plain64", 32),
    ("aes-xts-plain64", 64),
    ("aes-cbc-essiv:sha256", 16),
    ("aes-cbc-essiv:sha256", 32),
];

// The bytes that one thread seals at a time: eight sectors of 4096, few enough for a near cache.
const PIECE: usize = 32768;

// The bytes that threads seal in parts.
const MANY: usize = 1024 * 1024;

// The cipher of this name, under a key of so many bytes, over sectors of 512 or 4096 bytes.
fn context_of(name: &str, key: usize, large: bool) -> Result<Context>
    ensures piece { IfOk result (λ c. 32768 % ⟦<Context as SectorCipher>⟧.sector c ≡ 0) }
    ensures atom { IfOk result (λ c. 4096 % ⟦<Context as SectorCipher>⟧.sector c ≡ 0) }
{
    if key > KEY.len() {
        return Err(anyhow!("there is no key of {key} bytes"));
    }
    let spec = Spec::read(name.as_bytes())?;
    let sector_size = if large { 4096 } else { 512 };
    Ok(Context::new(spec, &KEY[..key], sector_size)?)
}

/// Seals a piece under each cipher and unseals it, and prints that it came back.
pub fn try_all(rt: &impl Print) -> Result<()> {
    for (name, key) in CIPHERS {
        for large in [false, true] {
            let context = context_of(name, key, large)?;
            let mut bytes = [7u8; PIECE];
            context.seal_atom(1, &mut bytes);
            let changed = bytes != [7; PIECE];
            context.unseal_atom(1, &mut bytes);
            let back = bytes == [7; PIECE];
            let sector = if large { 4096 } else { 512 };
            println!(rt;
                "{name}, key of {key} bytes, sectors of {sector}: changed {changed}, back {back}"
            )?;
        }
    }
    Ok(())
}

/// Measures each cipher, and prints a table of the best rates: in one thread on 32 KiB at a time,
/// and where a number of parts is given, 1 to 16, also on a MiB in one part and in so many.
pub fn measure_all<R: Print + Clock + Threads + Sync>(
    rt: &R,
    alloc: Global,
    bursts: u32,
    parts: Option<usize>,
) -> Result<()> {
    println!(rt; "cipher key sector bytes parts seal unseal (MiB/s)")?;
    for (name, key) in CIPHERS {
        for large in [false, true] {
            let context = context_of(name, key, large)?;
            let sector = if large { 4096 } else { 512 };
            let label = format!(in alloc; "{name} {key} {sector}")?;
            measure_alone(rt, &label, &context, bursts)?;
            if let Some(parts) = parts {
                if parts == 0 || parts > 16 {
                    return Err(anyhow!("1 to 16 parts"));
                }
                measure_parts(rt, alloc, &label, &context, bursts, 1)?;
                measure_parts(rt, alloc, &label, &context, bursts, parts)?;
            }
        }
    }
    Ok(())
}

fn measure_alone(
    rt: &(impl Print + Clock),
    label: &str,
    context: &Context,
    bursts: u32,
) -> Result<()>
    requires { 32768 % ⟦<Context as SectorCipher>⟧.sector context.now ≡ 0 }
{
    let mut bytes = [7u8; PIECE];
    let times = time_alone(rt, context, &mut bytes, bursts)?;
    let moved = PIECE as u64 * u64::from(ROUNDS);
    let sealed = rate(moved, times.sealed);
    let unsealed = rate(moved, times.unsealed);
    println!(rt; "{label} {PIECE} 1 {sealed} {unsealed}")?;
    Ok(())
}

fn measure_parts<R: Print + Clock + Threads + Sync>(
    rt: &R,
    alloc: Global,
    label: &str,
    context: &Context,
    bursts: u32,
    parts: usize,
) -> Result<()>
    requires atom { 4096 % ⟦<Context as SectorCipher>⟧.sector context.now ≡ 0 }
    requires parts { (0 < parts) × (parts ≤ 16) }
{
    let mut bytes = vec![in alloc; 7u8; MANY]?;
    let times = time_parts(rt, context, &mut bytes, bursts, parts)?;
    let sealed = rate(MANY as u64, times.sealed);
    let unsealed = rate(MANY as u64, times.unsealed);
    println!(rt; "{label} {MANY} {parts} {sealed} {unsealed}")?;
    Ok(())
}
