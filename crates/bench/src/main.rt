//! Benchmarks of ciphers, of key derivation and of the cell. Without a word each does a little, and
//! prints the same text each time.
//!
//! - `ciphers [BURSTS [PARTS]]`: seals and unseals so many short bursts under each cipher, and prints a
//!   table of the best rates, in MiB a second; with a number of parts besides, 1 to 16, also those of a
//!   MiB that so many threads work on;
//! - `keys [ROUNDS]`: derives one block under each hash function in so many rounds, and prints how many
//!   rounds a second that was, to be set beside another implementation in the same run;
//! - `cell [TURNS]`: has one, two and four threads ask a cell that often each, and then lock a mutex
//!   around the same machine that often each, and prints the turns a second of both; `cell sleep TURNS`
//!   has two threads ask a cell whose machine sleeps a millisecond at each turn, so that a script can
//!   measure the processor time of threads that wait.
#![tactic(auto)]

mod cell;
mod ciphers;
mod keys;
mod measure;

use anyhow::{Context, Result, anyhow};
use std::env;

fn number_in(word: &String) -> Result<u32> {
    word.as_str().parse().context("the word is no number")
}

fn main(rt: HostRuntime) -> Result<()> {
    let words: Vec<String> = env::args(&rt)?.skip(1).collect(rt.alloc())?;
    let Some((first, rest)) = words.as_slice().split_first() else {
        ciphers::try_all(&rt)?;
        keys::try_both(&rt)?;
        return Ok(cell::try_turns(&rt)?);
    };
    match (first.as_str(), rest) {
        ("ciphers", []) => ciphers::try_all(&rt),
        ("ciphers", [bursts]) => ciphers::measure_all(&rt, rt.alloc(), number_in(bursts)?, None),
        ("ciphers", [bursts, parts]) => {
            let parts = number_in(parts)? as usize;
            ciphers::measure_all(&rt, rt.alloc(), number_in(bursts)?, Some(parts))
        }
        ("keys", []) => Ok(keys::try_both(&rt)?),
        ("keys", [rounds]) => keys::measure_both(&rt, number_in(rounds)?),
        ("cell", []) => Ok(cell::try_turns(&rt)?),
        ("cell", [turns]) => Ok(cell::measure(&rt, number_in(turns)?)?),
        ("cell", [sleep, turns]) if sleep.as_str() == "sleep" => {
            Ok(cell::measure_sleep(&rt, number_in(turns)?)?)
        }
        _ => Err(anyhow!("words are ciphers, keys or cell, and their numbers")),
    }
}
