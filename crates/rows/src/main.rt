//! The rows of the program's tests: scripts of commands on disks, keys and clients in memory, all of
//! which go through its `run`, and what comes of them. A script is a file of `data/`, in the language of
//! `test_script`; the words of this program's command line name those that are shown, without words
//! all are.
#![tactic(auto)]

mod beginnings;
mod tool;

use anyhow::Result;
use std::env;
use test_script::show_script;
use tool::Tool;

/// The scripts, in the order in which they are shown.
const SCRIPTS: [&str; 18] = [
    "words.rows",
    "vectors.rows",
    "headers.rows",
    "copies.rows",
    "slots.rows",
    "metadata.rows",
    "status.rows",
    "handshakes.rows",
    "sessions.rows",
    "encrypted.rows",
    "midway.rows",
    "format.rows",
    "init.rows",
    "resume.rows",
    "zones.rows",
    "serving.rows",
    "crowd.rows",
    "slips.rows",
];

fn main(rt: HostRuntime) -> Result<()> {
    let words: Vec<String> = env::args(&rt)?.skip(1).collect(rt.alloc())?;
    let tool = Tool { alloc: rt.alloc() };
    if words.is_empty() {
        for script in SCRIPTS {
            show_script(&rt, &rt, &tool, script)?;
        }
    }
    for script in words {
        show_script(&rt, &rt, &tool, script.as_str())?;
    }
    Ok(())
}
