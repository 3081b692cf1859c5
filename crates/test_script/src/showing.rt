// What comes of the lines of a script.

use crate::digests::sum_of;
use crate::disks::{Shelf, calls_of, left_on};
use crate::lines::{Line, line_of};
use crate::metadata::show_metadata;
use crate::program::Program;
use crate::running::{Outcome, run_on};
use crate::setup::{Heard, told_of_words};
use crate::stops::Trial;
use crate::vectors::value_of;
use crate::world::{Next, World};
use anyhow::{Context, Result};
use memory_disks::MemDisk;
use std::fs;
use std::sync::Wait;
use std::thread::Threads;

/// The file of the names and the key files that all scripts have.
const NAMES: &str = "names";

/// Keeps what is left of a disk that was handed back, and shows its device calls and what is left,
/// unless less is told.
fn keep_disk(
    rt: &HostRuntime,
    what: &str,
    disk: Option<MemDisk>,
    left: &str,
    shelf: Option<&mut Shelf>,
    is_loose: bool,
) -> Result<()> {
    let (Some(disk), Some(shelf)) = (disk, shelf) else {
        return Ok(());
    };
    let calls = calls_of(&disk);
    shelf.bytes = left_on(rt.alloc(), disk, left)?;
    if !is_loose {
        let sum = sum_of(rt.alloc(), shelf.bytes.as_slice())?;
        println!(rt; "  {what}: {calls} calls, {sum}")?;
    }
    Ok(())
}

/// Shows lines behind a command.
fn show_texts(rt: &HostRuntime, before: &str, texts: &[String]) -> Result<()> {
    for text in texts {
        println!(rt; "  {before}{text}")?;
    }
    Ok(())
}

/// Shows a line behind a command, if there is one.
fn show_text(rt: &HostRuntime, text: &str) -> Result<()> {
    if !text.is_empty() {
        println!(rt; "  {text}")?;
    }
    Ok(())
}

/// Shows how a command ended, and its sessions.
fn show_outcome(rt: &HostRuntime, outcome: &Outcome, is_loose: bool) -> Result<()> {
    let Outcome {
        end,
        why,
        heard,
        ..
    } = outcome;
    let Heard {
        text,
        notices,
        course,
        met,
    } = heard;
    println!(rt; "  {} {text:?}", end.text)?;
    show_text(rt, why.as_str())?;
    show_texts(rt, "says ", notices.as_slice())?;
    if !is_loose {
        show_text(rt, course.as_str())?;
    }
    show_texts(rt, "", end.sessions.as_slice())?;
    show_text(rt, met)
}

/// Runs a command on the script's disks, and shows what comes of it.
fn show_run(
    rt: &HostRuntime,
    threads: &(impl Threads + Wait + Sync),
    program: &impl Program,
    world: &mut World,
    words: &str,
    is_loose: bool,
) -> Result<()> {
    let disks = world.take_disks(rt.alloc())?;
    let outcome = run_on(
        rt,
        threads,
        program,
        world,
        words,
        disks,
        world.next.clients.as_slice(),
    )?;
    show_outcome(rt, &outcome, is_loose)?;
    let Outcome { disk, header, .. } = outcome;
    let World { disks, next, .. } = world;
    let left = next.left.as_str();
    let mut shelves = disks.as_mut_slice().iter_mut();
    keep_disk(rt, "disk", disk, left, shelves.next(), is_loose)?;
    keep_disk(rt, "header", header, left, shelves.next(), is_loose)?;
    if words.starts_with("format") || words.starts_with("init") {
        world.first = world.first.wrapping_add(32);
    }
    Ok(())
}

/// A command that is tried on the script's disk.
fn trial<'a, P: Program>(
    rt: &'a HostRuntime,
    program: &'a P,
    world: &'a World,
    words: &'a str,
) -> Trial<'a, P> {
    Trial {
        rt,
        program,
        world,
        words,
    }
}

/// Does what a line says, and shows what comes of it.
fn do_line(
    rt: &HostRuntime,
    threads: &(impl Threads + Wait + Sync),
    program: &impl Program,
    world: &mut World,
    line: Line<'_>,
) -> Result<()> {
    let alloc = rt.alloc();
    match line {
        Line::Remark => return Ok(()),
        Line::Name { name, origin } => return world.name(rt, name, origin),
        Line::Disk {
            name,
            atom,
            atoms,
            byte,
        } => return world.make_disk(alloc, name, atom, atoms, byte),
        Line::Change { name, change } => return world.change(alloc, name, change),
        Line::Set(setting) => return world.set(alloc, setting),
        Line::Words(words) => {
            let told = told_of_words(alloc, words)?;
            println!(rt; "  {told}")?;
            return Ok(());
        }
        Line::Value(words) => {
            let value = value_of(alloc, &world.lexicon, words)?;
            println!(rt; "  {value}")?;
            return Ok(());
        }
        Line::Metadata(columns) => {
            let World { lexicon, stand, .. } = world;
            return show_metadata(rt, program, lexicon, stand, columns);
        }
        Line::Run(words) => show_run(rt, threads, program, world, words, false)?,
        Line::Loose(words) => show_run(rt, threads, program, world, words, true)?,
        Line::Stops(words) => trial(rt, program, world, words).show_stops(threads)?,
        Line::Faults(words) => trial(rt, program, world, words).show_faults(threads)?,
    }
    world.next = Next::new(alloc)?;
    Ok(())
}

/// Does the lines of a file in turn, and shows each that shows something, and behind it what comes
/// of it.
fn show_lines(
    rt: &HostRuntime,
    threads: &(impl Threads + Wait + Sync),
    program: &impl Program,
    world: &mut World,
    path: &str,
) -> Result<()> {
    let alloc = rt.alloc();
    let text = fs::read_to_string(rt, path).context("a script")?;
    for text in text.as_str().lines() {
        let line = line_of(alloc, text)?;
        if line.is_shown() {
            println!(rt; "{text}")?;
        }
        do_line(rt, threads, program, world, line)?;
    }
    Ok(())
}

/// Shows what a script of the scripts' folder comes to, behind the names that all scripts have. Its
/// commands run by these threads.
///
/// # Errors
///
/// It can't be read or shown, or a line of it has no meaning.
pub fn show_script(
    rt: &HostRuntime,
    threads: &(impl Threads + Wait + Sync),
    program: &impl Program,
    path: &str,
) -> Result<()> {
    let mut world = World::new(rt.alloc())?;
    println!(rt; "{path}")?;
    show_lines(rt, threads, program, &mut world, NAMES)?;
    show_lines(rt, threads, program, &mut world, path)
}
