// The outside of the demonstration, and the words of its commands.

ghost use Rattle.std.specs.Prelude.{◌≡◌, ◌<◌, ◌≤◌, IfOk, length};
ghost use Rattle.command_line.specs.Commands.{IsServing, serving};
ghost use Rattle.command_line.specs.Demonstrations.{IsDemonstrating, demonstrating};
ghost use Rattle.command_line.specs.Formats.{IsFormatting, formatting};
ghost use Rattle.command_line.specs.Starts.{IsStarting, starting};
ghost use Rattle.demo_clients.specs.SureSupplies.{sure_supply};
ghost use Rattle.reenc_tool.specs.Demonstrating.{
  IsDemoBay,
  IsDemoSupply,
  demo_formatting,
  demo_segment,
  demo_serving,
  demo_starting,
  seed_byte,
  seed_bytes,
};

use command_line::{Demo, Format, Guard, Init, NewSegment, Serve};
use demo_clients::{DEMO_NAME, DemoBay, SureSeeds, scripts};
use io_edge::FixedSeeds;
use luks_meta::{Cipher, Direction};
use memory_disks::RamDisk;
use std::alloc::{AllocError, Global};

/// The atoms in front of the data, which begin at byte 1048576.
const FRONT_ATOMS: u64 = 2048;

/// How many bytes the seeds have.
const SEED_BYTES: usize = 256;

/// How the data are encrypted, the old ones and the new ones.
fn segment() -> NewSegment
    ensures { result ≡ demo_segment }
{
    NewSegment {
        cipher: Cipher::AesXtsPlain64,
        key_size: 64,
        sector_size: 512,
        iterations: 1000,
    }
}

/// The words by which its volume is made.
pub fn format_words() -> Format<'static>
    ensures words { formatting result ≡ demo_formatting }
    ensures bounded { IsFormatting (formatting result) }
{
    Format {
        disk: DEMO_NAME,
        header: None,
        key_file: DEMO_NAME,
        atom: 512,
        segment: segment(),
        data_offset: 1_048_576,
        metadata_size: 16_384,
        identifier: None,
    }
}

/// The words by which its conversion is begun.
pub fn init_words() -> Init<'static>
    ensures words { starting result ≡ demo_starting }
    ensures bounded { IsStarting (starting result) }
{
    Init {
        disk: DEMO_NAME,
        key_file: DEMO_NAME,
        atom: 512,
        segment: segment(),
        resilience: Guard::Checksum,
        direction: Direction::Forward,
        hotzone_size: 65_536,
        drop_keyslots: false,
    }
}

/// The words by which it is served to so many clients.
pub fn serve_words(workers: u32) -> Serve<'static>
    requires some { 0 < workers }
    requires few { workers ≤ 16 }
    ensures words { serving result ≡ demo_serving workers }
    ensures bounded { IsServing (serving result) }
{
    Serve {
        disk: DEMO_NAME,
        key_file: Some(DEMO_NAME),
        atom: 512,
        address: DEMO_NAME,
        workers,
        sessions: workers,
        converts: true,
        idle_timeout: None,
        verbose: false,
    }
}

/// One of the 256 bytes of a seed: those of the number, its lowest one first, and then 0 to 247.
fn seed_byte(seed: u64, i: usize) -> u8
    requires { i < 256 }
    ensures { result ≡ seed_byte seed i }
{
    if i < 8 {
        ((seed >> (8 * i)) % 256) as u8
    } else {
        (i - 8) as u8
    }
}

/// All of them, each so much more.
fn seed_bytes(alloc: Global, seed: u64, more: u8) -> Result<Vec<u8>, AllocError>
    ensures bytes { IfOk result (λ bytes. bytes.items ≡ seed_bytes seed more) }
    ensures count { IfOk result (λ bytes. length bytes.items ≡ 256) }
{
    let mut bytes = Vec::new(alloc);
    for i in 0..SEED_BYTES {
        bytes.push(seed_byte(seed, i).wrapping_add(more))?;
    }
    Ok(bytes)
}

/// Seeds that give the bytes of a seed again and again, each so much more, and never fail.
#[tactic(auto, using(crate::proofs::DemoSeeds::supplied))]
fn seeds_of(alloc: Global, seed: u64, more: u8) -> Result<SureSeeds, AllocError>
    ensures { IfOk result (λ seeds. IsDemoSupply seed more (sure_supply seeds)) }
{
    let bytes = seed_bytes(alloc, seed, more)?;
    let seeds = FixedSeeds::new(alloc, bytes.as_slice(), &[])?;
    Ok(SureSeeds::new(seeds))
}

/// The bay of the demonstration, with its disk and its clients.
fn bay_for(alloc: Global, words: &Demo) -> Result<DemoBay, AllocError>
    requires { IsDemonstrating (demonstrating words.now) }
    ensures { IfOk result (IsDemoBay (demonstrating words.now)) }
{
    let disk = RamDisk::new(alloc, 512, FRONT_ATOMS + words.blocks as u64)?;
    let clients = scripts(alloc, words.seed, words.blocks, words.workers)?;
    DemoBay::new(alloc, disk, clients)
}

/// What the commands of the demonstration are given.
#[derive(Drop)]
pub struct Setting {
    pub bay: DemoBay,
    /// The random bytes of `format`.
    pub first: SureSeeds,
    /// Those of `init`.
    pub second: SureSeeds,
}

/// The bay and the seeds of a demonstration.
pub fn setting_for(alloc: Global, words: &Demo) -> Result<Setting, AllocError>
    requires { IsDemonstrating (demonstrating words.now) }
    ensures bay { IfOk result (λ setting. IsDemoBay (demonstrating words.now) setting.bay) }
    ensures first { IfOk result (λ setting.
        IsDemoSupply words.now.seed 0 (sure_supply setting.first)) }
    ensures second { IfOk result (λ setting.
        IsDemoSupply words.now.seed 1 (sure_supply setting.second)) }
{
    let bay = bay_for(alloc, words)?;
    let first = seeds_of(alloc, words.seed, 0)?;
    let second = seeds_of(alloc, words.seed, 1)?;
    Ok(Setting { bay, first, second })
}
