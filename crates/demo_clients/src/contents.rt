// What the clients write, and which blocks each has.

ghost use Rattle.std.specs.Prelude.{◌≡◌, ◌+◌, ◌<◌, ◌≤◌, ◌++◌, OnOk};
ghost use Rattle.demo_clients.specs.Contents.{demo_block, share_count, share_of};

use std::alloc::AllocError;

/// How many bytes a block has.
pub(crate) const BLOCK: u32 = 512;

/// The blocks of one client: so many, from `first` on.
#[derive(Clone, Copy)]
pub(crate) struct Share {
    pub first: u32,
    pub count: u32,
}

/// The blocks of session `session` of `workers`, which have `blocks` among them.
pub(crate) fn share_at(session: u32, blocks: u32, workers: u32) -> Share
    requires blocks { blocks ≤ 16384 }
    requires workers { workers ≤ 16 }
    requires session { session < workers }
    ensures first { result.first ≡ share_of session blocks workers }
    ensures count { result.count ≡ share_count session blocks workers }
    ensures within { result.first + result.count ≤ blocks }
{
    let first = session * blocks / workers;
    let next = (session + 1) * blocks / workers;
    Share {
        first,
        count: next - first,
    }
}

/// Puts a block behind the bytes.
pub(crate) fn put_block(bytes: &mut Vec<u8>, seed: u64, block: u32) -> Result<(), AllocError>
    ensures { OnOk result (bytes.new.items ≡ bytes.old.items ++ demo_block seed block) }
{
    let first = seed % 256 + 7 * u64::from(block);
    for place in 0..u64::from(BLOCK) {
        bytes.push(((first + place) % 256) as u8)?;
    }
    Ok(())
}
