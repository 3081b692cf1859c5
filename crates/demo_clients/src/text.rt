ghost use Rattle.std.specs.Prelude.{◌≡◌, IfOk, string_bytes};
ghost use Rattle.demo_clients.specs.Texts.{demo_text};

use std::alloc::{AllocError, Global};

/// What the demonstration prints: `demo seed n blocks m workers k`, `writes m`, `reads m`, `sha256
/// H` with the digest in lower-case hexadecimal, and `state idle`, each with a line feed.
pub fn demo_text(
    alloc: Global,
    seed: u64,
    blocks: u32,
    workers: u32,
    digest: &[u8; 32],
) -> Result<String, AllocError>
    ensures { IfOk result
        (λ text. string_bytes text ≡ demo_text seed blocks workers digest.now) }
{
    let sum = hex::encode(alloc, digest)?;
    format!(in alloc;
        "demo seed {seed} blocks {blocks} workers {workers}\nwrites {blocks}\nreads {blocks}\nsha256 {sum}\nstate idle\n"
    )
}
