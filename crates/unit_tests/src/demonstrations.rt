ghost use Rattle.plain_disk.specs.Outcomes.{IsReplyTo};

use crate::same::same;
use base_terms::Bytes;
use demo_clients::{demo_text, scripts};
use nbd_session::{Export, Port, Submitted, serve_session};
use plain_disk::{Op, PlainDisk, Reply};
use sha2::{Digest, Sha256};
use std::alloc::{AllocError, Global};
use std::test::Fail;

/// A plain disk on which sessions are served.
#[derive(Drop)]
struct Plain {
    disk: PlainDisk,
}

/// The reply, where the operation may be answered so, and error 5 else.
fn fitting(op: &Op, reply: Reply) -> Reply
    ensures { IsReplyTo op.now result }
{
    match (op, reply) {
        (Op::Read { offset, length }, Reply::Content(bytes)) => {
            let fits = bytes.len() == *length as usize
                && *length <= 33_554_432
                && *offset <= u64::MAX - 33_554_432;
            if fits {
                Reply::Content(bytes)
            } else {
                Reply::Errno(5)
            }
        }
        (Op::Write { .. } | Op::Zeroes { .. } | Op::Flush, Reply::Done) => Reply::Done,
        _ => Reply::Errno(5),
    }
}

impl Port for Plain {
    ghost did = { λ _ _ _. Unit {0} };

    ghost is_spent = { λ _. Unit {0} };

    ghost usable = { λ _. Unit {0} };

    fn submit(&mut self, alloc: Global, op: Op, spare: Bytes) -> Result<Submitted, AllocError> {
        let reply = self.disk.step(alloc, &op)?;
        Ok(Submitted::Replied(fitting(&op, reply), spare))
    }

    ghost did_none = { λ _. tt };

    ghost did_more = { λ _ _ _ _ _ _ _. tt };
}

const EXPORT: Export = Export {
    number: 0,
    size: 32_768,
    atom: 512,
};

/// What a plain disk of 64 blocks holds behind the sessions of four clients.
fn content(alloc: Global) -> Result<Vec<u8>, AllocError> {
    let mut plain = Plain {
        disk: PlainDisk::new(alloc, 512, 64)?,
    };
    for (mut source, mut sink) in scripts(alloc, 5, 64, 4)? {
        serve_session(alloc, &mut source, &mut sink, &mut plain, &EXPORT);
    }
    let mut content = Vec::new(alloc);
    for block in 0..plain.disk.blocks() {
        content.extend_from_slice(plain.disk.newest(block))?;
    }
    Ok(content)
}

/// What `reencd demo --seed 5 --blocks 64 --workers 4` prints.
const PRINTED: &str = "demo seed 5 blocks 64 workers 4\n\
    writes 64\n\
    reads 64\n\
    sha256 bbeb31e5d44e5a950b3014a5ad12c9b6e67d8446ad023e54ec0f62324f0e8cc4\n\
    state idle\n";

#[test]
fn a_plain_disk_holds_what_the_demonstration_tells(rt: HostRuntime) -> Result<(), Fail> {
    let digest = Sha256::digest(content(rt.alloc())?.as_slice());
    let text = demo_text(rt.alloc(), 5, 64, 4, &digest)?;
    same(&rt, text.as_str(), PRINTED);
    Ok(())
}
