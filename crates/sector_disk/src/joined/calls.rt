// One call on two joined disks: the part of each, the head first, each marked before.

ghost use Rattle.std.specs.Prelude.{◌≡◌, ◌-◌, ◌*◌, ◌^◌, ◌<◌, length, min, None, is_some};
ghost use Rattle.sector_disk.specs.JoinedDisks.Joined.{in_front};
ghost use Rattle.sector_disk.specs.JoinedDisks.JoinedCalls.{BothRead, BothWritten, BothSynced};
ghost use Rattle.sector_disk.specs.Geometry.{IsInDisk};

use crate::Disk;
use base_terms::Failed;

/// How many of so many bytes from atom `at` on lie below atom `base`.
#[tactic(auto, using(crate::proofs::JoinedDisks::JointReads::cut_below))]
pub(crate) fn bytes_in_front(base: u64, atom: u32, at: u64, len: usize) -> usize
    requires { base * atom < 2 ^ 63 }
    ensures { result ≡ min (base * atom - at * atom) len }
{
    if at < base {
        let below = (base - at) as usize * atom as usize;
        if below < len { below } else { len }
    } else {
        0
    }
}

/// Reads from the head what lies on it, then the rest from the main disk.
pub(crate) fn read_both<D: Disk>(
    head: &mut Option<D>,
    main: &mut D,
    number: u64,
    at: u64,
    front: &mut [u8],
    behind: u64,
    back: &mut [u8],
) -> Result<(), Failed>
    requires sizes { (in_front D.device (D.device main.old).size head.old).size
        ≡ (D.device main.old).size }
    requires front { 0 < length front.old → IsInDisk (D.device main.old).size
        (in_front D.device (D.device main.old).size head.old).atoms at (length front.old) }
    requires back { IsInDisk (D.device main.old).size (D.device main.old).atoms
        behind (length back.old) }
    ensures head { is_some head.new ≡ is_some head.old }
    ensures both { BothRead (D.device main.old).size at behind front.new back.new number
        (in_front D.device (D.device main.old).size head.old)
        (in_front D.device (D.device main.old).size head.new)
        (D.device main.old) (D.device main.new) result }
{
    if let Some(disk) = head {
        if !front.is_empty() {
            disk.mark(number);
            disk.read(at, front)?;
            if back.is_empty() {
                return Ok(());
            }
        }
    }
    main.mark(number);
    main.read(behind, back)
}

/// Writes to the head what lies on it, then the rest to the main disk.
pub(crate) fn write_both<D: Disk>(
    head: &mut Option<D>,
    main: &mut D,
    number: u64,
    at: u64,
    front: &[u8],
    behind: u64,
    back: &[u8],
) -> Result<(), Failed>
    requires sizes { (in_front D.device (D.device main.old).size head.old).size
        ≡ (D.device main.old).size }
    requires front { 0 < length front.now → IsInDisk (D.device main.old).size
        (in_front D.device (D.device main.old).size head.old).atoms at (length front.now) }
    requires back { IsInDisk (D.device main.old).size (D.device main.old).atoms
        behind (length back.now) }
    ensures head { is_some head.new ≡ is_some head.old }
    ensures both { BothWritten (D.device main.old).size at behind front.now back.now number
        (in_front D.device (D.device main.old).size head.old)
        (in_front D.device (D.device main.old).size head.new)
        (D.device main.old) (D.device main.new) result }
{
    if let Some(disk) = head {
        if !front.is_empty() {
            disk.mark(number);
            disk.write(at, front)?;
            if back.is_empty() {
                return Ok(());
            }
        }
    }
    main.mark(number);
    main.write(behind, back)
}

/// Syncs both disks, the head first.
pub(crate) fn sync_both<D: Disk>(
    head: &mut Option<D>,
    main: &mut D,
    number: u64,
) -> Result<(), Failed>
    ensures head { is_some head.new ≡ is_some head.old }
    ensures both { BothSynced (head.old ≡ None) number
        (in_front D.device (D.device main.old).size head.old)
        (in_front D.device (D.device main.old).size head.new)
        (D.device main.old) (D.device main.new) result }
{
    if let Some(disk) = head {
        disk.mark(number);
        disk.sync()?;
    }
    main.mark(number);
    main.sync()
}
