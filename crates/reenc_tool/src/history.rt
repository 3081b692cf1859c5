// The history of a volume that was served.

ghost use Rattle.std.specs.Prelude.{◌≡◌, option_map};

use block_server::VolumePass;
use sector_disk::{Disk, JoinedDisk};

/// The pass of a volume whose sessions were served, by which its whole history is known: to clauses,
/// since no event is stored.
pub enum Pass<D: Disk> {
    /// That of a disk as it is.
    Plain(VolumePass<D>),
    /// That of an encrypted volume on a disk, in front of which the one of its header may lie.
    Encrypted(VolumePass<JoinedDisk<D>>),
}

// By hand, so that a value that is dropped in place is one call to the prover.
impl<D: Disk + Drop> Drop for Pass<D> {
    fn drop(self) {
        match self {
            Pass::Plain(pass) => drop(pass),
            Pass::Encrypted(pass) => drop(pass),
        }
    }
}

impl<D: Disk> Pass<D> {
    ghost use Rattle.reenc_tool.specs.Outcomes.{known_by};
    ghost use Rattle.volume_cell.specs.Passes.{known};

    /// That of a disk as it is, where there is one.
    pub(crate) fn of_plain(pass: Option<VolumePass<D>>) -> Option<Pass<D>>
        ensures { option_map (λ pass. known_by pass) result ≡ option_map (λ pass. known pass) pass }
    {
        match pass {
            Some(pass) => Some(Pass::Plain(pass)),
            None => None,
        }
    }

    /// That of an encrypted volume, where there is one.
    pub(crate) fn of_encrypted(pass: Option<VolumePass<JoinedDisk<D>>>) -> Option<Pass<D>>
        ensures { option_map (λ pass. known_by pass) result ≡ option_map (λ pass. known pass) pass }
    {
        match pass {
            Some(pass) => Some(Pass::Encrypted(pass)),
            None => None,
        }
    }
}
