// The steps behind the last zone, one device call each.

ghost use Rattle.std.specs.Prelude.{◌≡◌, ◌<◌, ◌/◌, length};
ghost use Rattle.hotzone.specs.Endings.{AreWipable, IsEnding, MayFinishFrom, WipesArea};
ghost use Rattle.hotzone.specs.Endings.{after_wipe};
ghost use Rattle.hotzone.specs.Making.{Makes};
ghost use Rattle.hotzone.specs.Workers.{MayCommit};
ghost use Rattle.hotzone.specs.declared.worker.NextCall.TheVariants.{End, Finish, Rest, Wipe};
ghost use Rattle.reenc_meta.specs.Placements.{all_atoms};
ghost use Rattle.sector_disk.specs.JoinedDisks.Counts.{HasSizes};
ghost use Rattle.sector_disk.specs.Geometry.{IsDisk};
ghost use Rattle.volume_machine.specs.Seals.{seals_of};

use crate::ending::make_ending;
use crate::steps::{FAILED, Made, Stop};
use crate::worker::{Ending, Halt, NextCall, Stepped, Wipes, Worker, ZoneFault};
use base_terms::Failed;
use cipher_laws::SectorCipher;
use sector_disk::Disk;
use std::alloc::Global;

/// What comes behind so many areas that were filled with zeros.
fn behind_wipe(done: usize, ending: Ending) -> NextCall
    ensures { result ≡ after_wipe done ending }
{
    if done < ending.wipes.areas.len() {
        NextCall::Wipe { done, ending }
    } else {
        NextCall::Rest(ending)
    }
}

/// Fills the area behind the first `done` ones with zeros.
fn wipe_area<D: Disk>(done: usize, wipes: &Wipes, disk: &mut D) -> Result<(), Failed>
    requires some { done < length wipes.now.areas }
    requires may { AreWipable wipes.now (D.device disk.old) }
    ensures { WipesArea done wipes.now (D.device disk.old) (D.device disk.new) result }
{
    let atom = disk.atom() as u64;
    let area = wipes.areas.as_slice()[done];
    let zeros = &wipes.zeros.as_slice()[..area.size as usize];
    disk.write(area.offset / atom, zeros)
}

impl<C: SectorCipher + Copy> Worker<C> {
    /// The finished header is made, and the first call of its commit.
    pub(crate) fn finish<D: Disk>(&self, alloc: Global, disk: &mut D) -> Made
        requires disk { IsDisk self.now.loaded.valid.sizes.atom
            (all_atoms self.now.loaded.valid.sizes) }
        requires sizes { HasSizes self.now.loaded.valid.sizes (D.device disk.old) }
        requires may { MayFinishFrom self.now.loaded }
        ensures { Makes (seals_of C.sealed C.opened self.now.site.atom self.now.keys)
            (D.device disk.old) (D.device disk.new) self.now Finish self.now result }
    {
        match make_ending(alloc, &self.loaded) {
            Ok(ending) => self.finish_with(ending, disk),
            Err(fault) => Made {
                next: NextCall::Finish,
                answer: Err(Stop {
                    fault,
                    halt: Halt::GivenUp,
                }),
            },
        }
    }

    /// The first call of its commit.
    fn finish_with<D: Disk>(&self, ending: Ending, disk: &mut D) -> Made
        requires sizes { HasSizes self.now.loaded.valid.sizes (D.device disk.old) }
        requires is { IsEnding self.now.loaded ending }
        ensures { Makes (seals_of C.sealed C.opened self.now.site.atom self.now.keys)
            (D.device disk.old) (D.device disk.new) self.now Finish self.now result }
    {
        let Ending { commit, wipes } = ending;
        let mut commit = commit;
        let stage = commit.stage();
        match commit.step(disk) {
            Ok(_) => Made {
                next: NextCall::End(Ending { commit, wipes }),
                answer: Ok(Stepped::Went),
            },
            Err(Failed) => Made {
                next: NextCall::End(Ending { commit, wipes }),
                answer: Err(Stop {
                    fault: ZoneFault::Device,
                    halt: Halt::InCommit(stage),
                }),
            },
        }
    }

    /// The next call of the commit of the finished header.
    pub(crate) fn end<D: Disk>(&self, ending: Ending, disk: &mut D) -> Made
        requires commit { MayCommit ending.commit (D.device disk.old) }
        ensures { Makes (seals_of C.sealed C.opened self.now.site.atom self.now.keys)
            (D.device disk.old) (D.device disk.new) self.now (End ending) self.now result }
    {
        let Ending { commit, wipes } = ending;
        let mut commit = commit;
        let stage = commit.stage();
        match commit.step(disk) {
            Ok(false) => Made {
                next: NextCall::End(Ending { commit, wipes }),
                answer: Ok(Stepped::Went),
            },
            Ok(true) => Made {
                next: behind_wipe(0, Ending { commit, wipes }),
                answer: Ok(Stepped::Went),
            },
            Err(Failed) => Made {
                next: NextCall::End(Ending { commit, wipes }),
                answer: Err(Stop {
                    fault: ZoneFault::Device,
                    halt: Halt::InCommit(stage),
                }),
            },
        }
    }

    /// An area is filled with zeros.
    pub(crate) fn wipe<D: Disk>(&self, done: usize, ending: Ending, disk: &mut D) -> Made
        requires some { done < length ending.wipes.areas }
        requires may { AreWipable ending.wipes (D.device disk.old) }
        ensures { Makes (seals_of C.sealed C.opened self.now.site.atom self.now.keys)
            (D.device disk.old) (D.device disk.new) self.now (Wipe done ending) self.now result }
    {
        match wipe_area(done, &ending.wipes, disk) {
            Ok(()) => Made {
                next: behind_wipe(done + 1, ending),
                answer: Ok(Stepped::Went),
            },
            Err(Failed) => Made {
                next: NextCall::Wipe { done, ending },
                answer: FAILED,
            },
        }
    }

    /// The last sync.
    pub(crate) fn rest<D: Disk>(&self, ending: Ending, disk: &mut D) -> Made
        ensures { Makes (seals_of C.sealed C.opened self.now.site.atom self.now.keys)
            (D.device disk.old) (D.device disk.new) self.now (Rest ending) self.now result }
    {
        match disk.sync() {
            Ok(()) => Made {
                next: NextCall::Over(ending),
                answer: Ok(Stepped::AllDone),
            },
            Err(Failed) => Made {
                next: NextCall::Rest(ending),
                answer: FAILED,
            },
        }
    }
}
