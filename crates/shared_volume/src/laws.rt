//! What follows of a volume that threads share. Each law is the contract of a function that does
//! nothing. A proof above cites it by its call.

ghost use Rattle.std.specs.Prelude.{◌≡◌, ◌≢◌, ◌++◌, ℕ, suc, length, List, None};
ghost use Rattle.volume_laws.specs.BesideConversions.Ends.{IsConvertedBeside, MayConvertBeside};
ghost use Rattle.crash_laws.specs.HeaderAreas.Headers.{Header, Layout};
ghost use Rattle.base_terms.specs.declared.disk_sizes.Sizes.{Sizes};
ghost use Rattle.volume_laws.specs.BesideLanes.Lanes.{works_over};
ghost use Rattle.reenc_worker.specs.Answers.{AreAnswers};
ghost use Rattle.reenc_worker.specs.declared.ends.WorkAnswer.{WorkAnswer};
ghost use Rattle.reenc_worker.specs.declared.ends.WorkerEnd.{WorkerEnd};
ghost use Rattle.reenc_worker.specs.declared.ends.WorkerEnd.TheVariants.{Finished, Spent};
ghost use Rattle.shared_volume.specs.Histories.{StandsFor};
ghost use Rattle.shared_volume.specs.Lanes.{HasAnswered, Knowing};
ghost use Rattle.shared_volume.specs.Serving.{EndsBy, HasServedBeside, HasServedLanes, WentOn};
ghost use Rattle.shared_volume.specs.Serving.{calls_on};
ghost use Rattle.shared_volume.specs.Working.{AreAnswered};
ghost use Rattle.shared_volume.specs.declared.asking.SharedEvent.{SharedEvent};
ghost use Rattle.shared_volume.specs.declared.asking.SharedOutcome.{SharedOutcome};
ghost use Rattle.volume_cell.specs.Passes.{IsAccounted};
ghost use Rattle.volume_cell.specs.declared.history.Call.{Call};
ghost use Rattle.volume_core.specs.Zones.{IsReadBy};
ghost use Rattle.volume_machine.specs.Answers.{Tagged};
ghost use Rattle.volume_machine.specs.Seals.{Seals};
ghost use Rattle.volume_machine.specs.States.{State};
ghost use Rattle.volume_machine.specs.declared.keys.Keys.{Keys};
ghost use Rattle.hotzone.specs.ZoneEvents.Readings.{reading_of};

use cipher_laws::SectorCipher;

/// What is known once a cell is closed: the history of its volume is deeds, events of clients and
/// steps of the worker, from the volume that was handed in to the one that is left. Under each lane
/// they have answered just the operations that the calls made on the lane have answered, each of its
/// session, and a lane of clients has under way what they left under way; and the steps of the worker
/// are just those that its calls made. So what `volume_laws` says of every run of deeds holds of all
/// operations that were executed on lanes. Without a conversion the history is a run of events.
///
/// It speaks of a history for which the volume stands, and of accounts that have all of its calls.
pub fn shared_volumes_serve_their_lanes<C: SectorCipher>()
    ensures beside { (seals : Seals) (start now : State (Keys C)) (v : Knowing C) →
        StandsFor seals start now v.history → IsAccounted v →
        HasServedBeside seals start now v }
    ensures lanes { (seals : Seals) (start now : State (Keys C)) (v : Knowing C) →
        StandsFor seals start now v.history → IsAccounted v → start.work ≡ None →
        HasServedLanes seals start now v }
{}

/// What was answered on a lane by some calls, and then by more, was answered by all of them.
pub fn answers_join<C: SectorCipher>()
    ensures { (seals : Seals) (start : State (Keys C)) (old mid new : List (Call SharedEvent SharedOutcome))
        (first rest : List Tagged) → HasAnswered seals start old mid first →
        HasAnswered seals start mid new rest → HasAnswered seals start old new (first ++ rest) }
{}

/// An end of the worker is one of the history: where its calls were answered so, of which the last
/// told the end, the last step of the worker in the deeds is the one that brought it, and all before it
/// went on. Only that the port is spent tells of no step: then all of them went on.
pub fn worker_ends_are_deeds<C: SectorCipher>()
    ensures ended { (seals : Seals) (start now : State (Keys C)) (v : Knowing C) (lane : ℕ)
        (answers : List WorkAnswer) (end : WorkerEnd) →
        (served : HasServedBeside seals start now v) → suc lane ≡ length start.lanes →
        AreAnswered lane (calls_on lane v) answers → AreAnswers end answers → end ≢ Spent →
        EndsBy end served.deeds }
    ensures spent { (seals : Seals) (start now : State (Keys C)) (v : Knowing C) (lane : ℕ)
        (answers : List WorkAnswer) →
        (served : HasServedBeside seals start now v) → suc lane ≡ length start.lanes →
        AreAnswered lane (calls_on lane v) answers → AreAnswers Spent answers →
        WentOn (works_over served.deeds) }
{}

/// Where the worker of a volume that threads share was told `Finished`, the volume that is left is
/// converted: every block is new, and by its header, whose copies lie where they did, nothing is
/// converted, whatever clients did beside it and since. Of the new side it says how that is sealed as
/// the first header did.
///
/// It speaks of a volume of which blocks were to be converted by its header, which is read by these
/// sizes, and of which no zone was at hand.
pub fn shared_conversions_end<C: SectorCipher>()
    ensures { (seals : Seals) (sizes : Sizes) (layout : Layout) (header : Header (List ℕ))
        (start now : State (Keys C)) (v : Knowing C) (lane : ℕ) (answers : List WorkAnswer) →
        HasServedBeside seals start now v → suc lane ≡ length start.lanes →
        AreAnswered lane (calls_on lane v) answers → AreAnswers Finished answers →
        IsReadBy sizes start → MayConvertBeside (reading_of sizes) layout header start →
        IsConvertedBeside (reading_of sizes) layout header start now }
{}
