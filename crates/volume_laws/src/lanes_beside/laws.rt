// Laws of lanes beside a conversion.

ghost use Rattle.std.specs.Prelude.{◌≡◌, ◌++◌, ◌∷◌, [], ℕ, List, None};
ghost use Rattle.volume_laws.specs.BesideLanes.Clients.{IsLeftBeside};
ghost use Rattle.volume_laws.specs.BesideLanes.Executing.{ExecutesBeside};
ghost use Rattle.volume_laws.specs.BesideLanes.Lanes.{AreAloneBeside, AreMade, AreMetBeside, BeginsBeside};
ghost use Rattle.volume_laws.specs.BesideLanes.Lanes.{alone_over, deeds_of, works_over};
ghost use Rattle.volume_laws.specs.BesideLanes.Runs.{IsRunOf};
ghost use Rattle.volume_laws.specs.Converting.{IsInOrder};
ghost use Rattle.volume_machine.specs.Alone.{MeetsAlone};
ghost use Rattle.volume_machine.specs.Answers.{AreExchanges, Tagged, untagged};
ghost use Rattle.volume_machine.specs.Deeds.{Deed, answered_over, client, state_after, worker};
ghost use Rattle.volume_machine.specs.Events.{Event, Outcome, lane_of};
ghost use Rattle.volume_machine.specs.Readings.{Reading};
ghost use Rattle.volume_machine.specs.Runs.{Happening, no_plain};
ghost use Rattle.volume_machine.specs.Seals.{Seals};
ghost use Rattle.volume_machine.specs.States.{IsClient, State};
ghost use Rattle.volume_machine.specs.Steps.{Meets};
ghost use Rattle.volume_machine.specs.WorkSteps.{WorkStep, Worked};
ghost use Rattle.volume_machine.specs.declared.keys.Keys.{Keys};

use cipher_laws::SectorCipher;

/// A lane's own calls tell what it is, whatever steps of the worker stand between them. Events of
/// clients whose calls meet their conditions lane by lane, each by that lane's own calls alone, and
/// steps of the worker are deeds of the machine; after them the operation of each lane of clients,
/// what it has in plain and what it was granted are those that its own calls tell, and under it was
/// answered what they answer. So where the next call meets its conditions by its own lane's calls,
/// it meets them in the state.
///
/// It speaks of a sound volume on which no operation is under way, and which is in order where it
/// has its conversion's work.
pub fn lanes_are_alone_beside<C: SectorCipher>()
    ensures deeds { (reading : Reading) (start : State (Keys C)) (seals : Seals)
        (deeds : List (Deed (Keys C))) → BeginsBeside reading start →
        AreMade reading seals start deeds → AreMetBeside start seals deeds →
        AreAloneBeside reading start seals deeds }
    ensures next { (reading : Reading) (start : State (Keys C)) (seals : Seals)
        (deeds : List (Deed (Keys C))) (event : Event) → BeginsBeside reading start →
        AreMade reading seals start deeds → AreMetBeside start seals deeds →
        IsClient start (lane_of event) →
        MeetsAlone seals (alone_over start seals (lane_of event) deeds) event →
        Meets (state_after start deeds) event }
    ensures more { (start : State (Keys C)) (seals : Seals) (deeds : List (Deed (Keys C)))
        (event : Event) (outcome : Outcome) (after : State (Keys C)) →
        AreMetBeside start seals deeds → IsClient start (lane_of event) →
        MeetsAlone seals (alone_over start seals (lane_of event) deeds) event →
        AreMetBeside start seals
        (deeds ++ record { act = client event outcome; after = after } ∷ []) }
    ensures works { (start : State (Keys C)) (seals : Seals) (deeds : List (Deed (Keys C)))
        (worked : Worked) (after : State (Keys C)) → AreMetBeside start seals deeds →
        AreMetBeside start seals (deeds ++ record { act = worker worked; after = after } ∷ []) }
{}

/// A step of the worker leaves each lane of clients its operation. What the lane holds it goes on to
/// hold, and a map that tells the sides and places of these blocks goes on to tell them.
pub fn workers_leave_clients<C: SectorCipher>()
    ensures { (reading : Reading) (seals : Seals) (old new : State (Keys C)) (worked : Worked)
        (lane : ℕ) → IsInOrder reading old → WorkStep reading seals old new worked →
        IsClient old lane → IsLeftBeside old new lane }
{}

/// Deeds that begin without a conversion's work, or among which is no step of the worker, are a run of
/// events, which answers the same.
pub fn runs_are_deeds<C: SectorCipher>()
    ensures unarmed { (reading : Reading) (seals : Seals) (start : State (Keys C))
        (deeds : List (Deed (Keys C))) → start.work ≡ None → AreMade reading seals start deeds →
        (run : List (Happening (Keys C))) × IsRunOf start seals deeds run }
    ensures quiet { (seals : Seals) (start : State (Keys C)) (deeds : List (Deed (Keys C))) →
        works_over deeds ≡ [] → (run : List (Happening (Keys C))) × IsRunOf start seals deeds run }
{}

/// Where nothing was executed nothing was done, and two executions, one after the other, are one,
/// whatever the worker did within them. What was executed are the operations that were answered,
/// whatever their sessions.
pub fn executions_join_beside<C: SectorCipher>()
    ensures none { (reading : Reading) (seals : Seals) (state : State (Keys C)) →
        ExecutesBeside reading seals state state [] [] }
    ensures joined { (reading : Reading) (seals : Seals) (old middle new : State (Keys C))
        (xs ys : List (Deed (Keys C))) (first rest : List Tagged) →
        ExecutesBeside reading seals old middle xs first →
        ExecutesBeside reading seals middle new ys rest →
        ExecutesBeside reading seals old new (xs ++ ys) (first ++ rest) }
    ensures untagged { (reading : Reading) (seals : Seals) (old new : State (Keys C))
        (deeds : List (Deed (Keys C))) (history : List Tagged) →
        ExecutesBeside reading seals old new deeds history →
        AreExchanges (answered_over seals old no_plain deeds) (untagged history) }
{}
