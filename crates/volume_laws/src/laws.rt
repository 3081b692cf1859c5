//! What follows for every run of events. Each law is the contract of a function that does nothing.
//! A proof above cites it by its call.

ghost use Rattle.std.specs.Prelude.{true, false};
ghost use Rattle.std.specs.Prelude.{◌≡◌, ◌≢◌, ◌<◌, ◌≤◌, ◌⊎◌, ◌%◌, ◌+◌, ◌*◌, ◌++◌, ◌∷◌, [], ℕ, List};
ghost use Rattle.std.specs.Prelude.{length, None, Some};
ghost use Rattle.crash_laws.specs.HeaderAreas.Headers.{IsReader};
ghost use Rattle.sector_disk.specs.Cells.{Cell};
ghost use Rattle.volume_laws.specs.Standing.{Stands, StandsAllowed, StandsForNow};
ghost use Rattle.volume_laws.specs.Converting.{IsInOrder, KeepsBlock, ServesBeside};
ghost use Rattle.volume_laws.specs.Faulting.{GoesByAnswer};
ghost use Rattle.volume_laws.specs.Imaging.{NowBeside, StopsBeside};
ghost use Rattle.volume_laws.specs.Telling.{TellsBeside};
ghost use Rattle.volume_machine.specs.Courses.{Courses};
ghost use Rattle.volume_machine.specs.Deeds.{AreDeeds, Deed, state_after};
ghost use Rattle.volume_machine.specs.WorkSteps.{Worked, WorkStep};
ghost use Rattle.volume_machine.specs.Readings.{Reading};
ghost use Rattle.cipher_laws.specs.Bytes.{AreBytes};
ghost use Rattle.plain_disk.specs.Plain.{Block, Exchange};
ghost use Rattle.sector_disk.specs.Geometry.{IsAtom};
ghost use Rattle.sector_disk.specs.Steps.{Told};
ghost use Rattle.segment_map.specs.declared.Direction.TheVariants.{Forward, Backward};
ghost use Rattle.segment_map.specs.declared.Side.TheVariants.{Zone};
ghost use Rattle.segment_map.specs.declared.map.Map.{Map};
ghost use Rattle.volume_machine.specs.Alone.{MeetsAlone};
ghost use Rattle.volume_machine.specs.Beginnings.{IsFresh};
ghost use Rattle.volume_machine.specs.Edges.{InPlain};
ghost use Rattle.volume_machine.specs.Events.{Event, Outcome, lane_of};
ghost use Rattle.volume_laws.specs.Executing.{Executes, StopsAlong, TellsRun, ServesWithoutFaults};
ghost use Rattle.volume_laws.specs.Executing.{BreaksByFaults};
ghost use Rattle.volume_laws.specs.Lanes.{AreAlone, AreMetByLanes, AreSteps, alone_in};
ghost use Rattle.volume_laws.specs.Promises.{Starts, StartsCovered, TellsSettled, ServesEachRun};
ghost use Rattle.volume_laws.specs.Promises.{GoesByEvents, DeviceErrorsAreExact, PlacesAreExact};
ghost use Rattle.volume_laws.specs.Rest.{KeepsRest};
ghost use Rattle.volume_machine.specs.Answers.{AreExchanges, Tagged, untagged};
ghost use Rattle.volume_machine.specs.Runs.{Happening, IsRun, last_of, answered_in, no_plain};
ghost use Rattle.volume_machine.specs.Beginnings.{ChangeNothing};
ghost use Rattle.volume_machine.specs.Seals.{Seals, AreLawful, seals_of};
ghost use Rattle.volume_machine.specs.Sound.{IsSound, AreApart};
ghost use Rattle.volume_machine.specs.Asks.{has_lock};
ghost use Rattle.volume_machine.specs.States.{State, IsClient, IsLive, open_at};
ghost use Rattle.volume_machine.specs.Working.{KeepsApart, Works};
ghost use Rattle.volume_machine.specs.declared.open.Open.{Open};
ghost use Rattle.volume_machine.specs.Steps.{Step, Meets, Holds};
ghost use Rattle.volume_machine.specs.Beginnings.{IsWholeDisk};
ghost use Rattle.sector_disk.specs.DiskViews.Parts.{value_in};
ghost use Rattle.volume_laws.specs.Contents.{IsSealed, StandsFor, StandsNow, StopsAllowed};
ghost use Rattle.volume_laws.specs.Contents.{block_in, opened_blocks, plain_blocks};
ghost use Rattle.volume_machine.specs.Pieces.{place_in, side_in};
ghost use Rattle.volume_machine.specs.declared.keys.Keys.{Keys};

use cipher_laws::SectorCipher;

/// The operations of every run of events, on whatever lanes and in whatever order, are those of one
/// plain disk that was asked one history. While no write or sync has failed the disk's current
/// bytes stand for the newest values, with the values of unfinished writes over them. Where the
/// disk tells its tables, and each of its images stood for values of the blocks at the start, then
/// wherever the run stops each image stands for a content in which each block holds its last
/// flushed value, one written since, or one that an unfinished write has tried.
///
/// It speaks of a volume on which no operation is under way, whose blocks have places of their own,
/// and whose disk tells its bytes and stands for the given blocks.
pub fn every_run_is_served<C: SectorCipher>()
    ensures { (start : State (Keys C)) (seals : Seals) → ServesEachRun start seals }
{}

/// The operations of every run of deeds, events of clients on whatever lanes and steps of the worker
/// in whatever order, are those of one plain disk that was asked one history, whatever is converted
/// meanwhile. While no write or sync has failed each live block holds its newest value, with those
/// of unfinished writes over it; and where a run stops, what the disk may hold is allowed.
///
/// It speaks of a volume with a header, of which no zone is at hand, whose disk holds both copies of
/// the header and stands for the given blocks.
pub fn every_conversion_is_served<C: SectorCipher>()
    ensures { (reading : Reading) (start : State (Keys C)) (seals : Seals) →
        ServesBeside reading start seals }
{}

/// Wherever a run of deeds stops that began with a certain disk, each image of what the disk may hold
/// stands for a content that is allowed, by the map of the header that is chosen in it, with the zone
/// at hand, its area and the volume's keys: each block holds its last flushed value, one written
/// since, or one that an unfinished write has tried. That header is the one that the commit at hand
/// leads from or the next one. So it is in each phase of a zone that a worker leads, in both
/// directions, and by each resilience, where digests are those of SHA-256.
///
/// It speaks of images in which no torn copy of the header is valid and none stands in front of the
/// second one, and of a start at which each text that was handed to a copy's place, where it is valid,
/// means the header or an older one. While nothing has failed the current bytes stand by their header
/// for what each block holds, whatever was handed.
pub fn conversions_stand_where_they_stop<C: SectorCipher>()
    ensures stops { (reading : Reading) (start : State (Keys C)) (seals : Seals) →
        StopsBeside reading start seals }
    ensures now { (reading : Reading) (start : State (Keys C)) (seals : Seals) →
        NowBeside reading start seals }
{}

/// Each header that an image of a conversion may have tells of the seals what the header at the
/// start told, of the old side as long as blocks are left to convert; and while a zone that has
/// blocks is at hand, it tells what guards that zone, and in which area.
pub fn headers_tell_of_conversions<C: SectorCipher>()
    ensures { (reading : Reading) (start : State (Keys C)) (seals : Seals) →
        TellsBeside reading start seals }
{}

/// While a client's operation holds a block, no step of the worker changes its side, its place or
/// the keys.
pub fn conversions_keep_held_blocks<C: SectorCipher>()
    ensures { (reading : Reading) (seals : Seals) (old new : State (Keys C)) (worked : Worked) →
        Courses reading old → IsSound old → Works old → WorkStep reading seals old new worked →
        (lane : ℕ) (o : Open) → IsClient old lane → open_at old.lanes lane ≡ Some o →
        has_lock o.ask ≡ true → Holds old lane → (b : ℕ) → o.range.start ≤ b → b < o.range.end →
        KeepsBlock old new b }
{}

/// The worker breaks a volume only where a call of it failed, so that the count of faults rose. Where
/// a step failed and the volume isn't broken, and where a step was hindered, the volume stays in use
/// as it was: no zone is at hand. A broken volume is left broken, without a device call.
pub fn workers_break_by_faults<C: SectorCipher>()
    ensures { (reading : Reading) (seals : Seals) (old new : State (Keys C)) (worked : Worked) →
        WorkStep reading seals old new worked → GoesByAnswer old new worked }
{}

/// What holds of a volume with a header between two deeds, its locks, its zone at hand, its headers
/// and its map, holds after each step of the worker, and after each event of a client that meets its
/// conditions; so it does wherever a run of both ends.
pub fn workers_keep_volumes_sound<C: SectorCipher>()
    ensures steps { (reading : Reading) (seals : Seals) (old new : State (Keys C))
        (worked : Worked) → IsInOrder reading old → WorkStep reading seals old new worked →
        IsInOrder reading new }
    ensures events { (reading : Reading) (old new : State (Keys C)) (event : Event)
        (outcome : Outcome) → IsInOrder reading old → Meets old event →
        Step old event outcome new → IsInOrder reading new }
    ensures runs { (reading : Reading) (seals : Seals) (start : State (Keys C))
        (deeds : List (Deed (Keys C))) → IsInOrder reading start →
        AreDeeds reading seals start deeds → IsInOrder reading (state_after start deeds) }
{}

/// An operation has failed exactly where one of its events answered that the device failed or the
/// volume is broken. A volume is broken exactly where a write or a sync failed in an earlier event.
/// Sides, keys and places of all blocks stay, and so does the zone at hand, if there is one. This
/// holds at the end of a run, and along it: after each of its events.
pub fn failures_go_by_events<C: SectorCipher>()
    ensures at_the_end { (start : State (Keys C)) (run : List (Happening (Keys C))) →
        IsFresh start → IsRun start run → GoesByEvents start run }
    ensures along { (start : State (Keys C)) (earlier later : List (Happening (Keys C))) →
        IsFresh start → IsRun start (earlier ++ later) → GoesByEvents start earlier }
{}

/// A read, a write or a flush that isn't wrong is answered 5 exactly where its admit found the
/// volume broken, or one of its edges, its pieces or its settle answered that the device failed or
/// the volume is broken. So it is for each event of a run that answers an operation. The answer has a place
/// exactly where it is a read's of which a piece failed so: that of the first byte of its range in
/// the piece.
pub fn device_errors_are_exact<C: SectorCipher>()
    ensures reply { (start : State (Keys C)) (seals : Seals)
        (earlier later : List (Happening (Keys C))) (one : Happening (Keys C)) → IsFresh start →
        IsRun start (earlier ++ one ∷ later) → DeviceErrorsAreExact seals start earlier one }
    ensures place { (start : State (Keys C)) (seals : Seals)
        (earlier later : List (Happening (Keys C))) (one : Happening (Keys C)) → IsSound start →
        IsFresh start → AreLawful start.map.atom seals → IsRun start (earlier ++ one ∷ later) →
        PlacesAreExact seals start earlier one }
{}

/// An event of one lane leaves every other lane's operation as it was, and what another lane holds
/// it goes on to hold. So a call whose conditions are met is one whose conditions are met after the
/// events of other lanes too.
pub fn events_leave_other_lanes<C: SectorCipher>()
    ensures stays { (old new : State (Keys C)) (event : Event) (outcome : Outcome) (lane : ℕ) →
        Step old event outcome new → lane ≢ lane_of event →
        (open_at new.lanes lane ≡ open_at old.lanes lane) × (Holds old lane → Holds new lane) }
    ensures meets { (old new : State (Keys C)) (event next : Event) (outcome : Outcome) →
        Step old event outcome new → lane_of next ≢ lane_of event → Meets old next
        → Meets new next }
{}

/// An event of a client leaves the zone at hand: it is held, and lies apart from all other blocks,
/// as before, and what the steps of a worker ask of it besides goes on to hold. What a client's lane
/// holds while nothing has failed is live, so its pieces lie beside the zone; and a live block is on
/// the old side or on the new one, never in an open zone.
pub fn events_leave_the_zone<C: SectorCipher>()
    ensures stays { (old new : State (Keys C)) (event : Event) (outcome : Outcome) →
        Meets old event → Step old event outcome new → KeepsApart old →
        KeepsApart new × (new.work ≡ old.work) }
    ensures works { (old new : State (Keys C)) (event : Event) (outcome : Outcome) →
        Meets old event → Step old event outcome new → Works old → Works new }
    ensures live { (state : State (Keys C)) (lane : ℕ) (o : Open) → IsSound state →
        KeepsApart state → state.broken ≡ false → open_at state.lanes lane ≡ Some o → has_lock o.ask ≡ true →
        Holds state lane → IsClient state lane →
        (b : ℕ) → o.range.start ≤ b → b < o.range.end → IsLive state b }
    ensures sides { (state : State (Keys C)) (b : ℕ) → IsSound state → IsLive state b →
        side_in state.map b ≢ Zone }
{}

/// The keys of a volume whose sectors divide its blocks seal and open block by block, and each
/// undoes the other.
pub fn keys_seal_lawfully<C: SectorCipher>()
    ensures { (keys : Keys C) (atom : ℕ) → IsAtom atom →
        atom % C.sector keys.old ≡ 0 → atom % C.sector keys.new ≡ 0 →
        AreLawful atom (seals_of C.sealed C.opened atom keys) }
{}

/// A lane's own calls tell what it is. Steps whose calls meet their conditions lane by lane, each
/// by that lane's own calls alone, are a run; after it the operation of each lane, what it has in
/// plain and what it was granted are those that its own calls tell, and under it was answered what
/// they answer. So where the next call meets its conditions by its own lane's calls, it meets them
/// in the state.
pub fn lanes_are_alone<C: SectorCipher>()
    ensures runs { (start : State (Keys C)) (seals : Seals) (run : List (Happening (Keys C))) →
        IsSound start → IsFresh start → AreSteps start run → AreMetByLanes start seals run →
        AreAlone start seals run }
    ensures next { (start : State (Keys C)) (seals : Seals) (run : List (Happening (Keys C)))
        (event : Event) → IsSound start → IsFresh start → AreSteps start run →
        AreMetByLanes start seals run → IsClient start (lane_of event) →
        MeetsAlone seals (alone_in start seals (lane_of event) run) event
        → Meets (last_of start run) event }
    ensures more { (start : State (Keys C)) (seals : Seals) (run : List (Happening (Keys C)))
        (one : Happening (Keys C)) → AreMetByLanes start seals run →
        IsClient start (lane_of one.event) →
        MeetsAlone seals (alone_in start seals (lane_of one.event) run) one.event →
        AreMetByLanes start seals (run ++ one ∷ []) }
{}

/// Where nothing was executed nothing was done, and two executions, one after the other, are one.
/// What was executed are the operations that were answered, whatever their sessions.
pub fn executions_join<C: SectorCipher>()
    ensures none { (seals : Seals) (state : State (Keys C)) → Executes seals state state [] [] }
    ensures joined { (seals : Seals) (old middle new : State (Keys C))
        (xs ys : List (Happening (Keys C))) (first rest : List Tagged) →
        Executes seals old middle xs first → Executes seals middle new ys rest →
        Executes seals old new (xs ++ ys) (first ++ rest) }
    ensures untagged { (seals : Seals) (old new : State (Keys C)) (run : List (Happening (Keys C)))
        (history : List Tagged) → Executes seals old new run history →
        AreExchanges (answered_in seals old no_plain run) (untagged history) }
{}

/// A run may stop after each of its events: the operations answered by then are a front of the
/// history, and what the disk may hold is allowed there.
pub fn runs_stop_anywhere<C: SectorCipher>()
    ensures { (start : State (Keys C)) (seals : Seals) (blocks : List Block) (bytes : List ℕ)
        (run : List (Happening (Keys C))) (exchanges : List Exchange) →
        Starts start seals blocks bytes → IsRun start run →
        AreExchanges (answered_in seals start no_plain run) exchanges →
        StopsAlong start seals blocks run exchanges }
{}

/// Each table that a disk has had since the start of a run is the one after some of its events.
pub fn tables_are_of_events<C: SectorCipher>()
    ensures { (start : State (Keys C)) (run : List (Happening (Keys C))) (now : Told) →
        IsRun start run → (last_of start run).disk.told ≡ Some now → TellsRun start run now }
{}

/// Where a disk tells its tables, a run keeps each atom in whose place no live block lies: it holds
/// what it held, and a stop leaves there only that or what it might have left before. So where all
/// atoms were certain at the start, each image that a stop leaves has there what they held: the
/// header, its keyslots, and whatever else lies beside the volume. It holds of a broken volume too.
///
/// Where no zone is at hand each block is live. Where one is, its own blocks aren't, so that their
/// places are kept too, and the areas that its steps reach: what these write is no event of a run.
pub fn runs_leave_the_rest<C: SectorCipher>()
    ensures { (start : State (Keys C)) (run : List (Happening (Keys C))) (now : Told) →
        IsSound start → KeepsApart start → IsRun start run →
        (last_of start run).disk.told ≡ Some now → KeepsRest start now }
{}

/// Where the count of faults stood, each operation of a run got its content or is done, or was
/// refused with its number where it is wrong; and a volume breaks only where the count rose. This
/// holds for disks that tell nothing too.
pub fn runs_fail_by_faults<C: SectorCipher>()
    ensures served { (start : State (Keys C)) (seals : Seals) (run : List (Happening (Keys C))) →
        IsSound start → IsFresh start → AreLawful start.map.atom seals → IsRun start run →
        ServesWithoutFaults start seals run }
    ensures broken { (start : State (Keys C)) (run : List (Happening (Keys C))) →
        IsFresh start → IsRun start run → BreaksByFaults start run }
{}

/// Each block of a volume has a place of its own where its two segments don't meet. They may meet
/// where a conversion forward moves each block to a place no later than its old one, and where one
/// backward moves each to a place no earlier. With an open zone or without, since a zone is still
/// in the old segment.
pub fn maps_are_apart()
    ensures forward { (map : Map) → map.direction ≡ Forward →
        (map.new_place ≤ map.old_place) ⊎ (map.old_place + map.blocks ≤ map.new_place)
        → AreApart map }
    ensures backward { (map : Map) → map.direction ≡ Backward →
        (map.old_place ≤ map.new_place) ⊎ (map.new_place + map.blocks ≤ map.old_place)
        → AreApart map }
{}

/// Where each atom of a disk that tells its tables held its value for certain, each of its images
/// stands for the blocks that its bytes stand for, under any map and any keys.
pub fn settled_volumes_are_covered<C: SectorCipher>()
    ensures { (start : State (Keys C)) (seals : Seals) (blocks : List Block) (bytes : List ℕ) →
        Starts start seals blocks bytes → TellsSettled start bytes
        → StartsCovered start seals blocks }
{}

/// A volume that was just made stands for a plain disk, the one whose blocks hold for certain what
/// its keys open of their atoms, and is one from which runs start. That each block has a place of
/// its own, that the keys seal lawfully, and that the disk tells an atom's bytes for each atom are
/// premises. The content is told by the keys: with other keys it is another one, and which keys are
/// the right ones isn't said here.
pub fn volumes_start<C: SectorCipher>()
    ensures { (start : State (Keys C)) (seals : Seals) (bytes : List ℕ) →
        IsSound start → IsFresh start → AreApart start.map → AreLawful start.map.atom seals →
        start.disk.values ≡ Some bytes → length bytes ≡ start.disk.atoms * start.map.atom →
        AreBytes bytes → Starts start seals (opened_blocks start.map seals bytes) bytes }
{}

/// Bytes stand for at most one content, and an atom of an image for at most one value of its block,
/// under one map and lawful seals.
pub fn contents_are_one()
    ensures bytes { (map : Map) (seals : Seals) (bytes : List ℕ) (one other : List Block) →
        AreLawful map.atom seals → StandsFor map seals one bytes → StandsFor map seals other bytes →
        (b : ℕ) → b < map.blocks → (block_in one b).newest ≡ (block_in other b).newest }
    ensures images { (map : Map) (seals : Seals) (image : List (List ℕ)) (b : ℕ)
        (one other : List ℕ) → AreLawful map.atom seals →
        IsSealed map seals b one (value_in image (place_in map b)) →
        IsSealed map seals b other (value_in image (place_in map b)) → one ≡ other }
{}

/// An image of a volume stands for at most one content: one of a volume without a header by the
/// volume's own map, one of a volume with a header by the header that the image has. What is said
/// of live blocks one by one is, without a header, said of the whole: the current bytes stand for a
/// content that the blocks hold now, and each image of the table for one that is allowed.
pub fn images_stand<C: SectorCipher>()
    ensures one { (reading : Reading) (state : State (Keys C)) (seals : Seals)
        (image : ℕ → List ℕ) (one other : ℕ → List ℕ) → IsReader reading.reader →
        AreLawful state.map.atom seals → Stands reading state seals image one →
        Stands reading state seals image other →
        (b : ℕ) → b < state.map.blocks → one b ≡ other b }
    ensures now { (reading : Reading) (state : State (Keys C)) (seals : Seals)
        (plain : ℕ → InPlain) (blocks : List Block) (bytes : List ℕ) → state.work ≡ None →
        StandsNow state seals plain blocks bytes →
        StandsForNow reading state seals plain blocks bytes }
    ensures stops { (reading : Reading) (state : State (Keys C)) (seals : Seals)
        (plain : ℕ → InPlain) (blocks : List Block) (cells : List Cell) → state.work ≡ None →
        StopsAllowed state seals plain blocks cells →
        StandsAllowed reading state seals plain blocks cells }
{}

/// The volume of a whole disk as it is stands for the plain disk that holds the disk's own atoms
/// for certain. Where each atom of a disk that tells its tables held its value for certain, so does
/// each image.
pub fn plain_volumes_start<C: SectorCipher>()
    ensures starts { (start : State (Keys C)) (seals : Seals) (bytes : List ℕ) →
        IsSound start → IsFresh start → AreApart start.map →
        IsWholeDisk start.map.atom start.disk.atoms start.map →
        AreLawful start.map.atom seals → ChangeNothing seals → start.disk.values ≡ Some bytes →
        length bytes ≡ start.disk.atoms * start.map.atom → AreBytes bytes →
        Starts start seals (plain_blocks start bytes) bytes }
    ensures covered { (start : State (Keys C)) (seals : Seals) (bytes : List ℕ) →
        IsWholeDisk start.map.atom start.disk.atoms start.map → ChangeNothing seals →
        length bytes ≡ start.disk.atoms * start.map.atom → AreBytes bytes →
        TellsSettled start bytes → StartsCovered start seals (plain_blocks start bytes) }
{}
