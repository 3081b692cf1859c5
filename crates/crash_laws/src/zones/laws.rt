// Laws of zones, with nothing to run.

ghost use Rattle.crash_laws.specs.HotZones.Promises.{AtomJudged, ZoneBegins, ZoneComesNearer};
ghost use Rattle.crash_laws.specs.HotZones.Promises.{ZoneEnds, ZoneGoes};
ghost use Rattle.crash_laws.specs.HotZones.Promises.{ZoneImageTaken, ZoneIsNow, ZoneIsSame, ZoneResumes};
ghost use Rattle.crash_laws.specs.HotZones.Promises.{ZoneStands, ZoneStays};

/// Each image that a stop leaves during a zone, in place or shifted, has a header of the commit at
/// hand, and by that header each block of the zone stands for the same; also while a recovery
/// writes it again. The current values do so too.
pub fn zones_keep_contents()
    ensures stands { ZoneStands }
    ensures now { ZoneIsNow }
    ensures taken { ZoneImageTaken }
{}

/// A zone begins with a sync; each of its device calls leads from what is known to what is known,
/// also one that failed; and its last one ends it with the next header. Each that is done brings it
/// nearer to its end: none writes no atom.
pub fn zones_go_by_calls()
    ensures begins { ZoneBegins }
    ensures goes { ZoneGoes }
    ensures nearer { ZoneComesNearer }
    ensures ends { ZoneEnds }
{}

/// What is done beside a zone leaves what is known of it.
pub fn zones_stay()
    ensures { ZoneStays }
{}

/// What is known of a zone depends on the atoms of its texts alone.
pub fn zones_are_told_by_atoms()
    ensures { ZoneIsSame }
{}

/// A recovery finds a zone that its header has open as a zone to be written again, and by checksum
/// tells its old atoms from its new ones.
pub fn zones_are_resumed()
    ensures resumes { ZoneResumes }
    ensures judged { AtomJudged }
{}
