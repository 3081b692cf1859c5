// Laws of headers, with nothing to run.

ghost use Rattle.std.specs.Prelude.{ℕ, List};
ghost use Rattle.crash_laws.specs.HeaderAreas.Firsts.{FirstGoes};
ghost use Rattle.crash_laws.specs.HeaderAreas.Fronts.{FrontsBegin, FrontsBeginAnyhow, FrontsBeginRepair};
ghost use Rattle.crash_laws.specs.HeaderAreas.Fronts.{FrontsGive, FrontsStay, FrontsStayBeside};
ghost use Rattle.crash_laws.specs.HeaderAreas.Headers.{Header, Layout};
ghost use Rattle.crash_laws.specs.HeaderAreas.Promises.{CommitDated, CommitGives, CommitGoes, HeaderIsOne};
ghost use Rattle.crash_laws.specs.HeaderAreas.Promises.{ImageTaken, OpeningDated, RepairDated, RepairGives};
ghost use Rattle.crash_laws.specs.HeaderAreas.Promises.{RepairGoes};

/// The bytes of a disk have at most one header.
pub fn disks_have_one_header()
    ensures { HeaderIsOne }
{}

/// Each image during a commit has the header from before or the next one, and from its first sync
/// on the next one; its calls lead from what is known to what is known; and what its writes hand to
/// the copies' places is the header, an older one or the next.
pub fn commits_keep_headers()
    ensures gives { CommitGives }
    ensures goes { CommitGoes }
    ensures dated { CommitDated }
{}

/// Where a disk's bytes have a header, the copies that stand there at opening mean that one or an
/// older one.
pub fn openings_are_dated()
    ensures { OpeningDated }
{}

/// Each image during a repair has the header that is used, and after it both copies hold it for
/// certain. What the copies' places were handed is that header or an older one, from the opening on
/// and after its write, whether it failed or not; so is it for the commit that comes next.
pub fn repairs_keep_headers()
    ensures gives { RepairGives }
    ensures goes { RepairGoes }
    ensures dated { RepairDated }
{}

/// What a stop leaves of a table is an image as these laws speak of it, and the bytes of the disk
/// that is found then are what its header is read from.
pub fn images_are_taken()
    ensures { ImageTaken }
{}

/// The calls of a volume's first commit, before which nothing is known of the disk, leave both
/// copies with its header for certain.
pub fn first_headers_are_kept()
    ensures { (atom : ℕ) (layout : Layout) (to : Header (List ℕ)) (after : Header (List ℕ))
        → FirstGoes atom layout to after }
{}

/// Where no copy begins with an atom of the primary, but with its first, nor with one of what
/// commits and repairs write there, each image that a stop leaves has no copy in front of the
/// secondary but the primary, however their writes are torn, and whatever others call the disk for
/// outside the primary. It is so at the beginning where what stands in the primary's place hides
/// none: of a commit, of a repair of the secondary, and of whatever is done beside any such text.
pub fn fronts_are_kept()
    ensures begin { FrontsBegin }
    ensures begin_repair { FrontsBeginRepair }
    ensures begin_anyhow { FrontsBeginAnyhow }
    ensures stay { FrontsStay }
    ensures beside { FrontsStayBeside }
    ensures give { FrontsGive }
{}
