// `init`: the conversion of the volume on a disk to a new key is begun.

ghost use Rattle.std.specs.Prelude.{◌≡◌, IfOk, None, option_map, string_bytes};
ghost use Rattle.command_line.specs.Starts.{IsStarting, starting};
ghost use Rattle.luks_init.specs.Wishes.{IsWish};
ghost use Rattle.reenc_tool.specs.Asking.{UnderKey, bay_view};
ghost use Rattle.reenc_tool.specs.Outcomes.{ended_refused, outcome_of};
ghost use Rattle.reenc_tool.specs.Starting.{
  ComesToStart,
  HasStarted,
  guard_of,
  opening_refusal,
  started_line,
  wish_of,
};
ghost use Rattle.reenc_tool.specs.Status.{cause_of_init, cause_of_making, cause_of_start};
ghost use Rattle.reenc_tool.specs.Status.{status_of};

use crate::commands::{cause_by, unserved};
use crate::ended::{Cause, Ended, Failing, Fit, Sessions};
use crate::volume_refusal::VolumeRefusal;
use bays::Bay;
use command_line::{Guard as NamedGuard, Init};
use gates::Gate;
use io_edge::Seeds;
use luks_init::{Guard, InitFault, MakeFault, Refusal, Unstarted, Wish, begin_conversion};
use sector_disk::Disk;
use std::alloc::{AllocError, Global};

/// The last number of a header that another one may follow.
pub(crate) const LAST_FOLLOWED: u64 = u64::MAX - 1;

impl<'w> Cause<'w> {
    /// The cause of a command that can begin no conversion.
    fn of_init(fault: InitFault) -> Cause<'w>
        ensures { result ≡ cause_of_init fault }
    {
        match fault {
            InitFault::Memory => Cause::Memory,
            InitFault::InProgress | InitFault::Linear => Cause::WrongState,
            InitFault::Passphrase { len } => Cause::of_passphrase(len),
            InitFault::Area { wanted, gap } => Cause::NoFit {
                what: Fit::Area,
                number: wanted,
                limit: gap,
            },
            InitFault::Json { len, limit } => Cause::NoFit {
                what: Fit::Json,
                number: len,
                limit,
            },
        }
    }

    /// The cause of a command that could not make what a conversion begins with.
    fn of_making(fault: MakeFault) -> Cause<'w>
        ensures { result ≡ cause_of_making fault }
    {
        match fault {
            MakeFault::Unready(fault) => Cause::of_init(fault),
            MakeFault::SeqEnd(number) => Cause::NoFit {
                what: Fit::Seqid,
                number,
                limit: LAST_FOLLOWED,
            },
        }
    }

    /// The cause of a command that began no conversion on a disk of which so many calls failed.
    fn of_start(refusal: &Refusal, faults: u64) -> Cause<'w>
        ensures { result ≡ cause_of_start refusal.now faults }
    {
        match refusal {
            Refusal::Unopened(refusal) => Cause::of_opening(refusal, faults),
            Refusal::Linear => Cause::WrongState,
            Refusal::Memory => Cause::Memory,
            Refusal::Keyslots(_) => Cause::Keyslots,
            Refusal::Tail(bytes) => Cause::of_tail(*bytes),
            Refusal::Unmade(fault) => Cause::of_making(*fault),
            Refusal::Writing => Cause::Device {
                failing: Failing::Writing,
                faults,
            },
        }
    }
}

/// What the words name is what keeps zones safe.
fn guard_of(guard: NamedGuard) -> Guard
    ensures { result ≡ guard_of guard }
{
    match guard {
        NamedGuard::Journal => Guard::Journal,
        NamedGuard::Checksum => Guard::Checksum,
    }
}

/// What the words wish of a conversion.
fn wish_of(words: &Init<'_>) -> Wish
    requires { IsStarting (starting words.now) }
    ensures is { result ≡ wish_of (starting words.now) }
    ensures wish { IsWish result words.now.atom }
{
    Wish {
        cipher: words.segment.cipher,
        key_size: words.segment.key_size,
        sector_size: words.segment.sector_size,
        iterations: words.segment.iterations,
        direction: words.direction,
        resilience: guard_of(words.resilience),
        hotzone_size: words.hotzone_size,
        drop_keyslots: words.drop_keyslots,
    }
}

/// What is said of a conversion that was begun.
fn started_line(alloc: Global, words: &Init<'_>) -> Result<String, AllocError>
    ensures { IfOk result (λ line. string_bytes line ≡ started_line (starting words.now)) }
{
    let direction = words.direction.name();
    let resilience = words.resilience.name();
    format!(in alloc; "started reencrypt {direction} {resilience}\n")
}

/// Why no volume was opened, or which keyslots would go, where that is why no conversion was begun.
fn opening_refusal(refusal: Refusal) -> Option<VolumeRefusal>
    ensures { result ≡ opening_refusal refusal }
{
    match refusal {
        Refusal::Unopened(refusal) => Some(VolumeRefusal::Opening(refusal)),
        Refusal::Keyslots(list) => Some(VolumeRefusal::Keyslots(list)),
        Refusal::Linear
        | Refusal::Memory
        | Refusal::Tail(_)
        | Refusal::Unmade(_)
        | Refusal::Writing => None,
    }
}

/// Ends a command that began no conversion.
fn ended_unstarted<'w, D: Disk, L>(alloc: Global, unstarted: Unstarted<D>) -> Ended<'w, D, L>
    ensures status { result.status ≡ status_of result.cause }
    ensures outcome { outcome_of result
        ≡ ended_refused (cause_of_start unstarted.refusal (D.device unstarted.disk).faults)
        (opening_refusal unstarted.refusal) None unstarted.disk }
{
    let Unstarted { disk, refusal } = unstarted;
    let cause = Cause::of_start(&refusal, disk.faults());
    Ended {
        status: cause.status(),
        cause,
        fault: None,
        refusal: opening_refusal(refusal),
        memory: false,
        disk: Some(disk),
        header: None,
        pass: None,
        demo: None,
        sessions: Vec::new(alloc),
        links: Vec::new(alloc),
    }
}

/// Begins the conversion of a disk's volume under a passphrase; and what is said of it, which is
/// made before the first device call, since memory may be wanted for it.
#[tactic(auto, using(crate::proofs::StartingLemmas::is_started, crate::proofs::StartingLemmas::is_unstarted))]
fn start_on<'w, D: Disk, L, G: Gate>(
    alloc: Global,
    disk: D,
    words: &Init<'_>,
    pass: &[u8],
    seed: &[u8; 32],
    gate: &G,
) -> (Ended<'w, D, L>, Option<String>)
    requires words { IsStarting (starting words.now) }
    requires atom { (D.device disk).size ≡ (starting words.now).atom }
    ensures status { result.0.status ≡ status_of result.0.cause }
    ensures started { ComesToStart D.device (starting words.now) pass.now seed.now disk
        (outcome_of result.0) (option_map (λ text. string_bytes text) result.1) }
{
    let Ok(line) = started_line(alloc, words) else {
        return (
            unserved(alloc, Cause::Memory, Some(disk), Vec::new(alloc)),
            None,
        );
    };
    let wish = wish_of(words);
    match begin_conversion(alloc, disk, &wish, pass, seed, gate) {
        Ok(started) => {
            let sessions = Sessions::none(alloc, Cause::Fine, Vec::new(alloc));
            (sessions.ended(Some(started.disk), None), Some(line))
        }
        Err(unstarted) => (ended_unstarted(alloc, unstarted), None),
    }
}

/// Asks the bay for the passphrase, and begins the conversion of the volume on the disk that it
/// gave.
fn start_in<'w, B: Bay, G: Gate>(
    alloc: Global,
    bay: &mut B,
    disk: B::Disk,
    words: &Init<'_>,
    seed: &[u8; 32],
    gate: &G,
) -> (Ended<'w, B::Disk, B::Link>, Option<String>)
    requires words { IsStarting (starting words.now) }
    requires atom { (B.Disk.device disk).size ≡ (starting words.now).atom }
    ensures status { result.0.status ≡ status_of result.0.cause }
    ensures started { UnderKey (bay_view B.Disk.device B.Link.state B.holdings B.asks_disk
        B.asks_reading B.asks_key B.asks_links) (starting words.now).key_file disk None bay.old
        bay.new (outcome_of result.0) (option_map (λ text. string_bytes text) result.1)
        (λ pass. ComesToStart B.Disk.device (starting words.now) pass seed.now disk
        (outcome_of result.0) (option_map (λ text. string_bytes text) result.1)) }
{
    match bay.key(alloc, words.key_file) {
        Ok(pass) => start_on(alloc, disk, words, pass.as_slice(), seed, gate),
        Err(fault) => {
            let cause = cause_by(Failing::Keying, fault, bay.faults());
            (unserved(alloc, cause, Some(disk), Vec::new(alloc)), None)
        }
    }
}

/// Draws 32 bytes from the seeds, asks the bay for a disk and for a passphrase, and begins to
/// convert the volume there to a new key. All that is random of that key is stretched from those
/// bytes. The gate is told before anything is written what changes besides the key.
pub fn start<'w, B: Bay, R: Seeds, G: Gate>(
    alloc: Global,
    bay: &mut B,
    seeds: &mut R,
    words: &Init<'_>,
    gate: &G,
) -> (Ended<'w, B::Disk, B::Link>, Option<String>)
    requires { IsStarting (starting words.now) }
    ensures status { result.0.status ≡ status_of result.0.cause }
    ensures started { HasStarted (bay_view B.Disk.device B.Link.state B.holdings B.asks_disk
        B.asks_reading B.asks_key B.asks_links) (starting words.now)
        (R.supply seeds.old) (R.supply seeds.new) bay.old bay.new
        (outcome_of result.0) (option_map (λ text. string_bytes text) result.1) }
{
    let mut seed = [0; 32];
    match seeds.fill(&mut seed) {
        Ok(()) => {}
        Err(_) => {
            let cause = Cause::Seeds {
                faults: seeds.faults(),
            };
            return (unserved(alloc, cause, None, Vec::new(alloc)), None);
        }
    }
    match bay.disk(alloc, words.disk, words.atom) {
        Ok(disk) => start_in(alloc, bay, disk, words, &seed, gate),
        Err(fault) => {
            let cause = cause_by(Failing::Opening, fault, bay.faults());
            (unserved(alloc, cause, None, Vec::new(alloc)), None)
        }
    }
}
