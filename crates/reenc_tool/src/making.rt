// `format`: a new volume on a disk, or on two.

ghost use Rattle.std.specs.Prelude.{◌≡◌, ◌*◌, ◌^◌, ◌<◌, true, false, IfOk, is_some, option_map};
ghost use Rattle.std.specs.Prelude.{string_bytes};
ghost use Rattle.command_line.specs.Formats.{IsFormatting, formatting};
ghost use Rattle.header_report.specs.Examinations.{sizes_alone};
ghost use Rattle.sector_disk.specs.JoinedDisks.Counts.{HasSizes};
ghost use Rattle.sector_disk.specs.JoinedDisks.Joined.{in_front};
ghost use Rattle.luks_format.specs.Wishes.{FitsDisk, IsWish};
ghost use Rattle.reenc_tool.specs.Asking.{UnderKey, bay_view};
ghost use Rattle.reenc_tool.specs.Making.{ComesTo, HasMade, IsOn, IsOnOne, IsOnTwo, MakesBehind};
ghost use Rattle.reenc_tool.specs.Making.{formatted_line, wish_of};
ghost use Rattle.reenc_tool.specs.Outcomes.{outcome_of};
ghost use Rattle.reenc_tool.specs.Status.{status_of};

use crate::commands::{cause_by, unserved};
use crate::ended::{Cause, Ended, Failing, Sessions};
use crate::notices::note_tail;
use base_terms::Sizes;
use bays::Bay;
use command_line::Format;
use gates::Gate;
use image_laws::new_volumes_stand;
use io_edge::Seeds;
use luks_format::{
    Wish, make_volume, new_volumes_fit_their_disk, new_volumes_leave_the_rest, write_volume,
};
use sector_disk::{Disk, JoinedDisk};
use std::alloc::{AllocError, Global};
use uuid::Uuid;

/// What the words wish of a new volume.
fn wish_of(words: &Format<'_>) -> Wish
    requires { IsFormatting (formatting words.now) }
    ensures is { result ≡ wish_of (formatting words.now) }
    ensures wish { IsWish result }
{
    Wish {
        cipher: words.segment.cipher,
        key_size: words.segment.key_size,
        sector_size: words.segment.sector_size,
        data_offset: words.data_offset,
        iterations: words.segment.iterations,
        metadata_size: words.metadata_size,
        identifier: words.identifier,
        detached: words.header.is_some(),
    }
}

/// The sizes of a disk that is to have both the header and the data.
fn sizes_alone<D: Disk>(disk: &D) -> Sizes
    ensures is { result ≡ sizes_alone (D.device disk.now) }
    ensures has { HasSizes result (D.device disk.now) }
    ensures within { result.main_atoms * result.atom < 2 ^ 63 }
{
    let atoms = disk.atoms();
    Sizes {
        atom: disk.atom(),
        header_atoms: atoms,
        main_atoms: atoms,
        detached: false,
    }
}

/// What is said of a volume that was made.
fn formatted_line(alloc: Global, identifier: Uuid) -> Result<String, AllocError>
    ensures { IfOk result (λ line. string_bytes line ≡ formatted_line identifier) }
{
    format!(in alloc; "formatted {identifier}\n")
}

/// Makes a new volume that a passphrase opens, and writes it on a disk of these sizes; and what is
/// said of it, which is made before the first device call, since memory may be wanted for it.
fn make_on<'w, D: Disk>(
    alloc: Global,
    disk: &mut D,
    sizes: Sizes,
    words: &Format<'_>,
    pass: &[u8],
    seed: &[u8; 32],
) -> (Cause<'w>, Option<String>)
    requires words { IsFormatting (formatting words.now) }
    requires has { HasSizes sizes (D.device disk.old) }
    requires fits { FitsDisk (wish_of (formatting words.now)) sizes }
    ensures { ComesTo D.device (wish_of (formatting words.now)) sizes pass.now seed.now disk.old
        disk.new result.0 (option_map (λ text. string_bytes text) result.1) }
{
    let wish = wish_of(words);
    let mut volume = match make_volume(alloc, &wish, sizes, pass, seed) {
        Ok(volume) => volume,
        Err(fault) => return (Cause::of_format(fault), None),
    };
    let Ok(line) = formatted_line(alloc, volume.identifier) else {
        return (Cause::Memory, None);
    };
    new_volumes_fit_their_disk();
    new_volumes_leave_the_rest();
    new_volumes_stand();
    match write_volume(disk, &mut volume) {
        Ok(()) => (Cause::Fine, Some(line)),
        Err(_) => {
            let cause = Cause::Device {
                failing: Failing::Writing,
                faults: disk.faults(),
            };
            (cause, None)
        }
    }
}

/// Makes a new volume whose header lies on the disk of its data.
fn make_on_one<'w, D: Disk, L>(
    alloc: Global,
    disk: D,
    words: &Format<'_>,
    pass: &[u8],
    seed: &[u8; 32],
) -> (Ended<'w, D, L>, Option<String>)
    requires words { IsFormatting (formatting words.now) }
    requires atom { (D.device disk).size ≡ (formatting words.now).atom }
    requires one { is_some (formatting words.now).header ≡ false }
    ensures status { result.0.status ≡ status_of result.0.cause }
    ensures made { IsOnOne D.device (wish_of (formatting words.now)) pass.now seed.now disk
        (outcome_of result.0) (option_map (λ text. string_bytes text) result.1) }
{
    let mut disk = disk;
    let sizes = sizes_alone(&disk);
    let (cause, line) = make_on(alloc, &mut disk, sizes, words, pass, seed);
    (unserved(alloc, cause, Some(disk), Vec::new(alloc)), line)
}

/// Makes a new volume whose header lies on a disk of its own, in front of that of its data.
fn make_on_two<'w, D: Disk, L>(
    alloc: Global,
    head: D,
    disk: D,
    words: &Format<'_>,
    pass: &[u8],
    seed: &[u8; 32],
) -> (Ended<'w, D, L>, Option<String>)
    requires words { IsFormatting (formatting words.now) }
    requires head { (D.device head).size ≡ (formatting words.now).atom }
    requires atom { (D.device disk).size ≡ (formatting words.now).atom }
    requires two { is_some (formatting words.now).header ≡ true }
    ensures status { result.0.status ≡ status_of result.0.cause }
    ensures made { IsOnTwo D.device (wish_of (formatting words.now)) pass.now seed.now head disk
        (outcome_of result.0) (option_map (λ text. string_bytes text) result.1) }
{
    let mut joined = JoinedDisk::with(head, disk);
    let sizes = joined.sizes();
    let (cause, line) = make_on(alloc, &mut joined, sizes, words, pass, seed);
    let (header, disk) = joined.parts();
    let sessions = Sessions::none(alloc, cause, Vec::new(alloc));
    (sessions.ended(Some(disk), header), line)
}

/// Asks the bay for the passphrase, and makes a new volume on the disks that it gave.
fn make_in<'w, B: Bay>(
    alloc: Global,
    bay: &mut B,
    header: Option<B::Disk>,
    disk: B::Disk,
    words: &Format<'_>,
    seed: &[u8; 32],
) -> (Ended<'w, B::Disk, B::Link>, Option<String>)
    requires words { IsFormatting (formatting words.now) }
    requires head { (in_front B.Disk.device (formatting words.now).atom header).size
        ≡ (formatting words.now).atom }
    requires atom { (B.Disk.device disk).size ≡ (formatting words.now).atom }
    requires named { is_some header ≡ is_some (formatting words.now).header }
    ensures status { result.0.status ≡ status_of result.0.cause }
    ensures made { UnderKey (bay_view B.Disk.device B.Link.state B.holdings B.asks_disk
        B.asks_reading B.asks_key B.asks_links) (formatting words.now).key_file disk header bay.old
        bay.new (outcome_of result.0) (option_map (λ text. string_bytes text) result.1)
        (λ pass. IsOn B.Disk.device (wish_of (formatting words.now)) pass seed.now header disk
        (outcome_of result.0) (option_map (λ text. string_bytes text) result.1)) }
{
    match bay.key(alloc, words.key_file) {
        Ok(pass) => match header {
            None => make_on_one(alloc, disk, words, pass.as_slice(), seed),
            Some(head) => make_on_two(alloc, head, disk, words, pass.as_slice(), seed),
        },
        Err(fault) => {
            let cause = cause_by(Failing::Keying, fault, bay.faults());
            let sessions = Sessions::none(alloc, cause, Vec::new(alloc));
            (sessions.ended(Some(disk), header), None)
        }
    }
}

/// Asks the bay for the disk of the header, where the words name one, and for the rest.
fn make_behind<'w, B: Bay>(
    alloc: Global,
    bay: &mut B,
    disk: B::Disk,
    words: &Format<'_>,
    seed: &[u8; 32],
) -> (Ended<'w, B::Disk, B::Link>, Option<String>)
    requires words { IsFormatting (formatting words.now) }
    requires atom { (B.Disk.device disk).size ≡ (formatting words.now).atom }
    ensures status { result.0.status ≡ status_of result.0.cause }
    ensures made { MakesBehind (bay_view B.Disk.device B.Link.state B.holdings B.asks_disk
        B.asks_reading B.asks_key B.asks_links) (formatting words.now) seed.now
        (formatting words.now).header disk bay.old bay.new (outcome_of result.0)
        (option_map (λ text. string_bytes text) result.1) }
{
    let Some(name) = words.header else {
        return make_in(alloc, bay, None, disk, words, seed);
    };
    match bay.disk(alloc, name, words.atom) {
        Ok(head) => make_in(alloc, bay, Some(head), disk, words, seed),
        Err(fault) => {
            let cause = cause_by(Failing::Opening, fault, bay.faults());
            (unserved(alloc, cause, Some(disk), Vec::new(alloc)), None)
        }
    }
}

/// Draws 32 bytes from the seeds, asks the bay for a disk, for another one of the header where the
/// words name it, and for a passphrase, and makes a new volume there. All that is random of the
/// volume is stretched from those bytes. The gate is told of bytes of the disk that no volume reaches.
pub fn make<'w, B: Bay, R: Seeds, G: Gate>(
    alloc: Global,
    bay: &mut B,
    seeds: &mut R,
    words: &Format<'_>,
    gate: &G,
) -> (Ended<'w, B::Disk, B::Link>, Option<String>)
    requires { IsFormatting (formatting words.now) }
    ensures status { result.0.status ≡ status_of result.0.cause }
    ensures made { HasMade (bay_view B.Disk.device B.Link.state B.holdings B.asks_disk
        B.asks_reading B.asks_key B.asks_links) (formatting words.now)
        (R.supply seeds.old) (R.supply seeds.new) bay.old bay.new (outcome_of result.0)
        (option_map (λ text. string_bytes text) result.1) }
{
    let mut seed = [0; 32];
    match seeds.fill(&mut seed) {
        Ok(()) => {}
        Err(_) => {
            let cause = Cause::Seeds {
                faults: seeds.faults(),
            };
            return (unserved(alloc, cause, None, Vec::new(alloc)), None);
        }
    }
    match bay.disk(alloc, words.disk, words.atom) {
        Ok(disk) => {
            note_tail(alloc, gate, words.disk, &disk);
            make_behind(alloc, bay, disk, words, &seed)
        }
        Err(fault) => {
            let cause = cause_by(Failing::Opening, fault, bay.faults());
            (unserved(alloc, cause, None, Vec::new(alloc)), None)
        }
    }
}
