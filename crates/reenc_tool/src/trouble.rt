// Why sessions ended.

ghost use Rattle.std.specs.Prelude.{◌≡◌, ◌≢◌, ◌<◌, ◌≤◌, ◌||◌, true, false, ℕ, fold, length};
ghost use Rattle.std.specs.Prelude.{slice_index_or};
ghost use Rattle.block_server.specs.declared.link.Standing.TheVariants.{Live};
ghost use Rattle.reenc_tool.specs.Sessions.{any_spent, cause_of, cause_of_links, is_spent};
ghost use Rattle.reenc_tool.specs.Standings.{AreFaultsOfFirst, HasLive, failed_bit, failed_in};

use crate::ended::{Cause, Failing, Fit};
use bays::Link;
use block_server::Standing;
use nbd_session::{Ending, SessionEnd};
use reenc_worker::WorkerEnd;

/// How many entries the history of a served volume gets at most: each event of a client is one, and
/// each step of the conversion's worker.
pub const MOST_EVENTS: u64 = (1 << 63) - 2;

/// What was found of sessions and links: whether a session found the history full, how many links
/// failed, and how many calls of the first of them, and whether memory was wanted for a session's end.
#[derive(Clone, Copy)]
pub struct Trouble {
    pub spent: bool,
    pub failed: u32,
    pub faults: u64,
    pub memory: bool,
}

/// What is found of links that stand so, and of the ends of their sessions.
pub fn trouble_of<L: Link>(links: &[L], standings: &[Standing], ends: &[Vec<SessionEnd>]) -> Trouble
    requires { length standings.now ≤ length links.now }
    ensures spent { result.spent
        ≡ fold (λ found list. found || any_spent list.items) false ends.now }
    ensures failed { result.failed ≡ failed_in standings.now }
    ensures faults { AreFaultsOfFirst L.state links.now standings.now result.faults }
    ensures short { result.memory ≡ true → HasLive (length standings.now) standings.now }
    ensures to_the_end { result.memory ≡ false → (k : ℕ) → k < length standings.now →
        slice_index_or standings.now k Live ≢ Live }
{
    let failed = standings.iter().fold(0u32, |count, standing| {
        count.saturating_add(failed_bit(*standing))
    });
    Trouble {
        spent: has_spent(ends),
        failed,
        faults: faults_of_first(links, standings),
        memory: has_live(standings),
    }
}

/// 1 for a link that failed.
fn failed_bit(standing: Standing) -> u32
    ensures { result ≡ failed_bit standing }
{
    match standing {
        Standing::Live | Standing::Ended => 0,
        Standing::Failed => 1,
    }
}

/// How many calls of the first link failed that stands so; none where none does.
fn faults_of_first<L: Link>(links: &[L], standings: &[Standing]) -> u64
    requires { length standings.now ≤ length links.now }
    ensures { AreFaultsOfFirst L.state links.now standings.now result }
{
    for k in 0..standings.len() {
        if let Standing::Failed = standings[k] {
            return links[k].faults();
        }
    }
    0
}

/// Whether a link wasn't asked to its end.
fn has_live(standings: &[Standing]) -> bool
    ensures some { result ≡ true → HasLive (length standings.now) standings.now }
    ensures none { result ≡ false → (k : ℕ) → k < length standings.now →
        slice_index_or standings.now k Live ≢ Live }
{
    for k in 0..standings.len() {
        if let Standing::Live = standings[k] {
            return true;
        }
    }
    false
}

/// Whether a session ended since its port was spent.
fn is_spent(ending: Ending) -> bool
    ensures { result ≡ is_spent ending }
{
    matches!(ending, Ending::PortSpent)
}

/// The same of some session of a link.
fn any_spent(list: &[SessionEnd]) -> bool
    ensures { result ≡ any_spent list.now }
{
    list.iter()
        .fold(false, |found, end| found | is_spent(end.ending))
}

/// The same of some session of any link.
fn has_spent(lists: &[Vec<SessionEnd>]) -> bool
    ensures { result ≡ fold (λ found list. found || any_spent list.items) false lists.now }
{
    lists
        .iter()
        .fold(false, |found, list| found | any_spent(list.as_slice()))
}

/// The cause by what was found of sessions and links.
fn cause_of_links<'w>(trouble: Trouble) -> Cause<'w>
    ensures { result ≡ cause_of_links trouble.spent trouble.failed trouble.faults trouble.memory }
{
    if trouble.spent {
        Cause::NoFit {
            what: Fit::Events,
            number: MOST_EVENTS + 1,
            limit: MOST_EVENTS,
        }
    } else if trouble.failed != 0 {
        Cause::Link {
            failed: trouble.failed,
            faults: trouble.faults,
        }
    } else if trouble.memory {
        Cause::Memory
    } else {
        Cause::Fine
    }
}

/// The cause of the end of sessions on a disk of which so many calls failed, beside a conversion's worker
/// that ended so, where there was one.
pub fn cause<'w>(
    broken: bool,
    faults: u64,
    worker: Option<WorkerEnd>,
    trouble: Trouble,
) -> Cause<'w>
    ensures { result ≡ cause_of broken faults worker trouble.spent trouble.failed trouble.faults
        trouble.memory }
{
    if broken {
        return Cause::Device {
            failing: Failing::Writing,
            faults,
        };
    }
    match worker {
        None | Some(WorkerEnd::Finished) => cause_of_links(trouble),
        Some(WorkerEnd::Device | WorkerEnd::Broken) => Cause::Device {
            failing: Failing::Converting,
            faults,
        },
        Some(WorkerEnd::Clash { block, digest }) => Cause::Clash { block, digest },
        Some(WorkerEnd::NoFit(unfit)) => Cause::of_unfit(unfit),
        Some(WorkerEnd::Spent) => cause_of_links(Trouble {
            spent: true,
            ..trouble
        }),
        Some(WorkerEnd::Memory) => cause_of_links(Trouble {
            memory: true,
            ..trouble
        }),
    }
}
