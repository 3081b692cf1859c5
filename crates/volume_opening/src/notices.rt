use gates::Gate;
use header_report::copy_notice;
use luks_store::Loaded;
use std::alloc::Global;

/// Says of a copy of the header that isn't as the other one that it is to be written anew, as the
/// opening of a volume does once its checks have passed. Where there is no memory for the line nothing is said.
pub fn note_repair<G: Gate>(alloc: Global, gate: &G, loaded: &Loaded) {
    let Some(notice) = copy_notice(loaded) else {
        return;
    };
    if let Ok(line) = format!(in alloc; "{notice}: it is to be written anew") {
        gate.notify(line.as_str());
    }
}
