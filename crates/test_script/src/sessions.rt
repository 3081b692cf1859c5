// How sessions ended, and what their clients were put.

use crate::digests::put_text;
use anyhow::{Result, anyhow};
use bays::MemLink;
use nbd_session::{Ending, SessionEnd};
use std::alloc::Global;

/// How a session ended, in words.
fn ending_text(alloc: Global, ending: Ending) -> Result<String> {
    let word = match ending {
        Ending::Truncated(bytes) => return Ok(format!(in alloc; "Truncated({bytes})")?),
        Ending::BadFlags(flags) => return Ok(format!(in alloc; "BadFlags({flags})")?),
        Ending::BadMagic(magic) => return Ok(format!(in alloc; "BadMagic({magic})")?),
        Ending::TooLong(bytes) => return Ok(format!(in alloc; "TooLong({bytes})")?),
        Ending::TooMany(count) => return Ok(format!(in alloc; "TooMany({count})")?),
        Ending::Disconnected => "Disconnected",
        Ending::Aborted => "Aborted",
        Ending::Closed => "Closed",
        Ending::UnknownExport => "UnknownExport",
        Ending::PortSpent => "PortSpent",
        Ending::ReadFault => "ReadFault",
        Ending::WriteFault => "WriteFault",
        Ending::Memory => "Memory",
    };
    Ok(String::from_str(alloc, word)?)
}

/// Tells the sessions of a link, in their order.
fn tell_link(
    alloc: Global,
    number: usize,
    link: &MemLink,
    ends: &[SessionEnd],
    told: &mut Vec<String>,
) -> Result<()> {
    for (place, end) in ends.iter().enumerate() {
        let Some((_, sink)) = link.handed().get(place) else {
            return Err(anyhow!("a session whose connection wasn't handed back"));
        };
        let put = put_text(alloc, sink.as_slice())?;
        let SessionEnd {
            number: session,
            ending,
            taken,
            put: count,
        } = *end;
        let ending = ending_text(alloc, ending)?;
        told.push(format!(in alloc;
            "link {number}: {session} {ending}, taken {taken}, put {count} {put}"
        )?)?;
    }
    Ok(())
}

/// How each session of a command ended.
pub(crate) fn sessions_of(
    alloc: Global,
    sessions: &[Vec<SessionEnd>],
    links: &[MemLink],
) -> Result<Vec<String>> {
    let mut told = Vec::new(alloc);
    for (number, ends) in sessions.iter().enumerate() {
        match links.get(number) {
            Some(link) => tell_link(alloc, number, link, ends.as_slice(), &mut told)?,
            None => return Err(anyhow!("sessions of no link")),
        }
    }
    Ok(told)
}

/// What the first client of the first link was put.
pub(crate) fn put_of(alloc: Global, links: &[MemLink]) -> Result<Vec<u8>> {
    match links.first() {
        Some(link) => match link.handed().first() {
            Some((_, sink)) => Ok(Vec::from_slice(alloc, sink.as_slice())?),
            None => Ok(Vec::new(alloc)),
        },
        None => Ok(Vec::new(alloc)),
    }
}
