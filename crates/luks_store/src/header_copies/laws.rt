// Laws of copies, with nothing to run.

ghost use Rattle.crash_laws.specs.HeaderAreas.Headers.{IsReader};
ghost use Rattle.luks_store.specs.Copying.Hidden.{HideNone, StandAtAtoms};
ghost use Rattle.luks_store.specs.Copying.Meanings.{header_reader};
ghost use Rattle.luks_store.specs.Copying.Promises.{AreOneHeader, MeanTheSame, MeanTheirHeaders};
ghost use Rattle.luks_store.specs.Copying.Seen.{CallsAreSeen, RepairsAreSeen};

use luks_bin::copies_are_spelt;

/// Copies are read as the laws of headers ask: a copy is told by its own bytes, whatever stands
/// behind it, and stands at 0 or at its own size.
pub fn copies_are_read()
    ensures { IsReader header_reader }
{
    copies_are_spelt();
}

/// Two whole copies of one size mean the same exactly where they share all bytes that copies share.
pub fn copies_mean_what_they_share()
    ensures { MeanTheSame }
{}

/// A whole copy means what its bytes mean, with the number and the size of the header that is read
/// from it; and a primary and a secondary of one size that share all bytes that copies share are a
/// header as the laws of headers speak of it.
pub fn copies_mean_their_headers()
    ensures each { MeanTheirHeaders }
    ensures both { AreOneHeader }
{
    copies_are_spelt();
}

/// The device calls of a commit and of a repair move what the disk shows as the laws of headers
/// say, so that these hold of each table that the disk tells, and of each image that a stop leaves
/// of it.
pub fn calls_are_seen()
    ensures commits { CallsAreSeen }
    ensures repairs { RepairsAreSeen }
{}

/// Copies stand at whole atoms, and no copy begins with an atom of a text in which no magic stands,
/// but with its first: so the laws on what is found in front of the secondary hold of copies that
/// `luks_bin::hides_copy` has tested.
pub fn copies_are_told_by_their_fronts()
    ensures places { StandAtAtoms }
    ensures hidden { HideNone }
{
    copies_are_spelt();
}
