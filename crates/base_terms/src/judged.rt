// What the ways to keep an open zone of a conversion safe have in common: the words in which each
// of them tells a recovery for what a block of the zone stands. It stands below them all, so that
// who recovers a zone asks any of them alike, and none needs another.

/// For what a block of an open zone stands after a stop, of which what was saved of it tells.
#[derive(Clone, Copy, Debug, PartialEq, Eq)]
pub enum Judged {
    /// For the atom that is in its place, as one of the old segment.
    Old,
    /// For the atom that is in its place, as one of the new segment.
    New,
    /// For the atom that was saved of it, as one of the old segment, whatever is in its place.
    FromSave,
}
