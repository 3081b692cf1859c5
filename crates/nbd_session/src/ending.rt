use nbd_stream::Ending;

/// A session that ended: its number, how, how many bytes were taken from its source, and how many
/// bytes of pieces went to its sink whole.
#[derive(Clone, Copy, PartialEq, Eq)]
pub struct SessionEnd {
    pub number: u64,
    pub ending: Ending,
    pub taken: u64,
    pub put: u64,
}
