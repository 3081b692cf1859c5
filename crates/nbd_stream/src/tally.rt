/// How many bytes a session took, and how many it put in whole pieces. Both stand still at
/// `2^64 - 1`.
#[derive(Clone, Copy)]
pub struct Tally {
    pub taken: u64,
    pub put: u64,
}
