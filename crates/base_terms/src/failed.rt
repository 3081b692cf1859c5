/// A call to the outside failed. The object that answers it counts its faults: the count rose in
/// that call, or stands at its last value, `2^64 - 1`.
#[derive(Clone, Copy, Debug, PartialEq, Eq)]
pub struct Failed;
