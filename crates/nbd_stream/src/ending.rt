/// How a session ended.
#[derive(Clone, Copy, PartialEq, Eq)]
pub enum Ending {
    /// The client asked to disconnect.
    Disconnected,
    /// The client gave up the negotiation.
    Aborted,
    /// The input ended between two messages.
    Closed,
    /// The input ended after so many bytes of a message.
    Truncated(u64),
    /// The client's flags have a bit that the greeting doesn't offer.
    BadFlags(u32),
    /// This number stood in the place of a message's magic number.
    BadMagic(u64),
    /// So many bytes of data were announced, more than an option or a write may have.
    TooLong(u32),
    /// The client asked by EXPORT_NAME for an export that isn't there.
    UnknownExport,
    /// So many options or requests were answered, the most that one session may have.
    TooMany(u64),
    /// The port takes no operation any more.
    PortSpent,
    /// The source failed.
    ReadFault,
    /// The sink failed.
    WriteFault,
    /// Memory was wanted for the data of an option.
    Memory,
}
