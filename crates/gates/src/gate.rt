/// Where a thread may be held.
#[derive(Clone, Copy, PartialEq, Eq)]
pub enum Place {
    /// Before it asks again for a range that it waits for.
    Waiting,
    /// After an operation was admitted.
    Admitted,
    /// Before a step of the conversion.
    Work,
}

/// How far a conversion is.
#[derive(Clone, Copy, PartialEq, Eq)]
pub struct Converted {
    /// How many blocks are new.
    pub done: u64,
    /// How many blocks there are.
    pub blocks: u64,
    /// The bytes of a block.
    pub atom: u32,
}

/// What holds threads at their places, and is told how far a conversion is, and what people should
/// know. None of these answers anything, so they can't change an answer.
pub trait Gate {
    /// Holds the thread at this place as long as the gate wants.
    fn pause(&self, place: Place);

    /// Takes note of how far a conversion is, before each of its steps.
    fn tell(&self, converted: Converted);

    /// Takes note of something that people should know: one line, without its line feed. A gate
    /// that tells nobody does nothing.
    fn notify(&self, _line: &str) {}
}

/// A gate that holds nobody, and takes no notes.
#[derive(Clone, Copy)]
pub struct OpenGate;

impl Gate for OpenGate {
    fn pause(&self, _place: Place) {}

    fn tell(&self, _converted: Converted) {}
}
