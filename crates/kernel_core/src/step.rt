//! The result of one step of a kernel.

use mote_types::entry::Entry;

/// The result of a step of the kernel, by value.
#[derive(Drop)]
pub enum Step {
    /// This entry was made.
    Entry(Entry),
    /// Nothing is left to be done without an input.
    Rest,
    /// The run was halted before; nothing follows.
    Halted,
}

/// The result of a step whose entry is written into one of two buffers of the caller.
#[derive(Drop)]
pub enum StepOutcome {
    /// An application took a turn, which is in the buffer for turns.
    Turn,
    /// Another entry was made, and is in the buffer for those.
    Other,
    /// Nothing is left to be done without an input.
    Rest,
    /// The run was halted before; nothing follows.
    Halted,
}
