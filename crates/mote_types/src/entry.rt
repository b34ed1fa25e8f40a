//! What a mote is handed, and what it writes down.

use crate::call::Call;
use crate::event::{Origin, Pid, Stimulus};
use crate::refusal::Refusal;
use arrayvec::ArrayVec;

/// What reaches the mote from outside.
#[derive(Drop)]
pub enum Input {
    /// The clock advances by n ticks.
    Tick(u32),
    /// These bytes, at least one, arrive on the serial line.
    Serial(ArrayVec<u8, 256>),
    /// A frame of these bytes, at least one, arrives.
    Frame(ArrayVec<u8, 127>),
}

/// What the kernel reports besides turns.
#[derive(Drop)]
pub enum Note {
    /// A frame was lost, and why.
    Lost(Refusal),
    /// A frame of these bytes was sent.
    Sent(ArrayVec<u8, 127>),
}

/// An entry of the transcript.
#[derive(Drop)]
pub enum Entry {
    /// An input was submitted.
    Input(Input),
    /// An application received a stimulus, and made a call.
    Turn {
        pid: Pid,
        origin: Origin,
        stimulus: Stimulus,
        call: Call,
    },
    /// Something that is no turn.
    Note(Note),
    /// The work bound was reached: nothing follows.
    Halt,
}
