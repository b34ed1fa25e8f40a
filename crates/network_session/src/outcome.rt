//! What a step of a network did.

use mote_session::session::Next;

#[derive(Clone, Copy, Debug, PartialEq, Eq, Drop)]
pub enum Outcome {
    /// This mote is at work from now on: it starts its applications.
    Started(usize),
    /// This mote, which is at work, did this, as `Session::next` says.
    Worked(usize, Next),
    /// This mote got the time: its moment has come, or a frame arrives for it.
    Woken(usize),
    /// This mote was handed the frame that arrived.
    Heard(usize),
    /// A frame from the one mote arrived for the other, and nobody hears it.
    Missed(usize, usize),
    /// The clock went on.
    Clock,
    /// Nothing is left to do.
    Rest,
    /// Something is left to do, but the input has taken all its rounds.
    Exhausted,
}
