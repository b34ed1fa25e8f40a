//! What happened in a network.

use mote_types::entry::Input;

/// What `NetworkSteps::next` reported. Motes have numbers from 0 on.
#[derive(Clone, Copy, Debug, PartialEq, Eq, Drop)]
pub enum Came {
    /// An application of this mote takes a turn, and its call is awaited. Then the turn is an entry.
    Turn(usize),
    /// This mote made another entry.
    Entry(usize),
    /// The clock went on.
    Clock,
    /// The rule of the link from the one mote to the other lost the frame that was sent last.
    Lost(usize, usize),
    /// That frame found no room in flight.
    Full(usize, usize),
    /// A frame from the one mote arrived for the other, and nobody hears it.
    Missed(usize, usize),
    /// This mote was halted before an input from outside.
    Unheard(usize),
    /// Nothing is left to do without an input.
    Rest,
    /// Something is left to do, but the input has taken all its rounds: nothing follows.
    Exhausted,
}

/// How far a network is.
#[derive(Clone, Copy, Debug, PartialEq, Eq, Drop)]
pub enum Phase {
    /// `next` wasn't called: links can be added.
    Fresh,
    /// Something may be left to do.
    Working,
    /// Nothing is left to do: an input can be submitted.
    Resting,
    /// The last input has taken all its rounds.
    Exhausted,
}

/// A frame that was just sent: what became of it over its sender's links from this position on is still to be reported.
#[derive(Clone, Copy, Debug, PartialEq, Eq, Drop)]
pub struct Sending {
    pub from: usize,
    pub place: usize,
}

/// An input from outside that waits until its mote, which got the time, rests.
#[derive(Drop)]
pub struct Waiting {
    pub mote: usize,
    pub input: Input,
}
