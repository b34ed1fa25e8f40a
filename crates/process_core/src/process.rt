//! A process on the process list.

use crate::state::State;

/// A process on the list, as contracts see it. It is marked where a poll is pending.
#[derive(Clone, Copy, Drop)]
pub struct Process {
    pub number: u8,
    pub state: State,
    pub marked: bool,
}
