//! The states of a process.

/// What a process is doing. A kernel process is always Running.
#[derive(Clone, Copy, Debug, PartialEq, Eq, Drop)]
pub enum State {
    /// It is not on the process list.
    Absent,
    /// It is on the list, and in no activation.
    Running,
    /// It is in its own activation, which lasts from the first stimulus to its Wait or Exit.
    Called,
    /// It has ended, and is still on the list.
    Leaving,
    /// It was killed, and is in the activation in which it gets EXIT.
    Ending,
}
