//! The front: what is done before all other work.

use mote_types::event::Pid;

/// What the scheduler awaits from the layer above after a job, or what that layer has reported since, which is done next.
#[derive(Clone, Copy, Drop)]
pub enum Front {
    Nothing,
    /// The call of the process whose turn it is is awaited.
    Call(Pid),
    /// Awaits whether this expiry counts: then the process gets the callback.
    Expiry { pid: Pid, number: u8 },
    /// The process takes a turn with the stored reply.
    Answer(Pid),
    /// A synchronous post: the process gets the stored event.
    Give(Pid),
    /// The process is started.
    Start(Pid),
    /// The process gets the callback of its timer.
    Callback { pid: Pid, number: u8 },
}
