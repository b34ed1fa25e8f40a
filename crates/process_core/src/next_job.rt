//! What the scheduler asks of the layer above.

use mote_types::event::{Origin, Pid};

/// The next job. `Scheduler::stimulus` has what an application receives.
#[derive(Clone, Copy, Drop)]
pub enum NextJob {
    /// An application takes a turn: it receives its stimulus, and its call is reported to the scheduler before the next job.
    TakeTurn { pid: Pid, origin: Origin },
    /// One of the kernel's processes, 0 to 3, gets the event in the buffer.
    Serve(Pid),
    /// One of them gets the event that left the queue last.
    Hear(Pid),
    /// A callback timer's expiry is delivered. It counts if the timer has that arming number still.
    CallBack { pid: Pid, number: u8, arming: u64 },
    /// A round begins: a poll round if any process is marked, and then the delivery of the first event.
    Round,
    /// No work is open, no process is marked, and no event waits.
    Rest,
}
