//! What the scheduler asks of the layer above, by value.

use mote_types::event::{Event, Origin, Pid, Stimulus};

/// What must be done next.
#[derive(Drop)]
pub enum Job {
    /// An application receives the stimulus and takes a turn. Its call is reported to the scheduler before the next job.
    Give {
        pid: Pid,
        origin: Origin,
        stimulus: Stimulus,
    },
    /// One of the kernel's processes, 0 to 3, receives an event.
    Serve {
        pid: Pid,
        event: Event,
    },
    /// A callback timer's expiry is delivered. It counts if the timer still has that arming number.
    Callback {
        pid: Pid,
        number: u8,
        arming: u64,
    },
    /// A round begins: a poll round if any process is marked, and then the delivery of the first event.
    Round,
    /// No work is open, no process is marked, and no event waits.
    Rest,
}
