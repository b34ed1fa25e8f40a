//! What waits in the event queue.

use mote_types::event::{Event, Pid};

/// An event in the queue.
#[derive(Drop)]
pub enum Queued {
    /// For one process.
    To(Pid, Event),
    /// For each process that is on the list at the delivery.
    ToAll(Event),
    /// A callback timer has run out. The arming number tells whether it was set or stopped since.
    Expiry { pid: Pid, number: u8, arming: u64 },
}
