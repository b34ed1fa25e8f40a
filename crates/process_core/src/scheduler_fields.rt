//! The scheduler's fields.

use crate::front::Front;
use crate::next_job::NextJob;
use crate::open_work::{Base, Continuation};
use crate::process_list::ProcessList;
use crate::queued::Queued;
use crate::walk::Walk;
use arrayvec::ArrayVec;
use circular_buffer::HeapCircularBuffer;
use mote_types::event::{Event, Stimulus};

/// The fields of a scheduler. Its methods keep them in order (`specs/Code/SchedulerFields.antt`), and the scheduler is seen as
/// what they stand for.
///
/// The agenda is stored in parts, in this order: the front, the stack from its topmost continuation, the poll round, and the base
/// (`specs/Code/OpenWork.antt`).
#[derive(Drop)]
pub struct SchedulerFields {
    /// The number of applications, 0 to 16.
    pub applications: u8,
    pub processes: ProcessList,
    /// The event queue, 32 slots.
    pub events: HeapCircularBuffer<Queued>,
    /// The event number that is drawn next, 256 where all were.
    pub next_event: u16,
    /// What the layer above has to report, or reported.
    pub front: Front,
    /// The reply that a process gets, or got last.
    pub reply: Stimulus,
    /// The event that a process gets at once, where the front says so.
    pub synch: Event,
    /// The work within activations.
    pub stack: ArrayVec<Continuation, 34>,
    /// The processes that the poll round has not reached yet.
    pub polls: Walk,
    pub base: Base,
    /// The processes that boot has not started yet, or that have not got the broadcast yet.
    pub walk: Walk,
    /// The event that left the queue last: a process gets it, or it is broadcast.
    pub broadcast: Stimulus,
    /// The job that a function out of line has found.
    pub ready: NextJob,
}
