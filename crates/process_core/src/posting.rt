//! Puts events into the queue.

ghost use Rattle.std.specs.Prelude.{◌≡◌, None, Some, IfOk, IfErr};
ghost use Rattle.process_core.specs.Agenda.{Queued as QueuedEvent};
ghost use Rattle.process_core.specs.Code.SchedulerFields.{queued_of};
ghost use Rattle.process_core.specs.Requests as request;
ghost use Rattle.process_core.specs.Scheduler.{has_room, posted};

use crate::queued::Queued;
use crate::scheduler::{QUEUE_PLACES, Scheduler};
use mote_types::event::{Event, Pid};
use mote_types::refusal::Refusal;

impl Scheduler {
    /// Whether the queue takes one more event.
    pub fn has_room(&self) -> bool
        ensures { result ≡ has_room self.now.state }
    {
        self.fields.events.len() < QUEUE_PLACES
    }

    /// Puts the event at the end of the queue. A full queue refuses it, and keeps what waits.
    fn enqueue(&mut self, queued: Queued) -> Result<(), Refusal>
        ensures accepted { IfOk result (λ _. (request.post_refusal self.old.state ≡ None)
            × (self.new ≡ record self.old { state = posted (queued_of queued) self.old.state })) }
        ensures refused { IfErr result (λ r. (request.post_refusal self.old.state ≡ Some r) × (self.new ≡ self.old)) }
    {
        if !self.has_room() {
            return Err(Refusal::Full);
        }
        let _ = self.fields.events.push_back(queued);
        Ok(())
    }

    /// Puts an event at the end of the queue, for one process, whatever its number and its state and whatever the code
    /// (`process_post`). `Full` where 32 events wait.
    pub fn post(&mut self, receiver: Pid, event: Event) -> Result<(), Refusal>
        ensures accepted { IfOk result (λ _. (request.post_refusal self.old.state ≡ None)
            × (self.new ≡ record self.old { state = posted (QueuedEvent.To receiver.0 event) self.old.state })) }
        ensures refused { IfErr result (λ r. (request.post_refusal self.old.state ≡ Some r) × (self.new ≡ self.old)) }
    {
        self.enqueue(Queued::To(receiver, event))
    }

    /// As `post`, for each process that is on the list when the event is delivered (`PROCESS_BROADCAST`). It takes one
    /// slot.
    pub fn broadcast(&mut self, event: Event) -> Result<(), Refusal>
        ensures accepted { IfOk result (λ _. (request.post_refusal self.old.state ≡ None)
            × (self.new ≡ record self.old { state = posted (QueuedEvent.ToAll event) self.old.state })) }
        ensures refused { IfErr result (λ r. (request.post_refusal self.old.state ≡ Some r) × (self.new ≡ self.old)) }
    {
        self.enqueue(Queued::ToAll(event))
    }

    /// As `post`, for the expiry of a process's callback timer. The arming number is returned with the job, so that the
    /// layer above can write_event whether the timer was set or stopped since.
    pub fn post_callback(&mut self, pid: Pid, number: u8, arming: u64) -> Result<(), Refusal>
        ensures accepted { IfOk result (λ _. (request.post_refusal self.old.state ≡ None)
            × (self.new ≡ record self.old { state = posted (QueuedEvent.Expiry pid.0 number arming) self.old.state })) }
        ensures refused { IfErr result (λ r. (request.post_refusal self.old.state ≡ Some r) × (self.new ≡ self.old)) }
    {
        self.enqueue(Queued::Expiry {
            pid,
            number,
            arming,
        })
    }
}
