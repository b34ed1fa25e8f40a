//! The kernel's processes that are the next receivers of a broadcast.

ghost use Rattle.std.specs.Prelude.{◌≡◌, false};
ghost use Rattle.process_core.specs.Code.KernelReceivers.{is_other_event, kernel_receivers_passed};
ghost use Rattle.process_core.specs.Code.Walks.{passes_receiver, receiver_is_next};

use crate::open_work::Base;
use crate::scheduler::Scheduler;
use crate::scheduler_fields::SchedulerFields;
use mote_types::event::Stimulus;

impl SchedulerFields {
    /// Whether a receiver of a broadcast is next, with a poll round before it.
    fn receiver_is_next(&self) -> bool
        ensures { result ≡ receiver_is_next self.now }
    {
        self.front.is_over()
            && self.stack.is_empty()
            && self.polls.is_over()
            && matches!(self.base, Base::Broadcast { is_polled: false })
    }

    /// Whether the event that left the queue last has another code than these.
    fn is_other_broadcast(&self, codes: &[u8]) -> bool
        ensures { result ≡ is_other_event codes.now self.now.broadcast }
    {
        match &self.broadcast {
            Stimulus::Event(event) => !codes.contains(&event.code),
            _ => false,
        }
    }

    /// Whether a process of the kernel is the next receiver of an event with another code than these.
    fn passes_receiver(&self, codes: &[u8]) -> bool
        ensures { result ≡ passes_receiver codes.now self.now }
    {
        // After most waits an application is next, if anything is, so that is checked first.
        self.walk.comes_to_kernel()
            && !self.processes.is_any_marked()
            && self.receiver_is_next()
            && self.is_other_broadcast(codes)
    }
}

impl Scheduler {
    /// Passes the kernel's processes that would be the next receivers of a broadcast with another code than these: they
    /// don't get it. Does nothing where a process is marked.
    ///
    /// Must be called with all codes of events with which a process of the kernel does anything.
    pub fn pass_kernel_receivers(&mut self, codes: &[u8])
        ensures { self.new ≡ record self.old { state = kernel_receivers_passed codes.now self.old.state } }
    {
        if self.fields.passes_receiver(codes) {
            self.fields.walk.pass_kernel_processes();
        }
    }
}
