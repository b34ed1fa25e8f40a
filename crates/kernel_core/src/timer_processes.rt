//! Process 0 (etimer), which posts the timers that have run out, and process 1 (ctimer), for callback timers.

ghost use Rattle.std.specs.Prelude.{◌≡◌, ◌<◌, ◌^◌, true, None, Some};
ghost use Rattle.process_core.specs.Scheduler.{has_room};
ghost use Rattle.timer_core.specs.Code.Conditions.{IsNamed};
ghost use Rattle.timer_core.specs.declared.timer.Timer.{Timer};
ghost use Rattle.mote_types.specs.Codes.{number_event};
ghost use Rattle.kernel_core.specs.Code.Draws.{HasQueueableEvents};
ghost use Rattle.kernel_core.specs.Repeating.{times};
ghost use Rattle.kernel_core.specs.Machine.{free_places};
ghost use Rattle.kernel_core.specs.TimerProcesses as processes;
ghost use Rattle.kernel_core.specs.Code.KernelEvents.{exited_numbered};
ghost use Rattle.kernel_core.specs.Code.Pending.{no_pending_entries};
ghost use Rattle.kernel_core.specs.Code.View.{machine_of, is_cancelled, IsExpired, IsServed, PostsOne};
ghost use Rattle.kernel_core.specs.Code.Carrying.{job_carrying};
ghost use Rattle.kernel_core.specs.Run.{Choices, job_done, silent};
ghost use Rattle.process_core.specs.Agenda.{Job};

use crate::kernel_fields::KernelFields;
use crate::kernel_processes::exited_application;
use mote_types::event::{ETIMER, Event, Payload, Pid, TIMER};
use timer_core::due::Due;

fn timer_event(number: u8) -> Event
    ensures { result ≡ number_event TIMER number }
{
    Event {
        code: TIMER,
        payload: Payload::Num(u32::from(number)),
    }
}

impl KernelFields {
    /// Posts the first due timer, if there is one.
    fn post_first_due(&mut self) -> bool
        requires room { has_room self.old.scheduler.state ≡ true }
        requires events { HasQueueableEvents self.old }
        ensures { PostsOne processes.post_first_due result self.old self.new }
    {
        match self.timers.take_due(self.clock) {
            Some(Due::Timer { pid, number }) => {
                let _ = self.scheduler.post(pid, timer_event(number));
                true
            }
            Some(
                Due::Callback {
                    pid,
                    number,
                    arming,
                },
            ) => {
                let _ = self.scheduler.post_callback(pid, number, arming);
                true
            }
            None => false,
        }
    }

    /// Posts due timers as long as the queue has room.
    fn post_while_room(&mut self)
        requires events { HasQueueableEvents self.old }
        ensures machine { machine_of self.new ≡ times (free_places (machine_of self.old)) processes.post_first_due (machine_of self.old) }
        ensures kept { IsServed 0 self.old self.new }
    {
        while self.scheduler.has_room() {
            if !self.post_first_due() {
                return;
            }
        }
    }

    /// Posts due timers as long as the queue has room. Where one is left, etimer is polled again.
    pub fn post_due(&mut self)
        requires events { HasQueueableEvents self.old }
        ensures machine { machine_of self.new ≡ processes.post_due (machine_of self.old) }
        ensures kept { IsServed 0 self.old self.new }
    {
        self.post_while_room();
        // Where the queue still has room, nothing due is left.
        if self.scheduler.has_room() {
            return;
        }
        if self.timers.any_due(self.clock) {
            self.scheduler.mark(ETIMER);
        }
    }

    /// An expiry of a callback timer has left the queue: the process gets the callback, unless the timer was set again
    /// or stopped since.
    #[tactic(auto, unfolding(crate::specs::Code::Cost::costs))]
    pub fn expire(&mut self, pid: Pid, number: u8, arming: u64)
        requires named { IsNamed (Timer.Callback pid number) }
        requires taken { self.old.scheduler.callback ≡ Some (pid, number) }
        requires turn { self.old.scheduler.turn ≡ None }
        requires shown { self.old.pending ≡ no_pending_entries }
        requires events { HasQueueableEvents self.old }
        ensures machine { (choices : Choices) →
            job_done choices (Some (job_carrying (is_cancelled self.old.timers.value.armings) (Job.CallBack pid.0 number arming))) (machine_of self.old) ≡ silent (machine_of self.new) }
        ensures kept { IsExpired self.old self.new }
    {
        if !self.timers.is_present_arming(pid, number, arming) {
            return;
        }
        self.scheduler.give_callback(pid, number);
    }

    /// The event timers of an application that has ended leave the timer list.
    pub fn forget_event_timers(&mut self, number: u32)
        requires events { HasQueueableEvents self.old }
        ensures machine { machine_of self.new ≡ processes.forget_event_timers (exited_numbered number) (machine_of self.old) }
        ensures kept { IsServed 0 self.old self.new }
    {
        if let Some(pid) = exited_application(number) {
            self.timers.forget(pid);
        }
    }

    /// The callback timers of an application that has ended leave the timer list, and their expiries that wait in the
    /// queue no longer count.
    pub fn forget_callback_timers(&mut self, number: u32)
        requires few { self.old.timers.value.armings.drawn < 2 ^ 60 }
        requires events { HasQueueableEvents self.old }
        ensures machine { machine_of self.new ≡ processes.forget_callback_timers (exited_numbered number) (machine_of self.old) }
        ensures kept { IsServed 4 self.old self.new }
    {
        if let Some(pid) = exited_application(number) {
            self.timers.forget_callbacks(pid);
        }
    }
}
