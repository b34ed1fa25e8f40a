//! What the kernel does at an application's calls on its timers. A call that is refused changes nothing.

ghost use Rattle.std.specs.Prelude.{◌≡◌};
ghost use Rattle.mote_types.specs.declared.call.Call.{Call as Asked};
ghost use Rattle.kernel_core.specs.Calls.{after_call};
ghost use Rattle.kernel_core.specs.Code.View.{machine_of, IsAtTurn, IsCallDone};

use crate::kernel_fields::KernelFields;
use mote_types::event::{ETIMER, Pid};
use mote_types::refusal::Refusal;
use mote_types::reply::Reply;

/// The event timers of an application.
const EVENT_TIMERS: u8 = 8;

/// The callback timers of an application.
const CALLBACK_TIMERS: u8 = 4;

impl KernelFields {
    /// Sets an event timer to expire `interval` ticks from now.
    pub fn set_timer(&mut self, pid: Pid, number: u8, interval: u32)
        requires at_turn { IsAtTurn pid self.old }
        ensures machine { machine_of self.new ≡ after_call (Asked.TimerSet number interval) pid.0 (machine_of self.old) }
        ensures kept { IsCallDone self.old self.new }
    {
        if number >= EVENT_TIMERS {
            return self.refuse(pid, Refusal::BadName);
        }
        self.timers.set(self.clock, pid, number, interval);
        self.scheduler.mark(ETIMER);
        self.answer(pid, Reply::Done);
    }

    /// Removes an event timer from the timer list.
    pub fn stop_timer(&mut self, pid: Pid, number: u8)
        requires at_turn { IsAtTurn pid self.old }
        ensures machine { machine_of self.new ≡ after_call (Asked.TimerStop number) pid.0 (machine_of self.old) }
        ensures kept { IsCallDone self.old self.new }
    {
        if number >= EVENT_TIMERS {
            return self.refuse(pid, Refusal::BadName);
        }
        self.timers.stop(pid, number);
        self.answer(pid, Reply::Done);
    }

    /// Sets an event timer to expire one interval after it was to expire last. Refused where that is past the last clock.
    pub fn reset_timer(&mut self, pid: Pid, number: u8)
        requires at_turn { IsAtTurn pid self.old }
        ensures machine { machine_of self.new ≡ after_call (Asked.TimerReset number) pid.0 (machine_of self.old) }
        ensures kept { IsCallDone self.old self.new }
    {
        if number >= EVENT_TIMERS {
            return self.refuse(pid, Refusal::BadName);
        }
        if let Err(refusal) = self.timers.reset(pid, number) {
            return self.refuse(pid, refusal);
        }
        self.scheduler.mark(ETIMER);
        self.answer(pid, Reply::Done);
    }

    /// Sets an event timer to expire its old interval from now.
    pub fn restart_timer(&mut self, pid: Pid, number: u8)
        requires at_turn { IsAtTurn pid self.old }
        ensures machine { machine_of self.new ≡ after_call (Asked.TimerRestart number) pid.0 (machine_of self.old) }
        ensures kept { IsCallDone self.old self.new }
    {
        if number >= EVENT_TIMERS {
            return self.refuse(pid, Refusal::BadName);
        }
        self.timers.restart(self.clock, pid, number);
        self.scheduler.mark(ETIMER);
        self.answer(pid, Reply::Done);
    }

    /// Returns whether an event timer is off the timer list.
    pub fn is_timer_expired(&mut self, pid: Pid, number: u8)
        requires at_turn { IsAtTurn pid self.old }
        ensures machine { machine_of self.new ≡ after_call (Asked.TimerExpired number) pid.0 (machine_of self.old) }
        ensures kept { IsCallDone self.old self.new }
    {
        if number >= EVENT_TIMERS {
            return self.refuse(pid, Refusal::BadName);
        }
        let is_expired = self.timers.expired(pid, number);
        self.answer(pid, Reply::Flag(is_expired));
    }

    /// Sets a callback timer to expire `interval` ticks from now. An expiry of it that waits in the queue no longer counts.
    pub fn set_callback(&mut self, pid: Pid, number: u8, interval: u32)
        requires at_turn { IsAtTurn pid self.old }
        ensures machine { machine_of self.new ≡ after_call (Asked.CallbackSet number interval) pid.0 (machine_of self.old) }
        ensures kept { IsCallDone self.old self.new }
    {
        if number >= CALLBACK_TIMERS {
            return self.refuse(pid, Refusal::BadName);
        }
        self.timers.set_callback(self.clock, pid, number, interval);
        self.scheduler.mark(ETIMER);
        self.answer(pid, Reply::Done);
    }

    /// Removes a callback timer from the timer list. An expiry of it that waits in the queue no longer counts.
    pub fn stop_callback(&mut self, pid: Pid, number: u8)
        requires at_turn { IsAtTurn pid self.old }
        ensures machine { machine_of self.new ≡ after_call (Asked.CallbackStop number) pid.0 (machine_of self.old) }
        ensures kept { IsCallDone self.old self.new }
    {
        if number >= CALLBACK_TIMERS {
            return self.refuse(pid, Refusal::BadName);
        }
        self.timers.stop_callback(pid, number);
        self.answer(pid, Reply::Done);
    }
}
