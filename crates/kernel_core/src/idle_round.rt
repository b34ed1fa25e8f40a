//! A poll round in which only etimer acts: it looks for due timers, and finds none.

ghost use Rattle.std.specs.Prelude.{◌≡◌, ◌≤◌, ◌<◌, ◌+◌, ◌^◌, true, false, is_some};
ghost use Rattle.timer_core.specs.Timers.{first_due};
ghost use Rattle.kernel_core.specs.Code.View.{machine_of, IsAtWork, IsInOrder, StepsSilently};
ghost use Rattle.kernel_core.specs.Code.IdleRound.{is_idle_tick, RestsAfter};
ghost use Rattle.kernel_core.specs.Code.Conditions.{ticks_of};
ghost use Rattle.kernel_core.specs.Run.{Choices, is_at_rest};

use crate::kernel_fields::{KernelFields, WORK_LIMIT};
use mote_types::entry::Input;
use mote_types::event::ETIMER;

impl KernelFields {
    /// Whether a timer is due then. Changes nothing that contracts see.
    #[inline]
    fn is_any_due(&mut self, clock: u64) -> bool
        ensures answer { result ≡ is_some (first_due clock self.old.timers.value.timers) }
        ensures kept { self.new ≡ self.old }
    {
        self.timers.any_due(clock)
    }

    /// Where the next poll round would only poll etimer, and no timer is due, begins the round and passes that poll.
    /// Otherwise does nothing.
    #[inline]
    pub fn pass_idle_poll(&mut self)
        requires at_work { IsAtWork self.old }
        ensures steps { StepsSilently self.old self.new }
        ensures kept { self.new ≡ record self.old { work = self.new.work; scheduler = self.new.scheduler } }
        ensures work { self.old.work ≤ self.new.work }
    {
        if !self.scheduler.polls_alone(ETIMER)
            || self.work == WORK_LIMIT
            || self.is_any_due(self.clock)
        {
            return;
        }
        self.work += 1;
        self.scheduler.pass_poll(ETIMER);
    }

    /// Accepts a tick that leaves no timer due, and makes the round that follows, in one go: the entry is made, etimer is
    /// polled, and there is rest. Otherwise does nothing.
    #[inline]
    pub fn accept_idle_tick(&mut self, input: &Input) -> bool
        requires at_work { IsAtWork self.old }
        requires rest { is_at_rest (machine_of self.old) ≡ true }
        requires clock { self.old.clock + ticks_of input.now ≤ 2 ^ 62 }
        requires few { self.old.inputs < 2 ^ 40 }
        ensures value { result ≡ is_idle_tick input.now (machine_of self.old) }
        ensures passed { result ≡ true → (choices : Choices) → RestsAfter choices input.now (machine_of self.old) (machine_of self.new) }
        ensures order { IsInOrder self.new }
        ensures halted { self.new.halted ≡ self.old.halted }
        ensures scheduler { self.new.scheduler ≡ self.old.scheduler }
        ensures clock { result ≡ true → self.new.clock ≡ self.old.clock + ticks_of input.now }
        ensures inputs { result ≡ true → self.new.inputs ≡ self.old.inputs + 1 }
        ensures else_nothing { result ≡ false → self.new ≡ self.old }
    {
        let Input::Tick(ticks) = input else {
            return false;
        };
        let clock = self.clock + *ticks as u64;
        if self.is_any_due(clock) {
            return false;
        }
        // Does nothing: the call gives the proof the fact that the round polls only etimer.
        self.scheduler.rest_goes_on();
        self.clock = clock;
        self.work = 1;
        self.inputs += 1;
        true
    }
}
