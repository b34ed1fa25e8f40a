//! What the kernel's processes do with an event.

ghost use Rattle.std.specs.Prelude.{◌≡◌, ◌≤◌, ◌<◌, ◌+◌, ◌^◌, ℕ, Bool, IfSome, Some};
ghost use Rattle.std.specs.Option.{option_map};
ghost use Rattle.mote_types.specs.declared.event.Pid as pid;
ghost use Rattle.kernel_core.specs.Code.Carrying.{job_carrying};
ghost use Rattle.process_core.specs.Code.SchedulerView.{served, told};
ghost use Rattle.kernel_core.specs.Code.Cost.{present};
ghost use Rattle.kernel_core.specs.Code.Draws.{HasQueueableEvents, draws_of_event, draws_of_job};
ghost use Rattle.kernel_core.specs.Code.View.{entries_left_in, machine_of, IsAtWork, IsServed, StepsSilently};
ghost use Rattle.kernel_core.specs.Code.IdleReceivers.{idle_receivers_passed};
ghost use Rattle.kernel_core.specs.Code.CallKinds.{kind_of};
ghost use Rattle.kernel_core.specs.Run.{Choices, job_done, silent};
ghost use Rattle.kernel_core.specs.Code.KernelEvents.{exited_numbered, number_in};
ghost use Rattle.kernel_core.specs.KernelProcesses.{serve};
ghost use Rattle.mote_types.specs.EventNumbers.{EXITED as EXITED_CODE};
ghost use Rattle.mote_types.specs.declared.event.Payload.{Payload as Carried};

use crate::call_kind::CallKind;
use crate::kernel_fields::KernelFields;
use mote_types::call::Call;
use mote_types::event::{
    CONTINUE, CTIMER, ETIMER, EXITED, FIRST_APPLICATION, MOST_APPLICATIONS, Origin, PACKET_PROCESS,
    POLL, Payload, Pid, SERIAL_PROCESS, Stimulus,
};

/// The last application's number.
const LAST_APPLICATION: u8 = FIRST_APPLICATION + MOST_APPLICATIONS - 1;

/// The number that an event carries, or 0.
fn number_in(payload: &Payload) -> u32
    ensures { result ≡ number_in payload.now }
{
    match payload {
        Payload::Num(number) => *number,
        _ => 0,
    }
}

/// The application that an EXITED event with this number names.
pub fn exited_application(number: u32) -> Option<Pid>
    ensures value { option_map (λ (p : pid.Pid). p.0) result ≡ exited_numbered number }
    ensures known { IfSome result (λ p. (4 ≤ p.0) × (p.0 ≤ 19)) }
{
    if u32::from(FIRST_APPLICATION) <= number && number <= u32::from(LAST_APPLICATION) {
        Some(Pid(number as u8))
    } else {
        None
    }
}

/// The codes of the events with which one of the kernel's processes does something.
const KERNEL_EVENTS: [u8; 3] = [POLL, CONTINUE, EXITED];

impl KernelFields {
    /// After a wait, those of the kernel's processes that would get a broadcast next are passed at once, where none of them
    /// does anything with it. They are the last receivers, so they are seldom next after another call.
    pub fn pass_idle_receivers(&mut self, last: &Call)
        requires at_work { IsAtWork self.old }
        ensures value { self.new ≡ record self.old {
          scheduler = record self.old.scheduler { state = idle_receivers_passed (kind_of last.now) self.old.scheduler.state };
        } }
        ensures steps { StepsSilently self.old self.new }
        ensures present { present self.new.scheduler.state ≡ present self.old.scheduler.state }
        ensures left { entries_left_in self.new ≡ entries_left_in self.old }
    {
        if let CallKind::Wait = CallKind::of(last) {
            self.scheduler.pass_kernel_receivers(&KERNEL_EVENTS);
        }
    }

    /// Serves a kernel process with the event that it receives, which is apart or in the scheduler. Does nothing for another stimulus.
    #[inline(always)]
    pub fn serve(&mut self, pid: Pid, origin: Origin, apart: &Stimulus)
        requires few { self.old.timers.value.armings.drawn < 2 ^ 60 }
        requires events { HasQueueableEvents self.old }
        ensures machine { (choices : Choices) (cancelled : ℕ → ℕ → ℕ → Bool) →
            job_done choices (Some (job_carrying cancelled (served pid (told origin self.old.scheduler.kept apart.now)))) (machine_of self.old)
            ≡ silent (machine_of self.new) }
        ensures kept { IsServed (draws_of_job (served pid (told origin self.old.scheduler.kept apart.now))) self.old self.new }
    {
        if let Stimulus::Event(event) = self.scheduler.stimulus(origin, apart) {
            let (code, number) = (event.code, number_in(&event.payload));
            self.serve_event(pid, code, number);
        }
    }

    /// Serves a kernel process with an event of this code, which carries this number, if it carries any.
    #[inline(always)]
    fn serve_event(&mut self, pid: Pid, code: u8, number: u32)
        requires few { self.old.timers.value.armings.drawn < 2 ^ 60 }
        requires events { HasQueueableEvents self.old }
        ensures machine { (payload : Carried) → number_in payload ≡ number →
            serve pid.0 (record { code = code; payload = payload }) (machine_of self.old) ≡ machine_of self.new }
        ensures kept { (payload : Carried) → IsServed (draws_of_event pid.0 (record { code = code; payload = payload })) self.old self.new }
    {
        match (pid, code) {
            (ETIMER, POLL) => self.post_due(),
            (SERIAL_PROCESS, POLL) => self.poll_serial_line(),
            (SERIAL_PROCESS, CONTINUE) => self.continue_serial_line(),
            (PACKET_PROCESS, POLL) => self.announce(),
            (_, EXITED) => self.exit_one(pid, number),
            _ => {}
        }
    }

    /// Notifies a kernel process that the application of this number has ended, if it is one's.
    // Out of line, since applications seldom end.
    #[inline(never)]
    fn exit_one(&mut self, pid: Pid, number: u32)
        requires few { self.old.timers.value.armings.drawn < 2 ^ 60 }
        requires events { HasQueueableEvents self.old }
        ensures machine { (payload : Carried) → number_in payload ≡ number →
            serve pid.0 (record { code = EXITED_CODE; payload = payload }) (machine_of self.old) ≡ machine_of self.new }
        ensures kept { (payload : Carried) → IsServed (draws_of_event pid.0 (record { code = EXITED_CODE; payload = payload })) self.old self.new }
    {
        match pid {
            ETIMER => self.forget_event_timers(number),
            CTIMER => self.forget_callback_timers(number),
            PACKET_PROCESS => self.forget_receiver(number),
            _ => {}
        }
    }
}
