//! What the kernel does at an application's calls on events. A call that is refused changes nothing.

ghost use Rattle.std.specs.Prelude.{◌≡◌};
ghost use Rattle.mote_types.specs.Codes as codes;
ghost use Rattle.mote_types.specs.declared.call.Call.{Call};
ghost use Rattle.process_core.specs.Processes.{is_application};
ghost use Rattle.kernel_core.specs.Calls as call_spec;
ghost use Rattle.kernel_core.specs.Calls.{after_call};
ghost use Rattle.kernel_core.specs.Code.View.{machine_of, IsAtTurn, IsCallDone};

use crate::kernel_fields::KernelFields;
use mote_types::event::{Event, FIRST_APPLICATION, Payload, Pid, is_reserved};
use mote_types::refusal::Refusal;
use mote_types::reply::Reply;

fn event_of(code: u8, payload: &Payload) -> Event
    ensures { result ≡ call_spec.event_of code payload.now }
{
    Event {
        code,
        payload: payload.copied(),
    }
}

// Of most events: it is written where it waits. Another one, which has room for a line, is copied there.
fn number_event(code: u8, n: u32) -> Event
    ensures { result ≡ codes.number_event code n }
{
    Event {
        code,
        payload: Payload::Num(n),
    }
}

impl KernelFields {
    /// Whether a process is an application of this mote.
    fn is_application(&self, pid: u8) -> bool
        requires { self.now.applications ≡ self.now.scheduler.state.applications }
        ensures { result ≡ is_application self.now.scheduler.state.applications pid }
    {
        FIRST_APPLICATION <= pid && pid - FIRST_APPLICATION < self.applications
    }

    /// Puts an event for one application into the queue.
    pub fn post(&mut self, pid: Pid, receiver: u8, code: u8, payload: &Payload)
        requires at_turn { IsAtTurn pid self.old }
        ensures machine { machine_of self.new ≡ after_call (Call.Post receiver code payload.now) pid.0 (machine_of self.old) }
        ensures kept { IsCallDone self.old self.new }
    {
        if !self.is_application(receiver) {
            return self.refuse(pid, Refusal::BadName);
        }
        if is_reserved(code) {
            return self.refuse(pid, Refusal::Reserved);
        }
        let receiver = Pid(receiver);
        let outcome = match payload {
            Payload::Num(n) => self.scheduler.post(receiver, number_event(code, *n)),
            _ => self.scheduler.post(receiver, event_of(code, payload)),
        };
        match outcome {
            Ok(()) => self.answer(pid, Reply::Done),
            Err(refusal) => self.refuse(pid, refusal),
        }
    }

    /// Puts an event for all processes into the queue.
    pub fn broadcast(&mut self, pid: Pid, code: u8, payload: &Payload)
        requires at_turn { IsAtTurn pid self.old }
        ensures machine { machine_of self.new ≡ after_call (Call.Broadcast code payload.now) pid.0 (machine_of self.old) }
        ensures kept { IsCallDone self.old self.new }
    {
        if is_reserved(code) {
            return self.refuse(pid, Refusal::Reserved);
        }
        let outcome = match payload {
            Payload::Num(n) => self.scheduler.broadcast(number_event(code, *n)),
            _ => self.scheduler.broadcast(event_of(code, payload)),
        };
        match outcome {
            Ok(()) => self.answer(pid, Reply::Done),
            Err(refusal) => self.refuse(pid, refusal),
        }
    }

    /// Delivers an event to an application at once; the caller gets its reply after that.
    pub fn post_synch(&mut self, pid: Pid, receiver: u8, code: u8, payload: &Payload)
        requires at_turn { IsAtTurn pid self.old }
        ensures machine { machine_of self.new ≡ after_call (Call.PostSynch receiver code payload.now) pid.0 (machine_of self.old) }
        ensures kept { IsCallDone self.old self.new }
    {
        match self
            .scheduler
            .synch(pid, Pid(receiver), event_of(code, payload))
        {
            Ok(()) => {}
            Err(refusal) => self.refuse(pid, refusal),
        }
    }

    /// Draws an event number.
    pub fn alloc_event(&mut self, pid: Pid)
        requires at_turn { IsAtTurn pid self.old }
        ensures machine { machine_of self.new ≡ after_call Call.AllocEvent pid.0 (machine_of self.old) }
        ensures kept { IsCallDone self.old self.new }
    {
        match self.scheduler.alloc_event() {
            Ok(number) => self.answer(pid, Reply::Num(u32::from(number))),
            Err(refusal) => self.refuse(pid, refusal),
        }
    }
}
