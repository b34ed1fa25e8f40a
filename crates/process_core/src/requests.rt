//! What a process asks of the scheduler.

ghost use Rattle.std.specs.Prelude.{◌≡◌, ◌<◌, None, Some, true, IfOk, IfErr};
ghost use Rattle.process_core.specs.Processes.{is_alive, is_application, is_ending, is_marked};
ghost use Rattle.process_core.specs.Requests as request;
ghost use Rattle.process_core.specs.Scheduler.{marked, state_in};
ghost use Rattle.process_core.specs.Code.SchedulerView.{awaiting_nothing};

use crate::front::Front;
use crate::open_work::Continuation;
use crate::scheduler::Scheduler;
use crate::state::State;
use mote_types::event::{Event, FIRST_APPLICATION, Pid, is_reserved};
use mote_types::refusal::Refusal;

impl Scheduler {
    /// Whether it is an application of this mote.
    fn is_application(&self, pid: Pid) -> bool
        ensures { result ≡ is_application self.now.state.applications pid.0 }
    {
        FIRST_APPLICATION <= pid.0 && pid.0 < FIRST_APPLICATION + self.fields.applications
    }

    /// Whether an application runs, or is in its own activation (`process_is_running`). `BadName` where there is no
    /// such application.
    pub fn is_running(&self, pid: Pid) -> Result<bool, Refusal>
        ensures answered { IfOk result (λ runs. (request.application_refusal self.now.state pid.0 ≡ None)
            × (runs ≡ is_alive (state_in self.now.state pid.0))) }
        ensures refused { IfErr result (λ r. request.application_refusal self.now.state pid.0 ≡ Some r) }
    {
        if !self.is_application(pid) {
            return Err(Refusal::BadName);
        }
        Ok(matches!(
            self.fields.processes.state_of(pid),
            State::Running | State::Called
        ))
    }

    /// Whether an application is in the activation in which it gets EXIT.
    pub fn is_ending(&self, pid: Pid) -> bool
        ensures { result ≡ is_ending (state_in self.now.state pid.0) }
    {
        matches!(self.fields.processes.state_of(pid), State::Ending)
    }

    /// Marks an application for the next poll round (`process_poll`). `BadName` where there is no such application,
    /// `NotRunning` where it neither runs nor is in its own activation.
    pub fn poll(&mut self, pid: Pid) -> Result<(), Refusal>
        ensures accepted { IfOk result (λ _. (request.poll_refusal self.old.state pid.0 ≡ None)
            × (self.new ≡ record self.old { state = marked pid.0 self.old.state })) }
        ensures refused { IfErr result (λ r. (request.poll_refusal self.old.state pid.0 ≡ Some r) × (self.new ≡ self.old)) }
    {
        if !self.is_application(pid) {
            return Err(Refusal::BadName);
        }
        match self.fields.processes.state_of(pid) {
            State::Running | State::Called => {
                self.fields.processes.set_mark(pid, true);
                Ok(())
            }
            _ => Err(Refusal::NotRunning),
        }
    }

    /// Marks one of the kernel's processes, 0 to 3, for the next poll round (`process_poll`).
    pub fn mark(&mut self, pid: Pid)
        requires { pid.0 < 4 }
        ensures value { self.new ≡ record self.old { state = marked pid.0 self.old.state } }
        // a kernel process is always on the list
        ensures is_marked { is_marked pid.0 self.new.state.processes ≡ true }
    {
        self.fields.processes.set_mark(pid, true);
    }

    /// Draws the next event number, from 140 on (`process_alloc_event`). `NoEvent` for ever once 255 was drawn.
    pub fn alloc_event(&mut self) -> Result<u8, Refusal>
        ensures accepted { IfOk result (λ n. (request.alloc_event_refusal self.old.state ≡ None)
            × (n ≡ self.old.state.next_event)
            × (self.new ≡ record self.old { state = request.number_drawn self.old.state })) }
        ensures refused { IfErr result (λ r. (request.alloc_event_refusal self.old.state ≡ Some r) × (self.new ≡ self.old)) }
    {
        if self.fields.next_event > 255 {
            return Err(Refusal::NoEvent);
        }
        let number = self.fields.next_event as u8;
        self.fields.next_event += 1;
        Ok(number)
    }

    /// The process at turn delivers an event to an application at once, within its own activation
    /// (`process_post_synch`); then it gets the reply Done. `BadName` where there is no such application, `Reserved`
    /// where the code is reserved for the kernel. After a refusal it is still the caller's turn.
    pub fn synch(&mut self, caller: Pid, receiver: Pid, event: Event) -> Result<(), Refusal>
        requires { self.old.turn ≡ Some caller }
        ensures accepted { IfOk result (λ _. (request.synch_refusal self.old.state receiver.0 event.code ≡ None)
            × (self.new ≡ awaiting_nothing (request.given_in_turn caller.0 receiver.0 event self.old.state) self.old.kept)) }
        ensures refused { IfErr result (λ r. (request.synch_refusal self.old.state receiver.0 event.code ≡ Some r)
            × (self.new ≡ self.old)) }
    {
        if !self.is_application(receiver) {
            return Err(Refusal::BadName);
        }
        if is_reserved(event.code) {
            return Err(Refusal::Reserved);
        }
        self.fields.stack.push(Continuation::Answer(caller));
        self.fields.synch = event;
        self.fields.front = Front::Give(receiver);
        Ok(())
    }

    /// The process at turn starts an application (`process_start`): it goes to the head of the list and gets INIT at
    /// once; then the caller gets the reply Done. `BadName` where there is no such application, `Already` where it is
    /// on the list. After a refusal it is still the caller's turn.
    pub fn start(&mut self, caller: Pid, pid: Pid) -> Result<(), Refusal>
        requires { self.old.turn ≡ Some caller }
        ensures accepted { IfOk result (λ _. (request.start_refusal self.old.state pid.0 ≡ None)
            × (self.new ≡ awaiting_nothing (request.started_by caller.0 pid.0 self.old.state) self.old.kept)) }
        ensures refused { IfErr result (λ r. (request.start_refusal self.old.state pid.0 ≡ Some r) × (self.new ≡ self.old)) }
    {
        if !self.is_application(pid) {
            return Err(Refusal::BadName);
        }
        match self.fields.processes.state_of(pid) {
            State::Absent => {
                self.fields.stack.push(Continuation::Answer(caller));
                self.fields.front = Front::Start(pid);
                Ok(())
            }
            _ => Err(Refusal::Already),
        }
    }

    /// The process at turn ends an application (`process_exit`): the others on the list get EXITED, it gets EXIT, and
    /// leaves the list; then the caller gets the reply Done. `BadName` where there is no such application, `NotRunning`
    /// where it is not on the list or has ended, `Busy` where it is in an activation, the caller itself among them.
    /// After a refusal it is still the caller's turn.
    pub fn kill(&mut self, caller: Pid, pid: Pid) -> Result<(), Refusal>
        requires { self.old.turn ≡ Some caller }
        ensures accepted { IfOk result (λ _. (request.kill_refusal self.old.state pid.0 ≡ None)
            × (self.new ≡ awaiting_nothing (request.killed_by caller.0 pid.0 self.old.state) self.old.kept)) }
        ensures refused { IfErr result (λ r. (request.kill_refusal self.old.state pid.0 ≡ Some r) × (self.new ≡ self.old)) }
    {
        if !self.is_application(pid) {
            return Err(Refusal::BadName);
        }
        match self.fields.processes.state_of(pid) {
            State::Called | State::Ending => Err(Refusal::Busy),
            State::Absent | State::Leaving => Err(Refusal::NotRunning),
            State::Running => {
                let walk = self.fields.processes.walk_others(pid);
                self.fields.processes.set_state(pid, State::Leaving);
                self.fields.stack.push(Continuation::Answer(caller));
                self.fields.stack.push(Continuation::Leave {
                    pid,
                    walk,
                    exits: true,
                });
                self.fields.front = Front::Nothing;
                Ok(())
            }
        }
    }
}
