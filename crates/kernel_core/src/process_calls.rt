//! What the kernel does at an application's calls on processes. A call that is refused changes nothing.

ghost use Rattle.std.specs.Prelude.{◌≡◌};
ghost use Rattle.mote_types.specs.declared.call.Call.{Call};
ghost use Rattle.kernel_core.specs.Calls.{after_call};
ghost use Rattle.kernel_core.specs.Code.View.{machine_of, IsAtTurn, IsCallDone};

use crate::kernel_fields::KernelFields;
use mote_types::event::Pid;
use mote_types::reply::Reply;

impl KernelFields {
    /// Marks an application for the next poll round.
    pub fn poll(&mut self, pid: Pid, process: u8)
        requires at_turn { IsAtTurn pid self.old }
        ensures machine { machine_of self.new ≡ after_call (Call.Poll process) pid.0 (machine_of self.old) }
        ensures kept { IsCallDone self.old self.new }
    {
        match self.scheduler.poll(Pid(process)) {
            Ok(()) => self.answer(pid, Reply::Done),
            Err(refusal) => self.refuse(pid, refusal),
        }
    }

    /// Starts an application; the caller gets its reply after its first activation.
    pub fn start(&mut self, pid: Pid, process: u8)
        requires at_turn { IsAtTurn pid self.old }
        ensures machine { machine_of self.new ≡ after_call (Call.Start process) pid.0 (machine_of self.old) }
        ensures kept { IsCallDone self.old self.new }
    {
        match self.scheduler.start(pid, Pid(process)) {
            Ok(()) => {}
            Err(refusal) => self.refuse(pid, refusal),
        }
    }

    /// Ends an application; the caller gets its reply once it has left the process list.
    pub fn kill(&mut self, pid: Pid, process: u8)
        requires at_turn { IsAtTurn pid self.old }
        ensures machine { machine_of self.new ≡ after_call (Call.Kill process) pid.0 (machine_of self.old) }
        ensures kept { IsCallDone self.old self.new }
    {
        match self.scheduler.kill(pid, Pid(process)) {
            Ok(()) => {}
            Err(refusal) => self.refuse(pid, refusal),
        }
    }

    /// Returns whether an application runs.
    pub fn is_running(&mut self, pid: Pid, process: u8)
        requires at_turn { IsAtTurn pid self.old }
        ensures machine { machine_of self.new ≡ after_call (Call.IsRunning process) pid.0 (machine_of self.old) }
        ensures kept { IsCallDone self.old self.new }
    {
        match self.scheduler.is_running(Pid(process)) {
            Ok(is_running) => self.answer(pid, Reply::Flag(is_running)),
            Err(refusal) => self.refuse(pid, refusal),
        }
    }
}
