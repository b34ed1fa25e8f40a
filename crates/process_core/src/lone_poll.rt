//! A poll round that only polls one process of the kernel.

ghost use Rattle.std.specs.Prelude.{◌≡◌, ◌<◌, ℕ, true};
ghost use Rattle.process_core.specs.Agenda.{Job};
ghost use Rattle.process_core.specs.Code.Items.{ComesTo};
ghost use Rattle.process_core.specs.Code.LonePoll.{polled_alone, polls_alone, unmarked, IsLonePoll};
ghost use Rattle.process_core.specs.Code.SchedulerView.{is_at_rest};
ghost use Rattle.process_core.specs.Idle.{is_idle};
ghost use Rattle.process_core.specs.Scheduler.{marked};

use crate::open_work::Base;
use crate::scheduler::Scheduler;
use mote_types::event::Pid;

impl Scheduler {
    /// Whether the next poll round would poll only this process, one of the kernel's: no work is open, and no other
    /// process is marked.
    pub fn polls_alone(&self, pid: Pid) -> bool
        requires kernel { pid.0 < 4 }
        ensures value { result ≡ polls_alone pid.0 self.now.state }
        ensures round { result ≡ true → IsLonePoll pid.0 self.now.state }
    {
        self.fields.processes.is_only_marked(pid) && self.fields.is_over()
    }

    /// From rest a mark of one of the kernel's processes leads to a round that only polls it, and without that mark all is as
    /// it was. Nothing is done: the contract is the law.
    #[inline]
    pub fn rest_goes_on(&self)
        requires { is_at_rest self.now ≡ true }
        ensures round { (p : ℕ) → p < 4 → IsLonePoll p (marked p self.now.state) }
        ensures rest { (p : ℕ) → ComesTo (polled_alone p (marked p self.now.state)) Job.Rest (unmarked p (marked p self.now.state)) }
        ensures same { (p : ℕ) → unmarked p (marked p self.now.state) ≡ self.now.state }
        ensures idle { is_idle self.now.state ≡ true }
    {
        let _ = &self.fields;
    }

    /// Begins a round whose poll round is over: the process, the only one that was marked, has got its poll. The delivery
    /// is left.
    pub fn pass_poll(&mut self, pid: Pid)
        requires alone { polls_alone pid.0 self.old.state ≡ true }
        ensures { self.new ≡ record self.old { state = polled_alone pid.0 self.old.state } }
    {
        self.fields.processes.set_mark(pid, false);
        self.fields.base = Base::Deliver { is_polled: true };
    }
}
