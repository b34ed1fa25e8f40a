//! Whether anything is left to be done.
ghost use Rattle.std.specs.Prelude.{◌≡◌, is_some};
ghost use Rattle.process_core.specs.Code.OpenWork.{agenda_of, base_items, front_items};
ghost use Rattle.process_core.specs.Idle.{is_empty};
ghost use Rattle.process_core.specs.Code.SchedulerView.{is_at_rest};
ghost use Rattle.mote_types.specs.declared.event.Event.{Event};
ghost use Rattle.mote_types.specs.declared.event.Stimulus.{Stimulus};

use crate::front::Front;
use crate::open_work::Base;
use crate::scheduler::Scheduler;
use crate::scheduler_fields::SchedulerFields;
use crate::walk::Walk;

impl Front {
    /// Whether the front is empty.
    pub(crate) fn is_over(&self) -> bool
        ensures { (reply : Stimulus) (synch : Event) → result ≡ is_empty (front_items self.now reply synch) }
    {
        matches!(self, Front::Nothing | Front::Call(_) | Front::Expiry { .. })
    }
}

impl Base {
    #[tactic(auto, using(crate::proofs::LonePoll::deliver_has_more, crate::proofs::LonePoll::is_empty_map, crate::proofs::LonePoll::is_empty_broadcast))]
    /// Whether nothing is left to be done, where the walk is this.
    fn is_over(&self, walk: &Walk) -> bool
        ensures { (event : Stimulus) → result ≡ is_empty (base_items self.now walk.now event) }
    {
        match self {
            Base::Nothing => true,
            Base::Boot | Base::Broadcast { .. } => walk.is_over(),
            Base::Deliver { .. } => false,
        }
    }
}

impl SchedulerFields {
    #[tactic(auto, using(crate::proofs::LonePoll::is_empty_agenda))]
    /// Whether no open work has anything left to be done.
    pub fn is_over(&self) -> bool
        ensures { result ≡ is_empty (agenda_of self.now) }
    {
        self.front.is_over()
            && self.stack.is_empty()
            && self.polls.is_over()
            && self.base.is_over(&self.walk)
    }
}

impl Scheduler {
    /// Whether it is a process's turn.
    fn is_awaiting_call(&self) -> bool
        ensures { result ≡ is_some self.now.turn }
    {
        matches!(self.fields.front, Front::Call(_))
    }

    /// Whether `next_to` could be called and would return Rest: no call is awaited, no work is open, no process is marked
    /// and no event waits.
    pub fn at_rest(&self) -> bool
        ensures { result ≡ is_at_rest self.now }
    {
        !self.is_awaiting_call()
            && self.fields.is_over()
            && !self.fields.processes.is_any_marked()
            && self.fields.events.is_empty()
    }
}
