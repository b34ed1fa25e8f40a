//! How open work is done.

ghost use Rattle.std.specs.Prelude.{◌≡◌, ◌<◌, [], ◌∷◌, Some, IfNone, IfSome, length, reverse};
ghost use Rattle.mote_types.specs.declared.event.Origin.{Origin as Source};
ghost use Rattle.mote_types.specs.declared.event.Pid.{Pid as At};
ghost use Rattle.mote_types.specs.declared.event.Stimulus.{Stimulus as Received};
ghost use Rattle.process_core.specs.Code.Weights.{weight, weight_over};
ghost use Rattle.process_core.specs.Code.SchedulerFields.{scheduler_of, scheduler_behind, scheduler_over, found, IsBare, IsInOrder, IsOrdered};
ghost use Rattle.process_core.specs.Code.FindsJob.{FindsJob};
ghost use Rattle.process_core.specs.declared.front.Front.{Front};
ghost use Rattle.process_core.specs.declared.next_job.NextJob.{NextJob as Ready};
ghost use Rattle.process_core.specs.declared.open_work.Base.{Base};
ghost use Rattle.process_core.specs.declared.open_work.Continuation.{Continuation};

use crate::front::Front;
use crate::giving::plain_event;
use crate::next_job::NextJob;
use crate::open_work::{Base, Continuation, write_event, write_reply};
use crate::scheduler_fields::SchedulerFields;
use crate::state::State;
use crate::walk::Walk;
use mote_types::event::{self, Event, Origin, Payload, Pid, Stimulus};
use mote_types::reply::Reply;

impl SchedulerFields {
    /// A process takes its turn with the reply that is stored, if that is next. Otherwise nothing changes.
    #[inline(always)]
    pub fn take_answer(&mut self) -> Option<Pid>
        requires order { IsInOrder self.old }
        ensures finds { IfSome result (λ pid. (other : Received) →
            FindsJob (scheduler_of self.old) (Some (Ready.TakeTurn pid Source.Answer)) other self.new) }
        ensures none { IfNone result (self.new ≡ self.old) }
    {
        match self.front {
            Front::Answer(pid) => {
                self.front = Front::Call(pid);
                Some(pid)
            }
            _ => None,
        }
    }

    /// First what was reported since the last job.
    #[inline(always)]
    pub fn take_front(&mut self, stimulus: &mut Stimulus) -> Option<NextJob>
        requires order { IsInOrder self.old }
        ensures { FindsJob (scheduler_of self.old) result stimulus.new self.new }
    {
        if matches!(self.front, Front::Nothing) {
            return None;
        }
        match self.front {
            Front::Answer(pid) => {
                self.front = Front::Call(pid);
                Some(NextJob::TakeTurn {
                    pid,
                    origin: Origin::Answer,
                })
            }
            _ => {
                if self.find_rare_front(stimulus) {
                    Some(self.ready)
                } else {
                    None
                }
            }
        }
    }

    // What few calls report, out of line: the buffers of events are cleared at the entry. The job is put into a field: as a
    // result it would keep each other job in memory, too.
    #[inline(never)]
    fn find_rare_front(&mut self, stimulus: &mut Stimulus) -> bool
        requires order { IsInOrder self.old }
        requires rare { (p : At) → self.old.front ≡ Front.Answer p → ⊥ }
        ensures { FindsJob (scheduler_of self.old) (found result self.new.ready) stimulus.new self.new }
    {
        match self.take_rare_front(stimulus) {
            Some(ready) => {
                self.ready = ready;
                true
            }
            None => false,
        }
    }

    // What few calls report.
    fn take_rare_front(&mut self, stimulus: &mut Stimulus) -> Option<NextJob>
        requires order { IsInOrder self.old }
        requires rare { (p : At) → self.old.front ≡ Front.Answer p → ⊥ }
        ensures { FindsJob (scheduler_of self.old) result stimulus.new self.new }
    {
        let front = self.front;
        self.front = Front::Nothing;
        match front {
            Front::Give(pid) => {
                write_event(stimulus, &self.synch);
                self.give(pid, Origin::Synch, stimulus)
            }
            Front::Start(pid) => self.start_one(pid, stimulus),
            Front::Callback { pid, number } => {
                *stimulus = Stimulus::Callback(number);
                self.give(pid, Origin::Callback, stimulus)
            }
            _ => None,
        }
    }

    // The next process gets the event that this one has ended. After the last, this one gets EXIT if it was killed, and leaves.
    fn resume_leave(
        &mut self,
        pid: Pid,
        walk: Walk,
        exits: bool,
        stimulus: &mut Stimulus,
    ) -> Option<NextJob>
        requires order { IsOrdered self.old (Continuation.Leave pid walk exits ∷ reverse self.old.stack.items) }
        requires idle { self.old.front ≡ Front.Nothing }
        ensures finds { FindsJob (scheduler_over self.old (Continuation.Leave pid walk exits ∷ reverse self.old.stack.items))
            result stimulus.new self.new }
        ensures falls { IfNone result
            (weight self.new < weight_over self.old (Continuation.Leave pid walk exits ∷ reverse self.old.stack.items)) }
    {
        let mut walk = walk;
        match walk.advance() {
            Some(other) => {
                self.stack.push(Continuation::Leave { pid, walk, exits });
                *stimulus = Stimulus::Event(Event {
                    code: event::EXITED,
                    payload: Payload::Num(pid.0 as u32),
                });
                self.give(other, Origin::Synch, stimulus)
            }
            None => {
                if !exits {
                    self.processes.remove(pid);
                    return None;
                }
                self.stack.push(Continuation::Leave {
                    pid,
                    walk,
                    exits: false,
                });
                self.processes.set_state(pid, State::Ending);
                self.front = Front::Call(pid);
                *stimulus = Stimulus::Event(plain_event(event::EXIT));
                Some(NextJob::TakeTurn {
                    pid,
                    origin: Origin::Synch,
                })
            }
        }
    }

    // As `resume_boot`, out of line.
    #[inline(never)]
    fn find_boot(&mut self, stimulus: &mut Stimulus) -> bool
        requires bare { IsBare self.old Base.Boot }
        requires order { IsInOrder self.old }
        requires idle { self.old.front ≡ Front.Nothing }
        ensures finds { FindsJob (scheduler_behind self.old) (found result self.new.ready) stimulus.new self.new }
        ensures falls { IfNone (found result self.new.ready) (weight self.new < weight self.old) }
    {
        match self.resume_boot(stimulus) {
            Some(ready) => {
                self.ready = ready;
                true
            }
            None => false,
        }
    }

    // The next application is started.
    fn resume_boot(&mut self, stimulus: &mut Stimulus) -> Option<NextJob>
        requires bare { IsBare self.old Base.Boot }
        requires order { IsInOrder self.old }
        requires idle { self.old.front ≡ Front.Nothing }
        ensures finds { FindsJob (scheduler_behind self.old) result stimulus.new self.new }
        ensures falls { IfNone result (weight self.new < weight self.old) }
    {
        match self.walk.advance() {
            Some(pid) => self.start_one(pid, stimulus),
            None => {
                self.base = Base::Nothing;
                None
            }
        }
    }

    // A round: the poll round, and then the delivery.
    #[inline(always)]
    fn resume_deliver(&mut self, is_polled: bool) -> Option<NextJob>
        requires bare { IsBare self.old (Base.Deliver is_polled) }
        requires order { IsInOrder self.old }
        requires idle { self.old.front ≡ Front.Nothing }
        ensures finds { (other : Received) → FindsJob (scheduler_behind self.old) result other self.new }
        ensures falls { IfNone result (weight self.new < weight self.old) }
    {
        if !is_polled && self.processes.is_any_marked() {
            self.base = Base::Deliver { is_polled: true };
            self.polls = self.processes.walk_to_poll();
            return None;
        }
        self.base = Base::Nothing;
        self.deliver()
    }

    // The next receiver gets the event, after a poll round.
    #[inline(always)]
    fn resume_broadcast(&mut self, is_polled: bool) -> Option<NextJob>
        requires bare { IsBare self.old (Base.Broadcast is_polled) }
        requires order { IsInOrder self.old }
        requires idle { self.old.front ≡ Front.Nothing }
        ensures finds { (other : Received) → FindsJob (scheduler_behind self.old) result other self.new }
        ensures falls { IfNone result (weight self.new < weight self.old) }
    {
        if !is_polled && self.processes.is_any_marked() && !self.walk.is_over() {
            self.base = Base::Broadcast { is_polled: true };
            self.polls = self.processes.walk_to_poll();
            return None;
        }
        match self.walk.advance() {
            Some(pid) => {
                self.base = Base::Broadcast { is_polled: false };
                self.give_event(pid)
            }
            None => {
                self.base = Base::Nothing;
                None
            }
        }
    }

    // No process is within an activation: the poll round reaches the next process that is marked, and after it the base.
    #[inline(always)]
    fn resume_below(&mut self, stimulus: &mut Stimulus) -> Option<NextJob>
        requires bare { self.old.stack.items ≡ [] }
        requires order { IsInOrder self.old }
        requires idle { self.old.front ≡ Front.Nothing }
        ensures finds { FindsJob (scheduler_behind self.old) result stimulus.new self.new }
        ensures falls { IfNone result (weight self.new < weight self.old) }
    {
        if let Some(pid) = self.polls.next_marked(&self.processes) {
            return self.poll_one(pid, stimulus);
        }
        match self.base {
            Base::Nothing => Some(self.begin_round()),
            Base::Boot => {
                if self.find_boot(stimulus) {
                    Some(self.ready)
                } else {
                    None
                }
            }
            Base::Deliver { is_polled } => self.resume_deliver(is_polled),
            Base::Broadcast { is_polled } => self.resume_broadcast(is_polled),
        }
    }

    // As `resume_within`, out of line.
    #[inline(never)]
    fn find_within(&mut self, stimulus: &mut Stimulus) -> bool
        requires open { 0 < length self.old.stack.items }
        requires order { IsInOrder self.old }
        requires idle { self.old.front ≡ Front.Nothing }
        ensures finds { FindsJob (scheduler_behind self.old) (found result self.new.ready) stimulus.new self.new }
        ensures falls { IfNone (found result self.new.ready) (weight self.new < weight self.old) }
    {
        match self.resume_within(stimulus) {
            Some(ready) => {
                self.ready = ready;
                true
            }
            None => false,
        }
    }

    // The topmost continuation is worked on.
    fn resume_within(&mut self, stimulus: &mut Stimulus) -> Option<NextJob>
        requires open { 0 < length self.old.stack.items }
        requires order { IsInOrder self.old }
        requires idle { self.old.front ≡ Front.Nothing }
        ensures finds { FindsJob (scheduler_behind self.old) result stimulus.new self.new }
        ensures falls { IfNone result (weight self.new < weight self.old) }
    {
        match self.stack.pop() {
            Some(Continuation::Leave { pid, walk, exits }) => self.resume_leave(
                pid, walk, exits, stimulus,
            ),
            Some(Continuation::Answer(pid)) => {
                write_reply(&mut self.reply, &Reply::Done);
                self.front = Front::Call(pid);
                Some(NextJob::TakeTurn {
                    pid,
                    origin: Origin::Answer,
                })
            }
            None => None,
        }
    }

    /// The open work goes on, or where there is none a round begins.
    #[inline(always)]
    pub fn resume(&mut self, stimulus: &mut Stimulus) -> Option<NextJob>
        requires order { IsInOrder self.old }
        requires idle { self.old.front ≡ Front.Nothing }
        ensures finds { FindsJob (scheduler_behind self.old) result stimulus.new self.new }
        ensures falls { IfNone result (weight self.new < weight self.old) }
    {
        if self.stack.is_empty() {
            self.resume_below(stimulus)
        } else if self.find_within(stimulus) {
            Some(self.ready)
        } else {
            None
        }
    }

    /// The open work goes on up to a job.
    #[inline(always)]
    pub fn work_on(&mut self, stimulus: &mut Stimulus) -> NextJob
        requires order { IsInOrder self.old }
        requires idle { self.old.front ≡ Front.Nothing }
        ensures { FindsJob (scheduler_behind self.old) (Some result) stimulus.new self.new }
    {
        'open: loop {
            if let Some(ready) = self.resume(stimulus) {
                break 'open ready;
            }
        }
    }

    /// No work is open: a round begins, if it has anything to do.
    #[inline(always)]
    fn begin_round(&mut self) -> NextJob
        requires order { IsInOrder self.old }
        requires idle { self.old.front ≡ Front.Nothing }
        requires bare { IsBare self.old Base.Nothing }
        ensures { (stimulus : Received) → FindsJob (scheduler_behind self.old) (Some result) stimulus self.new }
    {
        if !self.processes.is_any_marked() && self.events.is_empty() {
            return NextJob::Rest;
        }
        self.base = Base::Deliver { is_polled: false };
        NextJob::Round
    }
}
