//! How a process gets a stimulus.

ghost use Rattle.std.specs.Prelude.{◌≡◌, ◌<◌, ◌≤◌, ◌+◌, ◌∷◌, [], true, length, drop, IfNone};
ghost use Rattle.mote_types.specs.Codes as codes;
ghost use Rattle.process_core.specs.Agenda.{Item};
ghost use Rattle.process_core.specs.Code.Weights.{weight};
ghost use Rattle.process_core.specs.Code.SchedulerFields.{kept_in, scheduler_behind, IsBare, IsInOrder};
ghost use Rattle.process_core.specs.Code.SchedulerView.{is_apart, told};
ghost use Rattle.mote_types.specs.declared.event.Origin.{Origin};
ghost use Rattle.mote_types.specs.declared.event.Stimulus.{Stimulus as Received};
ghost use Rattle.process_core.specs.Scheduler.{in_front};
ghost use Rattle.process_core.specs.Code.FindsJob.{FindsJob};
ghost use Rattle.process_core.specs.declared.open_work.Base.{Base};
ghost use Rattle.process_core.specs.declared.front.Front.{Front};

use crate::front::Front;
use crate::next_job::NextJob;
use crate::open_work::{Base, write_event};
use crate::queued::Queued;
use crate::scheduler_fields::SchedulerFields;
use crate::state::State;
use circular_buffer::HeapCircularBuffer;
use mote_types::event::{self, Event, FIRST_APPLICATION, Origin, Payload, Pid, Stimulus};

/// An event that carries nothing.
pub fn plain_event(code: u8) -> Event
    ensures { result ≡ codes.plain_event code }
{
    Event {
        code,
        payload: Payload::Empty,
    }
}

/// Drops the first event of the queue.
fn drop_first(events: &mut HeapCircularBuffer<Queued>)
    requires { 0 < length events.old.items }
    ensures { events.new ≡ record { items = drop 1 events.old.items; capacity = events.old.capacity } }
{
    events.truncate_front(events.len() - 1);
}

impl SchedulerFields {
    /// Gives an application its next stimulus.
    #[inline(always)]
    fn give_application(&mut self, pid: Pid, origin: Origin) -> Option<NextJob>
        requires application { 4 ≤ pid.0 }
        requires order { IsInOrder self.old }
        requires idle { self.old.front ≡ Front.Nothing }
        ensures finds { (other : Received) → FindsJob
            (in_front (Item.Give pid.0 origin (told origin (kept_in self.old) other) ∷ []) (scheduler_behind self.old)) result other self.new }
        ensures kept { self.new ≡ record self.old { processes = self.new.processes; front = self.new.front } }
    {
        match self.processes.state_of(pid) {
            State::Running => {
                self.processes.set_state(pid, State::Called);
                self.front = Front::Call(pid);
                Some(NextJob::TakeTurn { pid, origin })
            }
            _ => None,
        }
    }

    /// Gives the process its next stimulus, which is in the caller's buffer.
    #[inline(always)]
    pub fn give(&mut self, pid: Pid, origin: Origin, stimulus: &Stimulus) -> Option<NextJob>
        requires apart { is_apart origin ≡ true }
        requires order { IsInOrder self.old }
        requires idle { self.old.front ≡ Front.Nothing }
        ensures finds { FindsJob (in_front (Item.Give pid.0 origin stimulus.now ∷ []) (scheduler_behind self.old))
            result stimulus.now self.new }
        ensures kept { self.new ≡ record self.old { processes = self.new.processes; front = self.new.front } }
    {
        if pid.0 < FIRST_APPLICATION {
            return match stimulus {
                Stimulus::Event(_) => Some(NextJob::Serve(pid)),
                _ => None,
            };
        }
        self.give_application(pid, origin)
    }

    /// Gives the process the event that left the queue last.
    #[inline(always)]
    pub fn give_event(&mut self, pid: Pid) -> Option<NextJob>
        requires order { IsInOrder self.old }
        requires idle { self.old.front ≡ Front.Nothing }
        ensures finds { (other : Received) → FindsJob
            (in_front (Item.Give pid.0 Origin.Event self.old.broadcast ∷ []) (scheduler_behind self.old)) result other self.new }
        ensures kept { self.new ≡ record self.old { processes = self.new.processes; front = self.new.front } }
    {
        if pid.0 < FIRST_APPLICATION {
            return Some(NextJob::Hear(pid));
        }
        self.give_application(pid, Origin::Event)
    }

    /// Starts the process, unless it's on the list.
    pub fn start_one(&mut self, pid: Pid, stimulus: &mut Stimulus) -> Option<NextJob>
        requires known { pid.0 < 4 + self.old.applications }
        requires order { IsInOrder self.old }
        requires idle { self.old.front ≡ Front.Nothing }
        ensures finds { FindsJob (in_front (Item.Start pid.0 ∷ []) (scheduler_behind self.old)) result stimulus.new self.new }
        ensures kept { self.new ≡ record self.old { processes = self.new.processes; front = self.new.front } }
    {
        match self.processes.state_of(pid) {
            State::Absent => {
                self.processes.add(pid);
                *stimulus = Stimulus::Event(plain_event(event::INIT));
                self.give(pid, Origin::Synch, stimulus)
            }
            _ => None,
        }
    }

    /// A poll round reaches this process.
    #[inline(always)]
    pub fn poll_one(&mut self, pid: Pid, stimulus: &mut Stimulus) -> Option<NextJob>
        requires order { IsInOrder self.old }
        requires idle { self.old.front ≡ Front.Nothing }
        ensures finds { FindsJob (in_front (Item.PollOne pid.0 ∷ []) (scheduler_behind self.old)) result stimulus.new self.new }
        ensures kept { self.new ≡ record self.old { processes = self.new.processes; front = self.new.front } }
    {
        if !self.processes.is_marked(pid) {
            return None;
        }
        self.processes.set_mark(pid, false);
        *stimulus = Stimulus::Event(plain_event(event::POLL));
        self.give(pid, Origin::Poll, stimulus)
    }

    /// Delivers the first event.
    #[inline(always)]
    pub fn deliver(&mut self) -> Option<NextJob>
        requires order { IsInOrder self.old }
        requires idle { self.old.front ≡ Front.Nothing }
        requires bare { IsBare self.old Base.Nothing }
        ensures finds { (other : Received) →
            FindsJob (in_front (Item.Deliver ∷ []) (scheduler_behind self.old)) result other self.new }
        ensures falls { IfNone result (weight self.new < weight self.old + 1300) }
    {
        // Delivers or stores an event without a copy of the whole slot: that takes fewer moves.
        match self.events.front() {
            Some(Queued::To(pid, event)) => {
                let pid = *pid;
                write_event(&mut self.broadcast, event);
                drop_first(&mut self.events);
                self.give_event(pid)
            }
            Some(Queued::ToAll(event)) => {
                write_event(&mut self.broadcast, event);
                drop_first(&mut self.events);
                self.walk = self.processes.walk();
                self.base = Base::Broadcast { is_polled: false };
                None
            }
            Some(
                Queued::Expiry {
                    pid,
                    number,
                    arming,
                },
            ) => {
                let (pid, number, arming) = (*pid, *number, *arming);
                drop_first(&mut self.events);
                self.front = Front::Expiry { pid, number };
                Some(NextJob::CallBack {
                    pid,
                    number,
                    arming,
                })
            }
            None => None,
        }
    }
}
