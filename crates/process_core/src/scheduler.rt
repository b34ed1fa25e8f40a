//! The scheduler of a mote: its processes, its event queue, and the agenda of pending work.

ghost use Rattle.std.specs.Prelude.{◌≡◌, ◌≤◌, ◌<◌, ◌+◌, ◌*◌, None, Some, IfNone, IfOk, IfSome, [], true, false, length};
ghost use Rattle.mote_types.specs.declared.event.Event.{Event};
ghost use Rattle.mote_types.specs.declared.event.Origin.{Origin as Source};
ghost use Rattle.mote_types.specs.declared.event.Pid.{Pid};
ghost use Rattle.mote_types.specs.declared.event.Stimulus.{Stimulus as Received};
ghost use Rattle.process_core.specs.Code.OpenWork.{agenda_of};
ghost use Rattle.process_core.specs.Code.SchedulerView.{awaiting_nothing, job_in, kept_at_boot, told, turn_of, callback_of};
ghost use Rattle.process_core.specs.Code.Conditions.{IsApplication};
ghost use Rattle.process_core.specs.Code.Invariant.{is_in_activation};
ghost use Rattle.process_core.specs.Scheduler.{at_boot, state_in, wants_round};
ghost use Rattle.process_core.specs.Code.Items.{ComesTo};
ghost use Rattle.process_core.specs.Code.Invariant.{IsWellFormed};
ghost use Rattle.process_core.specs.declared.next_job.NextJob.{NextJob as Answer};

use crate::front::Front;
use crate::giving::plain_event;
use crate::next_job::NextJob;
use crate::open_work::{Base, Continuation};
use crate::process_list::ProcessList;
use crate::process_numbers::ProcessNumbers;
use crate::scheduler_fields::SchedulerFields;
use crate::walk::Walk;
use arrayvec::ArrayVec;
use circular_buffer::HeapCircularBuffer;
use mote_types::event::{FIRST_APPLICATION, FIRST_FREE, Origin, Pid, Stimulus};
use mote_types::reply::Reply;
use std::alloc::{AllocError, Global};
use std::marker::Model;

/// The largest number of waiting events (this project's profile).
pub const QUEUE_PLACES: usize = 32;

/// The processes of a mote, its event queue, and the pending work.
///
/// Contracts see four things: the scheduler of the definitions (process list, events, agenda, next event number), the
/// process whose turn it is, the callback timer whose expiry was returned just now, and the stimuli that are stored here.
///
/// Source: process.h and the page "Processes and events" of Contiki-NG; the states of a process on its way out, the
/// marks of poll rounds and all sizes are this project's profile.
#[derive(Drop)]
pub struct Scheduler {
    pub(crate) fields: SchedulerFields,
}

impl Model for Scheduler {
    ghost use Rattle.process_core.specs.Code.SchedulerView.{SchedulerView};
    ghost use Rattle.process_core.specs.Code.SchedulerFields.{IsInOrder, view_of};

    ghost Value = { SchedulerView };

    ghost view = { λ s. view_of s.fields };

    ghost invariant = { λ s. IsInOrder s.fields };
}

/// A stack with no continuation.
// Out of line, so that the copies in which LLVM makes it are not kept on the stack in as many pieces beside the scheduler's own.
#[inline(never)]
fn no_continuations() -> ArrayVec<Continuation, 34>
    ensures { result.items ≡ [] }
{
    ArrayVec::new()
}

impl Scheduler {
    /// The scheduler of a mote with `applications` applications, 0 to 16, none of which is started yet.
    ///
    /// Allocates only the event queue: 32 slots. Where memory is refused there is no scheduler.
    // Inlined into a boot, it would have the room of a kernel cleared more often.
    #[inline(never)]
    pub fn new(alloc: Global, applications: u8) -> Result<Scheduler, AllocError>
        requires { applications ≤ 16 }
        ensures { IfOk result (λ s. s ≡ awaiting_nothing (at_boot applications) kept_at_boot) }
    {
        let events = HeapCircularBuffer::with_capacity(alloc, QUEUE_PLACES)?;
        let mut starts = ProcessNumbers::new();
        for number in FIRST_APPLICATION..FIRST_APPLICATION + applications {
            starts.push(number);
        }
        let fields = SchedulerFields {
            applications,
            processes: ProcessList::new(),
            events,
            next_event: FIRST_FREE as u16,
            front: Front::Nothing,
            reply: Stimulus::Answer(Reply::Done),
            synch: plain_event(0),
            stack: no_continuations(),
            polls: Walk::none(),
            base: Base::Boot,
            walk: Walk::over(starts),
            broadcast: Stimulus::Event(plain_event(0)),
            ready: NextJob::Rest,
        };
        Ok(Scheduler { fields })
    }

    /// The next job: the first thing on the agenda that the scheduler does not do by itself. Where nothing is on the agenda a
    /// round begins, if a process is marked or an event waits.
    ///
    /// A reply and an event of the queue stay where they lie. What else a process receives is written into the buffer `other`, which for
    /// any other result may hold what was meant for a process that did not take it. `stimulus` returns the one or the other.
    pub fn next_in_place(&mut self, other: &mut Stimulus) -> NextJob
        requires { self.old.turn ≡ None }
        ensures job { ComesTo self.old.state (job_in result self.new.kept other.new) self.new.state }
        ensures turn { self.new.turn ≡ turn_of result }
        ensures callback { self.new.callback ≡ callback_of result }

        // what the layer above can rely on
        ensures active { IfSome self.new.turn (λ p. IsApplication self.new.state.applications p.0
            × (is_in_activation (state_in self.new.state p.0) ≡ true)) }
        ensures served { (p : Pid) → result ≡ Answer.Serve p → (p.0 < 4)
            × (event : Event) × (other.new ≡ Received.Event event) }
        ensures heard { (p : Pid) → result ≡ Answer.Hear p → (p.0 < 4)
            × (event : Event) × (self.new.kept.event ≡ Received.Event event) }
        ensures rest { result ≡ Answer.Rest → (self.new.state.agenda ≡ []) × (wants_round self.new.state ≡ false) }
        ensures applications { self.new.state.applications ≡ self.old.state.applications }
        ensures standing { IsWellFormed self.new.state }
    {
        let ready = match self.fields.take_front(other) {
            Some(ready) => ready,
            None => self.fields.work_on(other),
        };
        // Does nothing: the call gives the proof the invariant of a process list, for the clause `standing`.
        self.fields.processes.each_is_once();
        ready
    }

    /// As `next_in_place`, where a process takes a turn with the reply that it gets. Otherwise nothing changes: then `None`.
    #[inline(always)]
    pub fn take_answer(&mut self) -> Option<Pid>
        requires { self.old.turn ≡ None }
        ensures job { IfSome result (λ pid. (other : Received) →
            ComesTo self.old.state (job_in (Answer.TakeTurn pid Source.Answer) self.new.kept other) self.new.state) }
        ensures turn { IfSome result (λ pid. self.new.turn ≡ Some pid) }
        ensures callback { IfSome result (λ pid. self.new.callback ≡ None) }
        ensures active { IfSome result (λ p. IsApplication self.new.state.applications p.0
            × (is_in_activation (state_in self.new.state p.0) ≡ true)) }
        ensures applications { self.new.state.applications ≡ self.old.state.applications }
        ensures standing { IfSome result (λ pid. IsWellFormed self.new.state) }
        ensures none { IfNone result (self.new ≡ self.old) }
    {
        let pid = self.fields.take_answer()?;
        // As in `next_in_place`.
        self.fields.processes.each_is_once();
        Some(pid)
    }

    /// What a process receives in a turn of this origin, where this is in the buffer that `next_in_place` was passed.
    #[inline(always)]
    pub fn stimulus<'a>(&'a self, origin: Origin, other: &'a Stimulus) -> &'a Stimulus
        ensures { result.now ≡ told origin self.now.kept other.now }
    {
        match origin {
            Origin::Answer => &self.fields.reply,
            Origin::Event => &self.fields.broadcast,
            Origin::Synch | Origin::Poll | Origin::Callback => other,
        }
    }

    #[tactic(auto, using(crate::proofs::Sound::few_items, crate::proofs::Sound::room_on_stack))]
    /// The open work: the parts in which the agenda is stored. There are at most two continuations for each application, so a
    /// stack of 34 never overflows.
    pub fn open_work(&self) -> &SchedulerFields
        ensures agenda { agenda_of result.now ≡ self.now.state.agenda }
        ensures few { length result.now.stack.items ≤ 2 * self.now.state.applications }
        ensures bound { length result.now.stack.items ≤ 32 }
    {
        &self.fields
    }
}
