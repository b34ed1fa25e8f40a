//! The next job with a copy of what a process receives, in a buffer or by value. The kernel reads it where it lies (`next_in_place`).

ghost use Rattle.std.specs.Prelude.{◌≡◌, ◌≢◌, ◌<◌, None, IfSome, [], true, false};
ghost use Rattle.mote_types.specs.declared.event.Event.{Event as Received};
ghost use Rattle.mote_types.specs.declared.event.Pid.{Pid as Process};
ghost use Rattle.process_core.specs.Code.Conditions.{IsApplication};
ghost use Rattle.process_core.specs.Scheduler.{state_in, wants_round};
ghost use Rattle.process_core.specs.Code.ByValue as by_value;
ghost use Rattle.process_core.specs.Code.Invariant.{IsWellFormed, is_in_activation};
ghost use Rattle.process_core.specs.Code.Items.{ComesTo};
ghost use Rattle.process_core.specs.declared.job.Job as asked;
ghost use Rattle.process_core.specs.declared.next_job.NextJob.{NextJob as Answer};
ghost use Rattle.process_core.specs.Code.SchedulerView.{job_of, told, turn_of, callback_of};
ghost use Rattle.mote_types.specs.declared.event.Stimulus.{Stimulus as Stimuli};

use crate::job::Job;
use crate::next_job::NextJob;
use crate::open_work::write_stimulus;
use crate::scheduler::Scheduler;
use mote_types::event::{Origin, Stimulus};

/// The job that a result of `next_to` and the buffer passed to it make up.
fn job_with(ready: NextJob, stimulus: Stimulus) -> Job
    ensures { result ≡ by_value.job_with ready stimulus }
{
    match ready {
        NextJob::TakeTurn { pid, origin } => Job::Give {
            pid,
            origin,
            stimulus,
        },
        NextJob::Serve(pid) | NextJob::Hear(pid) => match stimulus {
            Stimulus::Event(event) => Job::Serve { pid, event },
            _ => Job::Rest,
        },
        NextJob::CallBack {
            pid,
            number,
            arming,
        } => Job::Callback {
            pid,
            number,
            arming,
        },
        NextJob::Round => Job::Round,
        NextJob::Rest => Job::Rest,
    }
}

impl Scheduler {
    /// Writes what a process receives in a turn of this origin into the buffer that `next_in_place` was passed.
    pub fn write_stimulus(&self, origin: Origin, buffer: &mut Stimulus)
        ensures { buffer.new ≡ told origin self.now.kept buffer.old }
    {
        match origin {
            Origin::Answer => write_stimulus(buffer, &self.fields.reply),
            Origin::Event => write_stimulus(buffer, &self.fields.broadcast),
            Origin::Synch | Origin::Poll | Origin::Callback => {}
        }
    }

    /// The next job, as `next_in_place`. The buffer `stimulus` then holds the stimulus (TakeTurn) or the event (Serve). For any other
    /// result it may hold what was meant for a process that did not take it.
    pub fn next_to(&mut self, stimulus: &mut Stimulus) -> NextJob
        requires { self.old.turn ≡ None }
        ensures job { ComesTo self.old.state (job_of result stimulus.new) self.new.state }
        ensures turn { self.new.turn ≡ turn_of result }
        ensures callback { self.new.callback ≡ callback_of result }

        // what the layer above can rely on
        ensures active { IfSome self.new.turn (λ p. IsApplication self.new.state.applications p.0
            × (is_in_activation (state_in self.new.state p.0) ≡ true)) }
        ensures served { (p : Process) → result ≡ Answer.Serve p → (p.0 < 4)
            × (event : Received) × (stimulus.new ≡ Stimuli.Event event) }
        ensures unheard { (p : Process) → result ≢ Answer.Hear p }
        ensures rest { result ≡ Answer.Rest → (self.new.state.agenda ≡ []) × (wants_round self.new.state ≡ false) }
        ensures applications { self.new.state.applications ≡ self.old.state.applications }
        ensures standing { IsWellFormed self.new.state }
    {
        match self.next_in_place(stimulus) {
            NextJob::TakeTurn { pid, origin } => {
                self.write_stimulus(origin, stimulus);
                NextJob::TakeTurn { pid, origin }
            }
            NextJob::Hear(pid) => {
                self.write_stimulus(Origin::Event, stimulus);
                NextJob::Serve(pid)
            }
            ready => ready,
        }
    }

    /// The next job: the first thing on the agenda that the scheduler doesn't do by itself. Where the agenda is empty a round
    /// begins, if a process is marked or an event waits.
    ///
    /// After `Give` the caller reports that process's call before it asks for the next job: `answered`, `waited`, `ended`, or an
    /// accepted `synch`, `start` or `kill`. After `Callback` it may put the callback at the front: `give_callback`.
    pub fn next(&mut self) -> Job
        requires { self.old.turn ≡ None }
        ensures job { ComesTo self.old.state (by_value.job_asked result) self.new.state }
        ensures turn { self.new.turn ≡ by_value.turn_asked result }
        ensures callback { self.new.callback ≡ by_value.callback_asked result }

        // what the layer above can rely on
        ensures active { IfSome self.new.turn (λ p. IsApplication self.new.state.applications p.0
            × (is_in_activation (state_in self.new.state p.0) ≡ true)) }
        ensures served { (p : Process) (event : Received) → result ≡ asked.Job.Serve p event → p.0 < 4 }
        ensures rest { result ≡ asked.Job.Rest → (self.new.state.agenda ≡ []) × (wants_round self.new.state ≡ false) }
        ensures applications { self.new.state.applications ≡ self.old.state.applications }
        ensures standing { IsWellFormed self.new.state }
    {
        let mut stimulus = Stimulus::Callback(0);
        let ready = self.next_to(&mut stimulus);
        job_with(ready, stimulus)
    }
}
