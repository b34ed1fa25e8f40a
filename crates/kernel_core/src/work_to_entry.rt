//! Work until an application must take a turn, another entry is made, or nothing is left to do.

ghost use Rattle.std.specs.Prelude.{◌≡◌, IfNone, IfSome};
ghost use Rattle.kernel_core.specs.Code.OpenTurns.{WorksUpTo, told_turn};
ghost use Rattle.kernel_core.specs.Code.View.{IsAtWork};

use crate::kernel_fields::KernelFields;
use crate::step::StepOutcome;
use crate::turn::Turn;
use mote_types::entry::Entry;
use mote_types::event::Origin;
use process_core::next_job::NextJob;

impl KernelFields {
    /// As `work_to_entry`, where a process takes the next turn with the reply that it gets. Otherwise nothing changes: then `None`.
    #[inline(always)]
    pub fn work_to_answer(&mut self, turn: &mut Turn, other: &mut Entry) -> Option<StepOutcome>
        requires at_work { IsAtWork self.old }
        ensures works { IfSome result (λ outcome.
            WorksUpTo outcome (told_turn self.new.scheduler.kept turn.new) other.old other.new self.old self.new) }
        ensures none { IfNone result ((self.new ≡ self.old) × (turn.new ≡ turn.old) × (other.new ≡ other.old)) }
    {
        let pid = self.next_answer()?;
        turn.pid = pid;
        turn.origin = Origin::Answer;
        if self.begin_turn(other) {
            return Some(StepOutcome::Turn);
        }
        Some(StepOutcome::Other)
    }

    /// Does one job after the other, until a turn begins, which is written into `turn` without its call, and without its stimulus where
    /// the scheduler has that, until another entry is made, which is written into `other`, or until there is rest.
    pub fn work_to_entry(&mut self, turn: &mut Turn, other: &mut Entry) -> StepOutcome
        requires at_work { IsAtWork self.old }
        ensures { WorksUpTo result (told_turn self.new.scheduler.kept turn.new) other.old other.new self.old self.new }
    {
        // The buffer mostly still has the last turn's call. Whatever it has, no entry shows it.
        self.pass_idle_receivers(&turn.call);
        'job: loop {
            match self.next_job(&mut turn.stimulus) {
                NextJob::TakeTurn { pid, origin } => {
                    turn.pid = pid;
                    turn.origin = origin;
                    if self.begin_turn(other) {
                        return StepOutcome::Turn;
                    }
                    return StepOutcome::Other;
                }
                NextJob::Serve(pid) => self.serve(pid, Origin::Synch, &turn.stimulus),
                NextJob::Hear(pid) => self.serve(pid, Origin::Event, &turn.stimulus),
                NextJob::CallBack {
                    pid,
                    number,
                    arming,
                } => self.expire(pid, number, arming),
                NextJob::Round => {
                    if !self.begin_round(other) {
                        return StepOutcome::Other;
                    }
                }
                NextJob::Rest => return StepOutcome::Rest,
            }
        }
    }
}
