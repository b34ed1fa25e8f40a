//! Open turns: the kernel works until an application must take one; then its call is executed, whoever made it.

ghost use Rattle.std.specs.Prelude.{◌≡◌, ◌≤◌, ◌+◌, false, true};
ghost use Rattle.mote_types.specs.declared.event.Stimulus.{Stimulus as Received};
ghost use Rattle.mote_types.specs.declared.reply.Reply.{Reply as Answered};
ghost use Rattle.kernel_core.specs.Calls.{after_call};
ghost use Rattle.kernel_core.specs.Code.OpenTurns.{IsMidTurn, WorksUpTo, told_turn};
ghost use Rattle.kernel_core.specs.Code.View.{entries_left_in, machine_of, IsAtTurn, IsAtWork, IsCarriedOut, IsInOrder};

use crate::kernel_fields::KernelFields;
use crate::step::StepOutcome;
use crate::turn::Turn;
use mote_types::call::Call;
use mote_types::entry::Entry;
use mote_types::event::{Pid, Stimulus};
use mote_types::reply::Reply;

/// Whether it is the reply Done.
#[inline(always)]
fn is_done(stimulus: &Stimulus) -> bool
    ensures { result ≡ true → stimulus.now ≡ Received.Answer Answered.Done }
{
    matches!(stimulus, Stimulus::Answer(Reply::Done))
}

impl KernelFields {
    /// Works until a turn begins, which is written into `turn` without its call, until another entry is made, which is
    /// written into `other`, or until there is rest.
    // What is inlined saves no registers for an entry that waits, or for a reply, which most turns begin with.
    #[inline(always)]
    pub fn next(&mut self, turn: &mut Turn, other: &mut Entry) -> StepOutcome
        requires order { IsInOrder self.old }
        ensures { WorksUpTo result turn.new other.old other.new self.old self.new }
    {
        if self.halted {
            return StepOutcome::Halted;
        }
        if !self.pending.is_empty() {
            self.pending.take_first(other);
            return StepOutcome::Other;
        }
        let Some(outcome) = self.work_to_answer(turn, other) else {
            return self.work_to_turn(turn, other);
        };
        if let StepOutcome::Turn = outcome {
            self.write_told(turn);
        }
        outcome
    }

    /// As `next`, where no entry waits.
    #[inline(never)]
    fn work_to_turn(&mut self, turn: &mut Turn, other: &mut Entry) -> StepOutcome
        requires at_work { IsAtWork self.old }
        ensures { WorksUpTo result turn.new other.old other.new self.old self.new }
    {
        let outcome = self.work_on(turn, other);
        if let StepOutcome::Turn = outcome {
            self.write_told(turn);
        }
        outcome
    }

    /// Writes the stimulus of a turn where the scheduler has it. Mostly both are Done, and nothing is written.
    #[inline(always)]
    fn write_told(&self, turn: &mut Turn)
        ensures { turn.new ≡ told_turn self.now.scheduler.kept turn.old }
    {
        if is_done(self.scheduler.stimulus(turn.origin, &turn.stimulus))
            && is_done(&turn.stimulus)
        {
            return;
        }
        self.scheduler
            .write_stimulus(turn.origin, &mut turn.stimulus);
    }

    /// As `next`, but the stimulus of a turn isn't written where the scheduler has it.
    #[inline]
    pub fn next_turn(&mut self, turn: &mut Turn, other: &mut Entry) -> StepOutcome
        requires order { IsInOrder self.old }
        ensures { WorksUpTo result (told_turn self.new.scheduler.kept turn.new) other.old other.new self.old self.new }
    {
        if self.halted {
            return StepOutcome::Halted;
        }
        if !self.pending.is_empty() {
            self.pending.take_first(other);
            return StepOutcome::Other;
        }
        self.work_on(turn, other)
    }

    /// As `next_turn`, where no entry waits.
    #[inline(always)]
    fn work_on(&mut self, turn: &mut Turn, other: &mut Entry) -> StepOutcome
        requires at_work { IsAtWork self.old }
        ensures { WorksUpTo result (told_turn self.new.scheduler.kept turn.new) other.old other.new self.old self.new }
    {
        self.pass_idle_poll();
        self.work_to_entry(turn, other)
    }

    /// Executes the call of the application that takes the turn, which ends the turn.
    #[inline]
    pub fn execute_call(&mut self, pid: Pid, call: &Call)
        requires open { IsMidTurn pid self.old }
        ensures machine { machine_of self.new ≡ after_call call.now pid.0 (machine_of self.old) }
        ensures order { IsInOrder self.new }
        ensures running { self.new.halted ≡ false }
        ensures clock { self.new.clock ≡ self.old.clock }
        ensures applications { self.new.scheduler.state.applications ≡ self.old.scheduler.state.applications }
        ensures inputs { self.new.inputs ≡ self.old.inputs }
        ensures left { entries_left_in self.new ≤ entries_left_in self.old + 1 }
    {
        self.dispatch(pid, call);
    }

    /// As `execute_call`. A wait, which ends most activations, saves no registers.
    #[inline(always)]
    pub fn execute_or_wait(&mut self, pid: Pid, call: &Call)
        requires open { IsMidTurn pid self.old }
        ensures machine { machine_of self.new ≡ after_call call.now pid.0 (machine_of self.old) }
        ensures order { IsInOrder self.new }
        ensures running { self.new.halted ≡ false }
        ensures clock { self.new.clock ≡ self.old.clock }
        ensures applications { self.new.scheduler.state.applications ≡ self.old.scheduler.state.applications }
        ensures inputs { self.new.inputs ≡ self.old.inputs }
        ensures left { entries_left_in self.new ≤ entries_left_in self.old + 1 }
    {
        self.carry_out(pid, call);
    }

    /// As `dispatch`, which is called for anything but a wait.
    #[inline(always)]
    fn carry_out(&mut self, pid: Pid, call: &Call)
        requires at_turn { IsAtTurn pid self.old }
        ensures machine { machine_of self.new ≡ after_call call.now pid.0 (machine_of self.old) }
        ensures kept { IsCarriedOut self.old self.new }
    {
        if let Call::Wait = call {
            self.scheduler.waited(pid);
        } else {
            self.carry_out_call(pid, call);
        }
    }

    /// As `dispatch`.
    #[inline(never)]
    fn carry_out_call(&mut self, pid: Pid, call: &Call)
        requires at_turn { IsAtTurn pid self.old }
        ensures machine { machine_of self.new ≡ after_call call.now pid.0 (machine_of self.old) }
        ensures kept { IsCarriedOut self.old self.new }
    {
        self.dispatch(pid, call);
    }
}
