//! A kernel that makes a turn in two halves: in between the stimulus is read where the scheduler has it.

ghost use Rattle.std.specs.Prelude.{◌≡◌, ◌≢◌, ◌<◌, ◌≤◌, ◌+◌, ◌^◌, ◌||◌, ℕ, [], true, false, None, Some};
ghost use Rattle.std.specs.List.{list_any};
ghost use Rattle.mote_types.specs.Entries.{is_halt};
ghost use Rattle.mote_types.specs.declared.entry.Entry.{Entry as Made};
ghost use Rattle.process_core.specs.Code.Conditions.{IsApplication};
ghost use Rattle.process_core.specs.Code.SchedulerView.{told};
ghost use Rattle.kernel_core.specs.Calls.{after_call};
ghost use Rattle.kernel_core.specs.Code.Conditions.{TakesEntry, has_bytes, ticks_of};
ghost use Rattle.kernel_core.specs.Code.IdleRound.{is_idle_tick, RestsAfter};
ghost use Rattle.kernel_core.specs.Code.OpenTurns.{AwaitsCall, mote_in, told_turn};
ghost use Rattle.kernel_core.specs.Code.Steps.{GoesOn, made as made_by, stepped};
ghost use Rattle.kernel_core.specs.Inputs.{fed};
ghost use Rattle.kernel_core.specs.Run.{Choices, heard, is_at_rest};
ghost use Rattle.kernel_core.specs.declared.step.Step.{Step};

use crate::kernel::Kernel;
use crate::kernel_fields::KernelFields;
use crate::step::StepOutcome;
use crate::turn::Turn;
use mote_types::call::Call;
use mote_types::entry::{Entry, Input};
use mote_types::event::{Origin, Pid, Stimulus};
use std::marker::Model;

/// A mote's kernel, in a turn or between two.
#[derive(Drop)]
pub struct RunningKernel {
    fields: KernelFields,
}

impl Model for RunningKernel {
    ghost use Rattle.kernel_core.specs.Code.OpenTurns.{WorkingMote, working_mote_of, open_turn, StandsWell};

    ghost Value = { WorkingMote };

    ghost view = { λ k. working_mote_of k.fields };

    ghost invariant = { λ k. StandsWell (open_turn k.fields) k.fields };
}

impl RunningKernel {
    /// The kernel, which is between two turns.
    pub fn of(kernel: Kernel) -> RunningKernel
        ensures mote { mote_in result ≡ kernel }
        ensures closed { result.turn ≡ None }
    {
        RunningKernel {
            fields: kernel.fields,
        }
    }

    /// Whether the run was halted, since the work of one input reached its bound.
    pub fn halted(&self) -> bool
        ensures { result ≡ self.now.machine.is_halted }
    {
        self.fields.halted
    }

    /// As `Kernel::accept`.
    pub fn accept(&mut self, input: &Input)
        requires closed { self.old.turn ≡ None }
        requires rest { is_at_rest self.old.machine ≡ true }
        requires clock { self.old.machine.clock + ticks_of input.now ≤ 2 ^ 62 }
        requires bytes { has_bytes input.now ≡ true }
        requires few { self.old.inputs < 2 ^ 40 }
        ensures machine { (choices : Choices)
            → GoesOn choices (fed input.now self.old.machine) (Step.Entry (Made.Input input.now)) self.new.machine }
        ensures closed { self.new.turn ≡ None }
        ensures running { self.new.machine.is_halted ≡ false }
        ensures clock { self.new.machine.clock ≡ self.old.machine.clock + ticks_of input.now }
        ensures applications { self.new.machine.scheduler.applications ≡ self.old.machine.scheduler.applications }
        ensures inputs { self.new.inputs ≡ self.old.inputs + 1 }
    {
        self.fields.accept(input);
    }

    /// As `Kernel::accept_idle_tick`.
    #[inline]
    pub fn accept_idle_tick(&mut self, input: &Input) -> bool
        requires closed { self.old.turn ≡ None }
        requires rest { is_at_rest self.old.machine ≡ true }
        requires clock { self.old.machine.clock + ticks_of input.now ≤ 2 ^ 62 }
        requires few { self.old.inputs < 2 ^ 40 }
        ensures value { result ≡ is_idle_tick input.now self.old.machine }
        ensures machine { result ≡ true → (choices : Choices) → RestsAfter choices input.now self.old.machine self.new.machine }
        ensures closed { self.new.turn ≡ None }
        ensures halted { self.new.machine.is_halted ≡ self.old.machine.is_halted }
        ensures applications { self.new.machine.scheduler.applications ≡ self.old.machine.scheduler.applications }
        ensures clock { result ≡ true → self.new.machine.clock ≡ self.old.machine.clock + ticks_of input.now }
        ensures inputs { result ≡ true → self.new.inputs ≡ self.old.inputs + 1 }
        ensures else_nothing { result ≡ false → self.new ≡ self.old }
    {
        self.fields.accept_idle_tick(input)
    }

    /// The first half of a step: works until an application must take a turn, which is written into `turn` without its call, and
    /// without its stimulus where the scheduler has that; until another entry is made, which is written into `other`; or until there
    /// is rest.
    #[inline]
    pub fn next_turn(&mut self, turn: &mut Turn, other: &mut Entry) -> StepOutcome
        requires closed { self.old.turn ≡ None }
        ensures opens { result ≡ StepOutcome.Turn → self.new.turn ≡ Some turn.new.pid }
        ensures awaits { result ≡ StepOutcome.Turn → (choices : Choices) → AwaitsCall choices self.old.machine
            turn.new.pid turn.new.origin (told turn.new.origin self.new.kept turn.new.stimulus) self.new.machine }
        ensures application { result ≡ StepOutcome.Turn → IsApplication self.old.machine.scheduler.applications turn.new.pid.0 }
        ensures room { result ≡ StepOutcome.Turn → self.new.entries_left + 2 ≤ self.old.entries_left }
        ensures closed { result ≢ StepOutcome.Turn → self.new.turn ≡ None }
        ensures goes { result ≢ StepOutcome.Turn → (choices : Choices) →
            GoesOn choices self.old.machine (stepped result (told_turn self.new.kept turn.new) other.new) self.new.machine }
        ensures untold { result ≢ StepOutcome.Turn → (p : ℕ) → heard p (made_by (stepped result (told_turn self.new.kept turn.new) other.new)) ≡ [] }
        ensures halted { self.new.machine.is_halted
            ≡ (self.old.machine.is_halted || list_any is_halt (made_by (stepped result (told_turn self.new.kept turn.new) other.new))) }
        ensures clock { self.new.machine.clock ≡ self.old.machine.clock }
        ensures applications { self.new.machine.scheduler.applications ≡ self.old.machine.scheduler.applications }
        ensures inputs { self.new.inputs ≡ self.old.inputs }
        ensures progress { TakesEntry (stepped result (told_turn self.new.kept turn.new) other.new) (mote_in self.old) (mote_in self.new) }
    {
        self.fields.next_turn(turn, other)
    }

    /// What the application receives in its turn, where this is in the buffer of that turn.
    #[inline]
    pub fn stimulus<'a>(&'a self, origin: Origin, other: &'a Stimulus) -> &'a Stimulus
        ensures { result.now ≡ told origin self.now.kept other.now }
    {
        self.fields.scheduler.stimulus(origin, other)
    }

    /// The second half: executes the call of the application whose turn it is.
    #[inline]
    pub fn execute(&mut self, pid: Pid, call: &Call)
        requires at_turn { self.old.turn ≡ Some pid }
        ensures machine { self.new.machine ≡ after_call call.now pid.0 self.old.machine }
        ensures closed { self.new.turn ≡ None }
        ensures running { self.new.machine.is_halted ≡ false }
        ensures clock { self.new.machine.clock ≡ self.old.machine.clock }
        ensures applications { self.new.machine.scheduler.applications ≡ self.old.machine.scheduler.applications }
        ensures inputs { self.new.inputs ≡ self.old.inputs }
        ensures left { self.new.entries_left ≤ self.old.entries_left + 1 }
    {
        self.fields.execute_call(pid, call);
    }
}
