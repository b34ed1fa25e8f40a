//! The kernel: what a mote runs on.

ghost use Rattle.std.specs.Prelude.{◌≡◌, ◌≢◌, ◌<◌, ◌≤◌, ◌+◌, ◌-◌, ◌^◌, ◌∷◌, ◌++◌, ◌↔◌, ◌||◌, ℕ, [], true, false, List, length, slice_get, IfOk, IsErrOf};
ghost use Rattle.std.specs.List.{list_any};
ghost use Rattle.mote_types.specs.Applications.{says_of};
ghost use Rattle.mote_types.specs.Entries.{is_halt};
ghost use Rattle.mote_types.specs.declared.event.Stimulus.{Stimulus as Received};
ghost use Rattle.kernel_core.specs.Machine.{is_bootable, booted};
ghost use Rattle.kernel_core.specs.Code.IdleRound.{is_idle_tick, RestsAfter};
ghost use Rattle.kernel_core.specs.Inputs.{fed};
ghost use Rattle.kernel_core.specs.Code.Conditions.{has_bytes, ticks_of};
ghost use Rattle.kernel_core.specs.Run.{Choices, heard, is_at_rest};
ghost use Rattle.kernel_core.specs.Code.Steps.{GoesOn, made as made_by, stepped};
ghost use Rattle.kernel_core.specs.Code.Conditions.{TakesEntry};

use crate::boot::tables_at_boot;
use crate::config::Config;
use crate::kernel_fields::KernelFields;
use crate::step::{Step, StepOutcome};
use crate::turn::Turn;
use device_core::serial_line::SerialLine;
use mote_types::app::App;
use mote_types::ask::ask;
use mote_types::entry::{Entry, Input};
use mote_types::fault::BootFault;
use process_core::scheduler::Scheduler;
use std::alloc::Global;
use std::marker::Model;

/// A mote's kernel: one machine of processes, events and a clock.
#[derive(Drop)]
pub struct Kernel {
    pub(crate) fields: KernelFields,
}

impl Model for Kernel {
    ghost use Rattle.kernel_core.specs.Mote.{Mote};
    ghost use Rattle.kernel_core.specs.Code.View.{mote_of, IsInOrder};

    ghost Value = { Mote };

    ghost view = { λ k. mote_of k.fields };

    ghost invariant = { λ k. IsInOrder k.fields };
}

impl Kernel {
    /// A kernel at boot, before its applications are started. All memory of the mote is allocated here.
    ///
    /// `BadSizes` exactly where a size or the quota is out of its range or no multiple of 4, where managed memory has no room
    /// for all quotas, where a header has neither 16 nor 8 bytes, or where there are more than 16 applications, however little
    /// memory there is; otherwise `Memory` where memory is refused.
    pub fn boot(alloc: Global, config: Config) -> Result<Kernel, BootFault>
        ensures booted { IfOk result (λ kernel. (kernel.machine ≡ booted config) × (kernel.inputs ≡ 0)) }
        ensures bad_sizes { IsErrOf result BootFault.BadSizes ↔ (is_bootable config ≡ false) }
    {
        let tables = match tables_at_boot(alloc, config) {
            Ok(tables) => tables,
            Err(fault) => return Err(fault),
        };
        let Ok(scheduler) = Scheduler::new(alloc, config.apps) else {
            return Err(BootFault::Memory);
        };
        let Ok(serial) = SerialLine::new(alloc) else {
            return Err(BootFault::Memory);
        };
        let fields = KernelFields::at_boot(config, tables, scheduler, serial);
        Ok(Kernel { fields })
    }

    /// Whether the run was halted, since the work of one input reached its bound.
    pub fn halted(&self) -> bool
        ensures { result ≡ self.now.machine.is_halted }
    {
        self.fields.halted
    }

    /// The ticks since boot.
    pub fn clock(&self) -> u64
        ensures { result ≡ self.now.machine.clock }
    {
        self.fields.clock
    }

    /// Whether the mote rests: no activation is open, no process is marked and no event waits. After Halt it never rests.
    pub fn at_rest(&self) -> bool
        ensures { result ≡ is_at_rest self.now.machine }
    {
        !self.fields.halted && self.fields.pending.is_empty() && self.fields.scheduler.at_rest()
    }

    /// Feeds an input, which the caller keeps, to a mote at rest, and makes the step that makes the input's entry. `step_to`
    /// does the rest.
    ///
    /// A frame has at least one byte.
    pub fn accept(&mut self, input: &Input)
        requires rest { is_at_rest self.old.machine ≡ true }
        requires clock { self.old.machine.clock + ticks_of input.now ≤ 2 ^ 62 }
        requires bytes { has_bytes input.now ≡ true }
        requires few { self.old.inputs < 2 ^ 40 }
        ensures machine { (choices : Choices)
            → GoesOn choices (fed input.now self.old.machine) (Step.Entry (Entry.Input input.now)) self.new.machine }
        ensures running { self.new.machine.is_halted ≡ false }
        ensures clock { self.new.machine.clock ≡ self.old.machine.clock + ticks_of input.now }
        ensures applications { self.new.machine.scheduler.applications ≡ self.old.machine.scheduler.applications }
        ensures inputs { self.new.inputs ≡ self.old.inputs + 1 }
    {
        self.fields.accept(input);
    }

    /// Feeds a tick, which the caller keeps, to a mote at rest, as `accept`, and makes the one round that follows, where no
    /// timer is due then: the mote rests again. Where one is due, or the input is no tick, does nothing.
    #[inline]
    pub fn accept_idle_tick(&mut self, input: &Input) -> bool
        requires rest { is_at_rest self.old.machine ≡ true }
        requires clock { self.old.machine.clock + ticks_of input.now ≤ 2 ^ 62 }
        requires few { self.old.inputs < 2 ^ 40 }
        ensures value { result ≡ is_idle_tick input.now self.old.machine }
        ensures machine { result ≡ true → (choices : Choices) → RestsAfter choices input.now self.old.machine self.new.machine }
        ensures halted { self.new.machine.is_halted ≡ self.old.machine.is_halted }
        ensures applications { self.new.machine.scheduler.applications ≡ self.old.machine.scheduler.applications }
        ensures clock { result ≡ true → self.new.machine.clock ≡ self.old.machine.clock + ticks_of input.now }
        ensures inputs { result ≡ true → self.new.inputs ≡ self.old.inputs + 1 }
        ensures else_nothing { result ≡ false → self.new ≡ self.old }
    {
        self.fields.accept_idle_tick(input)
    }

    /// Works until an entry is made or nothing is left to do, and takes at most one turn, of one application. Writes a turn into
    /// `turn`, and any other entry into `other`. Where no turn is taken, nothing is promised of `turn`.
    ///
    /// `Rest` exactly where the mote is at rest, `Halted` exactly where it was halted before.
    pub fn step_to(
        &mut self,
        apps: &mut [Box<dyn App>],
        turn: &mut Turn,
        other: &mut Entry,
    ) -> StepOutcome
        requires boxes { length apps.old ≡ self.old.machine.scheduler.applications }
        ensures machine { GoesOn (λ p stimulus. says_of says apps.old p (stimulus ∷ [])) self.old.machine
            (stepped result turn.new other.new) self.new.machine }
        ensures law { (p : ℕ) (next : Received) (later : List Received) →
            says_of says apps.new p (next ∷ later) ≡ says_of says apps.old p (heard p (made_by (stepped result turn.new other.new)) ++ (next ∷ later)) }
        ensures others { (p : ℕ) → 4 ≤ p → heard p (made_by (stepped result turn.new other.new)) ≡ []
            → slice_get apps.new (p - 4) ≡ slice_get apps.old (p - 4) }
        ensures halted { self.new.machine.is_halted
            ≡ (self.old.machine.is_halted || list_any is_halt (made_by (stepped result turn.new other.new))) }
        ensures clock { self.new.machine.clock ≡ self.old.machine.clock }
        ensures applications { self.new.machine.scheduler.applications ≡ self.old.machine.scheduler.applications }
        ensures inputs { self.new.inputs ≡ self.old.inputs }
        ensures progress { TakesEntry (stepped result turn.new other.new) self.old self.new }
        ensures unmade { result ≢ StepOutcome.Other → other.new ≡ other.old }
    {
        let outcome = self.fields.next(turn, other);
        if let StepOutcome::Turn = outcome {
            ask(apps, turn.pid, &turn.stimulus, &mut turn.call);
            self.fields.execute_call(turn.pid, &turn.call);
        }
        outcome
    }
}
