//! A kernel whose caller makes the calls: it asks for the next step, and submits the call of each turn.

ghost use Rattle.std.specs.Prelude.{◌≡◌, ◌≢◌, ◌<◌, ◌≤◌, ◌+◌, ◌^◌, ◌&&◌, ◌||◌, ◌↔◌, ℕ, [], true, false, None, Some, is_none, length, IfOk, IsErrOf};
ghost use Rattle.std.specs.List.{list_any};
ghost use Rattle.mote_types.specs.Entries.{is_halt};
ghost use Rattle.mote_types.specs.declared.entry.Input.{Input as Handed};
ghost use Rattle.process_core.specs.Code.Conditions.{IsApplication};
ghost use Rattle.kernel_core.specs.Code.AtBoot.{AreAtBoot, IsBooted};
ghost use Rattle.kernel_core.specs.Calls.{after_call};
ghost use Rattle.kernel_core.specs.Code.OpenTurns.{AwaitsCall};
ghost use Rattle.kernel_core.specs.Code.Steps.{GoesOn, made as made_by, stepped};
ghost use Rattle.kernel_core.specs.Inputs.{fed};
ghost use Rattle.kernel_core.specs.Code.Conditions.{has_bytes, ticks_of};
ghost use Rattle.kernel_core.specs.Machine.{is_bootable, booted};
ghost use Rattle.kernel_core.specs.Code.Conditions.{TakesEntry, most_entries_left};
ghost use Rattle.kernel_core.specs.Run.{Choices, heard, is_at_rest};
ghost use Rattle.timer_core.specs.Deadlines.{next_deadline};

use crate::boot::{Tables, tables_at_boot};
use crate::config::Config;
use crate::kernel_fields::KernelFields;
use crate::step::StepOutcome;
use crate::turn::Turn;
use arrayvec::ArrayVec;
use device_core::serial_line::SerialLine;
use mote_types::call::Call;
use mote_types::entry::{Entry, Input};
use mote_types::event::Pid;
use mote_types::fault::BootFault;
use process_core::scheduler::Scheduler;
use std::alloc::{AllocError, Global};
use std::marker::Model;

/// The fields of a kernel at boot, on the heap.
// Out of line, so that what it takes of the stack isn't added to what the tables take while they are made.
#[inline(never)]
fn fields_on_heap(
    alloc: Global,
    config: Config,
    tables: Tables,
) -> Result<Box<KernelFields>, AllocError>
    requires { AreAtBoot config tables }
    ensures { IfOk result (λ fields. IsBooted config fields.value) }
{
    let Ok(scheduler) = Scheduler::new(alloc, config.apps) else {
        return Err(AllocError);
    };
    let Ok(serial) = SerialLine::new(alloc) else {
        return Err(AllocError);
    };
    match Box::new(
        alloc,
        KernelFields::at_boot(config, tables, scheduler, serial),
    ) {
        Ok(fields) => Ok(fields),
        Err(_) => Err(AllocError),
    }
}

/// A mote's kernel, and the application whose call it awaits, if it awaits one.
///
/// The kernel is on the heap: who holds a session moves a few words.
#[derive(Drop)]
pub struct AwaitingKernel {
    fields: Box<KernelFields>,
    turn: Option<Pid>,
}

impl Model for AwaitingKernel {
    ghost use Rattle.kernel_core.specs.Code.OpenTurns.{AwaitingMote, awaiting_mote_of, StandsWell};

    ghost Value = { AwaitingMote };

    ghost view = { λ k. awaiting_mote_of k.turn k.fields.value };

    ghost invariant = { λ k. StandsWell k.turn k.fields.value };
}

impl AwaitingKernel {
    /// A kernel at boot, before its applications are started. All memory of the mote is allocated here.
    ///
    /// # Errors
    ///
    /// As `Kernel::boot`.
    // Out of line, so that the room on the stack that a kernel takes while it is made is given back at once.
    #[inline(never)]
    pub fn boot(alloc: Global, config: Config) -> Result<AwaitingKernel, BootFault>
        ensures booted { IfOk result (λ kernel. (kernel.mote.machine ≡ booted config) × (kernel.mote.inputs ≡ 0) × (kernel.turn ≡ None)) }
        ensures bad_sizes { IsErrOf result BootFault.BadSizes ↔ (is_bootable config ≡ false) }
    {
        let tables = match tables_at_boot(alloc, config) {
            Ok(tables) => tables,
            Err(fault) => return Err(fault),
        };
        match fields_on_heap(alloc, config, tables) {
            Ok(fields) => Ok(AwaitingKernel { fields, turn: None }),
            Err(_) => Err(BootFault::Memory),
        }
    }

    /// The first half of a step, as `Kernel::step_to` makes it: works until an application must take a turn, which is
    /// written into `turn` without its call, until another entry is made, which is written into `other`, or until there is
    /// rest.
    #[inline(always)]
    pub fn next(&mut self, turn: &mut Turn, other: &mut Entry) -> StepOutcome
        requires closed { self.old.turn ≡ None }
        ensures opens { result ≡ StepOutcome.Turn → self.new.turn ≡ Some turn.new.pid }
        ensures awaits { result ≡ StepOutcome.Turn → (choices : Choices) →
            AwaitsCall choices self.old.mote.machine turn.new.pid turn.new.origin turn.new.stimulus self.new.mote.machine }
        ensures application { result ≡ StepOutcome.Turn → IsApplication self.old.mote.machine.scheduler.applications turn.new.pid.0 }
        ensures room { result ≡ StepOutcome.Turn → self.new.mote.entries_left + 2 ≤ self.old.mote.entries_left }
        ensures closed { result ≢ StepOutcome.Turn → self.new.turn ≡ None }
        ensures goes { result ≢ StepOutcome.Turn → (choices : Choices) →
            GoesOn choices self.old.mote.machine (stepped result turn.new other.new) self.new.mote.machine }
        ensures untold { result ≢ StepOutcome.Turn → (p : ℕ) → heard p (made_by (stepped result turn.new other.new)) ≡ [] }
        ensures halted { self.new.mote.machine.is_halted
            ≡ (self.old.mote.machine.is_halted || list_any is_halt (made_by (stepped result turn.new other.new))) }
        ensures clock { self.new.mote.machine.clock ≡ self.old.mote.machine.clock }
        ensures applications { self.new.mote.machine.scheduler.applications ≡ self.old.mote.machine.scheduler.applications }
        ensures inputs { self.new.mote.inputs ≡ self.old.mote.inputs }
        ensures progress { TakesEntry (stepped result turn.new other.new) self.old.mote self.new.mote }
        ensures unmade { result ≢ StepOutcome.Other → other.new ≡ other.old }
    {
        let outcome = self.fields.next(turn, other);
        if let StepOutcome::Turn = outcome {
            self.turn = Some(turn.pid);
        }
        outcome
    }

    /// The second half: executes the call of the application whose turn it is.
    #[inline(always)]
    pub fn submit(&mut self, pid: Pid, call: &Call)
        requires open { self.old.turn ≡ Some pid }
        ensures machine { self.new.mote.machine ≡ after_call call.now pid.0 self.old.mote.machine }
        ensures closed { self.new.turn ≡ None }
        ensures running { self.new.mote.machine.is_halted ≡ false }
        ensures clock { self.new.mote.machine.clock ≡ self.old.mote.machine.clock }
        ensures applications { self.new.mote.machine.scheduler.applications ≡ self.old.mote.machine.scheduler.applications }
        ensures inputs { self.new.mote.inputs ≡ self.old.mote.inputs }
        ensures left { self.new.mote.entries_left ≤ self.old.mote.entries_left + 1 }
    {
        self.fields.execute_or_wait(pid, call);
        self.turn = None;
    }

    /// Feeds an input to a mote at rest. The work follows in `next`, which makes the input's entry first.
    ///
    /// A frame has at least one byte.
    pub fn feed(&mut self, input: Input)
        requires closed { self.old.turn ≡ None }
        requires rest { is_at_rest self.old.mote.machine ≡ true }
        requires clock { self.old.mote.machine.clock + ticks_of input ≤ 2 ^ 62 }
        requires bytes { has_bytes input ≡ true }
        requires few { self.old.mote.inputs < 2 ^ 40 }
        ensures machine { self.new.mote.machine ≡ fed input self.old.mote.machine }
        ensures inputs { self.new.mote.inputs ≡ self.old.mote.inputs + 1 }
        ensures closed { self.new.turn ≡ None }
    {
        self.feed_from(&input);
    }

    /// As `feed`, of an input that the caller keeps.
    pub fn feed_from(&mut self, input: &Input)
        requires closed { self.old.turn ≡ None }
        requires rest { is_at_rest self.old.mote.machine ≡ true }
        requires clock { self.old.mote.machine.clock + ticks_of input.now ≤ 2 ^ 62 }
        requires bytes { has_bytes input.now ≡ true }
        requires few { self.old.mote.inputs < 2 ^ 40 }
        ensures machine { self.new.mote.machine ≡ fed input.now self.old.mote.machine }
        ensures inputs { self.new.mote.inputs ≡ self.old.mote.inputs + 1 }
        ensures closed { self.new.turn ≡ None }
    {
        self.fields.feed(input);
    }

    /// As `feed`, of a tick.
    pub fn feed_ticks(&mut self, ticks: u32)
        requires closed { self.old.turn ≡ None }
        requires rest { is_at_rest self.old.mote.machine ≡ true }
        requires clock { self.old.mote.machine.clock + ticks ≤ 2 ^ 62 }
        requires few { self.old.mote.inputs < 2 ^ 40 }
        ensures machine { self.new.mote.machine ≡ fed (Handed.Tick ticks) self.old.mote.machine }
        ensures inputs { self.new.mote.inputs ≡ self.old.mote.inputs + 1 }
        ensures closed { self.new.turn ≡ None }
    {
        self.fields.feed_ticks(ticks);
    }

    /// As `feed`, of a frame that the caller keeps, which has at least one byte.
    pub fn feed_frame(&mut self, bytes: &ArrayVec<u8, 127>)
        requires closed { self.old.turn ≡ None }
        requires rest { is_at_rest self.old.mote.machine ≡ true }
        requires bytes { 1 ≤ length bytes.now.items }
        requires few { self.old.mote.inputs < 2 ^ 40 }
        ensures machine { self.new.mote.machine ≡ fed (Handed.Frame bytes.now) self.old.mote.machine }
        ensures inputs { self.new.mote.inputs ≡ self.old.mote.inputs + 1 }
        ensures closed { self.new.turn ≡ None }
    {
        self.fields.feed_frame(bytes);
    }

    /// Before it rests, a mote makes no more than this many entries. Nothing is done.
    #[inline(always)]
    pub fn entries_are_few(&self)
        ensures { self.now.mote.entries_left ≤ most_entries_left }
    {
        let _ = &self.turn;
    }

    /// The application whose call is awaited.
    #[inline]
    pub fn turn(&self) -> Option<Pid>
        ensures { result ≡ self.now.turn }
    {
        self.turn
    }

    /// The ticks since boot.
    pub fn clock(&self) -> u64
        ensures value { result ≡ self.now.mote.machine.clock }
        ensures most { result ≤ 2 ^ 62 }
    {
        self.fields.clock
    }

    /// When the next timer runs out, if any is armed.
    pub fn next_deadline(&self) -> Option<u64>
        ensures { result ≡ next_deadline self.now.mote.machine.timers }
    {
        self.fields.timers.next_deadline()
    }

    /// The number of inputs that were fed.
    pub fn inputs(&self) -> u64
        ensures { result ≡ self.now.mote.inputs }
    {
        self.fields.inputs
    }

    /// Whether the run was halted, since the work of one input reached its bound.
    pub fn halted(&self) -> bool
        ensures { result ≡ self.now.mote.machine.is_halted }
    {
        self.fields.halted
    }

    /// Whether no call is awaited and the mote rests.
    pub fn at_rest(&self) -> bool
        ensures { result ≡ (is_none self.now.turn && is_at_rest self.now.mote.machine) }
    {
        !self.fields.halted && self.fields.pending.is_empty() && self.fields.scheduler.at_rest()
    }
}
