//! The fields of a kernel, and how they change.

ghost use Rattle.std.specs.Prelude.{◌≡◌, ◌<◌, ◌≤◌, ◌+◌, ℕ, true, false, Some, IfNone, IfSome};
ghost use Rattle.mote_types.specs.declared.call.Call.{Call as AnyCall};
ghost use Rattle.mote_types.specs.declared.event.Origin.{Origin as Source};
ghost use Rattle.mote_types.specs.declared.event.Pid.{Pid as Process};
ghost use Rattle.mote_types.specs.declared.event.Stimulus.{Stimulus as Received};
ghost use Rattle.kernel_core.specs.Code.Pending.{no_pending_entries};
ghost use Rattle.kernel_core.specs.Code.View.{ComesToJob, HasTakenJob, machine_of, entries_left_in, IsAtWork, IsInOrder};
ghost use Rattle.process_core.specs.declared.next_job.NextJob as ready;
ghost use Rattle.process_core.specs.Code.SchedulerView.{job_in};
ghost use Rattle.kernel_core.specs.Code.Draws.{IsFitJob};
ghost use Rattle.kernel_core.specs.Code.Cost.{IsPaid, costs, present};
ghost use Rattle.kernel_core.specs.Calls.{after_call};
ghost use Rattle.kernel_core.specs.Run.{Choices, StepMade, silent, within_limit, turn_taken, with_more_work};

use crate::pending_entries::PendingEntries;
use device_core::packet_queue::PacketQueue;
use device_core::serial_line::SerialLine;
use mote_types::entry::Entry;
use mote_types::event::{Pid, Stimulus};
use node_memory::NodeMemory;
use process_core::next_job::NextJob;
use process_core::scheduler::Scheduler;
use timer_core::timers::Timers;

/// The turns and rounds that one input may take.
pub const WORK_LIMIT: u32 = 10_000;

/// The fields of a kernel.
#[derive(Drop)]
pub struct KernelFields {
    pub clock: u64,
    pub work: u32,
    pub halted: bool,
    pub inputs: u64,
    pub applications: u8,
    /// These entries are made before any other work.
    pub pending: PendingEntries,
    pub scheduler: Scheduler,
    /// On the heap, as the memory's tables: who makes a kernel moves only its small parts over the stack.
    pub timers: Box<Timers>,
    pub memory: Box<NodeMemory>,
    pub serial: SerialLine,
    /// A line was broadcast, and the serial line's process waits for its CONTINUE.
    pub serial_waits: bool,
    pub packets: PacketQueue,
}

impl KernelFields {
    /// Whether a turn of the application begins. Otherwise the run is halted, and that entry is written into `other`.
    pub fn begin_turn(&mut self, other: &mut Entry) -> bool
        requires running { self.old.halted ≡ false }
        requires nothing_shown { self.old.pending ≡ no_pending_entries }
        requires work { self.old.work ≤ 10000 }
        ensures begins { result ≡ true → (pid : Process) (origin : Source) (stimulus : Received) (call : AnyCall) →
            within_limit (machine_of self.old) (turn_taken pid.0 origin stimulus call (machine_of self.old))
            ≡ (after_call call pid.0 (machine_of self.new), Some (Entry.Turn pid origin stimulus call)) }
        ensures halts { result ≡ false → (turn : StepMade) → within_limit (machine_of self.old) turn ≡ (machine_of self.new, Some other.new) }
        ensures more { result ≡ true → (self.new ≡ record self.old { work = self.old.work + 1 }) × (self.old.work < 10000)
            × (other.new ≡ other.old) }
        ensures halted { result ≡ false → (self.new ≡ record self.old { halted = true }) × (other.new ≡ Entry.Halt) }
    {
        if self.work == WORK_LIMIT {
            self.halted = true;
            *other = Entry::Halt;
            return false;
        }
        self.work += 1;
        true
    }

    /// Whether a round begins. Otherwise the run is halted, and that entry is written into `other`.
    pub fn begin_round(&mut self, other: &mut Entry) -> bool
        requires at_work { IsAtWork self.old }
        ensures begins { result ≡ true → within_limit (machine_of self.old) (silent (with_more_work (machine_of self.old)))
            ≡ silent (machine_of self.new) }
        ensures halts { result ≡ false → within_limit (machine_of self.old) (silent (with_more_work (machine_of self.old)))
            ≡ (machine_of self.new, Some other.new) }
        ensures order { IsInOrder self.new }
        ensures kept { self.new ≡ record self.old { work = self.new.work; halted = self.new.halted } }
        ensures more { result ≡ true → (self.new.halted ≡ false) × (self.new.work ≡ self.old.work + 1) × (other.new ≡ other.old) }
        ensures halted { result ≡ false → (self.new.halted ≡ true) × (other.new ≡ Entry.Halt)
            × (entries_left_in self.new < entries_left_in self.old) }
    {
        if self.work == WORK_LIMIT {
            self.halted = true;
            *other = Entry::Halt;
            return false;
        }
        self.work += 1;
        true
    }

    /// Takes the next job from the agenda. Writes what a process then receives into `apart`, unless the scheduler has it.
    pub fn next_job(&mut self, apart: &mut Stimulus) -> NextJob
        requires at_work { IsAtWork self.old }
        ensures reached { (choices : Choices)
            → ComesToJob self.old.timers.value.armings choices (machine_of self.old) (job_in result self.new.scheduler.kept apart.new) (machine_of self.new) }
        ensures paid { (bound : ℕ) → present self.old.scheduler.state ≤ bound →
            IsPaid bound (Some (job_in result self.new.scheduler.kept apart.new)) (costs bound self.old.scheduler.state.agenda) (costs bound self.new.scheduler.state.agenda)
            × (present self.new.scheduler.state ≤ present self.old.scheduler.state) }
        ensures served { (pid : Process) → result ≡ ready.NextJob.Serve pid → (bound : ℕ) → present self.old.scheduler.state ≤ bound →
            costs bound self.new.scheduler.state.agenda + 1 ≤ costs bound self.old.scheduler.state.agenda }
        ensures heard { (pid : Process) → result ≡ ready.NextJob.Hear pid → (bound : ℕ) → present self.old.scheduler.state ≤ bound →
            costs bound self.new.scheduler.state.agenda + 1 ≤ costs bound self.old.scheduler.state.agenda }
        ensures taken { HasTakenJob result self.old self.new }
        ensures fit { IsFitJob (job_in result self.new.scheduler.kept apart.new) self.old self.new }
    {
        self.scheduler.next_in_place(apart)
    }

    /// As `next_job`, where a process takes a turn with the reply that it gets. Otherwise nothing changes: then `None`.
    #[inline(always)]
    pub fn next_answer(&mut self) -> Option<Pid>
        requires at_work { IsAtWork self.old }
        ensures reached { IfSome result (λ pid. (choices : Choices) (other : Received) → ComesToJob self.old.timers.value.armings choices
            (machine_of self.old) (job_in (ready.NextJob.TakeTurn pid Source.Answer) self.new.scheduler.kept other) (machine_of self.new)) }
        ensures taken { IfSome result (λ pid. HasTakenJob (ready.NextJob.TakeTurn pid Source.Answer) self.old self.new) }
        ensures fit { IfSome result (λ pid. (other : Received) →
            IsFitJob (job_in (ready.NextJob.TakeTurn pid Source.Answer) self.new.scheduler.kept other) self.old self.new) }
        ensures none { IfNone result (self.new ≡ self.old) }
    {
        let pid = self.scheduler.take_answer()?;
        Some(pid)
    }
}
