//! A mote at work until it rests, and the text of what it makes.

ghost use Rattle.std.specs.Prelude.{◌≡◌, ◌<◌, ◌≤◌, ◌+◌, ◌-◌, ◌^◌, ◌++◌, ◌∷◌, ℕ, List, [], true, false, None, Some, length, OnOk};
ghost use Rattle.mote_types.specs.Applications.{says_of};
ghost use Rattle.mote_types.specs.declared.event.Stimulus.{Stimulus as Received};
ghost use Rattle.mote_text.specs.Code.Appending.{HasRoom};
ghost use Rattle.mote_text.specs.Code.EntryLines.{entry_line_limit};
ghost use Rattle.mote_text.specs.Code.Writing.{CountsFailure};
ghost use Rattle.kernel_core.specs.Calls.{after_call};
ghost use Rattle.kernel_core.specs.Code.Conditions.{has_bytes, ticks_of};
ghost use Rattle.kernel_core.specs.Code.OpenTurns.{mote_in, told_turn};
ghost use Rattle.kernel_core.specs.Code.Steps.{entry_of};
ghost use Rattle.kernel_core.specs.Run.{heard, is_still};
ghost use Rattle.mote_run.specs.Code.Lines.{lines};
ghost use Rattle.mote_run.specs.Code.Way.{Goes, moment};

use crate::lines::{put_entry, put_input, put_turn};
use kernel_core::kernel::Kernel;
use kernel_core::running_kernel::RunningKernel;
use kernel_core::step::StepOutcome;
use kernel_core::turn::Turn;
use mote_text::output_buffer::{MOST_OF_LINE, OutputBuffer};
use mote_types::app::App;
use mote_types::ask::ask;
use mote_types::device::ByteSink;
use mote_types::entry::{Entry, Input};
use mote_types::fault::DeviceFault;

/// A mote at work, and the text that it made. Entries that are no turns are put into `other`, which is kept for the whole run
/// since it is large.
#[derive(Drop)]
pub struct RunningMote {
    pub kernel: RunningKernel,
    pub text: OutputBuffer,
    pub other: Entry,
}

impl RunningMote {
    /// Before anything was made.
    pub fn new(kernel: Kernel) -> Self
        ensures kernel { mote_in result.kernel ≡ kernel }
        ensures closed { result.kernel.turn ≡ None }
        ensures text { result.text.items ≡ [] }
    {
        RunningMote {
            kernel: RunningKernel::of(kernel),
            text: OutputBuffer::new(),
            other: Entry::Halt,
        }
    }

    /// An application takes its turn, whose line is then pending, if it is shown.
    #[inline(always)]
    fn take_turn(&mut self, apps: &mut [Box<dyn App>], turn: &mut Turn, quiet: bool)
        requires open { self.old.kernel.turn ≡ Some turn.old.pid }
        requires application { 4 ≤ turn.old.pid.0 }
        requires present { turn.old.pid.0 < 4 + length apps.old }
        requires room { HasRoom self.old.text entry_line_limit }
        ensures call { turn.new.call ≡ says_of says apps.old turn.old.pid.0 ((told_turn self.old.kernel.kept turn.old).stimulus ∷ []) }
        ensures turn { turn.new ≡ record turn.old { call = turn.new.call } }
        ensures law { (p : ℕ) (next : Received) (later : List Received) → says_of says apps.new p (next ∷ later)
            ≡ says_of says apps.old p (heard p (entry_of (told_turn self.old.kernel.kept turn.new) ∷ []) ++ (next ∷ later)) }
        ensures text { self.new.text.items ≡ self.old.text.items ++ lines quiet (entry_of (told_turn self.old.kernel.kept turn.new) ∷ []) }
        ensures machine { self.new.kernel.machine ≡ after_call turn.new.call turn.old.pid.0 self.old.kernel.machine }
        ensures closed { self.new.kernel.turn ≡ None }
        ensures running { self.new.kernel.machine.is_halted ≡ false }
        ensures clock { self.new.kernel.machine.clock ≡ self.old.kernel.machine.clock }
        ensures applications { self.new.kernel.machine.scheduler.applications ≡ self.old.kernel.machine.scheduler.applications }
        ensures inputs { self.new.kernel.inputs ≡ self.old.kernel.inputs }
        ensures left { self.new.kernel.entries_left ≤ self.old.kernel.entries_left + 1 }
    {
        let stimulus = self.kernel.stimulus(turn.origin, &turn.stimulus);
        ask(apps, turn.pid, stimulus, &mut turn.call);
        put_turn(
            &mut self.text,
            turn.pid,
            turn.origin,
            stimulus,
            &turn.call,
            quiet,
        );
        // Only now: the reply to the call is stored where the last one is, which may be the stimulus.
        self.kernel.execute(turn.pid, &turn.call);
    }

    /// Works until nothing more happens without an input. The line of each entry that is shown is then written or pending.
    #[inline(never)]
    pub fn settle<K: ByteSink>(
        &mut self,
        sink: &mut K,
        apps: &mut [Box<dyn App>],
        quiet: bool,
    ) -> Result<(), DeviceFault>
        requires boxes { length apps.old ≡ self.old.kernel.machine.scheduler.applications }
        requires closed { self.old.kernel.turn ≡ None }
        requires countable { K.failure_count sink.old < 2 ^ 64 - 1 }
        ensures goes { K.is_named → Goes result quiet [] (moment (K.given sink.old) self.old (says_of says apps.old))
            (moment (K.given sink.new) self.new (says_of says apps.new)) }
        ensures still { OnOk result (is_still self.new.kernel.machine ≡ true) }
        ensures closed { self.new.kernel.turn ≡ None }
        ensures applications { self.new.kernel.machine.scheduler.applications ≡ self.old.kernel.machine.scheduler.applications }
        ensures clock { self.new.kernel.machine.clock ≡ self.old.kernel.machine.clock }
        ensures inputs { self.new.kernel.inputs ≡ self.old.kernel.inputs }
        ensures failures { CountsFailure result (K.failure_count sink.old) (K.failure_count sink.new) }
    {
        let mut turn = Turn::none_yet();
        'entry: loop {
            self.text.make_room(sink, MOST_OF_LINE)?;
            match self.kernel.next_turn(&mut turn, &mut self.other) {
                StepOutcome::Turn => self.take_turn(apps, &mut turn, quiet),
                StepOutcome::Other => put_entry(&mut self.text, &self.other, quiet),
                StepOutcome::Rest => return Ok(()),
                StepOutcome::Halted => return Ok(()),
            }
        }
    }

    /// Feeds an input to the mote at rest, and works until nothing more happens without another. The line of each entry that is
    /// shown is then written or pending.
    ///
    /// A frame has at least one byte.
    // Part of the loop over lines: most are idle ticks, and the work of others is a function of its own, `settle`.
    #[inline(always)]
    pub fn feed<K: ByteSink>(
        &mut self,
        sink: &mut K,
        apps: &mut [Box<dyn App>],
        input: &Input,
        quiet: bool,
    ) -> Result<(), DeviceFault>
        requires boxes { length apps.old ≡ self.old.kernel.machine.scheduler.applications }
        requires closed { self.old.kernel.turn ≡ None }
        requires still { is_still self.old.kernel.machine ≡ true }
        requires running { self.old.kernel.machine.is_halted ≡ false }
        requires clock { self.old.kernel.machine.clock + ticks_of input.now ≤ 2 ^ 62 }
        requires bytes { has_bytes input.now ≡ true }
        requires few { self.old.kernel.inputs < 2 ^ 40 }
        requires countable { K.failure_count sink.old < 2 ^ 64 - 1 }
        ensures goes { K.is_named → Goes result quiet (input.now ∷ []) (moment (K.given sink.old) self.old (says_of says apps.old))
            (moment (K.given sink.new) self.new (says_of says apps.new)) }
        ensures still { OnOk result (is_still self.new.kernel.machine ≡ true) }
        ensures closed { self.new.kernel.turn ≡ None }
        ensures applications { self.new.kernel.machine.scheduler.applications ≡ self.old.kernel.machine.scheduler.applications }
        ensures clock { OnOk result (self.new.kernel.machine.clock ≡ self.old.kernel.machine.clock + ticks_of input.now) }
        ensures inputs { OnOk result (self.new.kernel.inputs ≡ self.old.kernel.inputs + 1) }
        ensures failures { CountsFailure result (K.failure_count sink.old) (K.failure_count sink.new) }
    {
        self.text.make_room(sink, MOST_OF_LINE)?;
        put_input(&mut self.text, input, quiet);
        // Most lines are ticks that leave no work: the mote rests again at once.
        if self.kernel.accept_idle_tick(input) {
            return Ok(());
        }
        self.kernel.accept(input);
        self.settle(sink, apps, quiet)
    }
}
