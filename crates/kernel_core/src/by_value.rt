//! An input and an entry by value. The program passes buffers for both (`accept`, `step_to`), which saves copies.

ghost use Rattle.std.specs.Prelude.{◌≡◌, ◌<◌, ◌≤◌, ◌+◌, ◌-◌, ◌^◌, ◌∷◌, ◌++◌, ◌||◌, ℕ, [], true, List, length, slice_get};
ghost use Rattle.std.specs.List.{list_any};
ghost use Rattle.mote_types.specs.Applications.{says_of};
ghost use Rattle.mote_types.specs.Entries.{is_halt};
ghost use Rattle.mote_types.specs.declared.event.Stimulus.{Stimulus as Received};
ghost use Rattle.kernel_core.specs.Inputs.{fed};
ghost use Rattle.kernel_core.specs.Code.Conditions.{TakesEntry, has_bytes, ticks_of};
ghost use Rattle.kernel_core.specs.Run.{heard, is_at_rest};
ghost use Rattle.kernel_core.specs.Code.Steps.{GoesOn, entry_of, made};

use crate::kernel::Kernel;
use crate::step::{Step, StepOutcome};
use crate::turn::Turn;
use mote_types::app::App;
use mote_types::entry::{Entry, Input};

/// The entry of a turn.
fn entry_of_turn(turn: Turn) -> Entry
    ensures { result ≡ entry_of turn }
{
    let Turn {
        pid,
        origin,
        stimulus,
        call,
    } = turn;
    Entry::Turn {
        pid,
        origin,
        stimulus,
        call,
    }
}

impl Kernel {
    /// Feeds an input to a mote at rest: the work of the last one no longer counts, and the next entries are the input's own
    /// and, where its frame is lost, a note. `step` returns them, and then what follows.
    ///
    /// A frame has at least one byte. The clock may reach 2^62, and a mote takes at most 2^40 inputs.
    pub fn feed(&mut self, input: Input)
        requires rest { is_at_rest self.old.machine ≡ true }
        requires clock { self.old.machine.clock + ticks_of input ≤ 2 ^ 62 }
        requires bytes { has_bytes input ≡ true }
        requires few { self.old.inputs < 2 ^ 40 }
        ensures machine { self.new.machine ≡ fed input self.old.machine }
        ensures inputs { self.new.inputs ≡ self.old.inputs + 1 }
    {
        self.fields.feed(&input);
    }

    /// Works until an entry is made or nothing is left to do. At most one application takes a turn; there is a box for each.
    ///
    /// `Rest` exactly where the mote is at rest, `Halted` exactly where `Halt` was an earlier entry.
    pub fn step(&mut self, apps: &mut [Box<dyn App>]) -> Step
        requires boxes { length apps.old ≡ self.old.machine.scheduler.applications }
        ensures machine { GoesOn (λ p stimulus. says_of says apps.old p (stimulus ∷ [])) self.old.machine result self.new.machine }
        ensures law { (p : ℕ) (next : Received) (later : List Received) →
            says_of says apps.new p (next ∷ later) ≡ says_of says apps.old p (heard p (made result) ++ (next ∷ later)) }
        ensures others { (p : ℕ) → 4 ≤ p → heard p (made result) ≡ [] → slice_get apps.new (p - 4) ≡ slice_get apps.old (p - 4) }
        ensures halted { self.new.machine.is_halted ≡ (self.old.machine.is_halted || list_any is_halt (made result)) }
        ensures clock { self.new.machine.clock ≡ self.old.machine.clock }
        ensures applications { self.new.machine.scheduler.applications ≡ self.old.machine.scheduler.applications }
        ensures inputs { self.new.inputs ≡ self.old.inputs }
        ensures progress { TakesEntry result self.old self.new }
    {
        let mut turn = Turn::none_yet();
        let mut other = Entry::Halt;
        match self.step_to(apps, &mut turn, &mut other) {
            StepOutcome::Turn => Step::Entry(entry_of_turn(turn)),
            StepOutcome::Other => Step::Entry(other),
            StepOutcome::Rest => Step::Rest,
            StepOutcome::Halted => Step::Halted,
        }
    }
}
