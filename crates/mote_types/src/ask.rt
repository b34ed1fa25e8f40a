//! One turn of one application among those of a mote.

ghost use Rattle.std.specs.Prelude.{◌≡◌, ◌≢◌, ◌<◌, ◌≤◌, ◌+◌, ◌-◌, ℕ, List, [], ◌∷◌, length, slice_get};
ghost use Rattle.mote_types.specs.Applications.{says_of};
ghost use Rattle.mote_types.specs.declared.event.Stimulus.{Stimulus};

use crate::app::App;
use crate::call::Call;
use crate::event::{FIRST_APPLICATION, Pid, Stimulus};

/// A turn of one box.
fn ask_box(app: &mut Box<dyn App>, stimulus: &Stimulus, call: &mut Call)
    ensures answer { call.new ≡ says app.old (stimulus.now ∷ []) }
    ensures law { (next : Stimulus) (later : List Stimulus) → says app.new (next ∷ later) ≡ says app.old (stimulus.now ∷ next ∷ later) }
{
    app.turn_into(stimulus, call);
}

/// Passes one stimulus to application `pid`, and writes its call into the caller's buffer. The applications are the processes
/// from 4 on, in the order of the boxes.
///
/// The call is what that application says; it changes by the law of applications, and the other boxes stay.
pub fn ask(apps: &mut [Box<dyn App>], pid: Pid, stimulus: &Stimulus, call: &mut Call)
    requires application { 4 ≤ pid.0 }
    requires present { pid.0 < 4 + length apps.old }
    ensures answer { call.new ≡ says_of says apps.old pid.0 (stimulus.now ∷ []) }
    ensures law { (next : Stimulus) (later : List Stimulus) →
        says_of says apps.new pid.0 (next ∷ later) ≡ says_of says apps.old pid.0 (stimulus.now ∷ next ∷ later) }
    ensures silent { (p : ℕ) (l : List Stimulus) → p ≢ pid.0 → says_of says apps.new p l ≡ says_of says apps.old p l }
    ensures others { (p : ℕ) → 4 ≤ p → p ≢ pid.0 → slice_get apps.new (p - 4) ≡ slice_get apps.old (p - 4) }
{
    ask_box(
        &mut apps[(pid.0 - FIRST_APPLICATION) as usize],
        stimulus,
        call,
    );
}
