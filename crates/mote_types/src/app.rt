//! What an application is.

ghost use Rattle.std.specs.Prelude.{◌≡◌, List, [], ◌∷◌};
ghost use Rattle.mote_types.specs.Applications.{Says};
ghost use Rattle.mote_types.specs.declared.event.Stimulus.{Stimulus};

use crate::call::Call;
use crate::event::Stimulus;

/// An application: a state machine with one call, as a Contiki-NG process thread without the protothread macros.
///
/// Source: Contiki-NG documentation, "Processes and events"; that the call is a function of the stimuli so far is this
/// project's profile.
pub trait App: Drop {
    /// The call that the application makes on the last of the stimuli that it receives from now on.
    ghost says: { Self → Says };

    /// Passes one stimulus to the application, and returns the call that it makes.
    ///
    /// The call is what it says to that stimulus. To any further stimuli it then says what it would have said to this
    /// one followed by those.
    fn turn(&mut self, stimulus: &Stimulus) -> Call
        ensures answer { result ≡ says self.old (stimulus.now ∷ []) }
        ensures law { (next : Stimulus) (later : List Stimulus)
            → says self.new (next ∷ later) ≡ says self.old (stimulus.now ∷ next ∷ later) };

    /// Passes one stimulus to the application, as `turn` does, and writes its call into the caller's buffer. A mote uses this
    /// one: an application with large calls can write them in place, without a copy.
    #[inline(never)]
    fn turn_into(&mut self, stimulus: &Stimulus, call: &mut Call)
        ensures answer { call.new ≡ says self.old (stimulus.now ∷ []) }
        ensures law { (next : Stimulus) (later : List Stimulus)
            → says self.new (next ∷ later) ≡ says self.old (stimulus.now ∷ next ∷ later) }
    {
        *call = self.turn(stimulus);
    }
}
