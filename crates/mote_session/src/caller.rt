//! Who makes the calls of applications.

ghost use Rattle.mote_session.specs.Voices.{IsCall, Voices};

use crate::session::OpenTurn;
use mote_types::call::Call;

/// The applications of a mote, or of many.
pub trait Caller {
    /// What each mote's applications say from now on. A mote has the number by which the caller knows it.
    ghost voices: { Self → Voices };

    /// Puts the call of the application whose turn it is into `call`, where the last call may still be. `mote` is the number by which
    /// the caller knows the mote. Where it has no such application, that one waits.
    fn call_into(&mut self, mote: usize, turn: OpenTurn<'_>, call: &mut Call)
        ensures call { IsCall mote turn.entry.process.0 turn.entry.stimulus.now call.new (voices self.old) (voices self.new) };
}
