//! Laws of what a session was fed and made. The functions do nothing; their contracts are the laws.

ghost use Rattle.std.specs.Prelude.{◌≡◌, None, true};
ghost use Rattle.mote_types.specs.declared.call.Call.{Call};
ghost use Rattle.mote_types.specs.declared.entry.Input.{Input};
ghost use Rattle.mote_session.specs.History.{History, with_call, with_input};
ghost use Rattle.mote_session.specs.SessionRuns.{IsHistoryOf, SessionPromise};
ghost use Rattle.mote_session.specs.SessionView.{SessionView, rests};
ghost use Rattle.mote_session.specs.Steps.{Advances, HasSameInputs, IsSubmitted, IsFed, with_made};
ghost use Rattle.mote_session.specs.declared.session.Next.{Next};

use kernel_core::all_runs::runs_keep_laws;

/// A proof that has the history of a session can extend it at each call.
pub fn histories_go_on()
    ensures next { (history : History) (step : Next) (old new : SessionView) → IsHistoryOf history old → old.turn ≡ None →
        Advances step old new → HasSameInputs old new → IsHistoryOf (with_made step new.last history) new }
    ensures submit { (history : History) (call : Call) (old new : SessionView) → IsHistoryOf history old →
        IsSubmitted call old new → HasSameInputs old new → IsHistoryOf (with_call old.turn call history) new }
    ensures input { (history : History) (input : Input) (old new : SessionView) → IsHistoryOf history old → rests old ≡ true →
        IsFed input old new → IsHistoryOf (with_input input history) new }
{}

/// The history of a session is that of a run of the machine.
pub fn histories_keep_promise()
    ensures { (history : History) (session : SessionView) → IsHistoryOf history session → SessionPromise history session }
{
    runs_keep_laws();
}
