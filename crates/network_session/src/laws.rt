//! Laws of what happened in a network. The functions do nothing; their contracts are the laws.

ghost use Rattle.std.specs.Prelude.{◌≡◌, ℕ, List, [], ◌∷◌, ◌++◌, None, Some, true, false, IsSomeAnd, is_some, slice_get};
ghost use Rattle.kernel_core.specs.declared.config.Config.{Config};
ghost use Rattle.kernel_core.specs.Machine.{booted};
ghost use Rattle.medium_core.specs.Air.{arrival, still_air};
ghost use Rattle.medium_core.specs.declared.link.Link.{Link};
ghost use Rattle.mote_session.specs.History.{at_boot};
ghost use Rattle.mote_session.specs.SessionRuns.{IsHistoryOf};
ghost use Rattle.mote_session.specs.SessionView.{SessionView};
ghost use Rattle.mote_types.specs.declared.call.Call.{Call};
ghost use Rattle.mote_types.specs.declared.entry.Input.{Input};
ghost use Rattle.network_session.specs.Happenings.{Happening};
ghost use Rattle.network_session.specs.Logs.{submitted, happened};
ghost use Rattle.network_session.specs.Network.{NetworkView};
ghost use Rattle.network_session.specs.Promise.{IsLogOf, NetworkPromise};
ghost use Rattle.network_session.specs.Schedule.{due_step, is_unheard};
ghost use Rattle.network_session.specs.Time.{KeepsTime};
ghost use Rattle.network_session.specs.Steps.{IsNetworkSubmitted, IsNetworkFed, Steps, is_work};
ghost use Rattle.network_session.specs.declared.outcome.Outcome.{Outcome};

use medium_core::laws::media_keep_faith;
use mote_session::laws::{histories_go_on, histories_keep_promise};

/// The log of a network goes on at each call.
pub fn logs_go_on()
    ensures boot { (configs : ℕ → Config) (room : ℕ) (links : List (List Link)) (net : NetworkView) →
        ((m : ℕ) (mote : SessionView) → slice_get net.motes m ≡ Some mote → IsHistoryOf (at_boot (configs m)) mote) →
        net.air ≡ still_air room links → IsLogOf configs room links [] net }
    ensures step { (configs : ℕ → Config) (room : ℕ) (links : List (List Link)) (log : List Happening) (outcome : Outcome) (old new : NetworkView) →
        IsLogOf configs room links log old → Steps outcome old new → IsLogOf configs room links (log ++ happened outcome old new) new }
    ensures submit { (configs : ℕ → Config) (room : ℕ) (links : List (List Link)) (log : List Happening) (call : Call) (old new : NetworkView) →
        IsLogOf configs room links log old → IsNetworkSubmitted call old new → IsLogOf configs room links (log ++ submitted old new) new }
    ensures feed { (configs : ℕ → Config) (room : ℕ) (links : List (List Link)) (log : List Happening) (m : ℕ) (input : Input) (old new : NetworkView) →
        IsLogOf configs room links log old → IsNetworkFed m input old new → IsLogOf configs room links (log ++ Happening.Fed m input ∷ []) new }
{
    histories_go_on();
}

/// The log of a network keeps its promise.
pub fn logs_keep_promise()
    ensures { (configs : ℕ → Config) (room : ℕ) (links : List (List Link)) (log : List Happening) (net : NetworkView) →
        IsLogOf configs room links log net → NetworkPromise configs room links log net }
{
    histories_keep_promise();
    media_keep_faith();
}

/// No mote's clock is ahead of the network's, and no mote learns of its next timer too late.
pub fn times_are_kept()
    ensures boot { (configs : ℕ → Config) (room : ℕ) (links : List (List Link)) (net : NetworkView) →
        ((m : ℕ) (mote : SessionView) → slice_get net.motes m ≡ Some mote → mote.machine ≡ booted (configs m)) →
        net.air ≡ still_air room links → KeepsTime net }
    ensures step { (outcome : Outcome) (old new : NetworkView) → KeepsTime old → Steps outcome old new →
        (old.active ≡ None → outcome ≡ due_step old) → is_work outcome ≡ is_some old.active → KeepsTime new }
    ensures submit { (call : Call) (old new : NetworkView) → KeepsTime old → IsNetworkSubmitted call old new → KeepsTime new }
    ensures feed { (m : ℕ) (input : Input) (old new : NetworkView) → KeepsTime old → IsNetworkFed m input old new → KeepsTime new }
{}

/// Each frame is heard in the moment of its arrival, unless its receiver was halted, there is no such mote, or the frame has no
/// bytes; and time doesn't go on before that.
pub fn frames_are_heard()
    ensures missed { (net : NetworkView) (from to : ℕ) → Outcome.Missed from to ≡ due_step net →
        IsSomeAnd (arrival net.air) (λ f. (f.from ≡ from) × (f.to ≡ to) × (is_unheard f (slice_get net.motes f.to) ≡ true)) }
    ensures heard { (net : NetworkView) (m : ℕ) → Outcome.Heard m ≡ due_step net →
        IsSomeAnd (arrival net.air) (λ f. (f.to ≡ m) × (is_unheard f (slice_get net.motes f.to) ≡ false)) }
    ensures clock { (net : NetworkView) → Outcome.Clock ≡ due_step net → arrival net.air ≡ None }
{}
