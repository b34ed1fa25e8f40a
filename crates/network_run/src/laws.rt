//! Laws of a network that reports what happens. The functions do nothing; their contracts are the laws.

ghost use Rattle.std.specs.Prelude.{◌≡◌, ℕ, List, Option, None, Some, slice_get};
ghost use Rattle.kernel_core.specs.Machine.{booted};
ghost use Rattle.kernel_core.specs.declared.config.Config.{Config};
ghost use Rattle.medium_core.specs.declared.link.Link.{Link};
ghost use Rattle.mote_session.specs.SessionView.{SessionView};
ghost use Rattle.mote_session.specs.Voices.{Voices};
ghost use Rattle.mote_types.specs.declared.call.Call.{Call};
ghost use Rattle.mote_types.specs.declared.entry.Input.{Input};
ghost use Rattle.network_run.specs.NetworkRunText.{IsAtStart, IsTooMuch};
ghost use Rattle.network_run.specs.Stepper.{AwaitsOrIsFull, IsReadyStepper};
ghost use Rattle.network_session.specs.Network.{NetworkView};
ghost use Rattle.network_session.specs.Steps.{IsNetworkSubmitted};
ghost use Rattle.network_session.specs.declared.fault.NetworkFault.{NetworkFault};
ghost use Rattle.network_steps.specs.Code.Going.{StepsBy, StopsBy};
ghost use Rattle.network_steps.specs.Refusals.{fault_of, feed_refusal, link_refusal, tick_refusal};
ghost use Rattle.network_steps.specs.StepsView.{StepsView, opened_steps, steps_over};
ghost use Rattle.network_steps.specs.Works.{GoesNext, IsRefused, RefusesInput, TakesFeed, TakesLink, TakesTicks};
ghost use Rattle.network_steps.specs.declared.came.Came.{Came};
ghost use Rattle.network_steps.specs.declared.came.Phase.{Phase};
ghost use Rattle.network_steps.specs.declared.came.Sending.{Sending};
ghost use Rattle.network_steps.specs.declared.fault.StepsFault.{StepsFault};

/// A network whose motes have just booted is ready, and each call that isn't refused keeps it so.
pub fn steppers_stay_ready()
    ensures opened { (configs : ℕ → Config) (motes : List SessionView) (room links bound : ℕ) →
        ((m : ℕ) (mote : SessionView) → slice_get motes m ≡ Some mote → (mote.machine ≡ booted (configs m)) × (mote.turn ≡ None)) →
        IsReadyStepper (opened_steps motes room links bound) }
    ensures over { (net : NetworkView) → IsAtStart net → IsReadyStepper (steps_over net) }
    ensures link { (from : ℕ) (link : Link) (old new : StepsView) → IsReadyStepper old → TakesLink from link old new →
        link_refusal from link old ≡ None → IsReadyStepper new }
    ensures next { (came : Came) (old new : StepsView) → IsReadyStepper old → GoesNext came old new → IsReadyStepper new }
    ensures step { (came : Option Came) (old new : StepsView) (before after : Voices) → IsReadyStepper old → StepsBy came old new before after →
        IsReadyStepper new }
    ensures losses { (old : StepsView) (last : Came) (sending : Option Sending) → IsReadyStepper old →
        IsReadyStepper (record old { sending = sending })
        × IsReadyStepper (record old { last = last; sending = sending; phase = Phase.Working }) }
    ensures submit { (call : Call) (old new : StepsView) → IsReadyStepper old → IsNetworkSubmitted call old.net new.net →
        new ≡ record old { net = new.net } → IsReadyStepper new }
    ensures tick { (ticks : ℕ) (old new : StepsView) → IsReadyStepper old → TakesTicks ticks old new → tick_refusal ticks old ≡ None →
        IsReadyStepper new }
    ensures feed { (m : ℕ) (input : Input) (old new : StepsView) → IsReadyStepper old → TakesFeed m input old new →
        feed_refusal m input old ≡ None → IsReadyStepper new }
{}

/// A network that is ready refuses its next step only while a turn awaits its call, or where it is too much: an input for a mote that was
/// handed 2^40, or time beyond 2^62.
pub fn steppers_refuse_little()
    ensures next { (s : StepsView) (fault : StepsFault) (new : NetworkView) → IsReadyStepper s → IsRefused fault s.net s.waiting new →
        AwaitsOrIsFull fault }
    ensures step { (s : StepsView) (cause : NetworkFault) (new : NetworkView) (before after : Voices) → IsReadyStepper s →
        StopsBy cause s new before after → AwaitsOrIsFull (fault_of cause) }
    ensures input { (s : StepsView) (cause : NetworkFault) → IsReadyStepper s → RefusesInput s.waiting s.net cause → IsTooMuch cause }
{}
