//! Execution of a network's inputs.

ghost use Rattle.std.specs.Prelude.{◌≡◌, ◌<◌, ◌+◌, ◌-◌, ◌^◌, ℕ, Bool, List, true, false, length, IfErr, IfOk};
ghost use Rattle.mote_session.specs.Voices.{Voices};
ghost use Rattle.network_run.specs.Code.Ready.{ComesFromOutside, IsFromOutside, IsUnderWay};
ghost use Rattle.network_run.specs.Code.Way.{CountsFaults, IsAtRest, RestsIf, SubmitsIf, TakesIf, TakesInputIf, is_write, moment, outside_waiting};
ghost use Rattle.network_session.specs.Network.{NetworkView};
ghost use Rattle.network_session.specs.Refusals.{pass_refusal};
ghost use Rattle.network_steps.specs.NetworkScript.{is_for_some};
ghost use Rattle.network_steps.specs.Refusals.{fault_of};
ghost use Rattle.network_steps.specs.declared.input.NetworkInput.{NetworkInput};
ghost use Rattle.mote_session.specs.declared.refusal.SessionRefusal.{SessionRefusal};

use crate::fault::NetworkRunFault;
use crate::reports::{put_entry, put_other};
use mote_session::caller::Caller;
use mote_text::output_buffer::OutputBuffer;
use mote_types::device::ByteSink;
use mote_types::entry::Input;
use network_session::fault::NetworkFault;
use network_steps::fault::StepsFault;
use network_steps::input::NetworkInput;
use network_steps::steps::NetworkSteps;

/// Works until nothing is left to do, or the input has used up its rounds. Returns whether nothing is left to do.
// A function of its own, into which all that makes and writes an entry is inlined: its registers are saved once for all entries.
#[inline(never)]
pub(crate) fn run_to_rest<K: ByteSink, H: Caller>(
    sink: &mut K,
    text: &mut OutputBuffer,
    caller: &mut H,
    steps: &mut NetworkSteps,
    quiet: bool,
) -> Result<bool, NetworkRunFault>
    requires under_way { IsUnderWay steps.old }
    requires countable { K.failure_count sink.old < 2 ^ 64 - 1 }
    ensures takes { K.is_named → TakesIf result quiet (outside_waiting steps.old.waiting)
        (moment (K.given sink.old) text.old.items steps.old.net (H.voices caller.old))
        (moment (K.given sink.new) text.new.items steps.new.net (H.voices caller.new)) }
    ensures rests { IfOk result (λ rests. RestsIf rests steps.new) }
    ensures failures { CountsFaults result (K.failure_count sink.old) (K.failure_count sink.new) }
{
    loop {
        if let Some(mote) = steps.network().active() {
            if steps.work_by(mote, caller)? {
                put_entry(sink, text, steps, mote, quiet)?;
            }
        } else if steps.step_on()? {
            let came = steps.came();
            if let Some(rests) = put_other(sink, text, steps.network(), came, quiet)? {
                return Ok(rests);
            }
        }
    }
}

/// What the network refused: a mote's refusal of the time.
fn cause_of(fault: StepsFault) -> NetworkFault
    ensures { (refusal : SessionRefusal) → fault ≡ StepsFault.Refused refusal → result ≡ NetworkFault.Refused refusal }
{
    match fault {
        StepsFault::Refused(refusal) => NetworkFault::Refused(refusal),
        _ => NetworkFault::NoMote,
    }
}

/// Lets the clock go on.
fn tick(steps: &mut NetworkSteps, ticks: u32) -> Result<(), NetworkRunFault>
    requires rests { IsAtRest steps.old }
    ensures takes { (quiet : Bool) (given due : List ℕ) (voices : Voices) → SubmitsIf result quiet (NetworkInput.Tick ticks) steps.new.waiting
        (moment given due steps.old.net voices) (moment given due steps.new.net voices) }
    ensures ready { IfOk result (λ _. IsUnderWay steps.new) }
    ensures fault { IfErr result (λ fault. is_write fault ≡ false) }
{
    match steps.tick(ticks) {
        Ok(()) => Ok(()),
        // At rest nothing else is refused.
        Err(_) => Err(NetworkRunFault::Refused(NetworkFault::TooLong)),
    }
}

/// Submits an input of a mote, which gets the time first.
fn feed(steps: &mut NetworkSteps, mote: usize, input: Input) -> Result<(), NetworkRunFault>
    requires rests { IsAtRest steps.old }
    requires there { mote < length steps.old.net.motes }
    requires outside { IsFromOutside input }
    ensures takes { (quiet : Bool) (given due : List ℕ) (voices : Voices) → SubmitsIf result quiet (NetworkInput.ForMote (mote + 1) input) steps.new.waiting
        (moment given due steps.old.net voices) (moment given due steps.new.net voices) }
    ensures ready { IfOk result (λ _. IsUnderWay steps.new) }
    ensures fault { IfErr result (λ fault. is_write fault ≡ false) }
{
    match steps.feed(mote, input) {
        Ok(()) => Ok(()),
        Err(fault) => Err(NetworkRunFault::Refused(cause_of(fault))),
    }
}

/// Submits an input, if there is the mote that it is for.
fn submit(steps: &mut NetworkSteps, input: NetworkInput) -> Result<(), NetworkRunFault>
    requires rests { IsAtRest steps.old }
    requires for_some { is_for_some (length steps.old.net.motes) input ≡ true }
    requires outside { ComesFromOutside input }
    ensures takes { (quiet : Bool) (given due : List ℕ) (voices : Voices) → SubmitsIf result quiet input steps.new.waiting
        (moment given due steps.old.net voices) (moment given due steps.new.net voices) }
    ensures ready { IfOk result (λ _. IsUnderWay steps.new) }
    ensures fault { IfErr result (λ fault. is_write fault ≡ false) }
{
    match input {
        NetworkInput::Tick(ticks) => tick(steps, ticks),
        NetworkInput::ForMote(number, input) => {
            let mote = number as usize - 1;
            feed(steps, mote, input)
        }
    }
}

/// Carries out an input, if there is the mote that it is for. Returns whether the network rests after that.
pub(crate) fn take_input<K: ByteSink, H: Caller>(
    sink: &mut K,
    text: &mut OutputBuffer,
    caller: &mut H,
    steps: &mut NetworkSteps,
    input: NetworkInput,
    quiet: bool,
) -> Result<bool, NetworkRunFault>
    requires rests { IsAtRest steps.old }
    requires for_some { is_for_some (length steps.old.net.motes) input ≡ true }
    requires outside { ComesFromOutside input }
    requires countable { K.failure_count sink.old < 2 ^ 64 - 1 }
    ensures takes { K.is_named → TakesInputIf result quiet input
        (moment (K.given sink.old) text.old.items steps.old.net (H.voices caller.old))
        (moment (K.given sink.new) text.new.items steps.new.net (H.voices caller.new)) }
    ensures rests { IfOk result (λ rests. RestsIf rests steps.new) }
    ensures failures { CountsFaults result (K.failure_count sink.old) (K.failure_count sink.new) }
{
    submit(steps, input)?;
    run_to_rest(sink, text, caller, steps, quiet)
}
