//! The run of a network.

ghost use Rattle.std.specs.Prelude.{◌≡◌, ◌<◌, ◌+◌, ◌-◌, ◌^◌, ◌↔◌, [], ℕ, Bool, List, None, false, length, if◌then◌else◌, IfOk, IsErrOf};
ghost use Rattle.network_run.specs.Code.Ready.{IsUnderWay};
ghost use Rattle.network_run.specs.Code.Way.{CountsFaults, Ends, HasCome, IsAtRest, LineRuns, Moment, Reading, RunFaulted, RunsIf, is_write, moment};
ghost use Rattle.network_run.specs.NetworkRunText.{Gives, HasRun};
ghost use Rattle.mote_text.specs.Script.{script_lines};
ghost use Rattle.mote_session.specs.Voices.{Voices};
ghost use Rattle.network_session.specs.Network.{NetworkView};
ghost use Rattle.network_steps.specs.NetworkScript.{read_network_line, read_network_lines, with_network_line};

use crate::fault::NetworkRunFault;
use crate::input::{run_to_rest, take_input};
use crate::reports::put_end;
use crate::script::{Line, read_line};
pub use mote_session::caller::Caller;
use mote_text::output_buffer::OutputBuffer;
use mote_text::script::End;
use mote_text::script_lines::first_line;
use mote_types::device::ByteSink;
use network_session::network::Network;
use network_steps::laws::texts_go_on;
use network_steps::steps::NetworkSteps;

/// Carries out a line, which has this number. Returns how the run ends, if it ends here.
fn take_line<K: ByteSink, H: Caller>(
    sink: &mut K,
    text: &mut OutputBuffer,
    caller: &mut H,
    steps: &mut NetworkSteps,
    line: &[u8],
    number: u32,
    quiet: bool,
) -> Result<Option<End>, NetworkRunFault>
    requires rests { IsAtRest steps.old }
    requires countable { K.failure_count sink.old < 2 ^ 64 - 1 }
    ensures runs { K.is_named → (script later : Reading) (from : Moment) →
        HasCome quiet script (with_network_line number (read_network_line (length from.net.motes) line.now) later) from
        (moment (K.given sink.old) text.old.items steps.old.net (H.voices caller.old)) →
        LineRuns result quiet script later from
        (moment (K.given sink.new) text.new.items steps.new.net (H.voices caller.new)) }
    ensures rests { IfOk result (λ ending. ending ≡ None → IsAtRest steps.new) }
    ensures failures { CountsFaults result (K.failure_count sink.old) (K.failure_count sink.new) }
{
    match read_line(steps.network(), line) {
        Line::Malformed => Ok(Some(End::BadLine(number))),
        Line::Nothing => Ok(None),
        Line::Input(input) => {
            if take_input(sink, text, caller, steps, input, quiet)? {
                Ok(None)
            } else {
                Ok(Some(End::Halted))
            }
        }
    }
}

/// Carries out the lines of a script, the first of which has the number `first`. Returns how the run ends.
fn take_lines<K: ByteSink, H: Caller>(
    sink: &mut K,
    text: &mut OutputBuffer,
    caller: &mut H,
    steps: &mut NetworkSteps,
    script: &[u8],
    first: u32,
    quiet: bool,
) -> Result<End, NetworkRunFault>
    requires rests { IsAtRest steps.old }
    requires numbers { first + length script.now < 2 ^ 32 }
    requires countable { K.failure_count sink.old < 2 ^ 64 - 1 }
    ensures runs { K.is_named → RunsIf result quiet (read_network_lines (length steps.old.net.motes) first (script_lines script.now))
        (moment (K.given sink.old) text.old.items steps.old.net (H.voices caller.old))
        (moment (K.given sink.new) text.new.items steps.new.net (H.voices caller.new)) }
    ensures failures { CountsFaults result (K.failure_count sink.old) (K.failure_count sink.new) }
{
    let mut rest = script;
    let mut number = first;
    while let Some((line, after)) = first_line(rest) {
        let ending = take_line(sink, text, caller, steps, line, number, quiet)?;
        if let Some(end) = ending {
            return Ok(end);
        }
        rest = after;
        number += 1;
    }
    Ok(End::Finished)
}

/// Starts the motes, and executes the lines of a script. Returns how the run ends.
fn carry_out<K: ByteSink, H: Caller>(
    sink: &mut K,
    text: &mut OutputBuffer,
    caller: &mut H,
    steps: &mut NetworkSteps,
    script: &[u8],
    first: u32,
    quiet: bool,
) -> Result<End, NetworkRunFault>
    requires under_way { IsUnderWay steps.old }
    requires none { steps.old.waiting ≡ None }
    requires numbers { first + length script.now < 2 ^ 32 }
    requires countable { K.failure_count sink.old < 2 ^ 64 - 1 }
    ensures runs { K.is_named → RunsIf result quiet (read_network_lines (length steps.old.net.motes) first (script_lines script.now))
        (moment (K.given sink.old) text.old.items steps.old.net (H.voices caller.old))
        (moment (K.given sink.new) text.new.items steps.new.net (H.voices caller.new)) }
    ensures failures { CountsFaults result (K.failure_count sink.old) (K.failure_count sink.new) }
{
    if run_to_rest(sink, text, caller, steps, quiet)? {
        take_lines(sink, text, caller, steps, script, first, quiet)
    } else {
        Ok(End::Halted)
    }
}

/// Writes all pending output, and the last line of a run with this end.
fn close<K: ByteSink>(
    sink: &mut K,
    text: &mut OutputBuffer,
    end: End,
) -> Result<End, NetworkRunFault>
    requires countable { K.failure_count sink.old < 2 ^ 64 - 1 }
    ensures ran { K.is_named →
        (quiet : Bool) (script : Reading) (start net : NetworkView) (voices later : Voices) (given : List ℕ) →
        Ends quiet script end (moment given [] start voices) (moment (K.given sink.old) text.old.items net later) →
        Gives given (K.given sink.new) (λ written. HasRun quiet start voices script written result) }
    ensures failures { CountsFaults result (K.failure_count sink.old) (K.failure_count sink.new) }
{
    texts_go_on();
    put_end(sink, text, end)?;
    text.flush(sink)?;
    Ok(end)
}

/// Whether writing failed.
fn is_write(fault: NetworkRunFault) -> bool
    ensures { result ≡ is_write fault }
{
    match fault {
        NetworkRunFault::Write => true,
        NetworkRunFault::Refused(_) => false,
    }
}

/// Writes all pending output after a fault, unless writing failed.
fn fail<K: ByteSink>(
    sink: &mut K,
    text: &mut OutputBuffer,
    fault: NetworkRunFault,
) -> Result<End, NetworkRunFault>
    requires countable { is_write fault ≡ false → K.failure_count sink.old < 2 ^ 64 - 1 }
    ensures ran { K.is_named →
        (quiet : Bool) (script : Reading) (start net : NetworkView) (voices later : Voices) (given : List ℕ) →
        RunFaulted quiet script.0 fault (moment given [] start voices) (moment (K.given sink.old) text.old.items net later) →
        Gives given (K.given sink.new) (λ written. HasRun quiet start voices script written result) }
    ensures failures { (before : ℕ) → K.failure_count sink.old ≡ (if is_write fault then before + 1 else before) →
        CountsFaults result before (K.failure_count sink.new) }
{
    texts_go_on();
    if is_write(fault) {
        return Err(fault);
    }
    text.flush(sink)?;
    Err(fault)
}

/// Runs a network on the lines of a script, the first of which has the number `first`, and writes the text of all that happens; if
/// `quiet` is true, only the lines of a quiet transcript. First the motes are started. Then each line's input is executed, at rest,
/// until the network rests again, or the input has used up its rounds: that ends the run. A malformed line ends it, too.
///
/// What is written is the text of the moves that the network made, with the calls of the caller's applications, and the last line. A mote
/// gets the time only where a timer is due, a frame arrives, or right before an input of its own. A network that has just booted keeps its
/// promise.
///
/// # Errors
///
/// `Write` exactly where the sink failed: a prefix of the text was written. `Refused` where the network refuses its next step or, at rest,
/// what comes next: all text of the moves before was written. A network whose motes have just booted refuses only what is too much: an
/// input for a mote that was handed 2^40, or time beyond 2^62.
pub fn run_network<K: ByteSink, H: Caller>(
    network: Network,
    caller: &mut H,
    sink: &mut K,
    script: &[u8],
    first: u32,
    quiet: bool,
) -> Result<End, NetworkRunFault>
    requires numbers { first + length script.now < 2 ^ 32 }
    requires countable { K.failure_count sink.old < 2 ^ 64 - 1 }
    ensures ran { K.is_named → Gives (K.given sink.old) (K.given sink.new) (λ written.
        HasRun quiet network (H.voices caller.old)
        (read_network_lines (length network.motes) first (script_lines script.now)) written result) }
    ensures write_fault { IsErrOf result NetworkRunFault.Write ↔ (K.failure_count sink.old < K.failure_count sink.new) }
{
    let mut steps = NetworkSteps::over(network);
    let mut text = OutputBuffer::new();
    match carry_out(sink, &mut text, caller, &mut steps, script, first, quiet) {
        Ok(end) => close(sink, &mut text, end),
        Err(fault) => fail(sink, &mut text, fault),
    }
}
