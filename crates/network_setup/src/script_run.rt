//! The run of a whole script.

ghost use Rattle.std.specs.Prelude.{◌≡◌, ◌<◌, ◌+◌, ◌-◌, ◌^◌, ◌↔◌, [], length, Err, IsErrOf};
ghost use Rattle.mote_text.specs.Script.{script_lines};
ghost use Rattle.network_run.specs.NetworkRunText.{Gives};
ghost use Rattle.network_setup.specs.MoteApps.{voices_of};
ghost use Rattle.network_setup.specs.ScriptRuns.{EndsAtOnce, HasRunScript, is_there};
ghost use Rattle.network_setup.specs.SetUpRuns.{HasRunSetUp, start_of};
ghost use Rattle.network_setup.specs.SetupView.{SetupView};
ghost use Rattle.network_setup.specs.declared.fault.LineFault.{LineFault};
ghost use Rattle.network_setup.specs.declared.fault.SetUpRunFault.{SetUpRunFault};
ghost use Rattle.mote_text.specs.declared.script.End.{End};
ghost use Rattle.network_steps.specs.NetworkScript.{read_network_lines};

use crate::fault::{LineFault, SetUpRunFault};
use crate::run::{read_setup, run_setup};
use crate::setup::Setup;
use mote_text::output_buffer::OutputBuffer;
use mote_text::script::{End, SCRIPT_LIMIT};
use mote_text::write::write_all;
use mote_types::device::ByteSink;
use network_run::fault::NetworkRunFault;
use network_steps::lines::last_text;
use std::alloc::Global;

/// Writes the last line of a run that ends before anything has happened.
fn end_at_once<K: ByteSink>(sink: &mut K, end: End) -> Result<End, SetUpRunFault>
    requires countable { K.failure_count sink.old < 2 ^ 64 - 1 }
    ensures ended { K.is_named → Gives (K.given sink.old) (K.given sink.new) (λ written. EndsAtOnce end written result) }
    ensures write_fault { IsErrOf result (SetUpRunFault.Run NetworkRunFault.Write) ↔ (K.failure_count sink.old < K.failure_count sink.new) }
{
    let mut text = OutputBuffer::new();
    last_text(end, &mut text);
    match write_all(sink, text.as_slice()) {
        Ok(()) => Ok(end),
        Err(_) => Err(SetUpRunFault::Run(NetworkRunFault::Write)),
    }
}

/// Ends a run of which one of the first lines wasn't taken: this one, as it is malformed or memory was refused.
fn end_in_setup<K: ByteSink>(
    sink: &mut K,
    number: u32,
    fault: LineFault,
) -> Result<End, SetUpRunFault>
    requires countable { K.failure_count sink.old < 2 ^ 64 - 1 }
    ensures bad_line { K.is_named → fault ≡ LineFault.Malformed →
        Gives (K.given sink.old) (K.given sink.new) (λ written. EndsAtOnce (End.BadLine number) written result) }
    ensures no_memory { fault ≡ LineFault.Memory →
        (result ≡ Err SetUpRunFault.Memory) × (K.is_named → K.given sink.new ≡ K.given sink.old) }
    ensures write_fault { IsErrOf result (SetUpRunFault.Run NetworkRunFault.Write) ↔ (K.failure_count sink.old < K.failure_count sink.new) }
{
    match fault {
        LineFault::Malformed => end_at_once(sink, End::BadLine(number)),
        LineFault::Memory => Err(SetUpRunFault::Memory),
    }
}

/// Whether there is the mote that is asked for, if one is. The first one has number 1.
fn is_there(only: Option<u32>, motes: usize) -> bool
    ensures { result ≡ is_there only motes }
{
    match only {
        Some(number) => number >= 1 && number as usize <= motes,
        None => true,
    }
}

/// Runs the script of a network: its first lines set the network up, and the lines from the first input on are its inputs. Writes the
/// transcript; if `quiet` is true, only the lines of a quiet one. If `only` is a mote's number, the network must have this mote.
///
/// A script of more than 16,777,216 bytes isn't executed; nor is one with a malformed line before its first input.
///
/// # Errors
///
/// `Memory` and `NoMote`: nothing was written. `Run` where the run of the network failed: `Write` exactly where the sink did.
pub fn run_script<K: ByteSink>(
    alloc: Global,
    script: &[u8],
    sink: &mut K,
    quiet: bool,
    only: Option<u32>,
) -> Result<End, SetUpRunFault>
    requires countable { K.failure_count sink.old < 2 ^ 64 - 1 }
    ensures ran { K.is_named → Gives (K.given sink.old) (K.given sink.new) (λ written. HasRunScript quiet only script.now written result) }
    ensures write_fault { IsErrOf result (SetUpRunFault.Run NetworkRunFault.Write) ↔ (K.failure_count sink.old < K.failure_count sink.new) }
{
    if script.len() > SCRIPT_LIMIT as usize {
        return end_at_once(sink, End::TooLong);
    }
    let mut setup = Setup::new(alloc);
    let inputs = match read_setup(alloc, script, &mut setup) {
        Ok(inputs) => inputs,
        Err((number, fault)) => return end_in_setup(sink, number, fault),
    };
    if !is_there(only, setup.motes.len()) {
        return Err(SetUpRunFault::NoMote);
    }
    run_setup(alloc, setup, inputs, sink, quiet)
}
