//! Sets networks up, and runs them.

ghost use Rattle.std.specs.Prelude.{◌≡◌, ◌≤◌, ◌<◌, ◌+◌, ◌-◌, ◌^◌, ◌↔◌, false, length, IfErr, IfOk, IsErrOf, MatchBool};
ghost use Rattle.mote_text.specs.Script.{script_lines};
ghost use Rattle.network_run.specs.NetworkRunText.{Gives};
ghost use Rattle.network_run.specs.declared.fault.NetworkRunFault.{NetworkRunFault};
ghost use Rattle.network_setup.specs.FirstLines.{AreCarriedOut, DoesSaid, IsBadLine, SaysNothing, is_blank};
ghost use Rattle.network_setup.specs.MoteApps.{voices_of};
ghost use Rattle.network_setup.specs.SetUpRuns.{HasBooted, HasRunSetUp, start_of};
ghost use Rattle.network_setup.specs.declared.fault.LineFault.{LineFault};
ghost use Rattle.network_steps.specs.NetworkScript.{read_network_lines};

use crate::applications::Applications;
use crate::fault::{LineFault, SetUpRunFault};
use crate::script::{Inputs, Lines};
use crate::setup::Setup;
use mote_text::script::End;
use mote_types::device::ByteSink;
use network_run::run::run_network;
use network_session::fault::NetworkBootFault;
use network_session::network::Network;
use network_steps::input::read_network_input;
use std::alloc::Global;

/// Whether a line says nothing: it is empty, or a comment.
fn is_blank(text: &str) -> bool
    ensures { result ≡ is_blank text.now }
{
    let bytes = text.as_bytes();
    bytes.is_empty() || bytes[0] == b'#'
}

/// Takes one of the first lines.
fn take_setup_line(alloc: Global, text: &str, setup: &mut Setup) -> Result<(), LineFault>
    ensures done { IfOk result (λ _. MatchBool (is_blank text.now) (setup.new ≡ setup.old) (DoesSaid text.now setup.old setup.new)) }
    ensures malformed { IsErrOf result LineFault.Malformed → (is_blank text.now ≡ false) × SaysNothing text.now setup.old }
{
    if is_blank(text) {
        return Ok(());
    }
    setup.take_line(alloc, text)
}

/// Takes the first lines, up to the first input. What is left begins with that.
///
/// # Errors
///
/// `Malformed` with the number of the first malformed line, and `Memory` where memory is refused.
pub fn read_setup<'a>(
    alloc: Global,
    script: &'a [u8],
    setup: &mut Setup,
) -> Result<Inputs<'a>, (u32, LineFault)>
    requires { length script.now ≤ 2 ^ 24 }
    ensures within { IfOk result (λ inputs. inputs.first + length inputs.script.now ≤ 2 ^ 24 + 1) }
    ensures first { IfOk result (λ inputs. inputs.first + length (script_lines inputs.script.now) ≡ 1 + length (script_lines script.now)) }
    ensures set_up { IfOk result (λ inputs. AreCarriedOut (script_lines script.now) (script_lines inputs.script.now) setup.old setup.new) }
    ensures bad_line { IfErr result (λ fault. fault.1 ≡ LineFault.Malformed → IsBadLine fault.0 (script_lines script.now) setup.old) }
{
    let mut lines = Lines::new(script);
    while let Some(line) = lines.next_line() {
        let Some(text) = line.text else {
            return Err((line.number, LineFault::Malformed));
        };
        if read_network_input(text.as_bytes()).is_some() {
            return Ok(line.inputs);
        }
        if let Err(fault) = take_setup_line(alloc, text, setup) {
            return Err((line.number, fault));
        }
    }
    Ok(lines.left())
}

/// Boots the network that was set up, and runs it on the lines from the first input on. The network has just booted, so what happens in
/// its run keeps the promise of a network.
///
/// # Errors
///
/// `Memory` and `BadLink` where there is no network: nothing was written. `Run` where its run failed: `Write` exactly where the sink did.
pub fn run_setup<K: ByteSink>(
    alloc: Global,
    setup: Setup,
    inputs: Inputs<'_>,
    sink: &mut K,
    quiet: bool,
) -> Result<End, SetUpRunFault>
    requires numbers { inputs.first + length inputs.script.now < 2 ^ 32 }
    requires countable { K.failure_count sink.old < 2 ^ 64 - 1 }
    ensures ran { K.is_named → Gives (K.given sink.old) (K.given sink.new) (λ written. HasRunSetUp quiet (start_of setup)
        (voices_of setup.applications) (read_network_lines (length setup.motes) inputs.entry.first (script_lines inputs.entry.script.now)) written result) }
    ensures booted { HasBooted setup }
    ensures write_fault { IsErrOf result (SetUpRunFault.Run NetworkRunFault.Write) ↔ (K.failure_count sink.old < K.failure_count sink.new) }
{
    setup.has_booted();
    let Setup {
        motes,
        applications,
        links,
        room,
        rounds,
    } = setup;
    let mut applications = Applications {
        motes: applications,
    };
    let network = match Network::new(alloc, motes, links, room as usize, rounds as u64) {
        Ok(network) => network,
        Err(NetworkBootFault::Memory) => return Err(SetUpRunFault::Memory),
        // A line with a link that isn't sound is malformed.
        Err(NetworkBootFault::BadLink) => return Err(SetUpRunFault::BadLink),
    };
    match run_network(
        network,
        &mut applications,
        sink,
        inputs.script,
        inputs.first,
        quiet,
    ) {
        Ok(end) => Ok(end),
        Err(fault) => Err(SetUpRunFault::Run(fault)),
    }
}
