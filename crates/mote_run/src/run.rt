//! The run: what a mote makes of a script.

ghost use Rattle.std.specs.Prelude.{◌≡◌, ◌<◌, ◌≤◌, ◌+◌, ◌-◌, ◌^◌, ◌↔◌, ℕ, false, true, length, IsErrOf};
ghost use Rattle.mote_types.specs.Applications.{says_of};
ghost use Rattle.kernel_core.specs.declared.config.Config.{Config};
ghost use Rattle.kernel_core.specs.Machine.{booted};
ghost use Rattle.mote_run.specs.RunText.{Exchanged, HasRead, WasBooted};
ghost use Rattle.mote_run.specs.Trace.{RunPromise};

use crate::lines::close;
use crate::running_mote::RunningMote;
use crate::take_script::take_script;
use kernel_core::all_runs::runs_keep_laws;
use kernel_core::kernel::Kernel;
use mote_text::script::End;
use mote_types::app::App;
use mote_types::device::{ByteSink, ByteSource};
pub use mote_types::fault::RunFault;

/// Runs the applications over a script: reads it in pieces of at most 4,096 bytes, feeds each line's input to the mote, and
/// writes the text of the run; if `quiet` is true, only the lines of a quiet transcript. All pending output is written
/// before it reads again. Nothing is read after the end, nor after the piece that ends a malformed line or a line at which
/// the mote halts (`no_further`).
///
/// What is written is the text of the run that the machine makes with the same inputs and applications, and the result
/// is how that run ends. Of what that run shows an author of an application can rely on this: a process's managed and heap
/// blocks are what its own calls made of them (`memory`); the events that are accepted for it arrive in order, and none is
/// lost (`events`); no timer event comes early or twice, and none is lost (`timers`); with quotas managed memory replies to a
/// process as one of its own would, whatever the others do (`isolation`), so in any two runs with one quota its same calls have
/// the same replies (`alike`).
///
/// # Errors
///
/// `Read` exactly where the source failed, `Write` exactly where the sink did. The kernel isn't used again then.
pub fn run<S: ByteSource, K: ByteSink>(
    source: &mut S,
    sink: &mut K,
    kernel: Kernel,
    apps: &mut [Box<dyn App>],
    quiet: bool,
) -> Result<End, RunFault>
    requires booted { WasBooted kernel (length apps.old) }
    requires unended { S.is_ended source.old ≡ false }
    requires countable_reads { S.failure_count source.old < 2 ^ 64 - 1 }
    requires countable_writes { K.failure_count sink.old < 2 ^ 64 - 1 }
    ensures promise { S.is_named → K.is_named → (config : Config) → kernel.machine ≡ booted config →
        Exchanged (S.taken source.old) (S.taken source.new) (S.is_ended source.new) (K.given sink.old) (K.given sink.new)
        (RunPromise config (says_of says apps.old) quiet result) }
    ensures few { S.is_named → (count : ℕ) × (count ≤ 16_777_216 + 1) × HasRead count (S.taken source.old) (S.taken source.new) }
    ensures read_fault { IsErrOf result RunFault.Read ↔ (S.failure_count source.old < S.failure_count source.new) }
    ensures write_fault { IsErrOf result RunFault.Write ↔ (K.failure_count sink.old < K.failure_count sink.new) }
{
    runs_keep_laws();
    let mut mote = RunningMote::new(kernel);
    let end = take_script(source, sink, &mut mote, apps, quiet)?;
    close(sink, &mut mote.text, end)?;
    Ok(end)
}
