//! A mote is booted, and its applications go through a script.

ghost use Rattle.std.specs.Prelude.{◌≡◌, ◌<◌, ◌-◌, ◌^◌, ◌↔◌, false, length, IsErrOf};
ghost use Rattle.mote_types.specs.Applications.{says_of};
ghost use Rattle.mote_types.specs.declared.fault.RunFault.{RunFault};
ghost use Rattle.kernel_core.specs.Machine.{is_bootable};
ghost use Rattle.mote_run.specs.RunText.{Exchanged, HasRunTo};
ghost use Rattle.mote_run.specs.Code.Runs.{OfRun, config_of};
ghost use Rattle.mote_run.specs.Trace.{RunPromise};

use crate::run::run;
use kernel_core::config::Config;
use kernel_core::kernel::Kernel;
use mote_text::script::End;
use mote_types::app::App;
use mote_types::device::{ByteSink, ByteSource};
use mote_types::fault::{BootFault, MoteFault};
pub use node_memory::Sizes;
use std::alloc::Global;

/// The default sizes of a mote's memory, in bytes: no process has a quota.
pub const DEFAULT_SIZES: Sizes = Sizes {
    mmem: 4_096,
    heap: 4_096,
    header: 16,
    quota: None,
};

/// Boots a mote of these sizes for the applications in the boxes, and runs it from a source to a sink. It writes the text of
/// the run that the machine makes with the script's inputs and the applications, and returns how that run ends. If `quiet`, it
/// writes only the lines of a quiet transcript. If it was run, all that `run` promises holds (`promise`), including the laws
/// of memory, events, timers and isolation.
///
/// # Errors
///
/// `BadSizes` exactly where the kernel doesn't boot with these sizes or there are more than 16 applications; `Read` and `Write`
/// exactly where that device failed; otherwise `Memory`. What was written is then a prefix of the text. After `Read` it is all
/// of the text of the whole lines that were read.
pub fn run_boxes<S: ByteSource, K: ByteSink>(
    alloc: Global,
    sizes: Sizes,
    boxes: &mut [Box<dyn App>],
    source: &mut S,
    sink: &mut K,
    quiet: bool,
) -> Result<End, MoteFault>
    requires unended { S.is_ended source.old ≡ false }
    requires countable_reads { S.failure_count source.old < 2 ^ 64 - 1 }
    requires countable_writes { K.failure_count sink.old < 2 ^ 64 - 1 }
    ensures ran { S.is_named → K.is_named →
        Exchanged (S.taken source.old) (S.taken source.new) (S.is_ended source.new) (K.given sink.old) (K.given sink.new)
        (HasRunTo (config_of sizes (length boxes.old)) (says_of says boxes.old) quiet (MoteFault.Run RunFault.Read) result) }
    ensures promise { S.is_named → K.is_named → OfRun result (λ answer.
        Exchanged (S.taken source.old) (S.taken source.new) (S.is_ended source.new) (K.given sink.old) (K.given sink.new)
        (RunPromise (config_of sizes (length boxes.old)) (says_of says boxes.old) quiet answer)) }
    ensures bad_sizes { IsErrOf result (MoteFault.Boot BootFault.BadSizes) ↔ (is_bootable (config_of sizes (length boxes.old)) ≡ false) }
    ensures read_fault { IsErrOf result (MoteFault.Run RunFault.Read) ↔ (S.failure_count source.old < S.failure_count source.new) }
    ensures write_fault { IsErrOf result (MoteFault.Run RunFault.Write) ↔ (K.failure_count sink.old < K.failure_count sink.new) }
{
    let Ok(apps) = u8::try_from(boxes.len()) else {
        return Err(MoteFault::Boot(BootFault::BadSizes));
    };
    let config = Config {
        mmem: sizes.mmem,
        heap: sizes.heap,
        apps,
        quota: sizes.quota,
        header: sizes.header,
    };
    // No `?`: it would clear and copy the room of a kernel once more.
    let kernel = match Kernel::boot(alloc, config) {
        Ok(kernel) => kernel,
        Err(fault) => return Err(MoteFault::Boot(fault)),
    };
    run(source, sink, kernel, boxes, quiet).map_err(MoteFault::Run)
}
