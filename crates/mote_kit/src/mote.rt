//! Whole runs over a script in memory.

ghost use Rattle.std.specs.Prelude.{◌≡◌, ◌≢◌, ◌↔◌, false, List, ℕ, [], length, take, IfOk, IfErr, IsErrOf};
ghost use Rattle.mote_types.specs.Applications.{says_of};
ghost use Rattle.kernel_core.specs.Machine.{is_bootable};
ghost use Rattle.mote_run.specs.RunText.{IsRunText};
ghost use Rattle.mote_run.specs.Code.Runs.{config_of};

use crate::script::Script;
use crate::transcript::Transcript;
use mote_run::End;
pub use mote_run::mote::{DEFAULT_SIZES, Sizes, run_boxes};
use mote_types::app::App;
use mote_types::device::ByteSource;
use mote_types::fault::{BootFault, DeviceFault, MoteFault};
use std::alloc::Global;
use std::marker::{Brand, PhantomData};

/// A run over a script in memory: how it ended, and what it wrote.
#[derive(Drop)]
pub struct Ran {
    pub end: End,
    pub transcript: Vec<u8>,
}

/// The bytes of a script, which only contracts see.
trait Fixed {
    ghost bytes: { List ℕ };
}

impl Fixed for Brand {
    ghost bytes = { [] };
}

/// A script whose bytes stay the same while it is read.
#[derive(Drop)]
struct FixedScript<'a, F: Fixed> {
    script: Script<'a>,
    of: PhantomData<F>,
    ghost fixed: { script.text.now ≡ F.bytes },
}

impl<F: Fixed> ByteSource for FixedScript<'_, F> {
    ghost is_named = { Unit {0} };

    ghost taken = { λ source. take source.script.position source.script.text.now };

    ghost is_ended = { λ source. source.script.ended };

    ghost failure_count = { λ source. source.script.failed };

    fn failures(&self) -> u64 {
        self.script.failures()
    }

    fn read(&mut self, buffer: &mut [u8]) -> Result<usize, DeviceFault> {
        self.script.read(buffer)
    }
}

/// Runs a mote over a script whose bytes stay the same.
fn run_fixed<F: Fixed>(
    alloc: Global,
    sizes: Sizes,
    boxes: &mut [Box<dyn App>],
    script: &[u8],
    quiet: bool,
) -> Result<Ran, MoteFault>
    requires { script.now ≡ F.bytes }
    ensures text { IfOk result (λ ran.
        IsRunText (config_of sizes (length boxes.old)) (says_of says boxes.old) quiet script.now ran.transcript.items ran.end) }
    ensures bad_sizes { IsErrOf result (MoteFault.Boot BootFault.BadSizes) ↔ (is_bootable (config_of sizes (length boxes.old)) ≡ false) }
    ensures memory { IfErr result (λ fault. fault ≢ MoteFault.Boot BootFault.BadSizes → fault ≡ MoteFault.Boot BootFault.Memory) }
{
    let mut source = FixedScript::<F> {
        script: Script::new(script),
        of: PhantomData,
    };
    let mut sink = Transcript::new(alloc);
    let end = match run_boxes(alloc, sizes, boxes, &mut source, &mut sink, quiet) {
        Ok(end) => end,
        Err(MoteFault::Boot(fault)) => return Err(MoteFault::Boot(fault)),
        // Neither device fails except for lack of memory.
        Err(MoteFault::Run(_)) => return Err(MoteFault::Boot(BootFault::Memory)),
    };
    Ok(Ran {
        end,
        transcript: sink.text,
    })
}

/// Boots a mote of these sizes for the applications in the boxes, and runs it over a script in memory. What it wrote is
/// the text of the run that the machine makes with the script's inputs and the applications (where `quiet`, only the lines
/// of a quiet transcript), and that is how it ends.
///
/// # Errors
///
/// `BadSizes` as `run_boxes`, otherwise `Memory`.
pub fn run_script(
    alloc: Global,
    sizes: Sizes,
    boxes: &mut [Box<dyn App>],
    script: &[u8],
    quiet: bool,
) -> Result<Ran, MoteFault>
    ensures text { IfOk result (λ ran.
        IsRunText (config_of sizes (length boxes.old)) (says_of says boxes.old) quiet script.now ran.transcript.items ran.end) }
    ensures bad_sizes { IsErrOf result (MoteFault.Boot BootFault.BadSizes) ↔ (is_bootable (config_of sizes (length boxes.old)) ≡ false) }
    ensures memory { IfErr result (λ fault. fault ≢ MoteFault.Boot BootFault.BadSizes → fault ≡ MoteFault.Boot BootFault.Memory) }
{
    run_fixed::<Brand>(alloc, sizes, boxes, script, quiet)
}
