//! The run of the applications that lines name.

ghost use Rattle.std.specs.Prelude.{◌≡◌, length, IfErr, IfOk};
ghost use Rattle.mote_types.specs.Applications.{says_of};
ghost use Rattle.call_lists.specs.Applications.{application_says};
ghost use Rattle.mote_run.specs.Code.Runs.{config_of};
ghost use Rattle.mote_run.specs.RunText.{IsRunText};
ghost use Rattle.library_core.specs.Outcomes.{HasRun, Refuses};
ghost use Rattle.library_core.specs.declared.refusal.Refusal.TheVariants.{OutOfMemory};

use crate::configuration::Configuration;
use crate::lines::read_applications;
use crate::refusal::Refusal;
use crate::sizes::size_reason;
use call_lists::Application;
use mote_kit::mote::{Ran, Sizes, run_script};
use mote_types::app::App;
use std::alloc::Global;

/// Boxes the applications, each as it is and in their order, and runs them over a script.
///
/// # Errors
///
/// `OutOfMemory`: a mote boots with these sizes.
fn run_applications(
    alloc: Global,
    sizes: Sizes,
    applications: Vec<Application>,
    script: &[u8],
    quiet: bool,
) -> Result<Ran, Refusal>
    ensures text { IfOk result
        (λ ran. IsRunText (config_of sizes (length applications.items))
        (says_of application_says applications.items) quiet script.now ran.transcript.items ran.end) }
    ensures refused { IfErr result (λ refusal. refusal ≡ OutOfMemory) }
{
    let mut boxes: Vec<Box<dyn App>> = Vec::new(alloc);
    for application in applications {
        boxes.push(Box::new(alloc, application)?)?;
    }
    match run_script(alloc, sizes, boxes.as_mut_slice(), script, quiet) {
        Ok(ran) => Ok(ran),
        Err(_) => Err(Refusal::OutOfMemory),
    }
}

/// Runs the applications that lines name over a script.
///
/// # Errors
///
/// The first line that names no application, too many of them, the first size that no mote has, or want of memory.
pub fn run_lines(
    alloc: Global,
    configuration: &Configuration,
    lines: &[u8],
    script: &[u8],
) -> Result<Ran, Refusal>
    ensures run { IfOk result (λ ran. HasRun configuration.now lines.now script.now ran.transcript.items ran.end) }
    ensures refused { IfErr result (Refuses configuration.now lines.now) }
{
    let Ok(text) = str::from_utf8(lines) else {
        return Err(Refusal::NotText);
    };
    let applications = read_applications(alloc, text)?;
    let sizes = configuration.sizes();
    if let Some(reason) = size_reason(&sizes, applications.len() as u32) {
        return Err(Refusal::BadSizes(reason));
    }
    let quiet = configuration.is_quiet();
    run_applications(alloc, sizes, applications, script, quiet)
}
