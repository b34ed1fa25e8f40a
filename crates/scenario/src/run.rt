//! Executes a run, whole or in pieces.

ghost use Rattle.std.specs.Prelude.{◌<◌, ◌-◌, ◌^◌};

use crate::actor::Actor;
use crate::acts::Acts;
use crate::reader::reread_scenario;
use crate::scenario::Scenario;
use mote_kit::run_file::{Outcome, Part, RunEnd, WrittenRun, run_mote};
use mote_kit::transcript::Transcript;
use mote_types::app::App;
use network_run::fault::NetworkRunFault;
use network_setup::fault::SetUpRunFault;
use network_setup::script_run::run_script;
use std::alloc::{AllocError, Global};

/// The largest number of bytes of a read, and of a write.
#[derive(Clone, Copy, Drop)]
pub(crate) struct Widths {
    pub(crate) given: usize,
    pub(crate) taken: usize,
    ghost reads: { 0 < given },
    ghost writes: { 0 < taken },
}

/// Script and transcript in one piece each.
pub(crate) const WHOLE: Widths = Widths {
    given: usize::MAX,
    taken: usize::MAX,
};

/// A run of a file, and its result.
#[derive(Drop)]
pub(crate) struct Executed<'a> {
    pub(crate) run: WrittenRun<'a>,
    pub(crate) outcome: Outcome,
}

impl<'a> Executed<'a> {
    /// Executes the run of a part.
    pub(crate) fn of(alloc: Global, part: Part<'a>, widths: Widths) -> Result<Self, AllocError> {
        let Scenario { run, applications } = reread_scenario(alloc, part)?;
        match outcome_of(alloc, &run, applications, widths) {
            Ok(outcome) => Ok(Executed { run, outcome }),
            Err(error) => Err(error),
        }
    }
}

/// Executes a run with these applications.
fn outcome_of(
    alloc: Global,
    run: &WrittenRun<'_>,
    applications: Vec<Acts>,
    widths: Widths,
) -> Result<Outcome, AllocError> {
    let mut sink = Transcript::new(alloc).in_pieces_of(widths.taken);
    let end = if run.is_network() {
        run_network(alloc, run, &mut sink)?
    } else {
        run_applications(alloc, run, applications, widths.given, &mut sink)?
    };
    Outcome::of(alloc, end, sink.text)
}

/// Executes the run of a mote with these applications.
fn run_applications(
    alloc: Global,
    run: &WrittenRun<'_>,
    applications: Vec<Acts>,
    given: usize,
    sink: &mut Transcript,
) -> Result<RunEnd, AllocError>
    requires reads { 0 < given }
    requires writes { sink.old.failed < 2 ^ 64 - 1 }
{
    let mut boxes: Vec<Box<dyn App>> = Vec::new(alloc);
    for acts in applications {
        boxes.push(Box::new(alloc, Actor::of(acts))?)?;
    }
    run_mote(alloc, run, boxes.as_mut_slice(), given, sink)
}

/// Executes the run of a network.
fn run_network(
    alloc: Global,
    run: &WrittenRun<'_>,
    sink: &mut Transcript,
) -> Result<RunEnd, AllocError>
    requires { sink.old.failed < 2 ^ 64 - 1 }
{
    match run_script(alloc, run.script().as_bytes(), sink, run.is_quiet(), None) {
        Ok(end) => Ok(RunEnd::Ended(end)),
        // The sink fails only where memory is refused.
        Err(SetUpRunFault::Memory | SetUpRunFault::Run(NetworkRunFault::Write)) => Err(AllocError),
        Err(_) => Ok(RunEnd::TooLong),
    }
}
