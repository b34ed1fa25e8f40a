//! The result of a run.

ghost use Rattle.std.specs.Prelude.{◌≡◌, ◌<◌, ◌-◌, ◌^◌, ◌↔◌, true, string_bytes, IfOk, IfSome};
ghost use Rattle.mote_kit.specs.Outcomes.{IsText};

use crate::fault::{BootFault, MoteFault};
use crate::mote::run_boxes;
use crate::run_file::written_run::WrittenRun;
use crate::script::Script;
use crate::transcript::Transcript;
use mote_run::End;
use mote_types::app::App;
use std::alloc::{AllocError, Global};
use std::fmt;

/// The number of bytes that a mote asks for at once.
const READ_LIMIT: usize = 4_096;

/// How a run ended, or why it failed.
#[derive(Clone, Copy, Drop)]
pub enum RunEnd {
    Ended(End),
    /// A mote didn't boot.
    Failed(MoteFault),
    /// A mote takes at most 2^40 inputs, and the clock of a network is at most 2^62.
    TooLong,
}

impl fmt::Display for RunEnd {
    fn fmt<W: fmt::Write>(&self, f: &mut fmt::Formatter<W>) -> fmt::Result {
        let words = match self {
            RunEnd::Ended(End::BadLine(number)) => return write!(f, "bad line {number}"),
            RunEnd::Failed(fault) => return fault.fmt(f),
            RunEnd::Ended(End::Finished) => "finished",
            RunEnd::Ended(End::Halted) => "halted",
            RunEnd::Ended(End::TooLong) => "too long",
            RunEnd::TooLong => "too many inputs or ticks",
        };
        f.write_str(words)
    }
}

/// The result of a run: how it ended, or why it failed, and what it wrote.
#[derive(Drop)]
pub struct Outcome {
    pub(crate) end: String,
    pub(crate) has_ended: bool,
    pub(crate) transcript: Vec<u8>,
}

impl Outcome {
    /// The result of a run that ended so and wrote this transcript.
    pub fn of(alloc: Global, end: RunEnd, transcript: Vec<u8>) -> Result<Self, AllocError>
        ensures transcript { IfOk result (λ outcome. outcome.transcript ≡ transcript) }
    {
        match end.to_string(alloc) {
            Ok(text) => Ok(Outcome {
                end: text,
                has_ended: matches!(end, RunEnd::Ended(_)),
                transcript,
            }),
            Err(error) => Err(error),
        }
    }

    /// The transcript as a text.
    pub(crate) fn text(&self) -> &str
        ensures { IsText self.now.transcript.items result.now }
    {
        str::from_utf8(self.transcript.as_slice()).unwrap_or("")
    }

    /// Whether the run ended as its file says.
    pub(crate) fn ended_as_said(&self, run: &WrittenRun<'_>) -> bool
        ensures { IfSome run.now.said_end (λ said. (result ≡ true) ↔ (string_bytes self.now.end ≡ said.0.now)) }
    {
        match run.end() {
            Some(end) => self.end.as_str() == end,
            None => true,
        }
    }
}

/// Executes the run of a mote with the applications in the boxes. A read returns at most `given` bytes. One read more than the bytes
/// and the end of the script need fails.
///
/// # Errors
///
/// Where memory is refused.
pub fn run_mote(
    alloc: Global,
    run: &WrittenRun<'_>,
    boxes: &mut [Box<dyn App>],
    given: usize,
    sink: &mut Transcript,
) -> Result<RunEnd, AllocError>
    requires reads { 0 < given }
    requires writes { sink.old.failed < 2 ^ 64 - 1 }
{
    let script = run.script().as_bytes();
    let reads = script.len().div_ceil(given.min(READ_LIMIT)) as u64;
    let mut source = Script::new(script)
        .in_pieces_of(given)
        .failing_at(reads.saturating_add(2));
    match run_boxes(alloc, run.sizes(), boxes, &mut source, sink, run.is_quiet()) {
        Ok(end) => Ok(RunEnd::Ended(end)),
        Err(MoteFault::Boot(BootFault::Memory)) => Err(AllocError),
        Err(fault) => Ok(RunEnd::Failed(fault)),
    }
}
