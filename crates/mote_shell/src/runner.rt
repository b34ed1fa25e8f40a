//! Runs the applications that arguments name: boxes are made where the type of the applications is known.

ghost use Rattle.std.specs.Prelude.{◌≡◌, ◌<◌, ◌-◌, ◌^◌, ◌↔◌, false, length, IsErrOf};
ghost use Rattle.mote_types.specs.Applications.{says_of};
ghost use Rattle.mote_run.specs.RunText.{Exchanged};
ghost use Rattle.mote_run.specs.Code.Runs.{config_of};
ghost use Rattle.command_line.specs.CommandLine.{texts};
ghost use Rattle.command_line.specs.Statuses.{read_failed, write_failed};
ghost use Rattle.mote_shell.specs.NamedRuns.{HasRunAs, HasRunNamed, IsAnswer, IsOutcome};

use command_line::{Failure, Program};
use mote_run::mote::{Sizes, run_boxes};
use mote_text::script::End;
use mote_types::FromName;
use mote_types::app::App;
use mote_types::device::{ByteSink, ByteSource};
use std::alloc::Global;

/// Runs applications of one type, which arguments name. Each program has its own runner.
pub trait Runner<T: FromName> {
    /// Runs the mote that the arguments name from a source to a sink: it has the sizes and the applications that they name, and
    /// its transcript is quiet where they ask for that. Writes the text of the run that the machine makes with what these
    /// applications say, and returns how it ends. All that `run` promises holds, the laws of memory, events, timers and
    /// isolation included. The first argument is the program's name.
    ///
    /// # Errors
    ///
    /// First those of `read_words`: what the parser finds, an unknown name, too many names. Then `BadSizes`. Nothing is read or
    /// written then. `Read` and `Write` exactly where that device failed; `Memory` where memory was refused. What was written
    /// is a prefix of the text then, and after `Read` all of the text of the whole lines that were read.
    fn run_words<'a, S: ByteSource, K: ByteSink>(
        alloc: Global,
        program: Program,
        words: &'a [&'a str],
        source: &mut S,
        sink: &mut K,
    ) -> Result<End, Failure<'a>>
        requires unended { S.is_ended source.old ≡ false }
        requires countable_reads { S.failure_count source.old < 2 ^ 64 - 1 }
        requires countable_writes { K.failure_count sink.old < 2 ^ 64 - 1 }
        ensures outcome { IsOutcome T.by_name (texts words.now) result }
        ensures run { S.is_named → K.is_named →
            Exchanged (S.taken source.old) (S.taken source.new) (S.is_ended source.new) (K.given sink.old) (K.given sink.new)
            (HasRunNamed T.by_name T.says (texts words.now) result) }
        ensures read_fault { IsErrOf result read_failed ↔ (S.failure_count source.old < S.failure_count source.new) }
        ensures write_fault { IsErrOf result write_failed ↔ (K.failure_count sink.old < K.failure_count sink.new) };
}

/// Runs the applications in the boxes on a mote of these sizes, from a source to a sink, as `run_boxes` does, with all that it
/// promises: the last thing that a runner does.
///
/// # Errors
///
/// Those of `run_boxes`.
pub fn run_boxed<'a, S: ByteSource, K: ByteSink>(
    alloc: Global,
    sizes: Sizes,
    boxes: &mut [Box<dyn App>],
    source: &mut S,
    sink: &mut K,
    quiet: bool,
) -> Result<End, Failure<'a>>
    requires unended { S.is_ended source.old ≡ false }
    requires countable_reads { S.failure_count source.old < 2 ^ 64 - 1 }
    requires countable_writes { K.failure_count sink.old < 2 ^ 64 - 1 }
    ensures answer { IsAnswer (config_of sizes (length boxes.old)) result }
    ensures run { S.is_named → K.is_named →
        Exchanged (S.taken source.old) (S.taken source.new) (S.is_ended source.new) (K.given sink.old) (K.given sink.new)
        (HasRunAs (config_of sizes (length boxes.old)) (says_of says boxes.old) quiet result) }
    ensures read_fault { IsErrOf result read_failed ↔ (S.failure_count source.old < S.failure_count source.new) }
    ensures write_fault { IsErrOf result write_failed ↔ (K.failure_count sink.old < K.failure_count sink.new) }
{
    Ok(run_boxes(alloc, sizes, boxes, source, sink, quiet)?)
}
