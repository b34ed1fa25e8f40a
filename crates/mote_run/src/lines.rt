//! Lines of a transcript, which are pending output until they are written.

ghost use Rattle.std.specs.Prelude.{◌≡◌, ◌<◌, ◌-◌, ◌^◌, ◌++◌, ◌∷◌, [], OnOk};
ghost use Rattle.mote_types.specs.declared.entry.Entry.{Entry as MadeEntry};
ghost use Rattle.mote_text.specs.Code.Appending.{HasRoom};
ghost use Rattle.mote_text.specs.Code.EntryLines.{entry_line_limit};
ghost use Rattle.mote_text.specs.Code.Writing.{CountsFailure, WritesIf};
ghost use Rattle.mote_text.specs.Transcript.{final_line};
ghost use Rattle.mote_run.specs.Code.Lines.{lines};

use mote_text::output_buffer::{MOST_OF_LINE, OutputBuffer};
use mote_text::script::End;
use mote_text::transcript::{
    is_shown, is_turn_shown, push_entry, push_final_line, push_input_line, push_turn_line,
};
use mote_types::call::Call;
use mote_types::device::ByteSink;
use mote_types::entry::{Entry, Input};
use mote_types::event::{Origin, Pid, Stimulus};
use mote_types::fault::DeviceFault;

/// Appends the line of an entry, if it is shown.
// Out of the way of turns, which most entries are.
#[inline(never)]
pub fn put_entry(text: &mut OutputBuffer, entry: &Entry, quiet: bool)
    requires { HasRoom text.old entry_line_limit }
    ensures { text.new.items ≡ text.old.items ++ lines quiet (entry.now ∷ []) }
{
    if is_shown(entry, quiet) {
        push_entry(entry, text);
    }
}

/// Appends the line of a turn, if it is shown.
pub fn put_turn(
    text: &mut OutputBuffer,
    pid: Pid,
    origin: Origin,
    stimulus: &Stimulus,
    call: &Call,
    quiet: bool,
)
    requires { HasRoom text.old entry_line_limit }
    ensures { text.new.items ≡ text.old.items ++ lines quiet (MadeEntry.Turn pid origin stimulus.now call.now ∷ []) }
{
    if is_turn_shown(call, quiet) {
        push_turn_line(pid, origin, stimulus, call, text);
    }
}

/// Appends the line of an input that was fed, if it is shown.
pub fn put_input(text: &mut OutputBuffer, input: &Input, quiet: bool)
    requires { HasRoom text.old entry_line_limit }
    ensures { text.new.items ≡ text.old.items ++ lines quiet (MadeEntry.Input input.now ∷ []) }
{
    if !quiet {
        push_input_line(input, text);
    }
}

/// Writes all pending output, and the last line of a run with this end.
pub fn close<K: ByteSink>(
    sink: &mut K,
    text: &mut OutputBuffer,
    end: End,
) -> Result<(), DeviceFault>
    requires { K.failure_count sink.old < 2 ^ 64 - 1 }
    ensures writes { K.is_named → WritesIf result (K.given sink.old) text.old.items (K.given sink.new) text.new.items (final_line end) }
    ensures empty { OnOk result (text.new.items ≡ []) }
    ensures failures { CountsFailure result (K.failure_count sink.old) (K.failure_count sink.new) }
{
    text.make_room(sink, MOST_OF_LINE)?;
    push_final_line(end, text);
    text.flush(sink)
}
