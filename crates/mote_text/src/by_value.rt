//! An entry's line in a buffer of its own, and the input of a line by value. A run appends lines to other text (`push_entry`) and
//! reads inputs into one buffer (`read_input_to`), which saves copies.

ghost use Rattle.std.specs.Prelude.{◌≡◌, ◌≤◌, length};
ghost use Rattle.std.specs.Result.{result_ok};
ghost use Rattle.mote_text.specs.EntryText.{entry_line};
ghost use Rattle.mote_text.specs.Script.{read_line};
ghost use Rattle.mote_text.specs.Code.EntryLines.{entry_line_limit};

use crate::output_buffer::{MOST_OF_LINE, TextBuffer};
use crate::script::{BadLine, read_input_to};
use crate::transcript::push_entry;
use arrayvec::ArrayVec;
use mote_types::entry::{Entry, Input};

/// A line of a transcript, with its end: at most 640 bytes.
pub type LineBuf = ArrayVec<u8, MOST_OF_LINE>;

/// Replaces the buffer's content with the line of an entry, with its end.
///
/// Source: the transcript format is this project's profile.
pub fn entry_text(entry: &Entry, line: &mut LineBuf)
    ensures text { line.new.items ≡ entry_line entry.now }
    ensures length { length (entry_line entry.now) ≤ entry_line_limit }
{
    let mut made = TextBuffer::<MOST_OF_LINE>::new();
    push_entry(entry, &mut made);
    line.clear();
    let _ = line.try_extend_from_slice(made.as_slice());
}

/// Reads a line of a script, without its end: an input, or `None` for an empty line or a comment.
///
/// Source: the script format is this project's profile.
///
/// # Errors
///
/// `BadLine` exactly where the line is malformed or has more than 1,024 bytes.
pub fn read_input(line: &[u8]) -> Result<Option<Input>, BadLine>
    ensures { result_ok result ≡ read_line line.now }
{
    let mut input = Input::Tick(0);
    match read_input_to(line, &mut input) {
        Ok(true) => Ok(Some(input)),
        Ok(false) => Ok(None),
        Err(fault) => Err(fault),
    }
}
