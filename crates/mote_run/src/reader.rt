//! What the lines of a script say, as its bytes come.

ghost use Rattle.std.specs.Prelude.{◌≡◌, ◌≢◌, ◌<◌, ◌≤◌, ◌+◌, ◌-◌, ◌^◌, true, length, OnErr, OnOk};
ghost use Rattle.mote_text.specs.Code.Lines.{has_no_end, nothing_taken, unfinished};
ghost use Rattle.mote_text.specs.Script.{read_line};
ghost use Rattle.mote_text.specs.Code.LineAnswers.{line_said};
ghost use Rattle.mote_text.specs.declared.script_lines.Taken.{Taken as Stopped};
ghost use Rattle.mote_run.specs.Code.Reading.{ReadPart};

use mote_text::hex_digits::DigitValues;
use mote_text::script::{BadLine, read_input_by};
use mote_text::script_lines::{Lines, Taken};
use mote_types::entry::Input;

/// The lines of a script, the number of the present one (from 1 on), and a buffer for the input of a line.
#[derive(Drop)]
pub struct Reader {
    pub lines: Lines,
    pub number: u32,
    pub input: Input,
    pub values: DigitValues,
}

/// Reads a line with this number into the buffer, and counts it if it is well-formed. Returns whether it is an
/// input.
fn read_counted(
    line: &[u8],
    number: &mut u32,
    input: &mut Input,
    values: &DigitValues,
) -> Result<bool, BadLine>
    requires countable { number.old < 2 ^ 32 - 1 }
    ensures says { line_said result input.new ≡ read_line line.now }
    ensures number { OnOk result (number.new ≡ number.old + 1) }
    ensures same_number { OnErr result (number.new ≡ number.old) }
{
    let is_input = read_input_by(line, input, values)?;
    *number += 1;
    Ok(is_input)
}

impl Reader {
    pub fn new() -> Self
        ensures lines { result.lines ≡ nothing_taken }
        ensures number { result.number ≡ 1 }
    {
        Reader {
            lines: Lines::new(),
            number: 1,
            input: Input::Tick(0),
            values: DigitValues::new(),
        }
    }

    /// Reads the bytes of the present line, after the script has ended. Returns whether they say an input, which is
    /// in `input` then.
    ///
    /// # Errors
    ///
    /// `BadLine` if the line is malformed.
    pub fn end(&mut self) -> Result<bool, BadLine>
        requires narrow { self.old.lines.last ≢ Stopped.TooWide }
        requires endless { has_no_end (unfinished self.old.lines) ≡ true }
        ensures says { line_said result self.new.input ≡ read_line (unfinished self.old.lines) }
        ensures same_number { self.new.number ≡ self.old.number }
    {
        // After a line's end this begins the next line, which is empty.
        self.lines.take(&[]);
        read_input_by(self.lines.line(), &mut self.input, &self.values)
    }

    /// Takes bytes of the piece up to the end of the present line. Returns how many, and whether they say an input, which
    /// is in `input` then.
    ///
    /// # Errors
    ///
    /// `BadLine` if the line is malformed, or as soon as it is longer than a line may be.
    pub fn take(&mut self, piece: &[u8]) -> (usize, Result<bool, BadLine>)
        requires narrow { self.old.lines.last ≢ Stopped.TooWide }
        requires endless { has_no_end (unfinished self.old.lines) ≡ true }
        requires countable { self.old.number < 2 ^ 32 - 1 }
        ensures used { result.0 ≤ length piece.now }
        ensures some { OnOk result.1 (0 < length piece.now → 0 < result.0) }
        ensures says { ReadPart (unfinished self.old.lines) piece.now
            (unfinished self.new.lines) result.0 self.old.number self.new.number result.1 self.new.input }
        ensures narrow { OnOk result.1 (self.new.lines.last ≢ Stopped.TooWide) }
    {
        if let Some(len) = self.lines.whole_tick(piece, &mut self.input) {
            self.number += 1;
            return (len + 1, Ok(true));
        }
        if let Some(line) = self.lines.whole_line(piece) {
            let says = read_counted(line, &mut self.number, &mut self.input, &self.values);
            return (line.len() + 1, says);
        }
        let (used, taken) = self.lines.take(piece);
        let says = match taken {
            Taken::More => Ok(false),
            Taken::TooWide => Err(BadLine),
            Taken::Line => read_counted(
                self.lines.line(),
                &mut self.number,
                &mut self.input,
                &self.values,
            ),
        };
        (used, says)
    }
}
