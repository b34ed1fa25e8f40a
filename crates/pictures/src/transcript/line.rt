//! The lines of a transcript.

ghost use Rattle.std.specs.Prelude.{◌≡◌, true, codes, is_some, option_and_then, IfNone, IfSome};
ghost use Rattle.pictures.specs.Transcript.Code.{is_input_text, is_note_text};
ghost use Rattle.pictures.specs.Transcript.Forms.{Says, is_ending, is_input, is_line, is_note};
ghost use Rattle.pictures.specs.Transcript.Lines.{after_prefix, ending_in, ending_text, input_text, line_text, note_text, ticks_by, ticks_in, line_ticks};
ghost use Rattle.pictures.specs.Transcript.Words.{is_bytes, read_number};
ghost use Rattle.pictures.specs.declared.transcript.line.Line.{Line};

use crate::transcript::forms::{is_bytes, number};
use crate::transcript::turn::{Turn, read_turn};

/// A submitted input.
#[derive(Clone, Copy, Drop)]
pub enum Input<'a> {
    /// The clock advances by n ticks.
    Tick(u64),
    /// Bytes arrive on the serial line: their digits.
    Serial(&'a str),
    /// A frame arrives: the digits of its bytes.
    Frame(&'a str),
}

/// What became of a frame.
#[derive(Clone, Copy, Drop)]
pub enum Note<'a> {
    /// The frame that has just arrived was lost: the number of the refusal.
    Lost(u64),
    /// A frame was sent: the digits of its bytes, or `-`.
    Sent(&'a str),
}

/// How a run ended, where its transcript says so.
#[derive(Clone, Copy, PartialEq, Eq, Drop)]
pub enum Ending {
    /// The turns and rounds of an input reached 10,000.
    Halt,
    /// The script's line of this number is malformed.
    BadLine(u64),
    /// The script is too long.
    TooLong,
}

/// A line of a transcript.
#[derive(Clone, Copy, Drop)]
pub enum Line<'a> {
    Input(Input<'a>),
    Turn(Turn<'a>),
    Note(Note<'a>),
    Ending(Ending),
}

/// The digits of bytes, where the word has them.
fn digits_in(word: &str) -> Option<&str>
    ensures written { IfSome result (λ digits. (digits.now ≡ word.now) × (is_bytes word.now ≡ true)) }
    ensures whole { is_some result ≡ is_bytes word.now }
{
    if is_bytes(word) { Some(word) } else { None }
}

fn read_input(text: &str) -> Option<Input<'_>>
    ensures written { IfSome result (λ input. text.now ≡ input_text input) }
    ensures form { IfSome result (λ input. is_input input ≡ true) }
    ensures whole { is_some result ≡ is_input_text text.now }
    ensures ticks { option_and_then ticks_by result ≡ option_and_then read_number (after_prefix (codes "tick ") text.now) }
{
    if let Some(ticks) = text.strip_prefix("tick ") {
        return Some(Input::Tick(number(ticks)?));
    }
    match text.strip_prefix("serial ") {
        Some(word) => Some(Input::Serial(digits_in(word)?)),
        None => Some(Input::Frame(digits_in(text.strip_prefix("frame ")?)?)),
    }
}

fn read_note(text: &str) -> Option<Note<'_>>
    ensures written { IfSome result (λ note. text.now ≡ note_text note) }
    ensures form { IfSome result (λ note. is_note note ≡ true) }
    ensures whole { is_some result ≡ is_note_text text.now }
{
    match text.strip_prefix("lost ") {
        Some(word) => Some(Note::Lost(number(word)?)),
        None => Some(Note::Sent(digits_in(text.strip_prefix("sent ")?)?)),
    }
}

pub(crate) fn read_ending(line: &str) -> Option<Ending>
    ensures written { IfSome result (λ ending. line.now ≡ ending_text ending) }
    ensures form { IfSome result (λ ending. is_ending ending ≡ true) }
    ensures whole { result ≡ ending_in line.now }
{
    match line {
        "halt" => Some(Ending::Halt),
        "too long" => Some(Ending::TooLong),
        _ => {
            let text = line.strip_prefix("bad line ")?;
            Some(Ending::BadLine(number(text)?))
        }
    }
}

/// What a line, without its line end, says. `None` where it is no line of a transcript.
#[tactic(auto, unfolding(crate::specs::Transcript::Forms::is_line))]
pub fn read_line(line: &str) -> Option<Line<'_>>
    ensures written { IfSome result (λ read. line.now ≡ line_text read) }
    ensures form { IfSome result (λ read. is_line read ≡ true) }
    ensures says { IfSome result (λ read. Says line.now read) }
    ensures none { IfNone result ((read : Line) → Says line.now read → ⊥) }
    ensures ticks { option_and_then line_ticks result ≡ ticks_in line.now }
{
    if let Some(text) = line.strip_prefix("> ") {
        return Some(Line::Input(read_input(text)?));
    }
    if let Some(text) = line.strip_prefix("note ") {
        return Some(Line::Note(read_note(text)?));
    }
    match read_turn(line) {
        Some(turn) => Some(Line::Turn(turn)),
        None => Some(Line::Ending(read_ending(line)?)),
    }
}
