//! The lines of a network's transcript.

ghost use Rattle.std.specs.Prelude.{◌≡◌, true, Some, IfSome};
ghost use Rattle.pictures.specs.Network.Lines.{clock_in, is_network_line, is_of_mote, is_short, network_line_text};

use crate::network::numbers::{mote_in, two_motes_in};
use crate::transcript::{Ending, Input, Line, Note, number, read_line};

/// A line of a network's transcript. Motes have the numbers 1, 2, ..
#[derive(Clone, Copy, Drop)]
pub enum NetworkLine<'a> {
    /// The clock went on to this moment.
    Clock(u64),
    /// A line of this mote.
    Mote(u64, Line<'a>),
    /// The rule of the link from the first mote to the second one lost the frame that was sent last.
    Lost(u64, u64),
    /// That frame found no room on the way.
    Full(u64, u64),
    /// A frame from the first mote arrived at the second one, which was halted.
    Missed(u64, u64),
    /// This mote was halted before an input from outside.
    Unheard(u64),
    /// How the run ended.
    Ending(Ending),
}

/// Whether the digits are those of at most 127 bytes, as a frame has.
fn is_short(digits: &str) -> bool
    ensures { result ≡ is_short digits.now }
{
    digits.len() <= 254
}

/// Whether a mote of a network has such a line: only the network's own lines say that a script is malformed or too long.
fn is_of_mote(line: &Line<'_>) -> bool
    ensures { result ≡ is_of_mote line.now }
{
    match *line {
        Line::Input(Input::Frame(digits)) | Line::Note(Note::Sent(digits)) => is_short(digits),
        Line::Input(Input::Tick(_)) | Line::Input(Input::Serial(_)) => true,
        Line::Note(Note::Lost(_)) | Line::Turn(_) | Line::Ending(Ending::Halt) => true,
        Line::Ending(Ending::BadLine(_)) | Line::Ending(Ending::TooLong) => false,
    }
}

/// A mote's line, with the number of the mote in front.
fn read_mote_line(line: &str) -> Option<NetworkLine<'_>>
    ensures written { IfSome result (λ read. line.now ≡ network_line_text read) }
    ensures form { IfSome result (λ read. is_network_line read ≡ true) }
{
    let (number, text) = line.split_once(' ')?;
    let mote = mote_in(number)?;
    let read = read_line(text)?;
    if is_of_mote(&read) {
        Some(NetworkLine::Mote(mote, read))
    } else {
        None
    }
}

/// How the run ended.
fn read_end(line: &str) -> Option<NetworkLine<'_>>
    ensures written { IfSome result (λ read. line.now ≡ network_line_text read) }
    ensures form { IfSome result (λ read. is_network_line read ≡ true) }
{
    match read_line(line) {
        Some(Line::Ending(ending)) => Some(NetworkLine::Ending(ending)),
        Some(Line::Input(_)) | Some(Line::Turn(_)) | Some(Line::Note(_)) | None => None,
    }
}

/// What became of a frame.
fn read_fate(line: &str) -> Option<NetworkLine<'_>>
    ensures written { IfSome result (λ read. line.now ≡ network_line_text read) }
    ensures form { IfSome result (λ read. is_network_line read ≡ true) }
{
    if let Some(text) = line.strip_prefix("missed - ") {
        return Some(NetworkLine::Unheard(mote_in(text)?));
    }
    let (word, text) = line.split_once(' ')?;
    let (from, to) = two_motes_in(text)?;
    match word {
        "lost" => Some(NetworkLine::Lost(from, to)),
        "full" => Some(NetworkLine::Full(from, to)),
        "missed" => Some(NetworkLine::Missed(from, to)),
        _ => None,
    }
}

/// What a line of a network's transcript says, without its line end. `None` where it is no such line.
pub fn read_network_line(line: &str) -> Option<NetworkLine<'_>>
    ensures written { IfSome result (λ read. line.now ≡ network_line_text read) }
    ensures form { IfSome result (λ read. is_network_line read ≡ true) }
    ensures clock { IfSome (clock_in line.now) (λ read. result ≡ Some read) }
{
    if let Some(text) = line.strip_prefix("= ") {
        return Some(NetworkLine::Clock(number(text)?));
    }
    match read_mote_line(line) {
        Some(read) => Some(read),
        None => match read_fate(line) {
            Some(read) => Some(read),
            None => read_end(line),
        },
    }
}
