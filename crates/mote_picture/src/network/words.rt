//! The short words of a row.

use crate::network::frames::Frames;
use pictures::network::NetworkLine;
use pictures::transcript::{Ending, Input, Line, Note, Origin, Turn};
use pictures::words::{push_call, push_ending, push_input, push_note, push_stimulus};
use std::alloc::{AllocError, Global};

/// The words of a row, and the mote beside whose lane they are; no mote for the end of the run.
#[derive(Drop)]
pub(crate) struct Words {
    pub(crate) mote: Option<u64>,
    pub(crate) text: String,
    /// Whether a frame isn't heard, or a mote or the run is halted.
    pub(crate) is_red: bool,
    /// Whether the chart has a cross before them, for a frame that isn't carried.
    pub(crate) has_cross: bool,
}

/// What a process receives, and its call.
fn push_turn(alloc: Global, out: &mut String, turn: &Turn<'_>) -> Result<(), AllocError> {
    if turn.origin != Origin::Answer {
        push_stimulus(alloc, out, turn)?;
        out.push_str(" → ")?;
    }
    push_call(alloc, out, turn.call)
}

fn push_line(alloc: Global, out: &mut String, line: &Line<'_>) -> Result<(), AllocError> {
    match *line {
        Line::Input(input) => push_input(alloc, out, &input),
        Line::Turn(turn) => push_turn(alloc, out, &turn),
        Line::Note(note) => push_note(alloc, out, &note),
        Line::Ending(_) => out.push_str("✗ halted"),
    }
}

/// A line of a mote, with the name of its frame, or its bytes where the frame has no name.
fn push_mote_line(
    alloc: Global,
    out: &mut String,
    line: &Line<'_>,
    frames: &Frames,
) -> Result<(), AllocError> {
    let (digits, is_sent) = match *line {
        Line::Note(Note::Sent(digits)) => (digits, true),
        Line::Input(Input::Frame(digits)) => (digits, false),
        _ => return push_line(alloc, out, line),
    };
    let name = frames.name(alloc, digits)?;
    let size = digits.len() / 2;
    if name.is_empty() {
        push_line(alloc, out, line)
    } else if is_sent {
        write!(out, "sent {name}, {size} bytes")
    } else {
        write!(out, "frame of {size}: {name}")
    }
}

/// How the run ended.
fn push_end(out: &mut String, ending: Ending) -> Result<(), AllocError> {
    match ending {
        Ending::Halt => out.push_str("halt: the input took all its rounds"),
        Ending::BadLine(_) | Ending::TooLong => push_ending(out, ending),
    }
}

/// The mote beside whose lane a line's words are.
fn mote_of(line: &NetworkLine<'_>) -> Option<u64> {
    match *line {
        NetworkLine::Mote(mote, _) | NetworkLine::Unheard(mote) => Some(mote),
        NetworkLine::Lost(from, _) | NetworkLine::Full(from, _) => Some(from),
        NetworkLine::Missed(_, to) => Some(to),
        NetworkLine::Clock(_) | NetworkLine::Ending(_) => None,
    }
}

/// The mote in whose lane a line is: the first one where it is of none.
pub(crate) fn lane_of(line: &NetworkLine<'_>) -> u64 {
    mote_of(line).unwrap_or(1)
}

/// Whether a line says that something isn't heard, or that a mote or the run was halted.
fn is_red(line: &NetworkLine<'_>) -> bool {
    !matches!(
        *line,
        NetworkLine::Clock(_)
            | NetworkLine::Mote(_, Line::Input(_))
            | NetworkLine::Mote(_, Line::Turn(_))
            | NetworkLine::Mote(_, Line::Note(Note::Sent(_)))
    )
}

/// The words of a line.
pub(crate) fn words_of(
    alloc: Global,
    line: &NetworkLine<'_>,
    frames: &Frames,
) -> Result<Words, AllocError> {
    let mut text = String::new(alloc);
    match *line {
        NetworkLine::Clock(moment) => write!(text, "= {moment}")?,
        NetworkLine::Mote(_, line) => push_mote_line(alloc, &mut text, &line, frames)?,
        NetworkLine::Lost(_, to) => write!(text, "lost to {to}")?,
        NetworkLine::Full(_, to) => write!(text, "no room to {to}")?,
        NetworkLine::Missed(from, _) => write!(text, "✗ missed from {from}")?,
        NetworkLine::Unheard(_) => text.push_str("✗ missed from outside")?,
        NetworkLine::Ending(ending) => push_end(&mut text, ending)?,
    }
    Ok(Words {
        mote: mote_of(line),
        text,
        is_red: is_red(line),
        has_cross: matches!(*line, NetworkLine::Lost(_, _) | NetworkLine::Full(_, _)),
    })
}

/// The number of characters.
pub(crate) fn length_of(text: &str) -> usize {
    let mut length: usize = 0;
    for _character in text.chars() {
        length = length.saturating_add(1);
    }
    length
}

/// The first characters of a text, with `…` after them where that isn't all.
pub(crate) fn clipped(alloc: Global, text: &str, most: usize) -> Result<String, AllocError> {
    let mut short = String::new(alloc);
    let mut left = most;
    for character in text.chars() {
        if left == 0 {
            short.push_str("…")?;
            return Ok(short);
        }
        short.push(character)?;
        left = left.saturating_sub(1);
    }
    Ok(short)
}
