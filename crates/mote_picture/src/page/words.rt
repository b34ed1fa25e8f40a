//! What a line says, in the words that a picture has for it.

use pictures::transcript::{Line, Origin, Turn, read_line};
use pictures::words::{push_call, push_ending, push_input, push_note, push_reply, push_stimulus};
use std::alloc::{AllocError, Global};

/// Appends what a process received, its call, and the reply to it, with a tab between each two.
fn push_turn(
    alloc: Global,
    out: &mut String,
    turn: &Turn<'_>,
    reply: &str,
) -> Result<(), AllocError> {
    match turn.origin {
        Origin::Answer => out.push_str("↳")?,
        _ => push_stimulus(alloc, out, turn)?,
    }
    out.push_str("\t")?;
    push_call(alloc, out, turn.call)?;
    out.push_str("\t")?;
    push_reply(alloc, out, reply)
}

/// Appends what a line says, and the reply to its call.
pub(crate) fn push_line(
    alloc: Global,
    out: &mut String,
    line: &str,
    reply: &str,
) -> Result<(), AllocError> {
    match read_line(line) {
        Some(Line::Input(input)) => push_input(alloc, out, &input),
        Some(Line::Note(note)) => push_note(alloc, out, &note),
        Some(Line::Ending(ending)) => push_ending(out, ending),
        Some(Line::Turn(turn)) => push_turn(alloc, out, &turn, reply),
        None => Ok(()),
    }
}

/// The reply in a line, or nothing.
pub(crate) fn reply_in<'a>(line: Option<&&'a str>) -> &'a str {
    let Some(line) = line else {
        return "";
    };
    match read_line(line) {
        Some(Line::Turn(turn)) => turn.stimulus,
        _ => "",
    }
}
