//! Inputs, what became of frames, and how a run ended.

ghost use Rattle.std.specs.Prelude.{◌≡◌, ◌++◌, string_bytes, IfOk};
ghost use Rattle.pictures.specs.Words as spec;

use crate::transcript::{Ending, Input, Note};
use crate::words::bytes::push_bytes;
use std::alloc::{AllocError, Global};

/// Appends an input.
pub fn push_input(alloc: Global, out: &mut String, input: &Input<'_>) -> Result<(), AllocError>
    ensures { IfOk result (λ _. string_bytes out.new ≡ string_bytes out.old ++ spec.input_words input.now) }
{
    match *input {
        Input::Tick(ticks) => write!(out, "tick {ticks}"),
        Input::Serial(digits) => {
            out.push_str("serial ")?;
            push_bytes(alloc, out, digits)
        }
        Input::Frame(digits) => {
            write!(out, "frame of {}: ", digits.len() / 2)?;
            push_bytes(alloc, out, digits)
        }
    }
}

/// Appends why a frame was lost, by the number of the refusal.
fn push_lost(out: &mut String, number: u64) -> Result<(), AllocError>
    ensures { IfOk result (λ _. string_bytes out.new ≡ string_bytes out.old ++ spec.lost_words number) }
{
    out.push_str("✗ the frame is lost: ")?;
    push_lost_reason(out, number)
}

fn push_lost_reason(out: &mut String, number: u64) -> Result<(), AllocError>
    ensures { IfOk result (λ _. string_bytes out.new ≡ string_bytes out.old ++ spec.lost_reason number) }
{
    if number == 1 {
        out.push_str("8 are held (1)")
    } else {
        push_no_room(out, number)
    }
}

/// Appends that managed memory has no room.
fn push_no_room(out: &mut String, number: u64) -> Result<(), AllocError>
    ensures { IfOk result (λ _. string_bytes out.new ≡ string_bytes out.old ++ spec.no_room_words number) }
{
    write!(out, "no room in managed memory ({number})")
}

/// Appends what became of a frame.
pub fn push_note(alloc: Global, out: &mut String, note: &Note<'_>) -> Result<(), AllocError>
    ensures { IfOk result (λ _. string_bytes out.new ≡ string_bytes out.old ++ spec.note_words note.now) }
{
    match *note {
        Note::Lost(number) => push_lost(out, number),
        Note::Sent(digits) => {
            out.push_str("sent ")?;
            push_bytes(alloc, out, digits)
        }
    }
}

/// Appends how the run ended.
pub fn push_ending(out: &mut String, ending: Ending) -> Result<(), AllocError>
    ensures { IfOk result (λ _. string_bytes out.new ≡ string_bytes out.old ++ spec.ending_words ending) }
{
    match ending {
        Ending::Halt => out.push_str("halt: 10,000 turns and rounds in one input"),
        Ending::BadLine(number) => write!(out, "bad line {number}: the script ends here"),
        Ending::TooLong => out.push_str("too long: the script has more than 16,777,216 bytes"),
    }
}
