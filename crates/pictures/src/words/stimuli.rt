//! What a process received.

ghost use Rattle.std.specs.Prelude.{◌≡◌, ◌++◌, string_bytes, IfOk};
ghost use Rattle.pictures.specs.Words as spec;

use crate::transcript::{Origin, Turn};
use crate::words::bytes::push_bytes;
use std::alloc::{AllocError, Global};

/// Appends what an event carries.
pub(crate) fn push_payload(alloc: Global, out: &mut String, payload: &str) -> Result<(), AllocError>
    ensures { IfOk result (λ _. string_bytes out.new ≡ string_bytes out.old ++ spec.payload_words payload.now) }
{
    if payload == "-" {
        return Ok(());
    }
    out.push_str(" ")?;
    match payload.strip_prefix("x") {
        Some(line) => push_bytes(alloc, out, line),
        None => out.push_str(payload),
    }
}

/// An event's name, by its code; nothing where it has none.
fn event_name(code: &str) -> &'static str
    ensures { result.now ≡ spec.event_name code.now }
{
    match code {
        "129" => "INIT",
        "130" => "POLL",
        "131" => "EXIT",
        "133" => "CONTINUE",
        "134" => "MSG",
        "135" => "EXITED",
        "136" => "TIMER",
        "138" => "LINE",
        "139" => "PACKET of",
        _ => "",
    }
}

/// Appends an event's name, or its number where it has none.
fn push_event_name(out: &mut String, code: &str) -> Result<(), AllocError>
    ensures { IfOk result (λ _. string_bytes out.new ≡ string_bytes out.old ++ spec.event_words code.now) }
{
    let name = event_name(code);
    if name.is_empty() {
        out.push_str("event ")?;
        out.push_str(code)
    } else {
        out.push_str(name)
    }
}

/// Appends an event by its name, or its number, and what it carries.
fn push_event(alloc: Global, out: &mut String, words: &str) -> Result<(), AllocError>
    ensures { IfOk result (λ _. string_bytes out.new ≡ string_bytes out.old ++ spec.event_stimulus words.now) }
{
    match words.split_once(' ') {
        Some((code, payload)) => {
            push_event_name(out, code)?;
            push_payload(alloc, out, payload)
        }
        None => push_event_name(out, words),
    }
}

/// Appends what a process received; a reply is shown with its call.
pub fn push_stimulus(alloc: Global, out: &mut String, turn: &Turn<'_>) -> Result<(), AllocError>
    ensures { IfOk result (λ _. string_bytes out.new ≡ string_bytes out.old ++ spec.stimulus_words turn.now) }
{
    match turn.origin {
        Origin::Answer => Ok(()),
        Origin::Callback => {
            out.push_str("callback ")?;
            out.push_str(turn.stimulus)
        }
        Origin::Event | Origin::Synch | Origin::Poll => push_event(alloc, out, turn.stimulus),
    }
}
