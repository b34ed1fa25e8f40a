//! From the text of a row to the row.

ghost use Rattle.std.specs.Prelude.{◌≡◌, ◌≤◌, ◌<◌, ◌++◌, codes, string_bytes, IfOk, IfSome, OnOk};
ghost use Rattle.call_lists.specs.Code.Words.{behind};
ghost use Rattle.call_lists.specs.Code.Rows.{ArePut};
ghost use Rattle.call_lists.specs.RowTexts.{AreCalls, IsRow, IsStep, IsStimulus, IsWithin, behind_stimulus};

use crate::applications::{counted, cut_at_comma};
use crate::calls::call_of;
use crate::rows::fault::RowFault;
use crate::rows::row::{Row, Step};
use crate::rows::trigger::Trigger;
use crate::words::{number_of, parted};
use mote_types::event::{PACKET, SERIAL_LINE};
use std::alloc::{AllocError, Global};

/// A number within these bounds, where there is a word.
fn asked<'a>(word: Option<&'a str>, least: u32, most: u32) -> Result<Option<u8>, RowFault<'a>>
    requires { most ≤ 255 }
    ensures word { IfOk result (λ asked. behind word.entry ≡ behind_stimulus asked) }
    ensures bounds { IfOk result (IsWithin least most) }
{
    match word {
        Some(word) => Ok(Some(number_of(word, least, most)? as u8)),
        None => Ok(None),
    }
}

/// What a row with this stimulus is for.
fn trigger_of(text: &str) -> Result<Trigger, RowFault<'_>>
    ensures { IfOk result (IsStimulus text.now) }
{
    let (word, number) = parted(text);
    match (word, number) {
        ("any", None) => Ok(Trigger::Any),
        ("line", None) => Ok(Trigger::Event(SERIAL_LINE, None)),
        ("frame", None) => Ok(Trigger::Event(PACKET, None)),
        ("callback", _) => Ok(Trigger::Callback(asked(number, 0, 3)?)),
        ("refused", _) => Ok(Trigger::Refused(asked(number, 1, 18)?)),
        _ => event_trigger(text, word, number),
    }
}

/// The same of an event.
fn event_trigger<'a>(
    text: &'a str,
    code: &'a str,
    number: Option<&'a str>,
) -> Result<Trigger, RowFault<'a>>
    requires { text.now ≡ code.now ++ behind number }
    ensures { IfOk result (IsStimulus text.now) }
{
    let Ok(code) = number_of(code, 0, 255) else {
        return Err(RowFault::NoStimulus(text));
    };
    match number {
        Some(number) => Ok(Trigger::Event(code as u8, Some(number_of(number, 0, u32::MAX)?))),
        None => Ok(Trigger::Event(code as u8, None)),
    }
}

/// A text with another word after it.
fn with_word(alloc: Global, text: &str, word: &str) -> Result<String, AllocError>
    ensures { IfOk result (λ with. string_bytes with ≡ text.now ++ word.now) }
{
    let mut with = String::from_str(alloc, text)?;
    with.push_str(word)?;
    Ok(with)
}

/// The call of these words, of which the last may be `told`.
fn step_of(alloc: Global, text: &str) -> Result<Step, RowFault<'_>>
    ensures { IfOk result (IsStep text.now) }
{
    let Some(front) = text.strip_suffix(" told") else {
        return Ok(Step {
            call: call_of(text)?,
            uses_received: false,
        });
    };
    if let Ok(call) = call_of(with_word(alloc, front, " -")?.as_str()) {
        return Ok(Step {
            call,
            uses_received: true,
        });
    }
    match call_of(with_word(alloc, front, " 0")?.as_str()) {
        Ok(call) => Ok(Step {
            call,
            uses_received: true,
        }),
        Err(_) => Err(RowFault::TakesNoValue(front)),
    }
}

/// Appends the call of one part, as often as the number before it says.
fn push_part<'a>(alloc: Global, steps: &mut Vec<Step>, part: &'a str) -> Result<(), RowFault<'a>>
    ensures { OnOk result (ArePut part.now steps.old.items steps.new.items) }
{
    let (count, words) = counted(part)?;
    for _ in 0..count {
        steps.push(step_of(alloc, words)?)?;
    }
    Ok(())
}

/// The calls of a text; a comma parts them.
fn steps_of(alloc: Global, text: &str) -> Result<Vec<Step>, RowFault<'_>>
    ensures { IfOk result (λ steps. AreCalls text.now steps.items) }
{
    let mut steps = Vec::new(alloc);
    let mut left = Some(text);
    while let Some(parts) = left {
        let (part, others) = cut_at_comma(parts);
        push_part(alloc, &mut steps, part)?;
        left = others;
    }
    Ok(steps)
}

/// What is before a text's first colon with a space after it, and what is after.
fn cut_at_colon(text: &str) -> Option<(&str, &str)>
    ensures { IfSome result (λ cut. text.now ≡ cut.0.now ++ (codes ": " ++ cut.1.now)) }
{
    text.split_once(": ")
}

/// The row of a text: a stimulus, a colon, and its calls, which `repeat` may follow.
///
/// # Errors
///
/// The first malformed part.
pub fn row_of(alloc: Global, text: &str) -> Result<Row, RowFault<'_>>
    ensures { IfOk result (IsRow text.now) }
{
    if let Some(stimulus) = text.strip_suffix(":") {
        return Ok(Row::new(trigger_of(stimulus)?, Vec::new(alloc), false));
    }
    let Some((stimulus, calls)) = cut_at_colon(text) else {
        return Err(RowFault::NoColon);
    };
    let trigger = trigger_of(stimulus)?;
    match calls.strip_suffix(", repeat") {
        Some(calls) => Ok(Row::new(trigger, steps_of(alloc, calls)?, true)),
        None => Ok(Row::new(trigger, steps_of(alloc, calls)?, false)),
    }
}
