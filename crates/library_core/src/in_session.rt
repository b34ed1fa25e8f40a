//! What the calls do in the session of an open mote, and the status that they return.

ghost use Rattle.std.specs.Prelude.{◌≡◌, ◌≢◌, ◌≤◌, ◌<◌, ◌+◌, length as size_of, take, drop, nat_lt, if◌then◌else◌, IfSome, IsSomeAnd};
ghost use Rattle.mote_session.specs.Refusals.{input_refusal, line_refusal};
ghost use Rattle.mote_session.specs.Sent.{sent_in};
ghost use Rattle.mote_text.specs.EntryText.{entry_line};
ghost use Rattle.mote_text.specs.Script.{read_line};
ghost use Rattle.library_core.specs.Steps.{GoesNext, HasSent, IsLastLine, TakesCall, TakesInput, TakesScriptLine, TellsTurn, due_status_of, submit_status_of, line_status_of, next_status_of, sent_status_of, status_if, step_number};

use crate::call::PlainCall;
use crate::open_mote::{LineRoom, OpenMote};
use crate::status::{DONE, NO_CALL, NO_FRAME, NO_ROOM, NO_TIMER, refusal_status};
use crate::tick_line::ticks_said;
use crate::turn::PlainTurn;
use mote_session::session::{Next, Session};
use mote_types::entry::Input;

/// Feeds the input of a line of a script.
pub fn feed_line(session: &mut Session, line: &[u8]) -> u32
    ensures status { result ≡ status_if (line_refusal (read_line line.now) session.old) }
    ensures fed { result ≡ 0 → TakesScriptLine line.now session.old session.new }
    ensures unchanged { result ≢ 0 → session.new ≡ session.old }
{
    let fed = match ticks_said(line) {
        Some(ticks) => session.feed_ticks(ticks),
        None => session.feed(line),
    };
    match fed {
        Ok(()) => DONE,
        Err(refusal) => refusal_status(refusal),
    }
}

/// Feeds an input.
pub fn feed_input(session: &mut Session, input: Input) -> u32
    ensures status { result ≡ status_if (input_refusal input session.old) }
    ensures fed { result ≡ 0 → TakesInput input session.old session.new }
    ensures unchanged { result ≢ 0 → session.new ≡ session.old }
{
    let fed = match input {
        Input::Tick(ticks) => session.feed_ticks(ticks),
        other => session.feed_input(other),
    };
    match fed {
        Ok(()) => DONE,
        Err(refusal) => refusal_status(refusal),
    }
}

/// Reports when the next timer runs out.
pub fn put_due(due: Option<u64>, clock: &mut u64) -> u32
    ensures status { result ≡ due_status_of due }
    ensures clock { IfSome due (λ moment. clock.new ≡ moment) }
    ensures no_clock { result ≢ 0 → clock.new ≡ clock.old }
{
    match due {
        Some(moment) => {
            *clock = moment;
            DONE
        }
        None => NO_TIMER,
    }
}

/// The number of what `next` came to.
fn step_number(next: Next) -> u32
    ensures { result ≡ step_number next }
{
    match next {
        Next::Turn => 0,
        Next::Entry => 1,
        Next::Rest => 2,
        Next::Halted => 3,
    }
}

/// Reports the turn that awaits its call, if one does.
fn tell_turn(session: &Session, turn: &mut PlainTurn)
    ensures { TellsTurn session.now.turn turn.old turn.new }
{
    if let Some(awaited) = session.turn() {
        turn.tell(awaited.process, awaited.origin, awaited.stimulus);
    }
}

/// Works to the next turn, entry or rest.
pub fn go_on(session: &mut Session, step: &mut u32, turn: &mut PlainTurn) -> u32
    ensures status { result ≡ next_status_of session.old }
    ensures goes { result ≡ 0 → GoesNext step.new turn.old turn.new session.old session.new }
    ensures unchanged { result ≢ 0 → (session.new ≡ session.old) × (step.new ≡ step.old) × (turn.new ≡ turn.old) }
{
    match session.next() {
        Ok(next) => {
            *step = step_number(next);
            tell_turn(session, turn);
            DONE
        }
        Err(refusal) => refusal_status(refusal),
    }
}

/// Submits the call that a struct says.
pub fn take_call(session: &mut Session, plain: &PlainCall) -> u32
    ensures status { result ≡ submit_status_of plain.now session.old }
    ensures taken { result ≡ 0 → TakesCall plain.now session.old session.new }
    ensures unchanged { result ≢ 0 → session.new ≡ session.old }
{
    match session.submit_from(plain) {
        Ok(true) => DONE,
        Ok(false) => NO_CALL,
        Err(refusal) => refusal_status(refusal),
    }
}

/// Puts a line, without its end, to the front of the buffer if it fits, and reports its length.
pub fn put_line(text: &[u8], line: &mut [u8], length: &mut usize) -> u32
    requires { 0 < size_of text.now }
    ensures length { length.new + 1 ≡ size_of text.now }
    ensures status { result ≡ (if nat_lt (size_of line.old + 1) (size_of text.now) then 20 else 0) }
    ensures fits { result ≡ 0 → length.new ≤ size_of line.new }
    ensures front { result ≡ 0 → take length.new line.new ≡ take length.new text.now }
    ensures rest { result ≡ 0 → drop length.new line.new ≡ drop length.new line.old }
    ensures unchanged { result ≢ 0 → line.new ≡ line.old }
{
    let size = text.len() - 1;
    *length = size;
    if size > line.len() {
        return NO_ROOM;
    }
    line[..size].copy_from_slice(&text[..size]);
    DONE
}

/// Puts the bytes of the frame that the last entry reports as sent to the front of the buffer, and reports their number.
pub fn put_sent(session: &Session, bytes: &mut [u8], length: &mut usize) -> u32
    ensures status { result ≡ sent_status_of (size_of bytes.old) (sent_in session.now.last) }
    ensures frame { result ≡ 0 → HasSent (take length.new bytes.new) session.now }
    ensures fits { result ≡ 0 → length.new ≤ size_of bytes.new }
    ensures rest { result ≡ 0 → drop length.new bytes.new ≡ drop length.new bytes.old }
    ensures length { result ≡ 20 → IsSomeAnd (sent_in session.now.last) (λ frame. length.new ≡ size_of frame.items) }
    ensures no_bytes { result ≢ 0 → bytes.new ≡ bytes.old }
    ensures no_length { result ≢ 0 → result ≢ 20 → length.new ≡ length.old }
{
    let Some(frame) = session.sent() else {
        return NO_FRAME;
    };
    let size = frame.len();
    *length = size;
    if size > bytes.len() {
        return NO_ROOM;
    }
    bytes[..size].copy_from_slice(frame.as_slice());
    DONE
}

/// Puts the line of a session's last entry, without its end, to the front of the buffer. The line is made in `text`.
fn put_entry_line(
    session: &Session,
    text: &mut LineRoom,
    line: &mut [u8],
    length: &mut usize,
) -> u32
    ensures status { result ≡ line_status_of (size_of line.old) session.now.last }
    ensures line { result ≡ 0 → IsLastLine (take length.new line.new) session.now }
    ensures fits { result ≡ 0 → length.new ≤ size_of line.new }
    ensures rest { result ≡ 0 → drop length.new line.new ≡ drop length.new line.old }
    ensures length { result ≡ 20 → IsSomeAnd session.now.last (λ entry. length.new + 1 ≡ size_of (entry_line entry)) }
    ensures no_line { result ≢ 0 → line.new ≡ line.old }
    ensures no_length { result ≢ 0 → result ≢ 20 → length.new ≡ length.old }
{
    text.clear();
    match session.push_line(text) {
        Ok(()) => put_line(text.as_slice(), line, length),
        Err(refusal) => refusal_status(refusal),
    }
}

/// The same, where the line is made on the stack.
// Out of line, so that only a quiet mote needs that much of the stack.
#[inline(never)]
fn put_quiet_line(session: &Session, line: &mut [u8], length: &mut usize) -> u32
    ensures status { result ≡ line_status_of (size_of line.old) session.now.last }
    ensures line { result ≡ 0 → IsLastLine (take length.new line.new) session.now }
    ensures fits { result ≡ 0 → length.new ≤ size_of line.new }
    ensures rest { result ≡ 0 → drop length.new line.new ≡ drop length.new line.old }
    ensures length { result ≡ 20 → IsSomeAnd session.now.last (λ entry. length.new + 1 ≡ size_of (entry_line entry)) }
    ensures no_line { result ≢ 0 → line.new ≡ line.old }
    ensures no_length { result ≢ 0 → result ≢ 20 → length.new ≡ length.old }
{
    put_entry_line(session, &mut LineRoom::new(), line, length)
}

/// Puts the line of the last entry, without its end, to the front of the buffer.
pub fn put_last_line(open_mote: &mut OpenMote, line: &mut [u8], length: &mut usize) -> u32
    ensures session { open_mote.new.session ≡ open_mote.old.session }
    ensures status { result ≡ line_status_of (size_of line.old) open_mote.old.session.last }
    ensures line { result ≡ 0 → IsLastLine (take length.new line.new) open_mote.old.session }
    ensures fits { result ≡ 0 → length.new ≤ size_of line.new }
    ensures rest { result ≡ 0 → drop length.new line.new ≡ drop length.new line.old }
    ensures length { result ≡ 20 → IsSomeAnd open_mote.old.session.last (λ entry. length.new + 1 ≡ size_of (entry_line entry)) }
    ensures no_line { result ≢ 0 → line.new ≡ line.old }
    ensures no_length { result ≢ 0 → result ≢ 20 → length.new ≡ length.old }
{
    match &mut open_mote.line {
        Some(text) => put_entry_line(&open_mote.session, text, line, length),
        None => put_quiet_line(&open_mote.session, line, length),
    }
}
