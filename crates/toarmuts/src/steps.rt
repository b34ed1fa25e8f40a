//! The calls by which C asks a mote step by step.
//!
//! Each works on the session that the mote holds. What C passes can be anything: a mote that is closed, a call where none is awaited,
//! numbers out of range have their statuses, and then nothing is changed.

ghost use Rattle.std.specs.Prelude.{◌≡◌, ◌≢◌, ◌≤◌, ◌+◌, ◌↔◌, false, true, None, Some, length as size_of, take, drop, is_some, IsSomeAnd};
ghost use Rattle.kernel_core.specs.Machine.{is_bootable};
ghost use Rattle.timer_core.specs.Deadlines.{next_deadline};
ghost use Rattle.library_core.specs.Sessions.{session_in};
ghost use Rattle.mote_session.specs.Sent.{sent_in};
ghost use Rattle.mote_text.specs.EntryText.{entry_line};
ghost use Rattle.library_core.specs.BundledTurns.{TakesTurn, bundled_status};
ghost use Rattle.library_core.specs.Inputs.{input_said};
ghost use Rattle.library_core.specs.Steps.{Goes, GoesNext, HasSent, IsLastLine, IsOpened, TakesCall, TakesInput, TakesScriptLine, submit_status, config_in, due_status, feed_status, input_status, line_status, next_status, open_status, sent_status};

use library_core::application::PlainApplication;
use library_core::bundled_turn::take_turn;
use library_core::call::PlainCall;
use library_core::configuration::Configuration;
use library_core::in_session::{
    feed_input, feed_line, go_on, put_due, put_last_line, put_sent, take_call,
};
use library_core::input::input_of;
use library_core::mote::Mote;
use library_core::open_mote::boot;
use library_core::status::{BAD_SIZES, CLOSED, DONE, IS_OPEN, OUT_OF_MEMORY};
use library_core::turn::PlainTurn;
use mote_session::{BootFault, Config};
use std::alloc::Global;

/// Opens a mote with `applications` applications: processes 4, 5, .. All memory that it will use is allocated here, for a
/// quiet one no room for a line: `toarmuts_line` makes each line on the stack then.
#[unsafe(no_mangle)]
pub extern "C" fn toarmuts_open(
    alloc: Global,
    configuration: &Configuration,
    applications: u32,
    mote: &mut Mote,
) -> u32
    ensures opened { result ≡ 0 → ((session_in mote.old) ≡ None)
        × IsSomeAnd (session_in mote.new) (IsOpened (config_in configuration.now applications)) }
    ensures unchanged { result ≢ 0 → (session_in mote.new) ≡ (session_in mote.old) }
    ensures is_open { (result ≡ 23) ↔ (is_some (session_in mote.old) ≡ true) }
    ensures bad_sizes { (session_in mote.old) ≡ None → (result ≡ 19) ↔ (is_bootable (config_in configuration.now applications) ≡ false) }
    ensures else_memory { result ≢ 0 → result ≢ 19 → result ≢ 23 → result ≡ 21 }
{
    if let Some(_) = mote.open_mut() {
        return IS_OPEN;
    }
    let Ok(apps) = u8::try_from(applications) else {
        return BAD_SIZES;
    };
    let sizes = configuration.sizes();
    let config = Config {
        mmem: sizes.mmem,
        heap: sizes.heap,
        apps,
        quota: sizes.quota,
        header: sizes.header,
    };
    match boot(alloc, config, configuration.is_quiet()) {
        Ok(open_mote) => {
            mote.put(alloc, open_mote);
            DONE
        }
        Err(BootFault::BadSizes) => BAD_SIZES,
        Err(BootFault::Memory) => OUT_OF_MEMORY,
    }
}

/// Feeds the input of a line of a script, without its end.
#[unsafe(no_mangle)]
pub extern "C" fn toarmuts_feed(alloc: Global, mote: &mut Mote, line: &[u8]) -> u32
    ensures status { result ≡ feed_status line.now (session_in mote.old) }
    ensures fed { result ≡ 0 → Goes (TakesScriptLine line.now) (session_in mote.old) (session_in mote.new) }
    ensures unchanged { result ≢ 0 → (session_in mote.new) ≡ (session_in mote.old) }
{
    let Some(open_mote) = mote.open_mut() else {
        return CLOSED;
    };
    feed_line(&mut open_mote.session, line)
}

/// Feeds an input of this kind: 0 ticks, 1 bytes on the serial line, 2 a frame of bytes.
#[unsafe(no_mangle)]
pub extern "C" fn toarmuts_feed_input(
    alloc: Global,
    mote: &mut Mote,
    kind: u32,
    ticks: u32,
    bytes: &[u8],
) -> u32
    ensures status { result ≡ input_status (input_said kind ticks bytes.now) (session_in mote.old) }
    ensures fed { result ≡ 0 → Goes (TakesInput (input_said kind ticks bytes.now)) (session_in mote.old) (session_in mote.new) }
    ensures unchanged { result ≢ 0 → (session_in mote.new) ≡ (session_in mote.old) }
{
    let Some(open_mote) = mote.open_mut() else {
        return CLOSED;
    };
    feed_input(&mut open_mote.session, input_of(kind, ticks, bytes))
}

/// Works to the next turn, entry or rest; `step` says which, and `turn` is the turn.
#[unsafe(no_mangle)]
pub extern "C" fn toarmuts_next(
    alloc: Global,
    mote: &mut Mote,
    step: &mut u32,
    turn: &mut PlainTurn,
) -> u32
    ensures status { result ≡ next_status (session_in mote.old) }
    ensures goes { result ≡ 0 → Goes (GoesNext step.new turn.old turn.new) (session_in mote.old) (session_in mote.new) }
    ensures unchanged { result ≢ 0 → ((session_in mote.new) ≡ (session_in mote.old)) × (step.new ≡ step.old) × (turn.new ≡ turn.old) }
{
    let Some(open_mote) = mote.open_mut() else {
        return CLOSED;
    };
    go_on(&mut open_mote.session, step, turn)
}

/// Submits the call of the application whose turn it is.
#[unsafe(no_mangle)]
pub extern "C" fn toarmuts_submit(alloc: Global, mote: &mut Mote, call: &PlainCall) -> u32
    ensures status { result ≡ submit_status call.now (session_in mote.old) }
    ensures taken { result ≡ 0 → Goes (TakesCall call.now) (session_in mote.old) (session_in mote.new) }
    ensures unchanged { result ≢ 0 → (session_in mote.new) ≡ (session_in mote.old) }
{
    let Some(open_mote) = mote.open_mut() else {
        return CLOSED;
    };
    take_call(&mut open_mote.session, call)
}

/// Submits the call that a bundled application makes in its turn: the application is one that C holds.
#[unsafe(no_mangle)]
pub extern "C" fn toarmuts_submit_bundled(
    alloc: Global,
    mote: &mut Mote,
    application: &mut PlainApplication,
) -> u32
    ensures status { result ≡ bundled_status application.old (session_in mote.old) }
    ensures taken { result ≡ 0 → Goes (TakesTurn application.old application.new) (session_in mote.old) (session_in mote.new) }
    ensures unchanged { result ≢ 0 → ((session_in mote.new) ≡ (session_in mote.old)) × (application.new ≡ application.old) }
{
    let Some(open_mote) = mote.open_mut() else {
        return CLOSED;
    };
    take_turn(&mut open_mote.session, application)
}

/// Puts the transcript's line of the last entry, without its end, to the front of the buffer, and reports its length, also where
/// it is longer than the buffer.
#[unsafe(no_mangle)]
pub extern "C" fn toarmuts_line(
    alloc: Global,
    mote: &mut Mote,
    line: &mut [u8],
    length: &mut usize,
) -> u32
    ensures status { result ≡ line_status (size_of line.old) (session_in mote.old) }
    ensures line { result ≡ 0 → IsSomeAnd (session_in mote.old) (IsLastLine (take length.new line.new)) }
    ensures fits { result ≡ 0 → length.new ≤ size_of line.new }
    ensures rest { result ≡ 0 → drop length.new line.new ≡ drop length.new line.old }
    ensures length { result ≡ 20
        → IsSomeAnd (session_in mote.old) (λ session. IsSomeAnd session.last (λ entry. length.new + 1 ≡ size_of (entry_line entry))) }
    ensures no_line { result ≢ 0 → line.new ≡ line.old }
    ensures no_length { result ≢ 0 → result ≢ 20 → length.new ≡ length.old }
    ensures unchanged { (session_in mote.new) ≡ (session_in mote.old) }
{
    let Some(open_mote) = mote.open_mut() else {
        return CLOSED;
    };
    put_last_line(open_mote, line, length)
}

/// Puts the bytes of the frame that the last entry reports as sent to the front of the buffer, and reports their number, also where
/// they are more than the buffer has.
#[unsafe(no_mangle)]
pub extern "C" fn toarmuts_sent(
    alloc: Global,
    mote: &mut Mote,
    bytes: &mut [u8],
    length: &mut usize,
) -> u32
    ensures status { result ≡ sent_status (size_of bytes.old) (session_in mote.old) }
    ensures frame { result ≡ 0 → IsSomeAnd (session_in mote.old) (HasSent (take length.new bytes.new)) }
    ensures fits { result ≡ 0 → length.new ≤ size_of bytes.new }
    ensures rest { result ≡ 0 → drop length.new bytes.new ≡ drop length.new bytes.old }
    ensures length { result ≡ 20
        → IsSomeAnd (session_in mote.old) (λ session. IsSomeAnd (sent_in session.last) (λ frame. length.new ≡ size_of frame.items)) }
    ensures no_bytes { result ≢ 0 → bytes.new ≡ bytes.old }
    ensures no_length { result ≢ 0 → result ≢ 20 → length.new ≡ length.old }
    ensures unchanged { (session_in mote.new) ≡ (session_in mote.old) }
{
    let Some(open_mote) = mote.open_mut() else {
        return CLOSED;
    };
    put_sent(&open_mote.session, bytes, length)
}

/// Reports the ticks since boot.
#[unsafe(no_mangle)]
pub extern "C" fn toarmuts_clock(alloc: Global, mote: &mut Mote, clock: &mut u64) -> u32
    ensures status { result ≡ open_status (session_in mote.old) }
    ensures clock { result ≡ 0 → IsSomeAnd (session_in mote.old) (λ session. clock.new ≡ session.machine.clock) }
    ensures no_clock { result ≢ 0 → clock.new ≡ clock.old }
    ensures unchanged { (session_in mote.new) ≡ (session_in mote.old) }
{
    let Some(open_mote) = mote.open_mut() else {
        return CLOSED;
    };
    *clock = open_mote.session.clock();
    DONE
}

/// Reports when the mote's next timer runs out.
#[unsafe(no_mangle)]
pub extern "C" fn toarmuts_due(alloc: Global, mote: &mut Mote, clock: &mut u64) -> u32
    ensures status { result ≡ due_status (session_in mote.old) }
    ensures clock { result ≡ 0 → IsSomeAnd (session_in mote.old) (λ session. next_deadline session.machine.timers ≡ Some clock.new) }
    ensures no_clock { result ≢ 0 → clock.new ≡ clock.old }
    ensures unchanged { (session_in mote.new) ≡ (session_in mote.old) }
{
    let Some(open_mote) = mote.open_mut() else {
        return CLOSED;
    };
    put_due(open_mote.session.next_deadline(), clock)
}

/// Frees the mote's memory.
#[unsafe(no_mangle)]
pub extern "C" fn toarmuts_close(alloc: Global, mote: &mut Mote) -> u32
    ensures status { result ≡ open_status (session_in mote.old) }
    ensures closed { (session_in mote.new) ≡ None }
{
    match mote.take(alloc) {
        Some(_) => DONE,
        None => CLOSED,
    }
}
