//! The lines of a transcript.
#![tactic(auto, unfolding(crate::specs::Code::EntryLines::blanked))]

ghost use Rattle.std.specs.Prelude.{◌≡◌, ◌≤◌, ◌+◌, ◌++◌, ◌||◌, [], ◌∷◌, not, length, codes, decimal};
ghost use Rattle.mote_types.specs.declared.entry.Entry.{Entry as Made};
ghost use Rattle.mote_text.specs.EntryText.{entry_line, entry_words};
ghost use Rattle.mote_text.specs.declared.script.End.{End as Ending};
ghost use Rattle.mote_text.specs.Code.EntryLines.{blanked, entry_line_limit};
ghost use Rattle.mote_text.specs.Code.Appending.{HasRoom, HasRoomOf, Puts};
ghost use Rattle.mote_text.specs.Transcript.{final_line, is_shown, prints_or_sends};

use crate::calls::put_call;
use crate::output_buffer::{OutputBuffer, TextBuffer};
use crate::page::Page;
use crate::script::End;
use crate::words::{put_input, put_note, put_origin, put_stimulus};
use mote_types::call::Call;
use mote_types::entry::{Entry, Input, Note};
use mote_types::event::{Origin, Pid, Stimulus};

/// Puts the line of an input, with its end.
#[inline(always)]
fn put_input_line<const CAPACITY: usize>(
    page: &mut Page<CAPACITY>,
    at: usize,
    input: &Input,
) -> usize
    requires { at + entry_line_limit ≤ CAPACITY }
    ensures { Puts page.old.bytes page.new.bytes at result entry_line_limit (entry_line (Made.Input input.now)) }
{
    let end = put_input(page, at, input);
    page.end_line(end);
    end
}

/// Puts the words of a turn.
#[inline(always)]
fn put_turn<const CAPACITY: usize>(
    page: &mut Page<CAPACITY>,
    at: usize,
    pid: Pid,
    origin: Origin,
    stimulus: &Stimulus,
    call: &Call,
) -> usize
    requires { at + entry_line_limit ≤ CAPACITY }
    ensures { Puts page.old.bytes page.new.bytes at result entry_line_limit (blanked (entry_words (Made.Turn pid origin stimulus.now call.now))) }
{
    let at = page.put_small_number(at, pid.0);
    let at = put_origin(page, at, origin);
    let at = put_stimulus(page, at, stimulus);
    put_call(page, at, call)
}

/// Puts the line of a turn, with its end.
#[inline(always)]
fn put_turn_line<const CAPACITY: usize>(
    page: &mut Page<CAPACITY>,
    at: usize,
    pid: Pid,
    origin: Origin,
    stimulus: &Stimulus,
    call: &Call,
) -> usize
    requires { at + entry_line_limit ≤ CAPACITY }
    ensures { Puts page.old.bytes page.new.bytes at result entry_line_limit (entry_line (Made.Turn pid origin stimulus.now call.now)) }
{
    let end = put_turn(page, at, pid, origin, stimulus, call);
    page.end_line(end);
    end
}

/// Puts the line of a note, with its end.
fn put_note_line<const CAPACITY: usize>(page: &mut Page<CAPACITY>, at: usize, note: &Note) -> usize
    requires { at + entry_line_limit ≤ CAPACITY }
    ensures { Puts page.old.bytes page.new.bytes at result entry_line_limit (entry_line (Made.Note note.now)) }
{
    let end = put_note(page, at, note);
    page.end_line(end);
    end
}

/// Appends the line of an input that is submitted, with its end.
///
/// Source: the transcript format is this project's profile.
// As `put_input`.
#[inline(always)]
pub fn push_input_line<const CAPACITY: usize>(input: &Input, line: &mut TextBuffer<CAPACITY>)
    requires { HasRoomOf CAPACITY line.old entry_line_limit }
    ensures text { line.new.items ≡ line.old.items ++ entry_line (Made.Input input.now) }
    ensures length { length line.new.items ≤ length line.old.items + entry_line_limit }
{
    line.len = put_input_line(&mut line.page, line.len, input);
}

/// Appends the line of a turn, with its end.
///
/// Source: the transcript format is this project's profile.
// Most lines are turns: where it is called once, it saves no registers of its own.
#[inline(always)]
pub fn push_turn_line<const CAPACITY: usize>(
    pid: Pid,
    origin: Origin,
    stimulus: &Stimulus,
    call: &Call,
    line: &mut TextBuffer<CAPACITY>,
)
    requires { HasRoomOf CAPACITY line.old entry_line_limit }
    ensures text { line.new.items ≡ line.old.items ++ entry_line (Made.Turn pid origin stimulus.now call.now) }
    ensures length { length line.new.items ≤ length line.old.items + entry_line_limit }
{
    line.len = put_turn_line(&mut line.page, line.len, pid, origin, stimulus, call);
}

/// Appends the line of a note, with its end.
fn push_note_line<const CAPACITY: usize>(note: &Note, line: &mut TextBuffer<CAPACITY>)
    requires { HasRoomOf CAPACITY line.old entry_line_limit }
    ensures text { line.new.items ≡ line.old.items ++ entry_line (Made.Note note.now) }
    ensures length { length line.new.items ≤ length line.old.items + entry_line_limit }
{
    line.len = put_note_line(&mut line.page, line.len, note);
}

/// Appends the line of an entry, with its end.
///
/// Source: the transcript format is this project's profile.
#[tactic(auto, unfolding(crate::specs::EntryText::entry_line, crate::specs::EntryText::line_of, crate::specs::Code::EntryLines::blanked))]
pub fn push_entry<const CAPACITY: usize>(entry: &Entry, line: &mut TextBuffer<CAPACITY>)
    requires { HasRoomOf CAPACITY line.old entry_line_limit }
    ensures text { line.new.items ≡ line.old.items ++ entry_line entry.now }
    ensures length { length line.new.items ≤ length line.old.items + entry_line_limit }
{
    match entry {
        Entry::Input(input) => push_input_line(input, line),
        Entry::Turn {
            pid,
            origin,
            stimulus,
            call,
        } => push_turn_line(*pid, *origin, stimulus, call, line),
        Entry::Note(note) => push_note_line(note, line),
        Entry::Halt => line.push(b"halt\n"),
    }
}

/// Puts the words that name a malformed line of the script.
fn put_bad_words<const CAPACITY: usize>(page: &mut Page<CAPACITY>, at: usize, number: u32) -> usize
    requires { at + entry_line_limit ≤ CAPACITY }
    ensures { Puts page.old.bytes page.new.bytes at result entry_line_limit (blanked (codes "bad" ∷ codes "line" ∷ decimal number ∷ [])) }
{
    let at = page.put_front(at, b"bad line        ", 9);
    page.put_number(at, number)
}

/// Puts the line that names a malformed line of the script, with its end.
fn put_bad_line<const CAPACITY: usize>(page: &mut Page<CAPACITY>, at: usize, number: u32) -> usize
    requires { at + entry_line_limit ≤ CAPACITY }
    ensures { Puts page.old.bytes page.new.bytes at result entry_line_limit (final_line (Ending.BadLine number)) }
{
    let end = put_bad_words(page, at, number);
    page.end_line(end);
    end
}

/// Appends the last line of a transcript, with its end: nothing, where the run finished or halted.
///
/// Source: the transcript format is this project's profile.
#[tactic(auto, unfolding(crate::specs::EntryText::line_of, crate::specs::Code::EntryLines::blanked))]
pub fn push_final_line(end: End, line: &mut OutputBuffer)
    requires { HasRoom line.old entry_line_limit }
    ensures text { line.new.items ≡ line.old.items ++ final_line end }
    ensures length { length line.new.items ≤ length line.old.items + entry_line_limit }
{
    match end {
        End::Finished | End::Halted => {}
        End::BadLine(number) => {
            line.len = put_bad_line(&mut line.page, line.len, number);
        }
        End::TooLong => line.push(b"too long\n"),
    }
}

/// Puts the last line of a transcript, with its end, in place of what is in the buffer: nothing, where the run finished
/// or halted.
///
/// Source: the transcript format is this project's profile.
pub fn final_text(end: End, line: &mut OutputBuffer)
    ensures { line.new.items ≡ final_line end }
{
    line.clear();
    push_final_line(end, line);
}

/// Whether a quiet transcript shows a turn with this call. Who adds a call says so here.
#[tactic(auto, unfolding(crate::specs::Transcript::prints_or_sends))]
fn prints_or_sends(call: &Call) -> bool
    ensures { result ≡ prints_or_sends call.now }
{
    match call {
        Call::Print(_) | Call::PacketSend(_) => true,
        Call::Wait
        | Call::Exit
        | Call::Poll(_)
        | Call::Start(_)
        | Call::Kill(_)
        | Call::IsRunning(_)
        | Call::Post(..)
        | Call::Broadcast(..)
        | Call::PostSynch(..)
        | Call::AllocEvent
        | Call::TimerSet(..)
        | Call::TimerStop(_)
        | Call::TimerReset(_)
        | Call::TimerRestart(_)
        | Call::TimerExpired(_)
        | Call::CallbackSet(..)
        | Call::CallbackStop(_)
        | Call::Clock
        | Call::MmemAlloc(..)
        | Call::MmemFree(_)
        | Call::MmemWrite(..)
        | Call::MmemRead(..)
        | Call::MmemCopy(..)
        | Call::MmemAvail
        | Call::HeapAlloc(..)
        | Call::HeapRealloc(..)
        | Call::HeapFree(_)
        | Call::HeapWrite(..)
        | Call::HeapRead(..)
        | Call::HeapStats
        | Call::MembAlloc(_)
        | Call::MembFree(..)
        | Call::MembWrite(..)
        | Call::MembRead(..)
        | Call::MembNumFree(_)
        | Call::ListAdd(..)
        | Call::ListPush(..)
        | Call::ListInsert(..)
        | Call::ListPop(_)
        | Call::ListChop(_)
        | Call::ListRemove(..)
        | Call::ListHead(_)
        | Call::ListNext(..)
        | Call::ListLength(_)
        | Call::PacketOpen
        | Call::PacketRead(..)
        | Call::PacketDone
        | Call::PacketCount => false,
    }
}

/// Whether a transcript shows a turn with this call. A quiet one shows those whose call is `Print` or `PacketSend`.
///
/// Source: the transcript format is this project's profile.
pub fn is_turn_shown(call: &Call, quiet: bool) -> bool
    ensures { result ≡ (not quiet || prints_or_sends call.now) }
{
    !quiet || prints_or_sends(call)
}

/// Whether a transcript shows this entry. A quiet one shows the turns whose call is `Print` or `PacketSend`, the frames
/// that were sent, and `halt`.
///
/// Source: the transcript format is this project's profile.
pub fn is_shown(entry: &Entry, quiet: bool) -> bool
    ensures { result ≡ is_shown entry.now quiet }
{
    match entry {
        Entry::Turn { call, .. } => is_turn_shown(call, quiet),
        Entry::Note(Note::Sent(_)) | Entry::Halt => true,
        Entry::Input(_) | Entry::Note(Note::Lost(_)) => !quiet,
    }
}
