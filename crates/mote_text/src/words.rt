//! The words of an entry: each function puts its words at a position, with a blank after each.
#![tactic(auto, unfolding(crate::specs::Code::EntryLines::blanked))]

ghost use Rattle.std.specs.Prelude.{◌≡◌, ◌≤◌, ◌+◌, ◌++◌, [], ◌∷◌, length, take, codes, decimal, slice_index};
ghost use Rattle.hex.specs.Hex.{encode_lower};
ghost use Rattle.mote_types.specs.declared.entry.Entry.{Entry as Made};
ghost use Rattle.mote_types.specs.declared.reply.Reply.{Reply as Answered};
ghost use Rattle.mote_text.specs.EntryText.{entry_words, payload_word, origin_word, reply_words, stimulus_words};
ghost use Rattle.mote_text.specs.Code.EntryLines.{blanked, entry_line_limit};
ghost use Rattle.mote_text.specs.Code.Appending.{Puts};

use crate::page::Page;
use mote_types::entry::{Input, Note};
use mote_types::event::{Origin, Payload, Stimulus};
use mote_types::reply::{HeapStats, Reply};

#[inline(always)]
pub(crate) fn put_payload<const CAPACITY: usize>(
    page: &mut Page<CAPACITY>,
    at: usize,
    payload: &Payload,
) -> usize
    requires { at + 270 ≤ CAPACITY }
    ensures { Puts page.old.bytes page.new.bytes at result 256 (blanked (payload_word payload.now ∷ [])) }
{
    match payload {
        Payload::Empty => page.put_front(at, b"-               ", 2),
        Payload::Num(n) => page.put_number(at, *n),
        Payload::Line(bytes) => put_line_bytes(page, at, bytes.as_slice()),
    }
}

/// Puts the bytes that an event carries.
fn put_line_bytes<const CAPACITY: usize>(
    page: &mut Page<CAPACITY>,
    at: usize,
    bytes: &[u8],
) -> usize
    requires few { length bytes.now ≤ 127 }
    requires room { at + 270 ≤ CAPACITY }
    ensures { Puts page.old.bytes page.new.bytes at result 256 (blanked ((codes "x" ++ encode_lower bytes.now) ∷ [])) }
{
    let at = page.put_front(at, b"x               ", 1);
    let end = page.put_digits(at, bytes);
    page.put(end, b" ")
}

/// The word of an origin and blanks. The last byte is the length of the word with one blank.
#[inline(always)]
fn word_of_origin(origin: Origin) -> &'static [u8; 16]
    ensures word { blanked (origin_word origin ∷ []) ≡ take (slice_index result.now 15) result.now }
    ensures short { slice_index result.now 15 ≤ 9 }
{
    match origin {
        Origin::Event => b"event          \x06",
        Origin::Synch => b"synch          \x06",
        Origin::Poll => b"poll           \x05",
        Origin::Callback => b"callback       \x09",
        Origin::Answer => b"answer         \x07",
    }
}

#[inline(always)]
pub(crate) fn put_origin<const CAPACITY: usize>(
    page: &mut Page<CAPACITY>,
    at: usize,
    origin: Origin,
) -> usize
    requires { at + 16 ≤ CAPACITY }
    ensures { Puts page.old.bytes page.new.bytes at result 9 (blanked (origin_word origin ∷ [])) }
{
    let block = word_of_origin(origin);
    page.put_front(at, block, block[15] as usize)
}

#[inline(never)]
fn put_stats<const CAPACITY: usize>(
    page: &mut Page<CAPACITY>,
    at: usize,
    stats: &HeapStats,
) -> usize
    requires { at + 127 ≤ CAPACITY }
    ensures { Puts page.old.bytes page.new.bytes at result 111 (blanked (reply_words (Answered.Stats stats.now))) }
{
    let at = page.put_front(at, b"stats           ", 6);
    let at = page.put_number(at, stats.allocated);
    let at = page.put_number(at, stats.overhead);
    let at = page.put_number(at, stats.available);
    let at = page.put_number(at, stats.footprint);
    page.put_number(at, stats.chunks)
}

/// Puts a reply that is not `Done`, which most are.
#[inline(never)]
fn put_long_reply<const CAPACITY: usize>(
    page: &mut Page<CAPACITY>,
    at: usize,
    reply: &Reply,
) -> usize
    requires { at + 152 ≤ CAPACITY }
    ensures { Puts page.old.bytes page.new.bytes at result 136 (blanked (reply_words reply.now)) }
{
    match reply {
        Reply::Done => page.put_front(at, b"done            ", 5),
        Reply::Refused(refusal) => {
            let at = page.put_front(at, b"refused         ", 8);
            page.put_small_number(at, refusal.number())
        }
        Reply::Num(n) => {
            let at = page.put_front(at, b"num             ", 4);
            page.put_number(at, *n)
        }
        Reply::Wide(n) => {
            let at = page.put_front(at, b"wide            ", 5);
            page.put_large_number(at, *n)
        }
        Reply::Flag(false) => page.put_front(at, b"flag false      ", 11),
        Reply::Flag(true) => page.put_front(at, b"flag true       ", 10),
        Reply::Bytes(chunk) => {
            let at = page.put_front(at, b"bytes           ", 6);
            page.put_hex(at, chunk.as_slice())
        }
        Reply::Stats(stats) => put_stats(page, at, stats),
    }
}

#[inline(always)]
fn put_reply<const CAPACITY: usize>(page: &mut Page<CAPACITY>, at: usize, reply: &Reply) -> usize
    requires { at + 152 ≤ CAPACITY }
    ensures { Puts page.old.bytes page.new.bytes at result 136 (blanked (reply_words reply.now)) }
{
    match reply {
        Reply::Done => page.put_front(at, b"done            ", 5),
        _ => put_long_reply(page, at, reply),
    }
}

/// Puts the stimulus that a process receives, at most 277 bytes.
#[inline(always)]
pub(crate) fn put_stimulus<const CAPACITY: usize>(
    page: &mut Page<CAPACITY>,
    at: usize,
    stimulus: &Stimulus,
) -> usize
    requires { at + 291 ≤ CAPACITY }
    ensures { Puts page.old.bytes page.new.bytes at result 277 (blanked (stimulus_words stimulus.now)) }
{
    match stimulus {
        Stimulus::Event(event) => {
            let at = page.put_small_number(at, event.code);
            put_payload(page, at, &event.payload)
        }
        Stimulus::Answer(reply) => put_reply(page, at, reply),
        Stimulus::Callback(timer) => page.put_small_number(at, *timer),
    }
}

/// Puts the words of an input.
// Most inputs are ticks, whose words are soon written: a call would cost half as much again.
#[inline(always)]
pub(crate) fn put_input<const CAPACITY: usize>(
    page: &mut Page<CAPACITY>,
    at: usize,
    input: &Input,
) -> usize
    requires { at + entry_line_limit ≤ CAPACITY }
    ensures { Puts page.old.bytes page.new.bytes at result entry_line_limit (blanked (entry_words (Made.Input input.now))) }
{
    match input {
        Input::Tick(n) => {
            let at = page.put_front(at, b"> tick          ", 7);
            page.put_number(at, *n)
        }
        _ => put_bytes_input(page, at, input),
    }
}

/// As `put_input`, of bytes.
#[inline(never)]
fn put_bytes_input<const CAPACITY: usize>(
    page: &mut Page<CAPACITY>,
    at: usize,
    input: &Input,
) -> usize
    requires { at + entry_line_limit ≤ CAPACITY }
    ensures { Puts page.old.bytes page.new.bytes at result entry_line_limit (blanked (entry_words (Made.Input input.now))) }
{
    match input {
        Input::Tick(n) => {
            let at = page.put_front(at, b"> tick          ", 7);
            page.put_number(at, *n)
        }
        Input::Serial(bytes) => {
            let at = page.put_front(at, b"> serial        ", 9);
            page.put_hex(at, bytes.as_slice())
        }
        Input::Frame(bytes) => {
            let at = page.put_front(at, b"> frame         ", 8);
            page.put_hex(at, bytes.as_slice())
        }
    }
}

/// Puts the words of a note.
pub(crate) fn put_note<const CAPACITY: usize>(
    page: &mut Page<CAPACITY>,
    at: usize,
    note: &Note,
) -> usize
    requires { at + entry_line_limit ≤ CAPACITY }
    ensures { Puts page.old.bytes page.new.bytes at result entry_line_limit (blanked (entry_words (Made.Note note.now))) }
{
    match note {
        Note::Lost(refusal) => {
            let at = page.put_front(at, b"note lost       ", 10);
            page.put_small_number(at, refusal.number())
        }
        Note::Sent(bytes) => {
            let at = page.put_front(at, b"note sent       ", 10);
            page.put_hex(at, bytes.as_slice())
        }
    }
}
