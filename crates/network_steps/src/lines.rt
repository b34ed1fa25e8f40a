//! The lines of a network's transcript.
#![tactic(auto, unfolding(mote_text::specs::EntryText::line_of))]

ghost use Rattle.std.specs.Prelude.{◌≡◌, ◌≤◌, ◌<◌, ◌+◌, ◌%◌, ◌++◌, codes, decimal, length};
ghost use Rattle.mote_text.specs.Code.Appending.{HasRoom};
ghost use Rattle.network_steps.specs.Code.StepLines.{last_entry_line};
ghost use Rattle.network_steps.specs.Code.Widths.{mote_line_limit, number_limit, own_line_limit};
ghost use Rattle.network_steps.specs.NetworkText.{clock_line, frame_line, last_line, mote_number, unheard_line};

use itoa::Buffer;
use mote_session::session::Session;
use mote_text::numbers::push_number_word;
use mote_text::output_buffer::OutputBuffer;
use mote_text::script::End;
use mote_text::transcript::push_final_line;

/// No line of the network's own is longer, with its end.
pub const OWN_LINE: usize = 96;

/// No line of a mote is longer, with the mote's number in front.
pub const MOTE_LINE: usize = 700;

/// Appends the number of a mote: 1 for the first one.
#[tactic(auto)]
fn push_mote_number(mote: usize, text: &mut OutputBuffer)
    requires { HasRoom text.old number_limit }
    ensures text { text.new.items ≡ text.old.items ++ mote_number mote }
    ensures length { length text.new.items ≤ length text.old.items + number_limit }
{
    // One more than the largest `usize` is a number, too.
    text.push(Buffer::new().format(mote as u128 + 1).as_bytes());
}

/// The last digit of a number.
fn digit(n: u32) -> u8
    ensures { result ≡ 48 + n % 10 }
{
    b'0' + (n % 10) as u8
}

/// Appends a number of three or four digits, and a blank.
#[tactic(auto, using(crate::proofs::Digits::three_digits, crate::proofs::Digits::four_digits))]
fn push_digits(n: u32, text: &mut OutputBuffer)
    requires least { 100 ≤ n }
    requires most { n < 10_000 }
    requires room { HasRoom text.old 5 }
    ensures text { text.new.items ≡ text.old.items ++ (decimal n ++ codes " ") }
    ensures length { length text.new.items ≤ length text.old.items + 5 }
{
    if n < 1_000 {
        text.push(&[b'0' + (n / 100) as u8, digit(n / 10), digit(n), b' ']);
    } else {
        text.push(&[
            b'0' + (n / 1_000) as u8,
            digit(n / 100),
            digit(n / 10),
            digit(n),
            b' ',
        ]);
    }
}

/// Appends the number of a mote after the first 255, and a blank.
// Up to 9,999 the digits are written where they stay; `push_number_word` makes those of such a number apart, and copies them.
#[inline(never)]
fn push_long_mote_word(mote: usize, text: &mut OutputBuffer)
    requires long { 255 ≤ mote }
    requires room { HasRoom text.old (number_limit + 1) }
    ensures text { text.new.items ≡ text.old.items ++ (mote_number mote ++ codes " ") }
    ensures length { length text.new.items ≤ length text.old.items + (number_limit + 1) }
{
    if mote < 9_999 {
        push_digits(mote as u32 + 1, text);
    } else if mote < 4_294_967_295 {
        push_number_word(mote as u32 + 1, text);
    } else {
        push_mote_number(mote, text);
        text.push(b" ");
    }
}

/// Appends the number of a mote, and a blank.
#[inline(always)]
fn push_mote_word(mote: usize, text: &mut OutputBuffer)
    requires { HasRoom text.old (number_limit + 1) }
    ensures text { text.new.items ≡ text.old.items ++ (mote_number mote ++ codes " ") }
    ensures length { length text.new.items ≤ length text.old.items + (number_limit + 1) }
{
    if mote < 255 {
        push_number_word(mote as u32 + 1, text);
    } else {
        push_long_mote_word(mote, text);
    }
}

/// Appends the line that says that the clock went on: `= 14`.
///
/// Source: the transcript format is this project's profile.
pub fn push_clock_line(clock: u64, text: &mut OutputBuffer)
    requires { HasRoom text.old own_line_limit }
    ensures { text.new.items ≡ text.old.items ++ clock_line clock }
{
    text.push(b"= ");
    text.push(Buffer::new().format(clock).as_bytes());
    text.push(b"\n");
}

/// Appends a line of a word of at most six bytes and two motes, as `lost 1 2`.
///
/// Source: the transcript format is this project's profile.
pub fn push_frame_line(word: &[u8], from: usize, to: usize, text: &mut OutputBuffer)
    requires short { length word.now ≤ 6 }
    requires room { HasRoom text.old own_line_limit }
    ensures { text.new.items ≡ text.old.items ++ frame_line word.now from to }
{
    text.push(word);
    text.push(b" ");
    push_mote_number(from, text);
    text.push(b" ");
    push_mote_number(to, text);
    text.push(b"\n");
}

/// Appends the line that says that a mote was halted before an input from outside: `missed - 2`.
///
/// Source: the transcript format is this project's profile.
pub fn push_unheard_line(mote: usize, text: &mut OutputBuffer)
    requires { HasRoom text.old own_line_limit }
    ensures { text.new.items ≡ text.old.items ++ unheard_line mote }
{
    text.push(b"missed - ");
    push_mote_number(mote, text);
    text.push(b"\n");
}

/// Appends the line of a mote's last entry, with the mote's number in front: `2 > tick 3`. Appends nothing where the mote has made no
/// entry, or its last turn awaits a call.
///
/// Source: the transcript format is this project's profile.
#[tactic(auto)]
#[inline(always)]
pub fn push_last_entry(mote: usize, session: &Session, text: &mut OutputBuffer)
    requires { HasRoom text.old mote_line_limit }
    ensures { text.new.items ≡ text.old.items ++ last_entry_line mote session.now.last }
{
    if session.has_line() {
        push_mote_word(mote, text);
        let _ = session.push_line(text);
    }
}

/// Appends the last line of a transcript: `halt`, `bad line 3` or `too long`; nothing if the whole script was executed.
///
/// Source: the transcript format is this project's profile.
pub fn push_last_line(end: End, text: &mut OutputBuffer)
    requires { HasRoom text.old mote_line_limit }
    ensures { text.new.items ≡ text.old.items ++ last_line end }
{
    match end {
        End::Halted => text.push(b"halt\n"),
        End::Finished => {}
        End::BadLine(_) | End::TooLong => push_final_line(end, text),
    }
}

/// Replaces the buffer's content with the last line of a transcript, as `push_last_line` appends it.
pub fn last_text(end: End, text: &mut OutputBuffer)
    ensures { text.new.items ≡ last_line end }
{
    text.clear();
    push_last_line(end, text);
}
