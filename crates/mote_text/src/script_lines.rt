//! The lines of a script, as a whole or from pieces of its bytes.

ghost use Rattle.std.specs.Prelude.{◌≡◌, ◌≢◌, ◌<◌, ◌≤◌, ◌+◌, ◌↔◌, ◌++◌, [], ◌∷◌, true, length, take, None, IfNone, IfSome, IsTrue};
ghost use Rattle.mote_text.specs.Code.LineAnswers.{IsTickLine};
ghost use Rattle.mote_text.specs.Code.Lines.{nothing_taken, unfinished, unfinished_after, with_end, has_no_end, GoesOnAt};
ghost use Rattle.mote_text.specs.Script.{line_limit, script_lines};
ghost use Rattle.mote_text.specs.declared.script_lines.Taken.{Taken as Stopped};

use crate::script::{LINE_LIMIT, put_tick, short_number};
use arrayvec::ArrayVec;
use memchr::memchr;
use mote_types::entry::Input;
use std::marker::Model;

/// The first line of a whole script, without its end, and what follows it.
pub fn first_line(script: &[u8]) -> Option<(&[u8], &[u8])>
    ensures line { IfSome result (λ parts. script_lines script.now ≡ parts.0.now ∷ script_lines parts.1.now) }
    ensures fewer { IfSome result (λ parts. length parts.1.now < length script.now) }
    ensures none { IfNone result (script.now ≡ []) }
{
    if script.is_empty() {
        return None;
    }
    match memchr(b'\n', script) {
        Some(end) => Some((&script[..end], &script[end + 1..])),
        None => Some((script, &script[script.len()..])),
    }
}

/// Why a take stopped.
#[derive(Clone, Copy, Debug, PartialEq, Eq, Drop)]
pub enum Taken {
    /// A line ended.
    Line,
    /// The next byte is the 1,025th of a line, so the line is malformed.
    TooWide,
    /// The whole piece was used, and no line ended.
    More,
}

/// Cuts a script into lines, from pieces of its bytes as they come. It allocates no memory.
///
/// Source: the script format is this project's profile.
#[derive(Drop)]
pub struct Lines {
    bytes: ArrayVec<u8, LINE_LIMIT>,
    last: Taken,
}

impl Model for Lines {
    ghost use Rattle.std.specs.Prelude.{◌≡◌, ◌≤◌, true, length};
    ghost use Rattle.mote_text.specs.Code.Lines.{LinesView, has_no_end};
    ghost use Rattle.mote_text.specs.Script.{line_limit};

    ghost Value = { LinesView };

    ghost view = { λ lines. record { bytes = lines.bytes.items; last = lines.last } };

    ghost invariant = { λ lines. (length lines.bytes.items ≤ line_limit) × (has_no_end lines.bytes.items ≡ true) };
}

/// Appends the bytes of the piece up to the end of the line that these bytes begin.
fn take_up_to_end(bytes: &mut ArrayVec<u8, LINE_LIMIT>, piece: &[u8]) -> (usize, Taken)
    requires { has_no_end bytes.old.items ≡ true }
    ensures used { result.0 ≤ length piece.now }
    ensures bytes { bytes.old.items ++ take result.0 piece.now ≡ with_end result.1 bytes.new.items }
    ensures narrow { length bytes.new.items ≤ line_limit }
    ensures endless { has_no_end bytes.new.items ≡ true }
    ensures more { (result.1 ≡ Stopped.More) ↔ ((result.0 ≡ length piece.now) × (result.1 ≢ Stopped.Line)) }
    ensures too_wide { (result.1 ≡ Stopped.TooWide) ↔ ((length (unfinished_after result.1 bytes.new.items) ≡ line_limit)
        × GoesOnAt piece.now result.0) }
{
    let room = LINE_LIMIT - bytes.len();
    // The end of a line that isn't too long is among these.
    let near = &piece[..piece.len().min(room + 1)];
    if let Some(end) = memchr(b'\n', near) {
        let _ = bytes.try_extend_from_slice(&near[..end]);
        return (end + 1, Taken::Line);
    }
    let kept = near.len().min(room);
    let _ = bytes.try_extend_from_slice(&near[..kept]);
    if kept < near.len() {
        (kept, Taken::TooWide)
    } else {
        (kept, Taken::More)
    }
}

impl Lines {
    /// Before the first byte of a script.
    pub fn new() -> Lines
        ensures { result ≡ nothing_taken }
    {
        Lines {
            bytes: ArrayVec::new(),
            last: Taken::More,
        }
    }

    /// After `Line` that line without its end, otherwise the bytes of the line that hasn't ended: at most 1,024, and none of
    /// them is a line end.
    pub fn line(&self) -> &[u8]
        ensures bytes { result.now ≡ self.now.bytes }
        ensures narrow { length result.now ≤ line_limit }
        ensures endless { has_no_end result.now ≡ true }
    {
        self.bytes.as_slice()
    }

    /// The present line without its end, if none of its bytes were taken and its end is in the piece. It is a prefix of the piece,
    /// and isn't copied. Nothing is taken: the present line is then the one that begins after that end.
    pub fn whole_line<'a>(&self, piece: &'a [u8]) -> Option<&'a [u8]>
        ensures line { IfSome result (λ line. take (length line.now + 1) piece.now ≡ line.now ++ 10 ∷ []) }
        ensures size { IfSome result (λ line. length line.now < length piece.now) }
        ensures narrow { IfSome result (λ line. length line.now ≤ line_limit) }
        ensures endless { IfSome result (λ line. has_no_end line.now ≡ true) }
        ensures begins { IfSome result (λ line. unfinished self.now ≡ []) }
        ensures none { result ≡ None → unfinished self.now ≡ [] → has_no_end (take (line_limit + 1) piece.now) ≡ true }
    {
        if !self.is_between() {
            return None;
        }
        let near = &piece[..piece.len().min(LINE_LIMIT + 1)];
        let end = memchr(b'\n', near)?;
        Some(&near[..end])
    }

    /// Whether none of the present line's bytes were taken.
    fn is_between(&self) -> bool
        ensures { IsTrue result ↔ (unfinished self.now ≡ []) }
    {
        self.last == Taken::Line || self.bytes.is_empty()
    }

    /// As `whole_line`, for a line `tick N` with at most eight digits, which is read in one pass: its length without its end.
    /// The tick is written to the buffer. If the result is `None`, the buffer is left as it was: call `whole_line` then.
    #[inline]
    pub fn whole_tick(&self, piece: &[u8], input: &mut Input) -> Option<usize>
        ensures tick { IfSome result (λ len. IsTickLine piece.now len input.new) }
        ensures begins { IfSome result (λ len. unfinished self.now ≡ []) }
        ensures none { result ≡ None → input.new ≡ input.old }
    {
        if !self.is_between() {
            return None;
        }
        let text = piece.strip_prefix(b"tick ")?;
        let (digits, number) = short_number(text)?;
        put_tick(input, number);
        Some(5 + digits)
    }

    /// Takes bytes of the piece up to the end of the present line; after `Line` a new one begins. Returns how many bytes
    /// were used, and why it stopped there: the line's end is used, and the byte that makes a line too long is not. Once a
    /// line was too long, no bytes are taken.
    ///
    /// How the script's bytes are cut into pieces doesn't matter.
    pub fn take(&mut self, piece: &[u8]) -> (usize, Taken)
        ensures used { result.0 ≤ length piece.now }
        ensures bytes { unfinished self.old ++ take result.0 piece.now ≡ with_end result.1 self.new.bytes }
        ensures last { self.new.last ≡ result.1 }
        ensures narrow { length self.new.bytes ≤ line_limit }
        ensures endless { has_no_end self.new.bytes ≡ true }
        ensures more { self.old.last ≢ Stopped.TooWide →
            (result.1 ≡ Stopped.More) ↔ ((result.0 ≡ length piece.now) × (result.1 ≢ Stopped.Line)) }
        ensures too_wide { self.old.last ≢ Stopped.TooWide →
            (result.1 ≡ Stopped.TooWide) ↔ ((length (unfinished self.new) ≡ line_limit) × GoesOnAt piece.now result.0) }
        ensures over { self.old.last ≡ Stopped.TooWide → (result ≡ (0, Stopped.TooWide)) × (self.new ≡ self.old) }
    {
        match self.last {
            Taken::TooWide => return (0, Taken::TooWide),
            Taken::Line => self.bytes.clear(),
            Taken::More => {}
        }
        let (used, last) = take_up_to_end(&mut self.bytes, piece);
        self.last = last;
        (used, last)
    }
}
