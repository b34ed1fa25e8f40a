//! The lines of a script, with their numbers.

ghost use Rattle.std.specs.Prelude.{◌≡◌, ◌<◌, ◌≤◌, ◌+◌, ◌^◌, [], length, IfNone, IfSome, MatchOption};
ghost use Rattle.mote_text.specs.Script.{script_lines};
ghost use Rattle.network_setup.specs.Code.Words.{IsNextLine};
ghost use Rattle.network_setup.specs.FirstLines.{IsText};

use mote_text::script::LINE_LIMIT;
use mote_text::script_lines::first_line;
use std::str;

/// The lines of a script from one on.
#[derive(Clone, Copy, Drop)]
pub struct Inputs<'a> {
    /// Their bytes.
    pub script: &'a [u8],
    /// The number of the first one.
    pub first: u32,
}

/// A line of a script.
#[derive(Clone, Copy, Drop)]
pub(crate) struct Line<'a> {
    /// From 1 on.
    pub(crate) number: u32,
    /// Its text without the line end; none, where it has more than 1,024 bytes or isn't text.
    pub(crate) text: Option<&'a str>,
    /// This line, and all after it.
    pub(crate) inputs: Inputs<'a>,
}

/// The lines that are left.
#[derive(Drop)]
pub(crate) struct Lines<'a> {
    rest: &'a [u8],
    /// The number of lines before them.
    number: u32,
}

/// The text of a line, if it is one.
fn text_of(line: &[u8]) -> Option<&str>
    ensures { MatchOption result (¬ IsText line.now) (λ text. (text.now ≡ line.now) × IsText line.now) }
{
    if line.len() > LINE_LIMIT {
        return None;
    }
    match str::from_utf8(line) {
        Ok(text) => Some(text),
        Err(_) => None,
    }
}

impl<'a> Lines<'a> {
    pub(crate) fn new(script: &'a [u8]) -> Self
        ensures rest { result.rest.now ≡ script.now }
        ensures number { result.number ≡ 0 }
    {
        Lines {
            rest: script,
            number: 0,
        }
    }

    /// The lines that are left.
    pub(crate) fn left(&self) -> Inputs<'a>
        requires { self.now.number + length self.now.rest.now ≤ 2 ^ 24 }
        ensures first { result.first ≡ self.now.number + 1 }
        ensures script { result.script.now ≡ self.now.rest.now }
    {
        Inputs {
            script: self.rest,
            first: self.number + 1,
        }
    }

    /// The next line. What follows the last line end is a line where it has bytes.
    pub(crate) fn next_line(&mut self) -> Option<Line<'a>>
        requires { self.old.number + length self.old.rest.now ≤ 2 ^ 24 }
        ensures fewer { IfSome result (λ _. length self.new.rest.now < length self.old.rest.now) }
        ensures within { self.new.number + length self.new.rest.now ≤ 2 ^ 24 }
        ensures number { IfSome result (λ _. self.new.number ≡ self.old.number + 1) }
        ensures numbered { IfSome result (λ line. line.number ≡ self.old.number + 1) }
        ensures first { IfSome result (λ line. line.inputs.first ≡ self.old.number + 1) }
        ensures script { IfSome result (λ line. line.inputs.script.now ≡ self.old.rest.now) }
        ensures line { IfSome result (λ line. IsNextLine line.text (script_lines self.old.rest.now) (script_lines self.new.rest.now)) }
        ensures none { IfNone result ((self.old.rest.now ≡ []) × (self.new ≡ self.old)) }
    {
        let inputs = self.left();
        let (line, after) = first_line(self.rest)?;
        self.rest = after;
        self.number += 1;
        Some(Line {
            number: self.number,
            text: text_of(line),
            inputs,
        })
    }
}
