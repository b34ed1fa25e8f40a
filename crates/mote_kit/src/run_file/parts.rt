//! The runs of a file: where the text of each begins.

ghost use Rattle.std.specs.Prelude.{◌≡◌, ◌≤◌, ◌<◌, ◌==◌, ◌+◌, ◌-◌, ◌^◌, List, ℕ, filter, length, min, take, IfOk};
ghost use Rattle.std.specs.List.{All};
ghost use Rattle.mote_kit.specs.Parts.{IsPartOf};

use crate::difference::line_ends;
use crate::run_file::fault::{Fault, Misread, WordFault};
use crate::run_file::rule;
use std::alloc::Global;
use std::fmt;

/// What is before a run's name.
const HEAD: &str = "== ";

/// The part of a file with one run.
#[derive(Clone, Copy, Drop)]
pub struct Part<'a> {
    /// The file's path.
    pub path: &'a str,
    /// The run's name, where the file has one.
    pub name: Option<&'a str>,
    /// The number of the first line below the name.
    pub first_line: usize,
    pub lines: &'a str,
}

impl fmt::Display for Part<'_> {
    /// The name of the run in messages.
    fn fmt<W: fmt::Write>(&self, f: &mut fmt::Formatter<W>) -> fmt::Result {
        match self.name {
            Some(name) => write!(f, "{}: {name}", self.path),
            None => f.write_str(self.path),
        }
    }
}

/// The parts of the text of the file of this path.
///
/// # Errors
///
/// A line above the first run that is neither empty nor a comment, and a run with no name, or with one that another has.
pub fn parts_of<'a>(
    alloc: Global,
    path: &'a str,
    text: &'a str,
) -> Result<Vec<Part<'a>>, Misread<'a>>
    ensures { IfOk result (λ parts. All (IsPartOf path.now text.now) parts.items) }
{
    let mut parts = Vec::new(alloc);
    match read_parts(&mut parts, path, text) {
        Ok(()) => Ok(parts),
        Err(misread) => Err(misread),
    }
}

/// Appends the parts of the text of the file of this path.
fn read_parts<'a>(
    parts: &mut Vec<Part<'a>>,
    path: &'a str,
    text: &'a str,
) -> Result<(), Misread<'a>>
    ensures { All (IsPartOf path.now text.now) parts.old.items → All (IsPartOf path.now text.now) parts.new.items }
{
    let Some((above, runs)) = text_with_heads(text) else {
        // A text with no heads is one run.
        let (name, first_line, lines) = (None, 1, text);
        parts.push(Part {
            path,
            name,
            first_line,
            lines,
        })?;
        return Ok(());
    };
    check_above(above)?;
    push_parts(parts, path, line_of(text, runs), runs)
}

/// What is above the first head, and what is after it, where the text has one.
fn text_with_heads(text: &str) -> Option<(&str, &str)> {
    match text.strip_prefix(HEAD) {
        Some(runs) => Some(("", runs)),
        None => text.split_once("\n== "),
    }
}

/// The number of the line in which the rest of a text begins.
fn line_of(text: &str, rest: &str) -> usize {
    let lines = line_ends(text.as_bytes()).saturating_sub(line_ends(rest.as_bytes()));
    lines.saturating_add(1)
}

/// The number of the line of a file in which a byte is.
pub fn line_at(bytes: &[u8], offset: usize) -> usize
    ensures from_one { 0 < result }
    ensures number { offset ≤ length bytes.now →
        result ≡ min (length (filter (λ byte. byte == 10) (take offset bytes.now)) + 1) (2 ^ 64 - 1) }
{
    let before = bytes.get(..offset).unwrap_or(&[]);
    line_ends(before).saturating_add(1)
}

/// Above the first run a file has only comments and empty lines.
fn check_above(text: &str) -> Result<(), Misread<'_>> {
    let mut number = 0usize;
    for line in text.split('\n') {
        number = number.saturating_add(1);
        if !line.is_empty() && !line.starts_with('#') {
            let fault = Fault::Form(rule::RUN_ABOVE);
            return Err(Misread {
                line: number,
                fault,
            });
        }
    }
    Ok(())
}

/// Appends the parts of a text that begins after the first head, which is in the line of this number.
fn push_parts<'a>(
    parts: &mut Vec<Part<'a>>,
    path: &'a str,
    line: usize,
    text: &'a str,
) -> Result<(), Misread<'a>>
    ensures { (whole : List ℕ) → All (IsPartOf path.now whole) parts.old.items → All (IsPartOf path.now whole) parts.new.items }
{
    let mut line = line;
    for part in text.split("\n== ") {
        let (name, lines) = part.split_once('\n').unwrap_or((part, ""));
        check_name(parts.as_slice(), line, name)?;
        let first_line = line.saturating_add(1);
        parts.push(Part {
            path,
            name: Some(name),
            first_line,
            lines,
        })?;
        line = first_line.saturating_add(line_ends(part.as_bytes()));
    }
    Ok(())
}

/// Whether one of these parts has the name.
fn has_name(parts: &[Part<'_>], name: &str) -> bool {
    for part in parts {
        if part.name == Some(name) {
            return true;
        }
    }
    false
}

/// The run whose head is in this line has a name that none of those above has.
fn check_name<'a>(above: &[Part<'a>], line: usize, name: &'a str) -> Result<(), Misread<'a>> {
    if name.trim().is_empty() {
        let fault = Fault::Rule(rule::NAME);
        Err(Misread { line, fault })
    } else if has_name(above, name) {
        let fault = Fault::Word(WordFault::SameName, name);
        Err(Misread { line, fault })
    } else {
        Ok(())
    }
}
