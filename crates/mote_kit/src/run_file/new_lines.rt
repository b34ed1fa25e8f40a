//! The lines of a file, with the results of its runs.

ghost use Rattle.std.specs.Prelude.{◌≡◌, ◌++◌, ◌∷◌, [], true, false, map, flat_map, List, ℕ, string_bytes, IfOk, IsSomeAnd, OnOk};
ghost use Rattle.std.specs.Str.Lines.{lines};
ghost use Rattle.mote_kit.specs.Gaps.{Fits};
ghost use Rattle.mote_kit.specs.Outcomes.{EndsAsSaid, IsText};

use crate::run_file::comparison::is_shown;
use crate::run_file::outcome::Outcome;
use crate::run_file::written_run::{ShownLine, WrittenRun};
use std::alloc::{AllocError, Global};

/// The lines of a file, of which some change.
#[derive(Drop)]
pub struct NewLines {
    /// Each line with its line end, the last one may have none, and what comes after it. First what comes above them all.
    lines: Vec<String>,
}

impl NewLines {
    /// The lines of a text.
    pub fn of(alloc: Global, text: &str) -> Result<Self, AllocError>
        ensures above { IfOk result (λ new. (rest : List (List ℕ)) × (map string_bytes new.lines.items ≡ [] ∷ rest)) }
        ensures text { IfOk result (λ new. flat_map string_bytes new.lines.items ≡ text.now) }
    {
        let mut new = NewLines {
            lines: Vec::new(alloc),
        };
        new.push(alloc, "")?;
        for line in text.split_inclusive('\n') {
            new.push(alloc, line)?;
        }
        Ok(new)
    }

    fn push(&mut self, alloc: Global, line: &str) -> Result<(), AllocError>
        ensures { OnOk result (map string_bytes self.new.lines.items ≡ map string_bytes self.old.lines.items ++ line.now ∷ []) }
    {
        self.lines.push(String::from_str(alloc, line)?)?;
        Ok(())
    }

    /// All lines as a text.
    pub fn text(&self, alloc: Global) -> Result<String, AllocError>
        ensures { IfOk result (λ text. string_bytes text ≡ flat_map string_bytes self.now.lines.items) }
    {
        self.lines.concat(alloc)
    }

    /// Removes the line of this number.
    fn remove(&mut self, number: usize) {
        if number < self.lines.len() {
            self.lines[number].clear();
        }
    }

    /// Appends lines after the line of this number.
    fn append(&mut self, number: usize, lines: &str) -> Result<(), AllocError> {
        if number >= self.lines.len() {
            return Ok(());
        }
        let line = &mut self.lines[number];
        if !lines.is_empty() && !line.is_empty() && !line.ends_with('\n') {
            line.push('\n')?;
        }
        line.push_str(lines)
    }

    /// Appends the line of a run's end after the line of this number.
    fn append_end(
        &mut self,
        alloc: Global,
        number: usize,
        outcome: &Outcome,
    ) -> Result<(), AllocError> {
        let end = format!(in alloc; "ends {}\n", outcome.end)?;
        self.append(number, end.as_str())
    }

    /// Puts the result of a run into its lines. Returns whether they change.
    pub fn put(
        &mut self,
        alloc: Global,
        run: &WrittenRun<'_>,
        outcome: &Outcome,
    ) -> Result<bool, AllocError>
        ensures same { IfOk result (λ changes. changes ≡ false → self.new ≡ self.old) }
        ensures comes_out { IfOk result (λ changes. changes ≡ false → EndsAsSaid run.now.said_end outcome.now
            × ((text : List ℕ) × IsText outcome.now.transcript.items text × Fits (lines (string_bytes run.now.transcript)) (lines text))) }
        ensures changed { IfOk result (λ changes. changes ≡ true → (text : List ℕ) × IsText outcome.now.transcript.items text
            × (IsSomeAnd run.now.said_end (λ said. string_bytes outcome.now.end ≡ said.0.now)
            → Fits (lines (string_bytes run.now.transcript)) (lines text) → ⊥)) }
    {
        let is_shown = is_shown(alloc, run, outcome.text())?;
        if is_as_said(run, outcome, is_shown) {
            return Ok(false);
        }
        if let Some((_, number)) = run.said_end {
            self.remove(number);
            self.append_end(alloc, number, outcome)?;
        }
        let last = if is_shown {
            run.last_line
        } else {
            self.put_transcript(run, outcome.text())?
        };
        if run.said_end.is_none() && outcome.transcript.is_empty() {
            self.append_end(alloc, last, outcome)?;
        }
        Ok(true)
    }

    /// Puts a transcript into the lines of a run in place of the lines that don't match it. Those before them and after them stay.
    /// Returns the number of the line after which it is.
    fn put_transcript(&mut self, run: &WrittenRun<'_>, found: &str) -> Result<usize, AllocError> {
        let wanted = run.transcript();
        let shown = run.shown.as_slice();
        let front = common_front(shown, wanted, found);
        let rest = shown.get(front.lines..).unwrap_or(&[]);
        let wanted_rest = wanted.get(front.size..).unwrap_or("");
        let found_rest = found.get(front.size..).unwrap_or("");
        let back = common_back(rest, wanted_rest, found_rest);
        let gone = rest
            .get(..rest.len().saturating_sub(back.lines))
            .unwrap_or(&[]);
        let size = found_rest.len().saturating_sub(back.size);
        let last = line_before(run, front.lines, gone);
        for line in gone {
            self.remove(line.line);
        }
        self.append(last, found_rest.get(..size).unwrap_or(""))?;
        Ok(last)
    }
}

/// Whether the lines of a run have its result, where it is known whether they have its transcript.
fn is_as_said(run: &WrittenRun<'_>, outcome: &Outcome, is_shown: bool) -> bool
    ensures same { result ≡ true → (is_shown ≡ true) × EndsAsSaid run.now.said_end outcome.now }
    ensures differs { result ≡ false → is_shown ≡ true
        → IsSomeAnd run.now.said_end (λ said. string_bytes outcome.now.end ≡ said.0.now) → ⊥ }
{
    is_shown && run.has_result() && outcome.ended_as_said(run)
}

/// Lines of a file that match a part of a transcript.
#[derive(Clone, Copy, Drop)]
struct Common {
    /// The number of lines.
    lines: usize,
    /// The number of bytes of the transcript.
    size: usize,
}

/// The lines of a file, from its first on, that match the beginning of the transcript.
fn common_front(shown: &[ShownLine], wanted: &str, found: &str) -> Common {
    let mut common = Common { lines: 0, size: 0 };
    for line in shown {
        let end = common.size.saturating_add(line.size);
        if wanted.get(common.size..end) != found.get(common.size..end) {
            return common;
        }
        common.lines = common.lines.saturating_add(1);
        common.size = end;
    }
    common
}

/// The lines of a file, up to its last, that match the end of the transcript.
fn common_back(shown: &[ShownLine], wanted: &str, found: &str) -> Common {
    let mut common = Common { lines: 0, size: 0 };
    for line in shown.iter().rev() {
        let size = common.size.saturating_add(line.size);
        if from_end(wanted, size, common.size) != from_end(found, size, common.size) {
            return common;
        }
        common.lines = common.lines.saturating_add(1);
        common.size = size;
    }
    common
}

/// The part of a text that begins so many bytes before its end, and ends so many before it.
fn from_end(text: &str, begin: usize, end: usize) -> Option<&str> {
    let begin = text.len().checked_sub(begin)?;
    text.get(begin..text.len().checked_sub(end)?)
}

/// The number of the line after which new lines of a transcript are put, where these lines are removed, and `front` ones before them
/// stay.
fn line_before(run: &WrittenRun<'_>, front: usize, gone: &[ShownLine]) -> usize {
    if let Some(line) = gone.first() {
        return line.line.saturating_sub(1);
    }
    match run.shown.as_slice().get(front.saturating_sub(1)) {
        Some(line) if front > 0 => line.line,
        Some(line) => line.line.saturating_sub(1),
        None => run.last_line,
    }
}
