//! The clock at the end of each row, the line with the reply to its call, and the largest delay of its timers.

ghost use Rattle.std.specs.Prelude.{◌≡◌, ℕ, ◌+◌, ◌≤◌, List, [], ◌∷◌, ◌++◌, length, map, take, All, IfOk};
ghost use Rattle.pictures.specs.Clocks as spec;
ghost use Rattle.pictures.specs.Clocks.{clock_after, row_clock};
ghost use Rattle.pictures.specs.Code.Ticks.{ticks_by};
ghost use Rattle.pictures.specs.Rows.{Cover, bytes_of};
ghost use Rattle.pictures.specs.Spans.{AllEndLater, ArmingEndsLater, IsReceivedLater};

use crate::marks::Marks;
use crate::marks::timers::Moment;
use crate::marks::walk::{RowFacts, Walk};
use crate::rows::{Row, Show};
use crate::transcript::{Input, Line, read_line};
use std::alloc::{AllocError, Global};

/// The ticks of a line, by what it says.
fn ticks_of(line: &Option<Line<'_>>) -> u64
    ensures { result ≡ ticks_by line.now }
{
    match line {
        Some(Line::Input(Input::Tick(ticks))) => *ticks,
        _ => 0,
    }
}

/// A walk over the lines, the clock that they bring about, and what there is once for each row so far.
#[derive(Drop)]
pub(crate) struct ClockedWalk {
    walk: Walk,
    clock: u64,
    clocks: Vec<u64>,
    replies: Vec<Option<usize>>,
    lateness: Vec<u64>,
}

impl ClockedWalk {
    /// The walk before the first line.
    pub(crate) fn new(alloc: Global, walk: Walk) -> Self
        ensures clock { result.clock ≡ 0 }
        ensures clocks { result.clocks.items ≡ [] }
        ensures replies { result.replies.items ≡ [] }
        ensures lateness { result.lateness.items ≡ [] }
    {
        ClockedWalk {
            walk,
            clock: 0,
            clocks: Vec::new(alloc),
            replies: Vec::new(alloc),
            lateness: Vec::new(alloc),
        }
    }

    /// What the line of that number, in a row, says of rows.
    fn note(&mut self, facts: RowFacts, row: usize, number: usize)
        ensures clock { self.new.clock ≡ self.old.clock }
        ensures clocks { self.new.clocks ≡ self.old.clocks }
        ensures replies { length self.new.replies.items ≡ length self.old.replies.items }
        ensures lateness { length self.new.lateness.items ≡ length self.old.lateness.items }
    {
        match facts.replied {
            Some(asked) if asked < self.replies.len() => self.replies[asked] = Some(number),
            _ => {}
        }
        if row < self.lateness.len() {
            self.lateness[row] = self.lateness[row].max(facts.late);
        }
    }

    /// The line of that number, in a row.
    fn take_line(&mut self, lines: &[&str], row: usize, number: usize)
        ensures clock { self.old.clock ≡ clock_after (take number (bytes_of lines.now))
            → self.new.clock ≡ clock_after (take (number + 1) (bytes_of lines.now)) }
        ensures clocks { self.new.clocks ≡ self.old.clocks }
        ensures replies { length self.new.replies.items ≡ length self.old.replies.items }
        ensures lateness { length self.new.lateness.items ≡ length self.old.lateness.items }
    {
        if number >= lines.len() {
            return;
        }
        let line = read_line(lines[number]);
        let clock = self.clock.saturating_add(ticks_of(&line));
        self.clock = clock;
        let moment = Moment { row, clock };
        let facts = self.walk.take_line(lines, line, moment, number);
        self.note(facts, row, number);
    }

    /// The lines from one to another, in a row.
    fn take_lines(&mut self, lines: &[&str], row: usize, first: usize, end: usize)
        requires { first ≤ end }
        ensures clock { self.old.clock ≡ clock_after (take first (bytes_of lines.now))
            → self.new.clock ≡ clock_after (take end (bytes_of lines.now)) }
        ensures clocks { self.new.clocks ≡ self.old.clocks }
        ensures replies { length self.new.replies.items ≡ length self.old.replies.items }
        ensures lateness { length self.new.lateness.items ≡ length self.old.lateness.items }
    {
        for number in first..end {
            self.take_line(lines, row, number);
        }
    }

    /// The lines of a row.
    fn take_row(&mut self, lines: &[&str], row: &Row, index: usize) -> Result<(), AllocError>
        ensures clock { IfOk result (λ _. self.old.clock ≡ clock_after (take row.now.first (bytes_of lines.now))
            → self.new.clock ≡ row_clock (bytes_of lines.now) row.now) }
        ensures clocks { IfOk result (λ _. self.new.clocks.items ≡ self.old.clocks.items ++ self.new.clock ∷ []) }
        ensures replies { IfOk result (λ _. length self.new.replies.items ≡ length self.old.replies.items + 1) }
        ensures lateness { IfOk result (λ _. length self.new.lateness.items ≡ length self.old.lateness.items + 1) }
    {
        self.replies.push(None)?;
        self.lateness.push(0)?;
        self.walk.activations.is_folded = matches!(row.show, Show::Again(_));
        let end = row.first.saturating_add(row.count);
        self.take_lines(lines, index, row.first, end);
        self.clocks.push(self.clock)?;
        Ok(())
    }

    /// All rows.
    fn take_rows(&mut self, lines: &[&str], rows: &[Row]) -> Result<(), AllocError>
        ensures clocks { IfOk result (λ _. (first end : ℕ) → Cover first rows.now end
            → self.old.clock ≡ clock_after (take first (bytes_of lines.now))
            → self.new.clocks.items ≡ self.old.clocks.items ++ map (row_clock (bytes_of lines.now)) rows.now) }
        ensures replies { IfOk result (λ _. length self.new.replies.items ≡ length self.old.replies.items + length rows.now) }
        ensures lateness { IfOk result (λ _. length self.new.lateness.items ≡ length self.old.lateness.items + length rows.now) }
    {
        for index in 0..rows.len() {
            self.take_row(lines, &rows[index], index)?;
        }
        Ok(())
    }
}

impl ClockedWalk {
    /// The lines before the first row, and all rows. Returns the clock at which the first row begins.
    pub(crate) fn take_all(&mut self, lines: &[&str], rows: &[Row]) -> Result<u64, AllocError>
        requires clock { self.old.clock ≡ 0 }
        requires clocks { self.old.clocks.items ≡ [] }
        requires replies { self.old.replies.items ≡ [] }
        requires lateness { self.old.lateness.items ≡ [] }
        ensures start { IfOk result
            (λ start. start ≡ clock_after (take (spec.first_of rows.now (length lines.now)) (bytes_of lines.now))) }
        ensures clocks { IfOk result (λ _. (first end : ℕ) → Cover first rows.now end
            → self.new.clocks.items ≡ map (row_clock (bytes_of lines.now)) rows.now) }
        ensures replies { IfOk result (λ _. length self.new.replies.items ≡ length rows.now) }
        ensures lateness { IfOk result (λ _. length self.new.lateness.items ≡ length rows.now) }
    {
        self.take_lines(lines, 0, 0, first_of(lines, rows));
        self.walk.forget_rows();
        let start = self.clock;
        self.take_rows(lines, rows)?;
        self.walk.close()?;
        Ok(start)
    }

    /// The result of the walk, but for the clock at which the first row begins.
    pub(crate) fn finish(self, alloc: Global) -> Marks
        ensures start { result.start ≡ 0 }
        ensures clocks { result.clocks ≡ self.clocks }
        ensures replies { result.replies ≡ self.replies }
        ensures lateness { result.lateness ≡ self.lateness }
        ensures curves { All IsReceivedLater result.curves.items }
        ensures armings { All ArmingEndsLater result.armings.items }
        ensures stays { AllEndLater result.stays }
    {
        let ClockedWalk {
            walk,
            clocks,
            replies,
            lateness,
            ..
        } = self;
        let Walk {
            activations,
            lives,
            timers,
            memory,
            posts,
            tally,
            processes,
            is_quiet,
            ..
        } = walk;
        let (activations, gifts) = activations.finish();
        Marks {
            start: 0,
            clocks,
            replies,
            lateness,
            activations,
            lives: lives.finish(),
            gifts,
            curves: posts.finish(),
            armings: timers.finish(),
            stays: memory.finish(alloc),
            tally,
            processes,
            is_quiet,
        }
    }
}

/// Where the first row begins; all lines are before it where there is none.
fn first_of(lines: &[&str], rows: &[Row]) -> usize
    ensures { result ≡ spec.first_of rows.now (length lines.now) }
{
    match rows.first() {
        Some(row) => row.first,
        None => lines.len(),
    }
}
