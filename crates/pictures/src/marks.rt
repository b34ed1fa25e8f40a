//! What the rows of a transcript show together. Each file below `marks` has one rule: what an activation, a life, an arming of a timer or
//! an event on its way is.

ghost use Rattle.std.specs.Prelude.{◌≡◌, ℕ, List, [], ◌∷◌, length, map, take, IfOk};
ghost use Rattle.pictures.specs.Clocks as spec;
ghost use Rattle.pictures.specs.Clocks.{clock_after, row_clock};
ghost use Rattle.pictures.specs.Rows.{Cover, bytes_of};
ghost use Rattle.pictures.specs.Spans.{AreMarks};

mod activations;
mod clocks;
mod lives;
pub mod posts;
mod tally;
pub mod timers;
mod walk;

use crate::memory::{Sizes, Stays};
use crate::rows::Row;
use crate::transcript::is_quiet;
pub use activations::{Activation, Gift};
use clocks::ClockedWalk;
pub use lives::Life;
pub use posts::Curve;
use std::alloc::{AllocError, Global};
pub use tally::Tally;
pub use timers::{Arming, is_callback, number_in_kind};
use walk::Walk;

/// What the rows show together.
#[derive(Drop)]
pub struct Marks {
    /// The clock before the first row.
    pub start: u64,
    /// The clock at each row's end.
    pub clocks: Vec<u64>,
    /// For each row the number of the line with the reply to its call, from 0 on.
    pub replies: Vec<Option<usize>>,
    /// For each row the largest delay of its timers, in ticks.
    pub lateness: Vec<u64>,
    pub activations: Vec<Activation>,
    pub lives: Vec<Life>,
    pub gifts: Vec<Gift>,
    pub curves: Vec<Curve>,
    pub armings: Vec<Arming>,
    pub stays: Stays,
    pub tally: Tally,
    /// One more than the greatest number of a process that took a turn.
    pub processes: usize,
    /// Whether the transcript is a quiet one: then neither clocks nor replies are known, nor when a process ends.
    pub is_quiet: bool,
}

/// What rows of a transcript show together, from the state after the lines before them. The clock at the end of each row is the sum of
/// all ticks up to there.
///
/// # Errors
///
/// `AllocError` where memory was refused.
pub fn marks_of(
    alloc: Global,
    lines: &[&str],
    rows: &[Row],
    sizes: Sizes,
) -> Result<Marks, AllocError>
    ensures start { IfOk result
        (λ marks. marks.start ≡ clock_after (take (spec.first_of rows.now (length lines.now)) (bytes_of lines.now))) }
    ensures clocks { IfOk result (λ marks. (first end : ℕ) → Cover first rows.now end
        → marks.clocks.items ≡ map (row_clock (bytes_of lines.now)) rows.now) }
    ensures marks { IfOk result (λ marks. AreMarks (length rows.now) marks) }
{
    let mut clocked = ClockedWalk::new(alloc, Walk::new(alloc, sizes, is_quiet(lines))?);
    // The walk is taken apart in any case, so that where memory was refused the marks alone are dropped.
    let start = clocked.take_all(lines, rows);
    let mut marks = clocked.finish(alloc);
    marks.start = start?;
    Ok(marks)
}
