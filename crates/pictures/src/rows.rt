//! Which lines of a transcript are shown, and the rows that they are in.

ghost use Rattle.std.specs.Prelude.{◌≡◌, ℕ, ◌-◌, ◌^◌, ◌<◌, ◌≤◌, length, take, All, IfOk};
ghost use Rattle.std.specs.Bool.{OnTrue};
ghost use Rattle.pictures.specs.Transcript.Lines as spec;
ghost use Rattle.pictures.specs.Clocks.{LieBetween, clock_at};
ghost use Rattle.pictures.specs.Rows.{Cover, IsPlain, IsTrueRow, bytes_of};

mod folding;
pub mod row;

use crate::transcript::{Input, Line, read_line};
use folding::{folded_rows, unfolded_rows};
pub use row::{Row, Show};
use std::alloc::{AllocError, Global};

/// The lines that are shown: from one on, and up to another, which isn't.
#[derive(Clone, Copy)]
pub struct Shown {
    pub first: usize,
    pub end: usize,
}

/// The ticks of a line.
fn ticks_of(line: &str) -> u64
    ensures { result ≡ spec.ticks_of line.now }
{
    match read_line(line) {
        Some(Line::Input(Input::Tick(ticks))) => ticks,
        _ => 0,
    }
}

/// The number of lines before the first one at which the clock has reached this moment.
fn count_before(lines: &[&str], clock: u64) -> usize
    ensures there { result ≤ length lines.now }
    ensures before { (line : ℕ) → line < result → clock_at (bytes_of lines.now) line < clock }
    ensures after { (line : ℕ) → result ≤ line → line < length lines.now → clock ≤ clock_at (bytes_of lines.now) line }
{
    let mut now: u64 = 0;
    for index in 0..lines.len() {
        now = now.saturating_add(ticks_of(lines[index]));
        if now >= clock {
            return index;
        }
    }
    lines.len()
}

/// The number of lines before the first one at which the clock is later than this moment.
fn count_up_to(lines: &[&str], clock: u64) -> usize
    ensures there { result ≤ length lines.now }
    ensures last { clock ≡ 2 ^ 64 - 1 → result ≡ length lines.now }
    ensures within { (line : ℕ) → line < result → clock_at (bytes_of lines.now) line ≤ clock }
    ensures after { (line : ℕ) → result ≤ line → line < length lines.now → clock < clock_at (bytes_of lines.now) line }
{
    if clock == u64::MAX {
        lines.len()
    } else {
        count_before(lines, clock + 1)
    }
}

/// The lines from one clock to another, in ticks.
pub fn shown_of(lines: &[&str], from: u64, to: u64) -> Shown
    ensures order { result.first ≤ result.end }
    ensures there { result.end ≤ length lines.now }
    ensures first { from ≡ 0 → result.first ≡ 0 }
    ensures last { to ≡ 2 ^ 64 - 1 → result.end ≡ length lines.now }
    ensures between { LieBetween (bytes_of lines.now) from to result }
{
    let end = count_up_to(lines, to);
    let first = count_before(lines, from).min(end);
    Shown { first, end }
}

/// The rows of lines: each line that is shown is in exactly one of them, and they are in order.
#[tactic(auto, using(crate::proofs::Again::plain_rows))]
pub fn rows_of(
    alloc: Global,
    lines: &[&str],
    shown: Shown,
    unfolded: bool,
) -> Result<Vec<Row>, AllocError>
    requires order { shown.first ≤ shown.end }
    requires there { shown.end ≤ length lines.now }
    ensures cover { IfOk result (λ rows. Cover shown.first rows.items shown.end) }
    ensures plain { OnTrue unfolded (IfOk result (λ rows. All IsPlain rows.items)) }
    ensures again { IfOk result (λ rows. All (IsTrueRow (bytes_of (take shown.end lines.now))) rows.items) }
{
    if unfolded {
        unfolded_rows(alloc, shown.first, shown.end)
    } else {
        folded_rows(alloc, lines, shown.first, shown.end)
    }
}
