//! Which lines share a row.

ghost use Rattle.std.specs.Prelude.{◌≡◌, ℕ, List, ◌+◌, ◌-◌, ◌≤◌, ◌<◌, length, take, All, IfOk, IfSome};
ghost use Rattle.std.specs.Bool.{OnTrue};
ghost use Rattle.pictures.specs.Rows.{AreAgain, Cover, IsPlain, IsTrueRow, bytes_of};

use crate::rows::row::{Row, Show};
use crate::transcript::{Origin, Turn, read_turn};
use std::alloc::{AllocError, Global};

/// The largest number of parts, each a run of ticks or another input with what follows it, that may be repeated as one.
const LONGEST_PERIOD: usize = 16;

/// The least number of times that lines are repeated for them to be folded.
const LEAST_TIMES: usize = 2;

/// The number of lines from the first on that are ticks.
fn ticks_in_front(lines: &[&str]) -> usize
    ensures { result ≤ length lines.now }
{
    for index in 0..lines.len() {
        if !lines[index].starts_with("> tick ") {
            return index;
        }
    }
    lines.len()
}

/// Whether the turn ends the activation of the one before it.
fn only_ends(line: &str, pid: usize) -> bool {
    match read_turn(line) {
        Some(turn) => turn.pid == pid && turn.origin == Origin::Answer && turn.call == "wait",
        None => false,
    }
}

/// Whether in the line another process receives the same, and it only waits.
fn waits_too(line: &str, first: &Turn<'_>) -> bool {
    match read_turn(line) {
        Some(turn) => {
            turn.pid != first.pid
                && turn.origin == first.origin
                && turn.stimulus == first.stimulus
                && turn.call == "wait"
        }
        None => false,
    }
}

/// The number of lines from the first on in which others only wait, too.
fn waits_in_front(lines: &[&str], first: &Turn<'_>) -> usize
    ensures { result ≤ length lines.now }
{
    for index in 0..lines.len() {
        if !waits_too(lines[index], first) {
            return index;
        }
    }
    lines.len()
}

/// The number of lines from a turn's own on that share its row.
fn turns_in_front(lines: &[&str], turn: &Turn<'_>) -> usize
    requires { 0 < length lines.now }
    ensures some { 0 < result }
    ensures there { result ≤ length lines.now }
{
    let rest = &lines[1..];
    if turn.call == "wait" && turn.origin != Origin::Answer {
        return 1 + waits_in_front(rest, turn);
    }
    match rest.first() {
        Some(line) if only_ends(line, turn.pid) => 2,
        _ => 1,
    }
}

/// The row that begins with the first of these lines, which has that number, where no lines are folded as repeated ones.
fn row_in_front(lines: &[&str], first: usize) -> Row
    requires { 0 < length lines.now }
    ensures first { result.first ≡ first }
    ensures some { 0 < result.count }
    ensures there { result.count ≤ length lines.now }
    ensures again { (all : List (List ℕ)) → IsTrueRow all result }
{
    let ticks = ticks_in_front(lines);
    if ticks > 1 {
        return Row {
            first,
            count: ticks,
            show: Show::Ticks,
        };
    }
    let count = match read_turn(lines[0]) {
        Some(turn) => turns_in_front(lines, &turn),
        None => 1,
    };
    Row {
        first,
        count,
        show: Show::Lines,
    }
}

/// A row for each of the lines from one to another.
pub(crate) fn unfolded_rows(alloc: Global, first: usize, end: usize) -> Result<Vec<Row>, AllocError>
    requires { first ≤ end }
    ensures cover { IfOk result (λ rows. Cover first rows.items end) }
    ensures plain { IfOk result (λ rows. All IsPlain rows.items) }
{
    let mut rows = Vec::new(alloc);
    for at in first..end {
        rows.push(Row {
            first: at,
            count: 1,
            show: Show::Lines,
        })?;
    }
    Ok(rows)
}

/// Whether the lines from `before` up to `at` are repeated at `at`.
fn are_again(lines: &[&str], before: usize, at: usize) -> bool
    requires order { before ≤ at }
    requires there { at ≤ length lines.now }
    ensures there { OnTrue result (at + (at - before) ≤ length lines.now) }
    ensures again { OnTrue result (AreAgain (bytes_of lines.now) (at - before) at (at + (at - before))) }
{
    let count = at - before;
    if lines.len() - at < count {
        return false;
    }
    for index in at..at + count {
        if lines[index] != lines[index - count] {
            return false;
        }
    }
    true
}

/// Where the lines end that repeat those from one position to another, some whole times.
#[tactic(auto, using(crate::proofs::Again::more_again))]
fn end_of_repeats(lines: &[&str], before: usize, at: usize) -> usize
    requires order { before < at }
    requires there { at ≤ length lines.now }
    ensures after { at ≤ result }
    ensures there { result ≤ length lines.now }
    ensures again { AreAgain (bytes_of lines.now) (at - before) at result }
{
    let count = at - before;
    let mut end = at;
    while are_again(lines, end - count, end) {
        end += count;
    }
    end
}

/// The row of lines from a position on that repeat those right before it, at least twice. The starts are those of the parts before
/// it, of which the last ones may be repeated as one.
#[tactic(auto, using(crate::proofs::Again::again_row))]
fn repeats(lines: &[&str], starts: &[usize], at: usize) -> Option<Row>
    requires { at ≤ length lines.now }
    ensures first { IfSome result (λ row. row.first ≡ at) }
    ensures some { IfSome result (λ row. 0 < row.count) }
    ensures there { IfSome result (λ row. at + row.count ≤ length lines.now) }
    ensures again { IfSome result (IsTrueRow (bytes_of lines.now)) }
{
    for start in starts.iter().rev().take(LONGEST_PERIOD) {
        let before = *start;
        if before < at {
            let end = end_of_repeats(lines, before, at);
            let period = at - before;
            if end - at >= period.saturating_mul(LEAST_TIMES) {
                return Some(Row {
                    first: at,
                    count: end - at,
                    show: Show::Again(period),
                });
            }
        }
    }
    None
}

/// Whether a part begins with a line: an input, or an activation.
fn begins_part(line: &str) -> bool {
    match read_turn(line) {
        Some(turn) => turn.origin != Origin::Answer,
        None => line.starts_with("> "),
    }
}

/// The row that begins with the line of that number.
fn next_row(lines: &[&str], starts: &[usize], at: usize) -> Row
    requires { at < length lines.now }
    ensures first { result.first ≡ at }
    ensures some { 0 < result.count }
    ensures there { at + result.count ≤ length lines.now }
    ensures again { IsTrueRow (bytes_of lines.now) result }
{
    if begins_part(lines[at]) {
        if let Some(row) = repeats(lines, starts, at) {
            return row;
        }
    }
    row_in_front(&lines[at..], at)
}

/// The rows of the lines from one to another, where lines that say nothing new share one.
pub(crate) fn folded_rows(
    alloc: Global,
    lines: &[&str],
    first: usize,
    end: usize,
) -> Result<Vec<Row>, AllocError>
    requires order { first ≤ end }
    requires there { end ≤ length lines.now }
    ensures cover { IfOk result (λ rows. Cover first rows.items end) }
    ensures again { IfOk result (λ rows. All (IsTrueRow (bytes_of (take end lines.now))) rows.items) }
{
    let lines = &lines[..end];
    let mut rows = Vec::new(alloc);
    let mut starts = Vec::new(alloc);
    let mut at = first;
    while at < end {
        let row = next_row(lines, starts.as_slice(), at);
        if begins_part(lines[at]) {
            starts.push(at)?;
        }
        at += row.count;
        rows.push(row)?;
    }
    Ok(rows)
}
