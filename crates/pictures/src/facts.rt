//! What holds at each line of a run: the marks, with a row for each line, and also which events wait in the queue, and which blocks a
//! list has.

ghost use Rattle.std.specs.Prelude.{◌≡◌, ◌<◌, [], length, map, IfOk};
ghost use Rattle.std.specs.List.{range_with_len};
ghost use Rattle.pictures.specs.Ascending.{Ascend, MayAppend};
ghost use Rattle.pictures.specs.Chains.{AreChains};
ghost use Rattle.pictures.specs.Clocks.{clock_at};
ghost use Rattle.pictures.specs.Room.{IsFirstExceeding};
ghost use Rattle.pictures.specs.Rows.{bytes_of};
ghost use Rattle.pictures.specs.Spans.{AreMarks};

mod accepted;
pub mod chains;
pub mod waiting;

use crate::marks::{Marks, marks_of};
use crate::memory::{Sizes, Stay};
use crate::rows::{Shown, rows_of};
use crate::transcript::{Line, read_line};
use accepted::accepted_call;
pub use chains::Chain;
use chains::Lists;
use std::alloc::{AllocError, Global};
use waiting::Queue;
pub use waiting::Wait;

/// What holds at the lines of a run. Rows are lines, by their numbers from 0 on.
#[derive(Drop)]
pub struct Facts {
    pub marks: Marks,
    pub waits: Vec<Wait>,
    pub chains: Vec<Chain>,
    /// The first line at which managed memory of the given size has no room for what the run holds.
    pub exceeds: Option<usize>,
}

/// The first line at which the blocks of managed memory take more than there is.
fn exceeds(stays: &[Stay], size: u32) -> Option<usize>
    ensures { IsFirstExceeding size stays.now result }
{
    let mut first: Option<usize> = None;
    for index in 0..stays.len() {
        let stay = stays[index];
        if stay.at.saturating_add(stay.taken) > size as u64 {
            first = Some(first.unwrap_or(stay.first).min(stay.first));
        }
    }
    first
}

/// The marks of the lines, with a row for each.
fn marks_of_lines(alloc: Global, lines: &[&str], sizes: Sizes) -> Result<Marks, AllocError>
    ensures clocks { IfOk result (λ marks. marks.clocks.items ≡ map (clock_at (bytes_of lines.now)) (range_with_len 0 (length lines.now))) }
    ensures marks { IfOk result (λ marks. AreMarks (length lines.now) marks) }
{
    let all = Shown {
        first: 0,
        end: lines.len(),
    };
    let rows = rows_of(alloc, lines, all, true)?;
    marks_of(alloc, lines, rows.as_slice(), sizes)
}

/// Lets the line of that number change the queue and the lists.
fn take_line<'a>(
    lines: &'a [&'a str],
    marks: &Marks,
    queue: &mut Queue<'a>,
    lists: &mut Lists,
    number: usize,
) -> Result<(), AllocError>
    requires { number < length lines.now }
    ensures queue { IfOk result (λ _. MayAppend number queue.old queue.new) }
    ensures lists { IfOk result (λ _. MayAppend number (map (λ chain. chain.line) lists.old) (map (λ chain. chain.line) lists.new)) }
{
    match read_line(lines[number]) {
        Some(Line::Input(_)) => queue.take_input(number),
        Some(Line::Turn(turn)) => {
            queue.take_turn(&turn, number)?;
            let reply = marks.replies.as_slice().get(number).copied();
            if let Some(call) = accepted_call(lines, &turn, reply.unwrap_or(None)) {
                queue.carry_out(&call, number)?;
                lists.carry_out(&call, number)?;
            }
            Ok(())
        }
        _ => Ok(()),
    }
}

/// Lets the lines change the queue and the lists.
fn take_lines<'a>(
    lines: &'a [&'a str],
    marks: &Marks,
    queue: &mut Queue<'a>,
    lists: &mut Lists,
) -> Result<(), AllocError>
    requires queue { queue.old ≡ [] }
    requires lists { lists.old ≡ [] }
    ensures queue { IfOk result (λ _. Ascend 0 queue.new (length lines.now)) }
    ensures lists { IfOk result (λ _. Ascend 0 (map (λ chain. chain.line) lists.new) (length lines.now)) }
{
    for number in 0..lines.len() {
        take_line(lines, marks, queue, lists, number)?;
    }
    Ok(())
}

/// Which events wait, and which blocks the lists have.
fn waits_and_chains(
    alloc: Global,
    lines: &[&str],
    marks: &Marks,
) -> Result<(Vec<Wait>, Vec<Chain>), AllocError>
    ensures chains { IfOk result (λ found. AreChains found.1.items) }
    ensures waits { IfOk result (λ found. Ascend 0 (map (λ wait. wait.line) found.0.items) (length lines.now)) }
    ensures order { IfOk result (λ found. Ascend 0 (map (λ chain. chain.line) found.1.items) (length lines.now)) }
{
    let mut lists = Lists::new(alloc)?;
    let mut queue = Queue::new(alloc);
    take_lines(lines, marks, &mut queue, &mut lists)?;
    let waits = queue.finish()?;
    Ok((waits, lists.finish()))
}

/// What holds at each of the lines, the clock included.
///
/// # Errors
///
/// `AllocError` where memory was refused.
pub fn facts_of(alloc: Global, lines: &[&str], sizes: Sizes) -> Result<Facts, AllocError>
    ensures clocks { IfOk result
        (λ facts. facts.marks.clocks.items ≡ map (clock_at (bytes_of lines.now)) (range_with_len 0 (length lines.now))) }
    ensures marks { IfOk result (λ facts. AreMarks (length lines.now) facts.marks) }
    ensures chains { IfOk result (λ facts. AreChains facts.chains.items) }
    ensures order { IfOk result (λ facts. Ascend 0 (map (λ chain. chain.line) facts.chains.items) (length lines.now)) }
    ensures waits { IfOk result (λ facts. Ascend 0 (map (λ wait. wait.line) facts.waits.items) (length lines.now)) }
    ensures exceeds { IfOk result (λ facts. IsFirstExceeding sizes.managed facts.marks.stays.managed.items facts.exceeds) }
{
    let marks = marks_of_lines(alloc, lines, sizes)?;
    let (waits, chains) = waits_and_chains(alloc, lines, &marks)?;
    let exceeds = exceeds(marks.stays.managed.as_slice(), sizes.managed);
    Ok(Facts {
        marks,
        waits,
        chains,
        exceeds,
    })
}
