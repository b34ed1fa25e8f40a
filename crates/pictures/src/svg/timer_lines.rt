//! The lines of the timers, beside the lanes of their processes.

use crate::marks::{Arming, is_callback, number_in_kind};
use crate::svg::page::pen::Pen;
use crate::svg::page::{Page, ROW};
use std::alloc::{AllocError, Global};

/// Where a timer's line is: those of event timers left of the lane, those of callback timers right of it.
fn left_of(page: &Page, arming: &Arming) -> usize {
    let lane = page.lane_of(arming.pid);
    let off = number_in_kind(arming.timer)
        .min(3)
        .saturating_mul(4)
        .saturating_add(9);
    if is_callback(arming.timer) {
        lane.saturating_add(off)
    } else {
        lane.saturating_sub(off)
    }
}

/// What a line shows of its timer.
fn title_of(alloc: Global, arming: &Arming) -> Result<String, AllocError> {
    let kind = if is_callback(arming.timer) {
        "callback timer"
    } else {
        "timer"
    };
    let number = number_in_kind(arming.timer);
    let Arming { pid, due, .. } = *arming;
    let mut title = format!(in alloc; "{kind} {number} of process {pid}, due at clock {due}")?;
    match (arming.received, arming.last) {
        (Some(clock), _) => {
            write!(title, ", told at {clock}")?;
            if clock > due {
                write!(title, ": {} late", clock - due)?;
            }
        }
        (None, Some(_)) => title.push_str(", stopped or set anew, or its process ended")?,
        (None, None) => title.push_str(", still armed at the end")?,
    }
    Ok(title)
}

/// The commands of a line from where a timer is armed: to its due time if its event came late, otherwise to where its arming ends,
/// with a head where its event came.
fn commands_of(
    alloc: Global,
    page: &Page,
    arming: &Arming,
    due: Option<usize>,
) -> Result<String, AllocError> {
    let left = left_of(page, arming);
    let top = middle_of(page, arming.first);
    let from = left.saturating_sub(3);
    let (end, head) = match (due, arming.last) {
        (Some(due), _) => (middle_of(page, due), ""),
        (None, Some(last)) if arming.received.is_some() => (middle_of(page, last), HEAD),
        (None, Some(last)) => (middle_of(page, last), "m-3,0h6"),
        (None, None) => (page.bottom(), ""),
    };
    format!(in alloc; "M{from},{top}h6M{left},{top}V{end}{head}")
}

/// The head of a line where a timer's event came.
const HEAD: &str = "m-3,-5l3,5l3,-5";

/// The middle of a row.
fn middle_of(page: &Page, row: usize) -> usize {
    page.top_of(row).saturating_add(ROW / 2)
}

/// The row in which a timer became due whose event came late, from that of its arming on.
fn due_row(arming: &Arming, clocks: &[u64]) -> Option<usize> {
    let last = arming.last?;
    if arming.received? <= arming.due {
        return None;
    }
    let before = &clocks[..last.min(clocks.len())];
    let mut overdue: usize = 0;
    for clock in before.iter().rev() {
        if *clock < arming.due {
            break;
        }
        overdue = overdue.saturating_add(1);
    }
    Some(last.saturating_sub(overdue).max(arming.first))
}

/// Draws how late a timer's event came: from the row in which it became due.
fn draw_delay(
    pen: &mut Pen,
    page: &Page,
    arming: &Arming,
    due: usize,
    title: &str,
) -> Result<(), AllocError> {
    let left = left_of(page, arming);
    let top = middle_of(page, due);
    let end = middle_of(page, arming.last.unwrap_or(due));
    let commands = format!(in pen.alloc; "M{left},{top}V{end}{HEAD}")?;
    let class = if is_callback(arming.timer) {
        "o q y"
    } else {
        "o y"
    };
    pen.line(class, commands.as_str(), title)
}

/// Draws a line for each arming; where its event came late, it is red from its due time on.
pub(crate) fn draw_timers(
    pen: &mut Pen,
    page: &Page,
    armings: &[Arming],
    clocks: &[u64],
) -> Result<(), AllocError> {
    for arming in armings {
        let kind = if is_callback(arming.timer) {
            "o q"
        } else {
            "o"
        };
        let due = due_row(arming, clocks);
        let class = format!(in pen.alloc; "{kind} s{}", arming.pid)?;
        let commands = commands_of(pen.alloc, page, arming, due)?;
        let title = title_of(pen.alloc, arming)?;
        pen.line(class.as_str(), commands.as_str(), title.as_str())?;
        if let Some(due) = due {
            draw_delay(pen, page, arming, due, title.as_str())?;
        }
    }
    Ok(())
}
