//! The shapes and words of a picture.

use crate::marks::{Activation, Curve, Gift, Life, Marks};
use crate::rows::{Row, Show};
use crate::svg::grounds::lines_of;
use crate::svg::markup::Element;
use crate::svg::page::pen::{Area, Pen, Point, text_element, with_span};
use crate::svg::page::{CLOCK, Page, ROW};
use crate::transcript::{Line, Origin, Turn, read_line, read_turn};
use crate::words::{
    push_call, push_ending, push_input, push_note, push_reply, push_stimulus, refusal_in,
};
use itoa::Buffer;
use std::alloc::{AllocError, Global};

/// The clock before a row and at its end, as far as the transcript has it.
#[derive(Clone, Copy, Drop)]
struct Clocks {
    are_known: bool,
    before: u64,
    clock: u64,
}

/// The class of a thing of a process.
fn class_of(alloc: Global, kind: &str, pid: usize) -> Result<String, AllocError> {
    format!(in alloc; "{kind}{pid}")
}

/// Draws the lane of each life.
pub(crate) fn draw_lives(pen: &mut Pen, page: &Page, lives: &[Life]) -> Result<(), AllocError> {
    for life in lives {
        let left = page.lane_of(life.pid);
        let top = page.top_of(life.first);
        let end = match life.end {
            Some(row) => page.top_of(row).saturating_add(ROW - 3),
            None => page.bottom(),
        };
        let class = class_of(pen.alloc, "l s", life.pid)?;
        let commands = format!(in pen.alloc; "M{left},{top}V{end}")?;
        pen.line(class.as_str(), commands.as_str(), "")?;
        if life.end.is_some() {
            let from = left.saturating_sub(6);
            let class = class_of(pen.alloc, "k s", life.pid)?;
            let commands = format!(in pen.alloc; "M{from},{end}h12")?;
            pen.line(class.as_str(), commands.as_str(), "the process ends here")?;
        }
    }
    Ok(())
}

/// Draws a bar for each activation.
pub(crate) fn draw_activations(
    pen: &mut Pen,
    page: &Page,
    activations: &[Activation],
) -> Result<(), AllocError> {
    for activation in activations {
        let corner = Point {
            left: page.lane_of(activation.pid).saturating_sub(5),
            top: page.top_of(activation.first).saturating_add(2),
        };
        let end = page.top_of(activation.last).saturating_add(ROW - 2);
        let area = Area {
            corner,
            width: 10,
            height: end.saturating_sub(corner.top),
        };
        let class = class_of(pen.alloc, "f", activation.pid)?;
        let title = format!(in pen.alloc; "an activation of process {}", activation.pid)?;
        pen.area(class.as_str(), area, title.as_str())?;
    }
    Ok(())
}

/// Draws an arrow for each thing that was given at once.
pub(crate) fn draw_gifts(pen: &mut Pen, page: &Page, gifts: &[Gift]) -> Result<(), AllocError> {
    for gift in gifts {
        let from = page.lane_of(gift.from);
        let to = page.lane_of(gift.to);
        let top = page.top_of(gift.row).saturating_add(6);
        let (end, head) = if from < to {
            (to.saturating_sub(6), "m-4,-3l4,3l-4,3")
        } else {
            (to.saturating_add(6), "m4,-3l-4,3l4,3")
        };
        let commands = format!(in pen.alloc; "M{from},{top}H{end}{head}")?;
        let title = format!(in pen.alloc;
            "given at once by process {} to process {}",
            gift.from, gift.to
        )?;
        pen.line("a", commands.as_str(), title.as_str())?;
    }
    Ok(())
}

/// Draws a curve for each event, from where it was posted to where it is received.
pub(crate) fn draw_curves(pen: &mut Pen, page: &Page, curves: &[Curve]) -> Result<(), AllocError> {
    for curve in curves {
        let (from, to) = (page.lane_of(curve.from), page.lane_of(curve.to));
        let top = page.top_of(curve.first).saturating_add(ROW / 2);
        let end = page.top_of(curve.last).saturating_add(6);
        let bow = if from == to { 24 } else { 0 };
        let middle = (from.saturating_add(to) / 2).saturating_add(bow);
        let commands = format!(in pen.alloc;
            "M{from},{top}C{middle},{top} {middle},{end} {to},{end}"
        )?;
        let class = class_of(pen.alloc, "cv s", curve.from)?;
        let title = format!(in pen.alloc;
            "posted by process {}, told to process {}",
            curve.from, curve.to
        )?;
        pen.line(class.as_str(), commands.as_str(), title.as_str())?;
    }
    Ok(())
}

/// What the words of a row say beside its lines.
#[derive(Clone, Copy, Drop)]
struct Beside<'a> {
    /// The process of the row above, where that is one turn's.
    above: Option<usize>,
    /// The reply to the row's call, or nothing.
    reply: &'a str,
    /// How late the timers in it are: the most ticks.
    late: u64,
    clocks: Clocks,
}

/// The words of a turn, and of the reply to its call.
fn draw_turn(
    pen: &mut Pen,
    page: &Page,
    row: usize,
    turn: &Turn<'_>,
    others: &str,
    beside: Beside<'_>,
) -> Result<(), AllocError> {
    let alloc = pen.alloc;
    let element = text_element(alloc, page.words_of(row, 0))?;
    let element = match turn.origin {
        Origin::Answer => draw_going_on(alloc, element, turn.pid, beside.above)?,
        _ => draw_stimulus(alloc, element, turn, others, beside.late)?,
    };
    let mut words = String::new(alloc);
    push_call(alloc, &mut words, turn.call)?;
    let element = with_span(alloc, element, class_of_call(turn.call), words.as_str())?;
    words.clear();
    push_reply(alloc, &mut words, beside.reply)?;
    let class = if refusal_in(beside.reply).is_some() {
        "r"
    } else {
        "m"
    };
    let element = with_span(alloc, element, class, words.as_str())?;
    pen.content.hold(&element)
}

/// The class of a call's words.
fn class_of_call(call: &str) -> &'static str {
    if call == "wait" {
        "g"
    } else if call.starts_with("print ") {
        "p"
    } else {
        "n"
    }
}

/// Adds an arrow in the colour of a process that goes on, whose call in a row above has its reply there; and its number, where
/// the row above is not its own.
fn draw_going_on(
    alloc: Global,
    element: Element,
    pid: usize,
    above: Option<usize>,
) -> Result<Element, AllocError> {
    let mut digits = Buffer::new();
    let (who, arrow) = if above == Some(pid) {
        ("", "\u{a0}\u{a0}\u{a0}↳\u{a0}")
    } else {
        (digits.format(pid), "\u{a0}↳\u{a0}")
    };
    let element = with_span(alloc, element, "b", who)?;
    let class = class_of(alloc, "f", pid)?;
    with_span(alloc, element, class.as_str(), arrow)
}

/// Adds which process receives something in a turn, what, and how late.
fn draw_stimulus(
    alloc: Global,
    element: Element,
    turn: &Turn<'_>,
    others: &str,
    late: u64,
) -> Result<Element, AllocError> {
    let who = format!(in alloc; "{}{others}\u{a0}\u{a0}", turn.pid)?;
    let element = with_span(alloc, element, "b", who.as_str())?;
    let mut stimulus = String::new(alloc);
    push_stimulus(alloc, &mut stimulus, turn)?;
    if late == 0 {
        stimulus.push_str("\u{a0}→\u{a0}")?;
        return with_span(alloc, element, "g", stimulus.as_str());
    }
    let element = with_span(alloc, element, "g", stimulus.as_str())?;
    // Of several processes the longest delay is shown.
    let most = if others.is_empty() { "" } else { "up to " };
    draw_late(alloc, element, most, late)
}

/// Adds how late the event of a timer is.
fn draw_late(
    alloc: Global,
    element: Element,
    most: &str,
    late: u64,
) -> Result<Element, AllocError> {
    let delay = format!(in alloc; ", {most}{late} late")?;
    let element = with_span(alloc, element, "r", delay.as_str())?;
    with_span(alloc, element, "g", "\u{a0}→\u{a0}")
}

/// The processes of the turns after the first one of a row, which receive the same.
fn others_in(alloc: Global, lines: &[&str], pid: usize) -> Result<String, AllocError> {
    let mut others = String::new(alloc);
    for line in lines {
        match read_line(line) {
            Some(Line::Turn(turn)) if turn.pid != pid => write!(others, ", {}", turn.pid)?,
            _ => {}
        }
    }
    Ok(others)
}

/// The words of a row that shows its first line.
fn draw_line(
    pen: &mut Pen,
    page: &Page,
    index: usize,
    lines: &[&str],
    beside: Beside<'_>,
) -> Result<(), AllocError> {
    let alloc = pen.alloc;
    let Some(first) = lines.first() else {
        return Ok(());
    };
    let mut words = String::new(alloc);
    let class = match read_line(first) {
        Some(Line::Input(input)) => {
            push_input(alloc, &mut words, &input)?;
            "n"
        }
        Some(Line::Note(note)) => {
            push_note(alloc, &mut words, &note)?;
            "b"
        }
        Some(Line::Ending(ending)) => {
            push_ending(&mut words, ending)?;
            "r"
        }
        Some(Line::Turn(turn)) => {
            let others = others_in(alloc, lines, turn.pid)?;
            return draw_turn(pen, page, index, &turn, others.as_str(), beside);
        }
        None => "n",
    };
    pen.text(class, page.words_of(index, 0), words.as_str())
}

/// The reply in a line, or nothing.
fn reply_in<'a>(lines: &[&'a str], number: Option<usize>) -> &'a str {
    let Some(number) = number else {
        return "";
    };
    let Some(line) = lines.get(number) else {
        return "";
    };
    match read_line(line) {
        Some(Line::Turn(turn)) => turn.stimulus,
        _ => "",
    }
}

/// The clock's number at a row where it has changed.
fn draw_clock(pen: &mut Pen, page: &Page, index: usize, clocks: Clocks) -> Result<(), AllocError> {
    let is_same = clocks.before == clocks.clock && index > 0;
    if is_same || !clocks.are_known {
        return Ok(());
    }
    let mut digits = Buffer::new();
    let at = Point {
        left: CLOCK,
        top: page.base_of(index),
    };
    pen.text("e b", at, digits.format(clocks.clock))
}

/// The words of a row of lines that are there again, a number of them at a time.
fn draw_again(
    pen: &mut Pen,
    page: &Page,
    index: usize,
    row: &Row,
    period: usize,
    clocks: Clocks,
) -> Result<(), AllocError> {
    let times = row.count / period.max(1);
    let mut words = format!(in pen.alloc; "{times} more like the {period} lines above")?;
    let Clocks { before, clock, .. } = clocks;
    if clocks.are_known {
        write!(words, ", clock {before} to {clock}")?;
    }
    pen.text("g", page.words_of(index, 0), words.as_str())
}

/// The words of a row, which has these lines.
fn draw_row(
    pen: &mut Pen,
    page: &Page,
    index: usize,
    row: &Row,
    own: &[&str],
    beside: Beside<'_>,
) -> Result<(), AllocError> {
    let Clocks { before, clock, .. } = beside.clocks;
    match row.show {
        Show::Lines => draw_line(pen, page, index, own, beside),
        Show::Ticks => {
            let ticks = clock.saturating_sub(before);
            let words = format!(in pen.alloc; "{} ticks, {ticks} in all", row.count)?;
            pen.text("g", page.words_of(index, 0), words.as_str())
        }
        Show::Again(period) => draw_again(pen, page, index, row, period, beside.clocks),
    }
}

/// The process whose turn a row shows, where it shows that of one alone.
fn process_of(row: &Row, own: &[&str]) -> Option<usize> {
    if !matches!(row.show, Show::Lines) {
        return None;
    }
    let pid = read_turn(own.first()?)?.pid;
    for line in own {
        match read_turn(line) {
            Some(turn) if turn.pid == pid => {}
            _ => return None,
        }
    }
    Some(pid)
}

/// What the words of the row at a position say beside its lines.
fn beside_of<'a>(
    lines: &[&'a str],
    marks: &Marks,
    index: usize,
    before: u64,
    above: Option<usize>,
) -> Beside<'a> {
    let clock = marks.clocks.get(index).copied().unwrap_or(before);
    Beside {
        above,
        reply: reply_in(lines, marks.replies.get(index).copied().flatten()),
        late: marks.lateness.get(index).copied().unwrap_or(0),
        clocks: Clocks {
            are_known: !marks.is_quiet,
            before,
            clock,
        },
    }
}

/// The words of each row.
pub(crate) fn draw_words(
    pen: &mut Pen,
    page: &Page,
    lines: &[&str],
    rows: &[Row],
    marks: &Marks,
) -> Result<(), AllocError> {
    let mut before = marks.start;
    let mut above = None;
    for (index, row) in rows.iter().enumerate() {
        let beside = beside_of(lines, marks, index, before, above);
        draw_clock(pen, page, index, beside.clocks)?;
        let own = lines_of(lines, row);
        draw_row(pen, page, index, row, own, beside)?;
        before = beside.clocks.clock;
        above = process_of(row, own);
    }
    Ok(())
}
