//! The head of a picture: its style, what was run, the numbers of the run, and the names of the columns.

use crate::marks::Tally;
use crate::svg::page::pen::{Area, Pen, Point};
use crate::svg::page::{CLOCK, Page, ROW};
use crate::svg::style::{COLOURS, STYLE};
use itoa::Buffer;
use std::alloc::{AllocError, Global};

/// Where the lines of the head begin.
const LEFT: usize = 14;

/// Where the first line of the head is.
const FIRST: usize = 24;

/// How far a line of the title is from the next one.
const TITLE: usize = 18;

/// How far a line of the run's numbers is from the next one.
const TALLY: usize = 14;

/// The room below the last line, for the clock over the overview.
const BELOW: usize = 6;

/// The most bytes of a line of the title: they take less than 500 units.
const TITLE_BYTES: usize = 44;

/// The width of a bold character.
const CHARACTER: usize = 7;

/// How many bytes a line of the run's numbers has at most, which are smaller.
const TALLY_BYTES: usize = 72;

/// Appends the style with the colours of a number of processes.
pub(crate) fn push_style(style: &mut String, lanes: usize) -> Result<(), AllocError> {
    style.push_str(STYLE)?;
    for lane in 0..lanes.min(COLOURS.len()) {
        let (pid, colour) = (lane + 4, COLOURS[lane]);
        write!(style, ".f{pid}{{fill:{colour}}}.s{pid}{{stroke:{colour}}}")?;
    }
    Ok(())
}

/// What the head says of a run beside its numbers.
#[derive(Clone, Copy, Drop)]
pub(crate) struct Summary<'a> {
    /// The clock before the first line that is shown, where not all lines are.
    pub(crate) from: Option<u64>,
    /// The clock at the last line that is shown, if one is.
    pub(crate) clock: Option<u64>,
    /// How the run ended, where its last line is shown.
    pub(crate) end: Option<&'a str>,
    pub(crate) is_quiet: bool,
}

/// Appends what only a whole transcript says, with what follows it.
fn push_whole(out: &mut String, tally: &Tally, summary: &Summary<'_>) -> Result<(), AllocError> {
    let Tally { inputs, turns, .. } = *tally;
    write!(out, "inputs {inputs}, turns {turns}, ")?;
    match (summary.from, summary.clock) {
        (Some(from), Some(clock)) => write!(out, "clock {from} to {clock}, "),
        (None, Some(clock)) => write!(out, "clock {clock}, "),
        (_, None) => Ok(()),
    }
}

/// Appends how many timers were late, and by how many ticks at most.
fn push_late(out: &mut String, tally: &Tally) -> Result<(), AllocError> {
    let Tally { late, latest, .. } = *tally;
    write!(out, ", timers late {late}")?;
    if late == 0 {
        Ok(())
    } else {
        write!(out, " by up to {latest}")
    }
}

/// Appends the numbers of a run in words: of a quiet transcript only those that it has.
pub(crate) fn push_tally(
    text: &mut String,
    tally: &Tally,
    summary: &Summary<'_>,
) -> Result<(), AllocError> {
    let Tally {
        printed,
        sent,
        lost,
        refused,
        ..
    } = *tally;
    if !summary.is_quiet {
        push_whole(text, tally, summary)?;
    }
    write!(text, "bytes printed {printed}, frames sent {sent}")?;
    if !summary.is_quiet {
        write!(text, ", lost {lost}, calls refused {refused}")?;
        push_late(text, tally)?;
    }
    match summary.end {
        Some(end) => {
            text.push_str(", ends: ")?;
            text.push_str(end)
        }
        None => Ok(()),
    }
}

/// Whether a name is wider than a lane.
fn has_wide_name(page: &Page, names: &[&str]) -> bool {
    let mut is_wide = false;
    for name in names {
        is_wide |= name.len().saturating_mul(CHARACTER) > page.lane;
    }
    is_wide
}

/// The name of each process over its lane, and a line of dots down to the end. Where a name is wider than its lane, those of each second
/// lane are higher.
pub(crate) fn draw_lanes(pen: &mut Pen, page: &Page, names: &[&str]) -> Result<(), AllocError> {
    let is_wide = has_wide_name(page, names);
    for lane in 0..page.lanes {
        let pid = lane.saturating_add(4);
        let left = page.lane_of(pid);
        let top = page.top.saturating_sub(12);
        let mut digits = Buffer::new();
        pen.text("b c", Point { left, top }, digits.format(pid))?;
        if let Some(name) = names.get(lane) {
            let top = page
                .top
                .saturating_sub(if is_wide && lane % 2 == 1 { 36 } else { 24 });
            pen.text("b c", Point { left, top }, name)?;
        }
        let commands = format!(in pen.alloc; "M{left},{}V{}", page.top, page.bottom())?;
        pen.line("d", commands.as_str(), "")?;
    }
    Ok(())
}

/// A text with line ends after some of its separators: before the last one a line has at most `most` bytes, or one part alone.
fn broken(alloc: Global, text: &str, separator: &str, most: usize) -> Result<String, AllocError> {
    let mut lines = String::new(alloc);
    let mut used: usize = 0;
    for part in text.split(separator) {
        let end = used
            .saturating_add(separator.len())
            .saturating_add(part.len());
        if used == 0 {
            used = part.len();
        } else if end <= most {
            lines.push_str(separator)?;
            used = end;
        } else {
            lines.push_str(separator)?;
            lines.push_str("\n")?;
            used = part.len();
        }
        lines.push_str(part)?;
    }
    Ok(lines)
}

/// Draws lines, the first one at a position, and returns where the next one would be.
fn draw_lines(
    pen: &mut Pen,
    class: &str,
    lines: &str,
    first: usize,
    height: usize,
) -> Result<usize, AllocError> {
    let mut top = first;
    for line in lines.split('\n') {
        pen.text(class, Point { left: LEFT, top }, line)?;
        top = top.saturating_add(height);
    }
    Ok(top)
}

/// Draws what was run, and the numbers of the run, and returns where the next line may be.
pub(crate) fn draw_head(pen: &mut Pen, title: &str, tally: &str) -> Result<usize, AllocError> {
    let title = broken(pen.alloc, title, " ", TITLE_BYTES)?;
    let tally = broken(pen.alloc, tally, ", ", TALLY_BYTES)?;
    let top = draw_lines(pen, "h", title.as_str(), FIRST, TITLE)?;
    draw_lines(pen, "g", tally.as_str(), top, TALLY)
}

/// Says from which line on the transcript can't be a run with memory of that size, if there is such a line, whose number is from 0 on,
/// and returns where the next line may be.
pub(crate) fn draw_difference(
    pen: &mut Pen,
    memory: &str,
    line: Option<usize>,
    top: usize,
) -> Result<usize, AllocError> {
    let Some(number) = line else {
        return Ok(top);
    };
    let line = number.saturating_add(1);
    let words = format!(in pen.alloc; "not the run's {memory} from line {line} on: other sizes?")?;
    pen.text("r", Point { left: LEFT, top }, words.as_str())?;
    Ok(top.saturating_add(TALLY))
}

/// Where the overview may begin, where the head's next line would be there.
pub(crate) fn below(top: usize) -> usize {
    top.saturating_add(BELOW)
}

/// The words right above the rows: a quiet transcript has neither clocks nor replies.
pub(crate) fn draw_legend(pen: &mut Pen, page: &Page, is_quiet: bool) -> Result<(), AllocError> {
    let top = page.top.saturating_sub(12);
    let left = page.words();
    if is_quiet {
        return pen.text("g", Point { left, top }, "event → call");
    }
    pen.text("g e", Point { left: CLOCK, top }, "clock")?;
    pen.text("g", Point { left, top }, "event → call = reply")
}

/// The ground of the whole picture.
pub(crate) fn draw_ground(pen: &mut Pen, page: &Page) -> Result<(), AllocError> {
    let area = Area {
        corner: Point { left: 0, top: 0 },
        width: page.width(),
        height: page.height().max(ROW),
    };
    pen.area("w", area, "")
}
