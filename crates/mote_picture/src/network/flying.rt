//! The frames of a chart on their way.

use crate::network::frames::Frames;
use crate::network::layout::{Layout, ROW};
use crate::network::rows::Rows;
use pictures::network::{Fate, Flight, NetworkLine};
use pictures::svg::page::pen::Pen;
use std::alloc::AllocError;

/// What a flight is called.
fn fate_words(fate: Fate) -> &'static str {
    match fate {
        Fate::Heard => "heard",
        Fate::Missed => "missed: the mote was halted",
        Fate::Lost => "lost by the link's rule",
        Fate::Full => "no room in flight",
        Fate::UnderWay => "under way at the end",
    }
}

/// How the line of a flight looks.
fn fate_class(fate: Fate) -> &'static str {
    match fate {
        Fate::Heard => "a",
        Fate::Missed | Fate::Lost | Fate::Full => "x",
        Fate::UnderWay => "q",
    }
}

/// A point beside a lane, on the side of another one.
fn beside(lane: usize, other: usize, distance: usize) -> usize {
    if other < lane {
        lane.saturating_sub(distance)
    } else {
        lane.saturating_add(distance)
    }
}

/// The commands of an arrow from one lane to another.
fn arrow(
    pen: &Pen,
    from: usize,
    top: usize,
    to: usize,
    bottom: usize,
) -> Result<String, AllocError> {
    if from == to {
        let bow = from.saturating_add(30);
        return format!(in pen.alloc;
            "M{from},{top}C{bow},{top} {bow},{bottom} {},{bottom}m6,-4l-6,4l6,4",
            to.saturating_add(3)
        );
    }
    let near = beside(to, from, 12);
    let end = beside(to, from, 3);
    if from < to {
        format!(in pen.alloc; "M{from},{top}L{near},{bottom}H{end}m-6,-4l6,4l-6,4")
    } else {
        format!(in pen.alloc; "M{from},{top}L{near},{bottom}H{end}m6,-4l-6,4l6,4")
    }
}

/// The commands of a frame that isn't carried: a short line with a cross.
fn cross(pen: &Pen, from: usize, top: usize, to: usize) -> Result<String, AllocError> {
    if to < from {
        format!(in pen.alloc; "M{from},{top}h-10m-4,-4l8,8m0,-8l-8,8")
    } else {
        format!(in pen.alloc; "M{from},{top}h10m-4,-4l8,8m0,-8l-8,8")
    }
}

/// The commands of a frame that is under way at the end: the beginning of its line.
fn stub(pen: &Pen, from: usize, top: usize, to: usize) -> Result<String, AllocError> {
    let end = beside(from, to, 28);
    format!(in pen.alloc; "M{from},{top}L{end},{}", top.saturating_add(ROW - 2))
}

/// The commands of a flight's line between two rows.
fn commands_of(
    pen: &Pen,
    layout: &Layout,
    flight: &Flight,
    first: usize,
    last: usize,
) -> Result<String, AllocError> {
    let from = layout.left_of(flight.from);
    let to = layout.left_of(flight.to);
    let (top, bottom) = (layout.foot_of(first), layout.middle_of(last));
    match flight.fate {
        Fate::Lost | Fate::Full => cross(pen, from, bottom, to),
        Fate::Heard | Fate::Missed => arrow(pen, from, top, to, bottom),
        Fate::UnderWay => stub(pen, from, top, to),
    }
}

/// The words for a flight, with the frame's name where it has one.
fn title_of(pen: &Pen, flight: &Flight, name: &str) -> Result<String, AllocError> {
    let between = if name.is_empty() { "" } else { " " };
    format!(in pen.alloc;
        "{name}{between}from mote {} to mote {}: {}",
        flight.from,
        flight.to,
        fate_words(flight.fate)
    )
}

/// Draws a flight, where one of its ends is shown and both motes have lanes.
fn draw_flight(
    pen: &mut Pen,
    layout: &Layout,
    rows: &Rows,
    flight: &Flight,
    lines: &[NetworkLine<'_>],
    frames: &Frames,
) -> Result<(), AllocError> {
    let ((first, is_first), (last, is_last)) = (
        rows.row_of(flight.sent),
        rows.row_of(flight.ended),
    );
    let has_lanes = layout.has_lane(flight.from) && layout.has_lane(flight.to);
    let is_shown = match flight.fate {
        Fate::Lost | Fate::Full => is_last,
        Fate::Heard | Fate::Missed | Fate::UnderWay => is_first || is_last,
    };
    if !has_lanes || !is_shown {
        return Ok(());
    }
    let commands = commands_of(pen, layout, flight, first, last)?;
    let name = frames.name_sent(pen.alloc, lines, flight.sent)?;
    let title = title_of(pen, flight, name.as_str())?;
    pen.line(fate_class(flight.fate), commands.as_str(), title.as_str())
}

/// Draws all flights.
pub(crate) fn draw_flights(
    pen: &mut Pen,
    layout: &Layout,
    rows: &Rows,
    flights: &[Flight],
    lines: &[NetworkLine<'_>],
    frames: &Frames,
) -> Result<(), AllocError> {
    for flight in flights {
        draw_flight(pen, layout, rows, flight, lines, frames)?;
    }
    Ok(())
}

/// The mote at which a frame arrives in a line.
fn mote_at(lines: &[NetworkLine<'_>], line: usize) -> Option<u64> {
    match lines.get(line) {
        Some(NetworkLine::Mote(mote, _)) => Some(*mote),
        Some(NetworkLine::Missed(_, to)) => Some(*to),
        _ => None,
    }
}

/// Draws a short arrow at each arrival that belongs to no send.
pub(crate) fn draw_outside(
    pen: &mut Pen,
    layout: &Layout,
    rows: &Rows,
    lines: &[NetworkLine<'_>],
    outside: &[usize],
    title: &str,
) -> Result<(), AllocError> {
    for line in outside {
        let (row, is_row) = rows.row_of(*line);
        match mote_at(lines, *line) {
            Some(mote) if is_row && layout.has_lane(mote) => {
                let from = layout.left_of(mote).saturating_sub(20);
                let top = layout.middle_of(row);
                let commands = format!(in pen.alloc; "M{from},{top}h17m-6,-4l6,4l-6,4")?;
                pen.line("o", commands.as_str(), title)?;
            }
            _ => {}
        }
    }
    Ok(())
}
