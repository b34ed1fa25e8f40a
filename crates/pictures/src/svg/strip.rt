//! The overview: the whole run on one narrow band, from left to right.

use crate::marks::{Activation, Marks};
use crate::svg::page::pen::{Area, Pen, Point};
use crate::svg::page::{CLOCK, Page};
use itoa::Buffer;
use std::alloc::{AllocError, Global};

/// The height of a process's lane, with the room below it.
const LANE: usize = 6;

/// The width of the overview; each unit of it shows as many rows.
const WIDTH: usize = 600;

/// How far a clock's label is from the next one.
const LABEL: usize = 75;

/// The height of the overview of a number of lanes, with room for the names of the columns below it.
pub(crate) fn height_of(lanes: usize) -> usize {
    lanes.saturating_mul(LANE).saturating_add(54)
}

/// Which units of the overview a process is active in, for each lane.
#[derive(Drop)]
struct Band {
    rows: usize,
    is_active: Vec<bool>,
}

impl Band {
    fn new(alloc: Global, page: &Page) -> Result<Self, AllocError> {
        let units = page.lanes.min(16).saturating_mul(WIDTH);
        Ok(Band {
            rows: page.rows,
            is_active: vec![in alloc; false; units]?,
        })
    }

    /// The unit that a row is in.
    fn unit_of(&self, row: usize) -> usize {
        (row.saturating_mul(WIDTH) / self.rows.max(1)).min(WIDTH - 1)
    }

    /// Puts an activation into the band.
    fn mark(&mut self, activation: &Activation) {
        let lane = activation.pid.saturating_sub(4);
        let first = self.unit_of(activation.first);
        let end = self
            .unit_of(activation.last.saturating_add(1))
            .max(first.saturating_add(1));
        for unit in first..end {
            let index = lane.saturating_mul(WIDTH).saturating_add(unit);
            if let Some(is_active) = self.is_active.as_mut_slice().get_mut(index) {
                *is_active = true;
            }
        }
    }

    /// The units of a lane.
    fn lane(&self, lane: usize) -> &[bool] {
        let units = self.is_active.as_slice();
        let first = lane.saturating_mul(WIDTH).min(units.len());
        let end = first.saturating_add(WIDTH).min(units.len());
        &units[first..end]
    }
}

/// Draws some units of a lane, from one to another.
fn draw_units(
    pen: &mut Pen,
    page: &Page,
    pid: usize,
    first: usize,
    end: usize,
) -> Result<(), AllocError> {
    let lane = pid.saturating_sub(4);
    let area = Area {
        corner: Point {
            left: first.saturating_add(CLOCK + 10),
            top: lane.saturating_mul(LANE).saturating_add(page.strip),
        },
        width: end.saturating_sub(first).max(1),
        height: LANE - 1,
    };
    let class = format!(in pen.alloc; "f{pid}")?;
    let title = format!(in pen.alloc; "process {pid} is active")?;
    pen.area(class.as_str(), area, title.as_str())
}

/// Draws a lane of the overview.
fn draw_lane(pen: &mut Pen, page: &Page, pid: usize, units: &[bool]) -> Result<(), AllocError> {
    let mut begun = None;
    for (unit, is_active) in units.iter().enumerate() {
        match begun {
            None if *is_active => begun = Some(unit),
            Some(first) if !*is_active => {
                draw_units(pen, page, pid, first, unit)?;
                begun = None;
            }
            _ => {}
        }
    }
    match begun {
        Some(first) => draw_units(pen, page, pid, first, units.len()),
        None => Ok(()),
    }
}

/// Draws the clock over the overview, at equal distances, where it has changed.
fn draw_clocks(pen: &mut Pen, page: &Page, marks: &Marks) -> Result<(), AllocError> {
    let mut written = None;
    for label in 0..WIDTH / LABEL {
        let along = label.saturating_mul(LABEL);
        let row = along.saturating_mul(page.rows) / WIDTH;
        let clock = marks.clocks.get(row).copied().unwrap_or(marks.start);
        if written != Some(clock) {
            let mut digits = Buffer::new();
            let point = Point {
                left: along.saturating_add(CLOCK + 10),
                top: page.strip.saturating_sub(4),
            };
            pen.text("g", point, digits.format(clock))?;
        }
        written = Some(clock);
    }
    Ok(())
}

/// Draws the overview.
pub(crate) fn draw_strip(pen: &mut Pen, page: &Page, marks: &Marks) -> Result<(), AllocError> {
    let mut band = Band::new(pen.alloc, page)?;
    for activation in marks.activations.as_slice() {
        band.mark(activation);
    }
    let area = Area {
        corner: Point {
            left: CLOCK + 10,
            top: page.strip,
        },
        width: WIDTH,
        height: page.lanes.saturating_mul(LANE),
    };
    pen.area("j", area, "")?;
    if !marks.is_quiet {
        draw_clocks(pen, page, marks)?;
    }
    for lane in 0..page.lanes {
        draw_lane(pen, page, lane.saturating_add(4), band.lane(lane))?;
    }
    Ok(())
}
