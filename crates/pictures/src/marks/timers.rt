//! Event timers and callback timers, each from the row where it is armed to the row where its event is received.

ghost use Rattle.std.specs.Prelude.{◌≡◌, ◌%◌, nat_le, All};
ghost use Rattle.pictures.specs.Spans.{ArmingEndsLater};

use crate::numbers::{Asked, number_of};
use crate::spans::{Span, Spans, ends_later};
use crate::transcript::{Origin, Turn};
use std::alloc::Global;

/// The number of event timers of a process.
const EVENT_TIMERS: usize = 8;

/// The number of timers of a process: the callback timers are after the event timers.
const TIMERS: usize = 12;

/// The number of timers of all processes, those of the kernel included.
const CELLS: usize = 240;

/// A timer after the lines so far: the row where it was armed last, and whether it still is.
#[derive(Clone, Copy)]
struct Cell {
    row: usize,
    start: u64,
    interval: u64,
    is_armed: bool,
}

const UNUSED: Cell = Cell {
    row: 0,
    start: 0,
    interval: 0,
    is_armed: false,
};

impl Cell {
    /// The clock at which the timer is due.
    fn due(&self) -> u64 {
        self.start.saturating_add(self.interval)
    }
}

/// An arming of a timer, from a row to the row where it ended, if it did.
#[derive(Clone, Copy)]
pub struct Arming {
    pub pid: usize,
    /// The timer's number; those of the callback timers begin after those of the event timers.
    pub timer: usize,
    pub first: usize,
    pub last: Option<usize>,
    /// The clock at which it was due.
    pub due: u64,
    /// The clock at which its event was received, if it was: it wasn't stopped or set anew before, and its process did not end.
    pub received: Option<u64>,
}

impl Span for Arming {
    ghost use Rattle.pictures.specs.Spans.{ArmingEndsLater};

    ghost leads_on = { ArmingEndsLater };

    fn ends_later(&self) -> bool {
        ends_later(self.first, self.last)
    }
}

/// When something happens: in which row, and at which clock.
#[derive(Clone, Copy)]
pub(crate) struct Moment {
    pub(crate) row: usize,
    pub(crate) clock: u64,
}

/// The timers of all processes.
#[derive(Drop)]
pub(crate) struct Timers {
    cells: [Cell; CELLS],
    armings: Spans<Arming>,
}

impl Timers {
    pub(crate) fn new(alloc: Global) -> Self {
        Timers {
            cells: [UNUSED; CELLS],
            armings: Spans::new(alloc),
        }
    }

    fn cell(&mut self, pid: usize, timer: usize) -> Option<&mut Cell> {
        let index = pid.saturating_mul(TIMERS).saturating_add(timer);
        self.cells.get_mut(index)
    }

    /// A timer's arming ends, if it is armed.
    fn end(&mut self, pid: usize, timer: usize, row: usize, received: Option<u64>) {
        let Some(cell) = self.cell(pid, timer) else {
            return;
        };
        let armed = *cell;
        cell.is_armed = false;
        if armed.is_armed {
            self.armings.end(Arming {
                pid,
                timer,
                first: armed.row,
                last: Some(row),
                due: armed.due(),
                received,
            });
        }
    }

    /// A timer is stopped, or is armed from a start on.
    fn set(&mut self, pid: usize, timer: usize, row: usize, start: Option<u64>, interval: u64) {
        self.end(pid, timer, row, None);
        let Some(start) = start else {
            return;
        };
        if let Some(cell) = self.cell(pid, timer) {
            *cell = Cell {
                row,
                start,
                interval,
                is_armed: true,
            };
        }
    }

    /// What an accepted call does to the caller's timers.
    pub(crate) fn carry_out(&mut self, pid: usize, asked: &Asked<'_>, moment: Moment) {
        let (part, verb) = asked.name.split_once('-').unwrap_or(("", ""));
        let timer = match part {
            "timer" => asked.first as usize,
            "callback" => (asked.first as usize).saturating_add(EVENT_TIMERS),
            _ => return,
        };
        self.change(pid, timer, verb, asked.second, moment);
    }

    /// Sets a timer, starts it again or stops it. Other verbs change nothing.
    fn change(&mut self, pid: usize, timer: usize, verb: &str, interval: u64, moment: Moment) {
        let before = match self.cell(pid, timer) {
            Some(cell) => *cell,
            None => UNUSED,
        };
        let (start, interval) = match verb {
            "set" => (Some(moment.clock), interval),
            "restart" => (Some(moment.clock), before.interval),
            "reset" => (Some(before.due()), before.interval),
            "stop" => (None, interval),
            _ => return,
        };
        self.set(pid, timer, moment.row, start, interval);
    }

    /// A process receives a stimulus, perhaps that its timer ran out. Returns the number of ticks since that was due.
    pub(crate) fn receive(&mut self, turn: &Turn<'_>, moment: Moment) -> u64 {
        let Moment { row, clock } = moment;
        let Some(timer) = expired_timer(turn) else {
            return 0;
        };
        let cell = match self.cell(turn.pid, timer) {
            Some(cell) => *cell,
            None => UNUSED,
        };
        if !cell.is_armed || cell.due() > clock {
            return 0;
        }
        self.end(turn.pid, timer, row, Some(clock));
        clock.saturating_sub(cell.due())
    }

    /// A process ends in a row: none of its timers is armed any more.
    pub(crate) fn end_all(&mut self, pid: usize, row: usize) {
        for timer in 0..TIMERS {
            self.end(pid, timer, row, None);
        }
    }

    /// What has ended so far is forgotten.
    pub(crate) fn forget_rows(&mut self) {
        self.armings.forget();
    }

    /// What is still armed stays so to the end. Returns whether there was memory for all armings.
    pub(crate) fn close(&mut self) -> bool {
        for index in 0..CELLS {
            self.close_cell(index, self.cells[index]);
        }
        self.armings.is_whole()
    }

    /// The same for the timer of that number among those of all processes.
    fn close_cell(&mut self, index: usize, cell: Cell) {
        if cell.is_armed {
            self.armings.end(Arming {
                pid: index / TIMERS,
                timer: index % TIMERS,
                first: cell.row,
                last: None,
                due: cell.due(),
                received: None,
            });
        }
    }

    /// The armings that ended, and those that `close` found.
    pub(crate) fn finish(self) -> Vec<Arming>
        ensures { All ArmingEndsLater result.items }
    {
        self.armings.finish()
    }
}

/// The timer that ran out by a turn, if one did.
fn expired_timer(turn: &Turn<'_>) -> Option<usize> {
    match turn.origin {
        Origin::Event => {
            let number = turn.stimulus.strip_prefix("136 ")?;
            Some(number_of(Some(number)) as usize)
        }
        Origin::Callback => {
            let number = number_of(Some(turn.stimulus)) as usize;
            Some(number.saturating_add(EVENT_TIMERS))
        }
        _ => None,
    }
}

/// Whether an arming's timer is a callback timer.
pub fn is_callback(timer: usize) -> bool
    ensures { result ≡ nat_le 8 timer }
{
    timer >= EVENT_TIMERS
}

/// The number of a callback timer among its kind, or of an event timer.
pub fn number_in_kind(timer: usize) -> usize
    ensures { result ≡ timer % 8 }
{
    timer % EVENT_TIMERS
}
